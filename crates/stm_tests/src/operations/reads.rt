//! Reads of cell 4, which has no note, and extensions over the notes. The prefix is 1.
ghost use Rattle.op_read.specs.Extend.{IsAlong};

use super::{CHANGING, OWNER, free, load, owned, two_notes};
use op_read::{ExtendEnd, ExtendOp, ReadEnd, ReadOp};
use read_set::ReadSet;
use std::process::Abort;
use std::test::Fail;
use stm_model::{Access, Addr, Cause, Meta, Word};

const FETCH: Access = Access::Load(Word::Value(Addr(4)));

// The read makes these accesses, and is given these answers.
fn read(rt: &impl Abort, op: &mut ReadOp, reads: &ReadSet, steps: &[(Access, u64)]) {
    for (access, answer) in steps {
        assert_eq!(rt; op.next(reads), Some(*access));
        assert_eq!(rt; op.end(), None);
        op.take(reads, *answer);
    }
}

// The extension makes these accesses, and is given these answers.
fn extend(rt: &impl Abort, op: &mut ExtendOp, reads: &ReadSet, steps: &[(Access, u64)])
    requires { IsAlong op.old reads.now.notes }
    ensures { IsAlong op.new reads.now.notes }
{
    for (access, answer) in steps {
        assert_eq!(rt; op.next(reads), Some(*access));
        assert_eq!(rt; op.end(), None);
        op.take(reads, *answer);
    }
}

#[test]
fn a_read_is_made_beside_a_read_set(rt: HostRuntime) -> Result<(), Fail> {
    let reads = two_notes(&rt)?;
    let mut op = ReadOp::new(Addr(4), 7, 1, 0);
    read(
        &rt,
        &mut op,
        &reads,
        &[(load(4), 1), (FETCH, 40), (load(4), 1)],
    );
    let got = ReadEnd::Got {
        value: 40,
        version: 1,
    };
    assert_eq!(rt; op.end(), Some(got));
    Ok(())
}

#[test]
fn a_changing_cell_refuses_a_read_after_its_last_look(rt: HostRuntime) -> Result<(), Fail> {
    let reads = two_notes(&rt)?;
    let mut op = ReadOp::new(Addr(4), 7, 1, 1);
    let changing = CHANGING + 8 * OWNER;
    read(
        &rt,
        &mut op,
        &reads,
        &[(load(4), changing), (load(4), changing + 1)],
    );
    let meta = Meta {
        changing: true,
        ..owned(8, 1)
    };
    let cause = Cause::ReadConflict {
        addr: Addr(4),
        meta,
    };
    assert_eq!(rt; op.end(), Some(ReadEnd::Bad(cause)));
    assert_eq!(rt; op.next(&reads), None);
    Ok(())
}

#[test]
fn a_cell_that_moves_between_its_last_looks_refuses_a_read(rt: HostRuntime) -> Result<(), Fail> {
    let reads = two_notes(&rt)?;
    let mut op = ReadOp::new(Addr(4), 7, 1, 1);
    let first_round = [(load(4), 0), (FETCH, 40), (load(4), 1)];
    read(&rt, &mut op, &reads, &first_round);
    let last_round = [(load(4), 1), (FETCH, 41), (load(4), 2)];
    read(&rt, &mut op, &reads, &last_round);
    let cause = Cause::Moved {
        addr: Addr(4),
        first: free(1),
        second: free(2),
    };
    assert_eq!(rt; op.end(), Some(ReadEnd::Bad(cause)));
    assert_eq!(rt; op.next(&reads), None);
    Ok(())
}

#[test]
fn a_read_past_the_prefix_goes_on_after_an_extension(rt: HostRuntime) -> Result<(), Fail> {
    let reads = two_notes(&rt)?;
    let mut op = ReadOp::new(Addr(4), 7, 1, 0);
    read(&rt, &mut op, &reads, &[(load(4), 6)]);
    let meta = free(6);
    assert_eq!(rt; op.end(), Some(ReadEnd::NeedExtension { meta }));
    assert_eq!(rt; op.next(&reads), None);
    let mut extension = ExtendOp::new(7);
    let steps = [(Access::Load(Word::Clock), 8), (load(2), 0), (load(3), 1)];
    extend(&rt, &mut extension, &reads, &steps);
    if let (Some(ReadEnd::NeedExtension { .. }), Some(ExtendEnd::Prefix(prefix))) = (
        op.end(),
        extension.end(),
    ) {
        op.resume(prefix);
    }
    read(&rt, &mut op, &reads, &[(FETCH, 60), (load(4), 6)]);
    let got = ReadEnd::Got {
        value: 60,
        version: 6,
    };
    assert_eq!(rt; op.end(), Some(got));
    Ok(())
}

#[test]
fn an_extension_goes_along_a_read_set(rt: HostRuntime) -> Result<(), Fail> {
    let reads = two_notes(&rt)?;
    let mut op = ExtendOp::new(7);
    let steps = [(Access::Load(Word::Clock), 5), (load(2), 0), (load(3), 1)];
    extend(&rt, &mut op, &reads, &steps);
    assert_eq!(rt; op.end(), Some(ExtendEnd::Prefix(5)));
    Ok(())
}

#[test]
fn an_extension_finds_a_stale_note_of_a_read_set(rt: HostRuntime) -> Result<(), Fail> {
    let reads = two_notes(&rt)?;
    let mut op = ExtendOp::new(7);
    let steps = [(Access::Load(Word::Clock), 5), (load(2), 0), (load(3), 5)];
    extend(&rt, &mut op, &reads, &steps);
    let cause = Cause::Stale {
        addr: Addr(3),
        version: 1,
        meta: free(5),
    };
    assert_eq!(rt; op.end(), Some(ExtendEnd::Bad(cause)));
    Ok(())
}
