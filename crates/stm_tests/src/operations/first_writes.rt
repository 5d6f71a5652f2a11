//! First writes of cell 3, which was noted at version 1.
ghost use Rattle.op_commit.specs.Acquire.{IsWithin};

use super::{OWNER, PENDING, free, load, owned, two_notes};
use meta_word::Policy;
use op_commit::{AcquireEnd, AcquireOp};
use read_set::ReadSet;
use std::process::Abort;
use std::test::Fail;
use stm_model::{Access, Addr, Cause, Meta, Word};

const CELL: Addr = Addr(3);

// The first write makes these accesses, and is given these answers.
fn acquire(rt: &impl Abort, op: &mut AcquireOp, reads: &ReadSet, steps: &[(Access, u64)])
    requires { IsWithin op.old }
    ensures { IsWithin op.new }
{
    for (access, answer) in steps {
        assert_eq!(rt; op.next(reads), Some(*access));
        assert!(rt; op.end().is_none());
        op.take(reads, *answer);
    }
}

// The version at which the cell was noted.
fn noted(reads: &ReadSet) -> Option<u64> {
    reads.find(CELL).map(|note| note.version)
}

// The exchange that makes caller 7 the owner.
fn exchange(old: u64) -> Access {
    Access::Exchange {
        word: Word::Meta(CELL),
        old,
        new: old.wrapping_add(7 * OWNER),
    }
}

// The exchange that dooms caller 8 in its fifth attempt.
fn doom() -> Access {
    Access::Exchange {
        word: Word::Status(8),
        old: 21,
        new: 23,
    }
}

#[test]
fn a_noted_cell_is_owned(rt: HostRuntime) -> Result<(), Fail> {
    let reads = two_notes(&rt)?;
    let mut op = AcquireOp::new(CELL, 7, Policy::GiveWay, noted(&reads));
    acquire(&rt, &mut op, &reads, &[(load(3), 1), (exchange(1), 1)]);
    assert_eq!(rt; op.end(), Some(AcquireEnd::Owned { meta: free(1) }));
    assert_eq!(rt; op.next(&reads), None);
    Ok(())
}

#[test]
fn a_noted_cell_is_owned_though_somebody_comes_to_wait(rt: HostRuntime) -> Result<(), Fail> {
    let reads = two_notes(&rt)?;
    let mut op = AcquireOp::new(CELL, 7, Policy::GiveWay, noted(&reads));
    let waited_for = PENDING + 1;
    let steps = [
        (load(3), 1),
        (exchange(1), waited_for),
        (exchange(waited_for), waited_for),
    ];
    acquire(&rt, &mut op, &reads, &steps);
    let meta = Meta {
        pending: true,
        ..free(1)
    };
    assert_eq!(rt; op.end(), Some(AcquireEnd::Owned { meta }));
    Ok(())
}

#[test]
fn a_first_write_finds_its_note_stale(rt: HostRuntime) -> Result<(), Fail> {
    let reads = two_notes(&rt)?;
    let mut op = AcquireOp::new(CELL, 7, Policy::Doom(1), noted(&reads));
    acquire(&rt, &mut op, &reads, &[(load(3), 8 * OWNER + 2)]);
    let cause = Cause::Stale {
        addr: CELL,
        version: 1,
        meta: owned(8, 2),
    };
    assert_eq!(rt; op.end(), Some(AcquireEnd::Bad(cause)));
    assert_eq!(rt; op.next(&reads), None);
    Ok(())
}

#[test]
fn a_cell_that_others_own_is_refused_after_the_last_look(rt: HostRuntime) -> Result<(), Fail> {
    let reads = two_notes(&rt)?;
    let mut op = AcquireOp::new(CELL, 7, Policy::Look(1), noted(&reads));
    let steps = [(load(3), 8 * OWNER + 1), (load(3), 9 * OWNER + 1)];
    acquire(&rt, &mut op, &reads, &steps);
    let cause = Cause::WriteConflict {
        addr: CELL,
        meta: owned(9, 1),
    };
    assert_eq!(rt; op.end(), Some(AcquireEnd::Bad(cause)));
    Ok(())
}

#[test]
fn a_cell_that_moves_at_both_exchanges_is_refused(rt: HostRuntime) -> Result<(), Fail> {
    let reads = two_notes(&rt)?;
    let mut op = AcquireOp::new(CELL, 7, Policy::GiveWay, noted(&reads));
    let waited_for = PENDING + 1;
    let steps = [
        (load(3), 1),
        (exchange(1), waited_for),
        (exchange(waited_for), 2),
    ];
    acquire(&rt, &mut op, &reads, &steps);
    let cause = Cause::Moved {
        addr: CELL,
        first: free(1),
        second: free(2),
    };
    assert_eq!(rt; op.end(), Some(AcquireEnd::Bad(cause)));
    Ok(())
}

#[test]
fn a_round_with_a_doom_is_over_with_what_was_seen_again(rt: HostRuntime) -> Result<(), Fail> {
    let reads = two_notes(&rt)?;
    let mut op = AcquireOp::new(CELL, 7, Policy::Doom(0), noted(&reads));
    let steps = [
        (load(3), 8 * OWNER + 1),
        (Access::Load(Word::Status(8)), 21),
        (load(3), PENDING + 8 * OWNER + 1),
        (doom(), 21),
    ];
    acquire(&rt, &mut op, &reads, &steps);
    let cause = Cause::WriteConflict {
        addr: CELL,
        meta: Meta {
            pending: true,
            ..owned(8, 1)
        },
    };
    assert_eq!(rt; op.end(), Some(AcquireEnd::Bad(cause)));
    Ok(())
}

#[test]
fn a_cell_is_owned_in_the_round_after_a_doom(rt: HostRuntime) -> Result<(), Fail> {
    let reads = two_notes(&rt)?;
    let mut op = AcquireOp::new(CELL, 7, Policy::Doom(1), noted(&reads));
    let steps = [
        (load(3), 8 * OWNER + 1),
        (Access::Load(Word::Status(8)), 21),
        (load(3), 8 * OWNER + 1),
        (doom(), 21),
        (load(3), 1),
        (exchange(1), 1),
    ];
    acquire(&rt, &mut op, &reads, &steps);
    assert_eq!(rt; op.end(), Some(AcquireEnd::Owned { meta: free(1) }));
    Ok(())
}

#[test]
fn an_owner_that_prepares_is_left_alone(rt: HostRuntime) -> Result<(), Fail> {
    let reads = two_notes(&rt)?;
    let mut op = AcquireOp::new(CELL, 7, Policy::Doom(0), noted(&reads));
    let steps = [
        (load(3), 8 * OWNER + 1),
        (Access::Load(Word::Status(8)), 14),
    ];
    acquire(&rt, &mut op, &reads, &steps);
    let cause = Cause::WriteConflict {
        addr: CELL,
        meta: owned(8, 1),
    };
    assert_eq!(rt; op.end(), Some(AcquireEnd::Bad(cause)));
    Ok(())
}
