//! Commits of an attempt that wrote 20 to cell 2 and read cell 3 at version 1. The clock may come to 9.
ghost use Rattle.std.specs.Prelude.{◌≡◌, length};
ghost use Rattle.op_commit.specs.Commit.{IsAlong};

use super::{CHANGING, OWNER, PENDING, free, load, two_notes};
use meta_word::Phase;
use op_commit::{CommitEnd, CommitOp, CommitPlace};
use read_set::ReadSet;
use std::process::Abort;
use std::test::Fail;
use stm_model::{Access, Addr, Cause, TxnStatus, Word};

const CLOCK: Access = Access::Load(Word::Clock);

// The commit makes these accesses, and is given these answers. It goes on at each stop.
fn commit(rt: &impl Abort, op: &mut CommitOp, reads: &ReadSet, steps: &[(Access, u64)])
    requires { IsAlong op.old reads.now.notes }
    ensures { IsAlong op.new reads.now.notes }
{
    for (access, answer) in steps {
        assert_eq!(rt; op.next(reads), Some(*access));
        assert!(rt; op.end().is_none());
        if let CommitPlace::CommitClock { .. } = op.place {
            assert!(rt; *answer <= op.limit);
        }
        op.take(reads, *answer);
        if let CommitPlace::Ended(CommitEnd::Prepared | CommitEnd::Decided { .. }) = op.place {
            op.resume();
        }
    }
}

// A commit that may lose the clock once, and has marked its cell.
fn marked(rt: &impl Abort, reads: &ReadSet) -> CommitOp
    requires { length reads.now.notes ≡ 2 }
    ensures { IsAlong result reads.now.notes }
{
    let mut op = CommitOp::new(7, 3, 1, 9, 1);
    let mark = Access::SetBits(Word::Meta(Addr(2)), CHANGING);
    commit(rt, &mut op, reads, &[(prepare(), 13), (mark, 7 * OWNER)]);
    op
}

// From active to preparing.
fn prepare() -> Access {
    Access::Exchange {
        word: Word::Status(7),
        old: 13,
        new: 14,
    }
}

fn decide(old: u64) -> Access {
    Access::Exchange {
        word: Word::Clock,
        old,
        new: old.wrapping_add(1),
    }
}

fn refused(cause: Cause) -> Option<CommitEnd> {
    Some(CommitEnd::Bad {
        cause,
        prefix: None,
    })
}

#[test]
fn a_commit_goes_along_a_read_set(rt: HostRuntime) -> Result<(), Fail> {
    let reads = two_notes(&rt)?;
    let mut op = marked(&rt, &reads);
    let steps = [
        (CLOCK, 4),
        (load(3), 1),
        (decide(4), 4),
        (Access::Store(Word::Value(Addr(2)), 20), 0),
        (
            Access::Swap(Word::Meta(Addr(2)), 5),
            CHANGING + PENDING + 7 * OWNER,
        ),
    ];
    commit(&rt, &mut op, &reads, &steps);
    assert_eq!(rt; op.rings(), Some(Addr(2)));
    commit(
        &rt,
        &mut op,
        &reads,
        &[(Access::Store(Word::Status(7), 12), 14)],
    );
    assert_eq!(rt; op.end(), Some(CommitEnd::Stamp(5)));
    assert_eq!(rt; op.next(&reads), None);
    Ok(())
}

#[test]
fn a_commit_finds_a_stale_note_of_a_read_set(rt: HostRuntime) -> Result<(), Fail> {
    let reads = two_notes(&rt)?;
    let mut op = marked(&rt, &reads);
    commit(&rt, &mut op, &reads, &[(CLOCK, 9), (load(3), 2)]);
    let cause = Cause::Stale {
        addr: Addr(3),
        version: 1,
        meta: free(2),
    };
    assert_eq!(rt; op.end(), refused(cause));
    Ok(())
}

#[test]
fn who_was_doomed_does_not_commit(rt: HostRuntime) -> Result<(), Fail> {
    let reads = two_notes(&rt)?;
    let mut op = CommitOp::new(7, 3, 1, 9, 1);
    commit(&rt, &mut op, &reads, &[(prepare(), 15)]);
    let status = TxnStatus {
        serial: 3,
        phase: Phase::Doomed,
    };
    assert_eq!(rt; op.end(), refused(Cause::Doomed { status }));
    assert_eq!(rt; op.next(&reads), None);
    Ok(())
}

#[test]
fn a_clock_at_its_limit_ends_a_commit_and_is_the_prefix(rt: HostRuntime) -> Result<(), Fail> {
    let reads = two_notes(&rt)?;
    let mut op = marked(&rt, &reads);
    commit(&rt, &mut op, &reads, &[(CLOCK, 9), (load(3), 1)]);
    let end = CommitEnd::Bad {
        cause: Cause::ClockEnd { clock: 9 },
        prefix: Some(9),
    };
    assert_eq!(rt; op.end(), Some(end));
    assert_eq!(rt; op.next(&reads), None);
    Ok(())
}

#[test]
fn a_clock_that_is_lost_twice_ends_a_commit(rt: HostRuntime) -> Result<(), Fail> {
    let reads = two_notes(&rt)?;
    let mut op = marked(&rt, &reads);
    commit(
        &rt,
        &mut op,
        &reads,
        &[(CLOCK, 4), (load(3), 1), (decide(4), 5)],
    );
    commit(
        &rt,
        &mut op,
        &reads,
        &[(CLOCK, 6), (load(3), 1), (decide(6), 8)],
    );
    let cause = Cause::ClockMoved {
        first: 6,
        second: 8,
    };
    assert_eq!(rt; op.end(), refused(cause));
    assert_eq!(rt; op.next(&reads), None);
    Ok(())
}
