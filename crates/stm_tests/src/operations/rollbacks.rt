//! Rollbacks of an attempt that has buffered cells 2 and 3, and of its inner level.
ghost use Rattle.op_commit.specs.Back.{IsAlong};

use super::{OWNER, PENDING, two_notes};
use op_commit::{BackEnd, BackOp};
use read_set::ReadSet;
use std::process::Abort;
use std::test::Fail;
use stm_model::{Access, Addr, Word};

// The rollback makes these accesses, is given these answers, and rings for these cells.
fn roll_back(
    rt: &impl Abort,
    op: &mut BackOp,
    reads: &ReadSet,
    steps: &[(Access, u64, Option<Addr>)],
)
    requires { IsAlong op.old reads.now.notes }
    ensures { IsAlong op.new reads.now.notes }
{
    for (access, answer, rung) in steps {
        assert_eq!(rt; op.next(reads), Some(*access));
        assert_eq!(rt; op.end(), None);
        op.take(reads, *answer);
        assert_eq!(rt; op.rings(), *rung);
    }
}

// The owner's bits and the changing bit of a cell are cleared.
fn clear(cell: u32) -> Access {
    Access::ClearBits(Word::Meta(Addr(cell)), 13_832_806_255_468_478_464)
}

// The own status becomes idle.
const IDLE: Access = Access::Store(Word::Status(7), 12);

#[test]
fn a_rollback_releases_each_cell_and_rings(rt: HostRuntime) -> Result<(), Fail> {
    let reads = two_notes(&rt)?;
    let mut op = BackOp::new(7, 3, 0, true);
    let steps = [
        (clear(2), PENDING + 7 * OWNER, Some(Addr(2))),
        (clear(3), 7 * OWNER + 1, None),
        (IDLE, 15, None),
    ];
    roll_back(&rt, &mut op, &reads, &steps);
    assert_eq!(rt; op.end(), Some(BackEnd::Back));
    assert_eq!(rt; op.next(&reads), None);
    Ok(())
}

#[test]
fn a_level_releases_the_cells_from_its_first_one_on(rt: HostRuntime) -> Result<(), Fail> {
    let reads = two_notes(&rt)?;
    let mut op = BackOp::new(7, 3, 1, false);
    let steps = [(clear(3), PENDING + 7 * OWNER + 1, Some(Addr(3)))];
    roll_back(&rt, &mut op, &reads, &steps);
    assert_eq!(rt; op.end(), Some(BackEnd::Back));
    assert_eq!(rt; op.next(&reads), None);
    Ok(())
}

#[test]
fn a_reader_ends_by_its_status_alone(rt: HostRuntime) -> Result<(), Fail> {
    let nothing = ReadSet::new(rt.alloc());
    let mut op = BackOp::new(7, 3, 0, true);
    roll_back(&rt, &mut op, &nothing, &[(IDLE, 13, None)]);
    assert_eq!(rt; op.end(), Some(BackEnd::Back));
    assert_eq!(rt; op.next(&nothing), None);
    Ok(())
}
