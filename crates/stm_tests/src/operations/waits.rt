//! Waits for a change of what was read, and for a cell's release.
ghost use Rattle.op_commit.specs.Register.{IsAlong};

use super::{OWNER, PENDING, free, owned, two_notes};
use op_commit::{FreeEnd, FreeOp, RegisterOp, WatchEnd};
use read_set::ReadSet;
use std::process::Abort;
use std::test::Fail;
use stm_model::{Access, Addr, Word};

// The wait makes these accesses, and is given these answers.
fn watch(rt: &impl Abort, op: &mut RegisterOp, reads: &ReadSet, steps: &[(Access, u64)])
    requires { IsAlong op.old reads.now.notes }
    ensures { IsAlong op.new reads.now.notes }
{
    for (access, answer) in steps {
        assert_eq!(rt; op.next(reads), Some(*access));
        assert_eq!(rt; op.end(), None);
        op.take(reads, *answer);
    }
}

// The pending bit of a cell is set.
fn wait_for(cell: u32) -> Access {
    Access::SetBits(Word::Meta(Addr(cell)), PENDING)
}

#[test]
fn a_wait_goes_along_a_read_set(rt: HostRuntime) -> Result<(), Fail> {
    let reads = two_notes(&rt)?;
    let mut op = RegisterOp::new(7);
    watch(&rt, &mut op, &reads, &[(wait_for(2), 0), (wait_for(3), 1)]);
    assert_eq!(rt; op.end(), Some(WatchEnd::Watching));
    let mut op = RegisterOp::new(7);
    watch(&rt, &mut op, &reads, &[(wait_for(2), 0), (wait_for(3), 4)]);
    let changed = WatchEnd::Changed {
        addr: Addr(3),
        before: 1,
        meta: free(4),
    };
    assert_eq!(rt; op.end(), Some(changed));
    Ok(())
}

#[test]
fn a_cell_of_a_read_set_is_held_or_released(rt: HostRuntime) -> Result<(), Fail> {
    let reads = two_notes(&rt)?;
    let held = FreeEnd::Held { meta: owned(8, 4) };
    let released = FreeEnd::Released { meta: free(4) };
    for (answer, end) in [(8 * OWNER + 4, held), (4, released)] {
        let mut op = FreeOp::new(Addr(3), 7);
        assert_eq!(rt; op.end(), None);
        assert_eq!(rt; op.next(&reads), Some(wait_for(3)));
        op.take(&reads, answer);
        assert_eq!(rt; op.end(), Some(end));
        assert_eq!(rt; op.next(&reads), None);
    }
    Ok(())
}
