//! Plain cells at work: reads and writes, levels by hand, causes that repeat, and bodies.
ghost use Rattle.std.specs.Prelude.{◌≡◌, length, IfOk};

mod count;
mod guarded_copy;

use crate::PlainCells;
use count::Count;
use guarded_copy::GuardedCopy;
use std::test::Fail;
use stm_model::{Addr, Body, Cause, Cells, Free, HookPhase};

/// Three cells with 5, 7 and 0.
fn three(rt: &HostRuntime) -> Result<PlainCells<Free>, Fail>
    ensures { IfOk result (λ cells. length cells.heap.items ≡ 3) }
{
    let alloc = rt.alloc();
    Ok(PlainCells::new(alloc, Free, [5, 7, 0].to_vec(alloc)?))
}

#[test]
fn a_body_reads_what_it_wrote(rt: HostRuntime) -> Result<(), Fail> {
    let mut cells = three(&rt)?;
    assert_eq!(rt; cells.size(), 3);
    assert_eq!(rt; cells.get(Addr(1)), Ok(7));
    assert_eq!(rt; cells.set(Addr(1), 9), Ok(()));
    assert_eq!(rt; cells.set(Addr(2), 4), Ok(()));
    assert_eq!(rt; cells.get(Addr(1)), Ok(9));
    assert_eq!(rt; cells.get(Addr(2)), Ok(4));
    assert_eq!(rt; cells.notes.len(), 1);
    assert_eq!(rt; cells.value(Addr(0)), 5);
    assert_eq!(rt; cells.written_heap()?.as_slice(), [5, 9, 4].as_slice());
    assert_eq!(rt; cells.heap.as_slice(), [5, 7, 0].as_slice());
    Ok(())
}

#[test]
fn an_undone_level_leaves_its_reads_and_runs_its_handlers(rt: HostRuntime) -> Result<(), Fail> {
    let mut cells = three(&rt)?;
    assert_eq!(rt; cells.hook(HookPhase::Completion, 1), Ok(()));
    assert_eq!(rt; cells.set(Addr(0), 6), Ok(()));
    assert_eq!(rt; cells.enter(), Ok(()));
    assert_eq!(rt; cells.hook(HookPhase::Rollback, 2), Ok(()));
    assert_eq!(rt; cells.hook(HookPhase::Commit, 3), Ok(()));
    assert_eq!(rt; cells.hook(HookPhase::Completion, 4), Ok(()));
    assert_eq!(rt; cells.later(8), Ok(()));
    assert_eq!(rt; cells.set(Addr(0), 1), Ok(()));
    assert_eq!(rt; cells.set(Addr(1), 1), Ok(()));
    assert_eq!(rt; cells.get(Addr(2)), Ok(0));
    cells.undo();
    assert_eq!(rt; cells.book.writes.as_slice(), [(0, 6)].as_slice());
    assert_eq!(rt;
        cells.book.hooks.as_slice(),
        [(HookPhase::Completion, 1)].as_slice()
    );
    assert_eq!(rt; cells.book.laters.len(), 0);
    assert_eq!(rt;
        cells.book.runs.as_slice(),
        [(HookPhase::Completion, 4), (HookPhase::Rollback, 2)].as_slice()
    );
    assert_eq!(rt; cells.notes.len(), 1);
    Ok(())
}

#[test]
fn a_kept_level_belongs_to_the_one_around_it(rt: HostRuntime) -> Result<(), Fail> {
    let mut cells = three(&rt)?;
    assert_eq!(rt; cells.enter(), Ok(()));
    assert_eq!(rt; cells.enter(), Ok(()));
    assert_eq!(rt; cells.set(Addr(2), 2), Ok(()));
    assert_eq!(rt; cells.hook(HookPhase::Rollback, 5), Ok(()));
    cells.keep();
    assert_eq!(rt; cells.get(Addr(2)), Ok(2));
    cells.undo();
    assert_eq!(rt; cells.get(Addr(2)), Ok(0));
    assert_eq!(rt;
        cells.book.runs.as_slice(),
        [(HookPhase::Rollback, 5)].as_slice()
    );
    Ok(())
}

#[test]
fn levels_nest_sixty_four_deep_and_a_cause_repeats(rt: HostRuntime) -> Result<(), Fail> {
    let mut cells = three(&rt)?;
    for _ in 0..64 {
        assert_eq!(rt; cells.enter(), Ok(()));
    }
    let deep = Cause::TooDeep { depth: 64 };
    assert_eq!(rt; cells.enter(), Err(deep));
    assert_eq!(rt; cells.size(), 3);
    assert_eq!(rt; cells.get(Addr(0)), Err(deep));
    assert_eq!(rt; cells.set(Addr(0), 1), Err(deep));
    assert_eq!(rt; cells.hook(HookPhase::Commit, 1), Err(deep));
    assert_eq!(rt; cells.later(1), Err(deep));
    assert_eq!(rt; cells.saved.len(), 64);
    cells.undo();
    assert_eq!(rt; cells.saved.len(), 63);
    assert_eq!(rt; cells.enter(), Err(deep));
    Ok(())
}

#[test]
fn a_body_counts_up_to_its_most(rt: HostRuntime) -> Result<(), Fail> {
    let mut cells = three(&rt)?;
    let mut count = Count {
        addr: Addr(1),
        most: 8,
    };
    assert_eq!(rt; count.run(&mut cells), Ok(7));
    assert_eq!(rt; cells.written_heap()?.as_slice(), [5, 8, 0].as_slice());
    assert_eq!(rt; cells.book.laters.as_slice(), [7].as_slice());
    assert_eq!(rt; count.late(&mut cells, 7), Ok(()));
    assert_eq!(rt;
        cells.book.hooks.as_slice(),
        [(HookPhase::Commit, 7)].as_slice()
    );
    assert_eq!(rt; count.run(&mut cells), Err(Cause::User { code: 1 }));
    Ok(())
}

#[test]
fn a_body_undoes_its_level_and_goes_on(rt: HostRuntime) -> Result<(), Fail> {
    let mut cells = three(&rt)?;
    let mut body = GuardedCopy {
        from: Addr(1),
        into: Addr(0),
        seen: Addr(2),
        most: 6,
        token: 9,
    };
    assert_eq!(rt; body.run(&mut cells), Ok(7));
    assert_eq!(rt; cells.written_heap()?.as_slice(), [5, 7, 7].as_slice());
    assert_eq!(rt; cells.book.hooks.len(), 0);
    assert_eq!(rt;
        cells.book.runs.as_slice(),
        [(HookPhase::Rollback, 9)].as_slice()
    );
    body.most = 7;
    assert_eq!(rt; body.run(&mut cells), Ok(7));
    assert_eq!(rt; cells.written_heap()?.as_slice(), [7, 7, 7].as_slice());
    assert_eq!(rt; cells.book.hooks.len(), 1);
    assert_eq!(rt; cells.saved.len(), 0);
    assert_eq!(rt; body.late(&mut cells, 1), Ok(()));
    Ok(())
}
