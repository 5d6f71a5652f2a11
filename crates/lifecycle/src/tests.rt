//! Runs of each stage in their order, undo to marks, and room.
use crate::{Cursor, Handlers, HookPhase, Memory, Stage, Walk};
use std::alloc::Global;
use std::process::Abort;
use std::test::Fail;

// Two handlers of each phase, the tokens in order of registration.
fn two_of_each(alloc: Global) -> Result<Handlers, Memory> {
    let mut handlers = Handlers::new(alloc);
    for round in [0, 10] {
        handlers.register(HookPhase::Completion, round)?;
        handlers.register(HookPhase::Rollback, round + 1)?;
        handlers.register(HookPhase::Committing, round + 2)?;
        handlers.register(HookPhase::Commit, round + 3)?;
        handlers.register(HookPhase::Preparing, round + 4)?;
    }
    Ok(handlers)
}

// Whether these tokens run at a stage, whichever way they are listed.
fn runs(rt: &impl Abort, handlers: &Handlers, stage: Stage, from: usize, tokens: &[u64]) -> bool {
    let mut cursor = Cursor::new(stage, from);
    for (index, token) in tokens.iter().enumerate() {
        let Some((phase, run, next)) = handlers.next_run(cursor) else {
            return false;
        };
        assert_eq!(rt; handlers.run_at(stage, from, index), Some((phase, run)));
        if run != *token {
            return false;
        }
        cursor = next;
    }
    handlers.next_run(cursor).is_none() && handlers.run_at(stage, from, tokens.len()).is_none()
}

#[test]
fn an_undo_runs_the_last_first(rt: HostRuntime) -> Result<(), Fail> {
    let mut handlers = Handlers::new(rt.alloc());
    handlers.register(HookPhase::Rollback, 1)?;
    handlers.register(HookPhase::Completion, 2)?;
    handlers.later(3)?;
    assert_eq!(rt;
        handlers.run_at(Stage::AfterRollback, 0, 0),
        Some((HookPhase::Completion, 2))
    );
    assert_eq!(rt;
        handlers.run_at(Stage::AfterRollback, 0, 1),
        Some((HookPhase::Rollback, 1))
    );
    assert_eq!(rt; handlers.run_at(Stage::AfterRollback, 0, 2), None);
    assert_eq!(rt; handlers.later_at(0), Some(3));
    assert_eq!(rt; handlers.later_at(1), None);
    Ok(())
}

#[test]
fn each_stage_runs_its_phases(rt: HostRuntime) -> Result<(), Fail> {
    let handlers = two_of_each(rt.alloc())?;
    assert!(rt; runs(&rt, &handlers, Stage::Preparing, 0, [4, 14].as_slice()));
    assert!(rt; runs(&rt, &handlers, Stage::Committing, 0, [2, 12].as_slice()));
    assert!(rt;
        runs(
            &rt,
            &handlers,
            Stage::AfterCommit,
            0,
            [0, 3, 10, 13].as_slice()
        )
    );
    assert!(rt;
        runs(
            &rt,
            &handlers,
            Stage::AfterRollback,
            0,
            [11, 10, 1, 0].as_slice()
        )
    );
    assert!(rt;
        runs(
            &rt,
            &handlers,
            Stage::AfterRollback,
            1,
            [11, 10, 1].as_slice()
        )
    );
    assert!(rt; runs(&rt, &handlers, Stage::AfterCommit, 4, [10, 13].as_slice()));
    assert!(rt; runs(&rt, &handlers, Stage::AfterRollback, 11, [].as_slice()));
    Ok(())
}

// Whether these tokens run along a walk.
fn walks(handlers: &Handlers, walk: Walk, tokens: &[u64]) -> bool {
    let mut walk = walk;
    for token in tokens {
        let Some((_, run, next)) = handlers.walk_on(walk) else {
            return false;
        };
        if run != *token {
            return false;
        }
        walk = next;
    }
    handlers.walk_on(walk).is_none()
}

#[test]
fn one_stage_runs_behind_another(rt: HostRuntime) -> Result<(), Fail> {
    let handlers = two_of_each(rt.alloc())?;
    let both = Walk::both(Stage::Preparing, Stage::Committing);
    assert!(rt; walks(&handlers, both, [4, 14, 2, 12].as_slice()));
    let undo = Walk::new(Stage::AfterRollback, 6);
    assert!(rt; walks(&handlers, undo, [11].as_slice()));
    Ok(())
}

#[test]
fn what_a_level_registered_is_undone(rt: HostRuntime) -> Result<(), Fail> {
    let mut handlers = two_of_each(rt.alloc())?;
    handlers.later(1)?;
    let mark = handlers.mark();
    let later_mark = handlers.later_mark();
    handlers.reserve(1, 1)?;
    handlers.register(HookPhase::Rollback, 20)?;
    handlers.later(2)?;
    assert!(rt; runs(&rt, &handlers, Stage::AfterRollback, mark, [20].as_slice()));
    handlers.undo_to(mark);
    handlers.undo_laters_to(later_mark);
    assert!(rt;
        runs(
            &rt,
            &handlers,
            Stage::AfterRollback,
            0,
            [11, 10, 1, 0].as_slice()
        )
    );
    assert_eq!(rt; handlers.later_at(0), Some(1));
    assert_eq!(rt; handlers.later_at(1), None);
    handlers.clear();
    assert_eq!(rt; handlers.mark(), 0);
    assert_eq!(rt; handlers.later_mark(), 0);
    Ok(())
}
