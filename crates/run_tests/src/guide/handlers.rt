//! Handlers, by their tokens.

use crate::guide::tables::{SETTINGS, next_seat, try_with};
use or_atomic::nested;
use std::test::Fail;
use stm_model::{Free, HookPhase, KeptCalls};
use txn_run::{Body, Cause, Cells, Outcome, Quiet, Stm};

/// Registers a handler of each phase, and fails where it is to.
#[derive(Clone, Copy)]
pub struct Handled {
    pub fails: bool,
}

impl Body<Free> for Handled {
    type Out = ();

    ghost fits = { λ body law size. Unit {0} };

    ghost means = { λ body heap before answer after left. Unit {0} };

    ghost leaves = { λ body heap before left. Unit {0} };

    ghost late_means = { λ body token heap before answer after left. Unit {0} };

    ghost late_leaves = { λ body token heap before left. Unit {0} };

    fn run<C: Cells<Free>>(&mut self, cells: &mut C) -> Result<(), Cause> {
        cells.hook(HookPhase::Preparing, 1)?;
        cells.hook(HookPhase::Committing, 2)?;
        cells.hook(HookPhase::Commit, 3)?;
        cells.hook(HookPhase::Completion, 4)?;
        cells.hook(HookPhase::Rollback, 5)?;
        if self.fails {
            return Err(Cause::User { code: 9 });
        }
        Ok(())
    }

    fn late<C: Cells<Free>>(&mut self, _cells: &mut C, _token: u64) -> Result<(), Cause> {
        Ok(())
    }
}

/// The same in a block, behind a handler of its own.
#[derive(Clone, Copy)]
pub struct Around {
    pub block: Handled,
}

impl Body<Free> for Around {
    type Out = ();

    ghost fits = { λ body law size. Unit {0} };

    ghost means = { λ body heap before answer after left. Unit {0} };

    ghost leaves = { λ body heap before left. Unit {0} };

    ghost late_means = { λ body token heap before answer after left. Unit {0} };

    ghost late_leaves = { λ body token heap before left. Unit {0} };

    fn run<C: Cells<Free>>(&mut self, cells: &mut C) -> Result<(), Cause> {
        cells.hook(HookPhase::Completion, 6)?;
        let mut block = self.block;
        nested(cells, &mut block)?;
        Ok(())
    }

    fn late<C: Cells<Free>>(&mut self, _cells: &mut C, _token: u64) -> Result<(), Cause> {
        Ok(())
    }
}

#[test]
fn handlers_run_where_their_phase_comes(rt: HostRuntime) -> Result<(), Fail> {
    let alloc = rt.alloc();
    let (mut maker, stm) = Stm::new(alloc, &[], SETTINGS)?;
    let mut seat = next_seat(&rt, &mut maker, &stm);

    let mut hooks = KeptCalls::new(alloc, 9, 0)?;
    let mut kept = Handled { fails: false };
    let outcome = try_with(&stm, &mut seat, &mut Quiet, &mut kept, &mut hooks);
    assert_eq!(rt; outcome, Outcome::Read { out: (), prefix: 0 });
    let runs = [
        (HookPhase::Preparing, 1),
        (HookPhase::Committing, 2),
        (HookPhase::Commit, 3),
        (HookPhase::Completion, 4),
    ];
    assert_eq!(rt; hooks.runs(), Some(runs.as_slice()));

    let mut hooks = KeptCalls::new(alloc, 9, 0)?;
    let mut failed = Handled { fails: true };
    try_with(&stm, &mut seat, &mut Quiet, &mut failed, &mut hooks);
    let runs = [(HookPhase::Rollback, 5), (HookPhase::Completion, 4)];
    assert_eq!(rt; hooks.runs(), Some(runs.as_slice()));

    // The block's handlers run where it is undone, and the one around it at the end.
    let mut hooks = KeptCalls::new(alloc, 9, 0)?;
    let mut around = Around { block: failed };
    try_with(&stm, &mut seat, &mut Quiet, &mut around, &mut hooks);
    let runs = [
        (HookPhase::Rollback, 5),
        (HookPhase::Completion, 4),
        (HookPhase::Completion, 6),
    ];
    assert_eq!(rt; hooks.runs(), Some(runs.as_slice()));
    Ok(())
}
