//! Who waits for a cell is rung for, and the handlers that are due run.
ghost use Rattle.std.specs.Prelude.{◌<◌, length};
ghost use Rattle.run_tests.specs.Tables.{Begins};

use crate::bodies::{Fails, Sets};
use crate::guide::tables::{SETTINGS, ZERO, next_seat, try_with, wait_for};
use meta_word::PENDING_BIT;
use ref_views::Ref;
use std::alloc::Global;
use std::process::Abort;
use std::test::Fail;
use stm_model::{Free, HookPhase, KeptCalls};
use txn_run::{Body, Cause, Outcome, Seat, Stm};

// The second caller waits for cell 0. Then the first makes an attempt, which rings once, for that cell, and runs one
// handler.
fn rings_and_runs<B: Body<Free>>(
    rt: &impl Abort,
    alloc: Global,
    stm: &Stm<Free>,
    first: &mut Seat<Free>,
    second: &mut Seat<Free>,
    body: &mut B,
    run: (HookPhase, u64),
) -> Outcome<B::Out>
    requires begins { Begins stm.now first.old }
    requires waits { Begins stm.now second.old }
    requires cells { 0 < length stm.now.opening }
    requires fits { B.fits body.old stm.now.law (length stm.now.opening) }
    ensures waits { Begins stm.now second.new }
{
    wait_for(stm, second, ZERO);
    let Ok(mut bell) = KeptCalls::new(alloc, 0, 1) else {
        panic!(rt; "no memory")
    };
    let Ok(mut hooks) = KeptCalls::new(alloc, 1, 0) else {
        panic!(rt; "no memory")
    };
    let outcome = try_with(stm, first, &mut bell, body, &mut hooks);
    let (rings, runs) = ([0], [run]);
    assert_eq!(rt; bell.rings(), Some(rings.as_slice()));
    assert_eq!(rt; hooks.runs(), Some(runs.as_slice()));
    outcome
}

#[test]
fn a_commit_rings_for_who_waits(rt: HostRuntime) -> Result<(), Fail> {
    let alloc = rt.alloc();
    let (mut maker, stm) = Stm::new(alloc, &[0, 0], SETTINGS)?;
    let mut first = next_seat(&rt, &mut maker, &stm);
    let mut second = next_seat(&rt, &mut maker, &stm);
    let mut sets = Sets {
        cell: Ref::new(ZERO),
        value: 5,
    };
    let run = (HookPhase::Commit, 7);
    let outcome = rings_and_runs(&rt, alloc, &stm, &mut first, &mut second, &mut sets, run);
    assert_eq!(rt; outcome, Outcome::Committed { out: (), stamp: 1 });
    // The commit has taken the bit.
    assert_eq!(rt; wait_for(&stm, &mut second, ZERO), 1);
    Ok(())
}

#[test]
fn a_rollback_rings_for_who_waits(rt: HostRuntime) -> Result<(), Fail> {
    let alloc = rt.alloc();
    let (mut maker, stm) = Stm::new(alloc, &[0, 0], SETTINGS)?;
    let mut first = next_seat(&rt, &mut maker, &stm);
    let mut second = next_seat(&rt, &mut maker, &stm);
    let cause = Cause::Retry;
    let mut fails = Fails {
        cell: Ref::new(ZERO),
        cause,
    };
    let run = (HookPhase::Rollback, 8);
    let outcome = rings_and_runs(&rt, alloc, &stm, &mut first, &mut second, &mut fails, run);
    assert_eq!(rt; outcome, Outcome::Rolled { cause, prefix: 0 });
    // A rollback leaves the bit.
    assert_eq!(rt; wait_for(&stm, &mut second, ZERO), PENDING_BIT);
    Ok(())
}
