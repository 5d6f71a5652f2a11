//! A transaction as a closure.
ghost use Rattle.std.specs.Prelude.{◌<◌, length};
ghost use Rattle.stm_model.specs.Ran.{Running};

use crate::guide::tables::{ONE, SETTINGS, ZERO, next_seat};
use ref_views::Ref;
use std::test::Fail;
use stm_model::{Free, Law};
use txn_run::{Cause, Cells, Outcome, Quiet, Runner, Runs, Stm, attempt_with};

/// Moves 1 from a cell to another. Tells what they held.
pub fn move_one<C: Cells<Free>>(
    cells: &mut C,
    from: Ref<u64>,
    to: Ref<u64>,
) -> Result<(u64, u64), Cause>
    requires from { from.addr.0 < (C.state cells.old).size }
    requires to { to.addr.0 < (C.state cells.old).size }
    ensures { Running ⟦<Free as Law>⟧.lawful ⟦<Free as Law>⟧.may C.law C.follows C.state cells.old cells.new (λ heap before answer after. Unit {0}) (λ heap before. Unit {0}) result }
{
    let there = from.get(cells)?;
    let here = to.get(cells)?;
    from.set(cells, there.wrapping_sub(1))?;
    to.set(cells, here.wrapping_add(1))?;
    Ok((there, here))
}

// One attempt to move 1 from cell 0 to cell 1.
fn move_once<'a>(runner: &mut Runner<'a, Free, Quiet>) -> Outcome<(u64, u64)>
    requires rests { ⟦<Runner<'a, Free, Quiet> as Runs<Free>>⟧.rests runner.old }
    requires cells { 1 < length runner.old.stm.now.opening }
    ensures rests { ⟦<Runner<'a, Free, Quiet> as Runs<Free>>⟧.rests runner.new }
    ensures same { ⟦<Runner<'a, Free, Quiet> as Runs<Free>>⟧.same runner.old runner.new }
{
    let (from, to) = (Ref::new(ZERO), Ref::new(ONE));
    let mut moves = |cells: &mut Runner<'_, Free, Quiet>| -> Result<(u64, u64), Cause> {
        move_one(cells, from, to)
    };
    attempt_with::<Free, Runner<'a, Free, Quiet>, (u64, u64), _>(runner, &mut moves)
}

#[test]
fn a_closure_moves_one(rt: HostRuntime) -> Result<(), Fail> {
    let alloc = rt.alloc();
    let (mut maker, stm) = Stm::new(alloc, &[5, 0], SETTINGS)?;
    let mut seat = next_seat(&rt, &mut maker, &stm);
    let mut bell = Quiet;
    let mut runner = Runner::new(&mut seat, &stm, &mut bell);
    let outcome = move_once(&mut runner);
    let out = (5, 0);
    assert_eq!(rt; outcome, Outcome::Committed { out, stamp: 1 });
    let outcome = move_once(&mut runner);
    let out = (4, 1);
    assert_eq!(rt; outcome, Outcome::Committed { out, stamp: 2 });
    Ok(())
}
