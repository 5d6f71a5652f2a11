//! Bodies on the cells of an attempt.
ghost use Rattle.std.specs.Prelude.{◌≡◌, ◌≢◌, ◌↔◌, ℕ};
ghost use Rattle.stm_model.specs.Attempt.{Ended};
ghost use Rattle.stm_model.specs.Ran.{Ran};
ghost use Rattle.stm_model.specs.Telling.{Owing};
ghost use Rattle.txn_drive.specs.Moment.{moment};
ghost use Rattle.txn_run.specs.Flights.{IsHere, Went, cells_in_stm, state_on};

use crate::cells::Txn;
use crate::flights::Flight;
use ref_table::{Seat, Stm};
use stm_model::{Bell, Body, Cause, Hooks, Law};

/// Runs the body on the cells of the attempt.
#[inline(always)]
pub fn run_body<'a, L: Law, R: Bell, H: Hooks, B: Body<L>>(
    seat: &'a mut Seat<L>,
    stm: &'a Stm<L>,
    bell: &'a mut R,
    hooks: &'a mut H,
    flight: &'a mut Flight<L>,
    body: &mut B,
) -> Result<B::Out, Cause>
    requires here { IsHere stm.now seat.old flight.old }
    requires going { flight.old.attempt.stage ≢ Ended }
    requires fits { B.fits body.old stm.now.law (cells_in_stm stm.now) }
    requires owes { Owing (L.lawful stm.now.law) (L.may stm.now.law) (state_on stm.now flight.old.attempt) }
    ensures here { IsHere stm.now seat.new flight.new }
    ensures going { flight.new.attempt.stage ≢ Ended }
    ensures went { Went (moment seat.old flight.old.attempt (H.runs hooks.old) (R.rings bell.old)) (moment seat.new flight.new.attempt (H.runs hooks.new) (R.rings bell.new)) }
    ensures ran { Ran (L.lawful stm.now.law) (L.may stm.now.law)
        (λ heap before answer after. B.means body.old heap before answer after body.new)
        (λ heap before. B.leaves body.old heap before body.new) result (state_on stm.now flight.old.attempt) (state_on stm.now flight.new.attempt) }
    ensures fits { (law : L) (size : ℕ) → B.fits body.old law size ↔ B.fits body.new law size }
{
    flight.stands();
    let mut txn = Txn {
        seat: &mut *seat,
        stm,
        bell: &mut *bell,
        hooks: &mut *hooks,
        flight: &mut *flight,
    };
    let answer = body.run(&mut txn);
    let Txn {
        seat,
        stm: _,
        bell,
        hooks,
        flight,
    } = txn;
    touch(seat, bell, hooks, flight);
    answer
}

/// Runs the before-commit body that the body registered under this token.
pub fn run_late<'a, L: Law, R: Bell, H: Hooks, B: Body<L>>(
    seat: &'a mut Seat<L>,
    stm: &'a Stm<L>,
    bell: &'a mut R,
    hooks: &'a mut H,
    flight: &'a mut Flight<L>,
    body: &mut B,
    token: u64,
) -> Result<(), Cause>
    requires here { IsHere stm.now seat.old flight.old }
    requires going { flight.old.attempt.stage ≢ Ended }
    requires fits { B.fits body.old stm.now.law (cells_in_stm stm.now) }
    requires owes { Owing (L.lawful stm.now.law) (L.may stm.now.law) (state_on stm.now flight.old.attempt) }
    ensures here { IsHere stm.now seat.new flight.new }
    ensures going { flight.new.attempt.stage ≢ Ended }
    ensures went { Went (moment seat.old flight.old.attempt (H.runs hooks.old) (R.rings bell.old)) (moment seat.new flight.new.attempt (H.runs hooks.new) (R.rings bell.new)) }
    ensures ran { Ran (L.lawful stm.now.law) (L.may stm.now.law)
        (λ heap before answer after. B.late_means body.old token heap before answer after body.new)
        (λ heap before. B.late_leaves body.old token heap before body.new) result (state_on stm.now flight.old.attempt) (state_on stm.now flight.new.attempt) }
    ensures fits { (law : L) (size : ℕ) → B.fits body.old law size ↔ B.fits body.new law size }
{
    flight.stands();
    let mut txn = Txn {
        seat: &mut *seat,
        stm,
        bell: &mut *bell,
        hooks: &mut *hooks,
        flight: &mut *flight,
    };
    let answer = body.late(&mut txn, token);
    let Txn {
        seat,
        stm: _,
        bell,
        hooks,
        flight,
    } = txn;
    touch(seat, bell, hooks, flight);
    answer
}

// What was lent to an attempt is there again.
#[inline(always)]
fn touch<S, R, H, F>(_seat: &mut S, _bell: &mut R, _hooks: &mut H, _flight: &mut F)
    ensures seat { _seat.new ≡ _seat.old }
    ensures bell { _bell.new ≡ _bell.old }
    ensures hooks { _hooks.new ≡ _hooks.old }
    ensures flight { _flight.new ≡ _flight.old }
{}
