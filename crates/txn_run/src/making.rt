//! One attempt, from its begin to its end.
ghost use Rattle.std.specs.Prelude.{◌≡◌, ◌↔◌, ◌<◌, ◌≢◌, ℕ, [], IfSome, Option};
ghost use Rattle.ref_table.specs.Calls.{AreEmpty};
ghost use Rattle.ref_table.specs.Seats.{terms_in};
ghost use Rattle.ref_table.specs.Seen.{SafeSeat};
ghost use Rattle.stm_core.specs.Running.{shown};
ghost use Rattle.stm_model.specs.Attempt.{Ended};
ghost use Rattle.stm_model.specs.CellsState.{empty_book};
ghost use Rattle.stm_model.specs.Whole.{Whole};
ghost use Rattle.txn_drive.specs.Going.{Continues};
ghost use Rattle.txn_drive.specs.Moment.{moment};
ghost use Rattle.txn_drive.specs.Standing.{IsOver};
ghost use Rattle.txn_run.specs.Bodies.{Gave, IsLeft};
ghost use Rattle.txn_run.specs.Callers.{MayBegin, attempt_in, caller_of};
ghost use Rattle.txn_run.specs.Flights.{IsFresh, IsHere, cells_in_stm};
ghost use Rattle.txn_run.specs.Outcomes.{ConcludesAs, Made};
ghost use Rattle.txn_run.specs.Turns.{EndsAs, IsOutcome, MayEnd};

use crate::bodies::run_body;
use crate::callers::Outcome;
use crate::flights::Flight;
use crate::to_end::take_turns;
use ref_table::{Lists, Seat, Stm};
use stm_model::{Bell, Body, Ending, Hooks, Law};
use txn_drive::{Ask, Running};

/// The caller's next attempt is made. The seat's lists are handed out.
#[inline(always)]
pub fn make<L: Law, R: Bell, H: Hooks, B: Body<L>>(
    seat: &mut Seat<L>,
    stm: &Stm<L>,
    bell: &mut R,
    hooks: &mut H,
    body: &mut B,
) -> (Outcome<B::Out>, Lists)
    requires begins { MayBegin (L.lawful stm.now.law) (L.may stm.now.law) stm.now seat.old }
    requires more { (attempt_in seat.old).serial < stm.now.settings.attempts }
    requires fits { B.fits body.old stm.now.law (cells_in_stm stm.now) }
    ensures same { (seat.new.table ≡ seat.old.table) × (seat.new.number ≡ seat.old.number) }
    ensures begins { MayBegin (L.lawful stm.now.law) (L.may stm.now.law) stm.now seat.new }
    ensures made { Made stm.now.settings.attempts (caller_of seat.old (H.runs hooks.old) (R.rings bell.old)) (caller_of seat.new (H.runs hooks.new) (R.rings bell.new)) }
    ensures concludes { ConcludesAs (λ out heap book. Whole B.means B.late_means body.old heap out book body.new)
        (λ cause heap book. Gave B.means B.late_means body.old heap cause book body.new)
        (λ heap. IsLeft B.means B.leaves B.late_means B.late_leaves body.old heap body.new) stm.now.opening
        (caller_of seat.old (H.runs hooks.old) (R.rings bell.old)) (caller_of seat.new (H.runs hooks.new) (R.rings bell.new)) result.0 }
    ensures notes { result.1.reads.notes ≡ (attempt_in seat.new).notes }
    ensures fits { (law : L) (size : ℕ) → B.fits body.old law size ↔ B.fits body.new law size }
{
    let lists = seat.lend();
    let mut flight = Flight::begin(seat, stm, lists);
    let outcome = run_to_end(seat, stm, bell, hooks, &mut flight, body);
    flight.stands();
    (outcome, lists_of(flight.into_running()))
}

// The body runs, and the attempt goes on until it is over.
#[inline(always)]
fn run_to_end<L: Law, R: Bell, H: Hooks, B: Body<L>>(
    seat: &mut Seat<L>,
    stm: &Stm<L>,
    bell: &mut R,
    hooks: &mut H,
    flight: &mut Flight<L>,
    body: &mut B,
) -> Outcome<B::Out>
    requires here { IsHere stm.now seat.old flight.old }
    requires fresh { IsFresh flight.old.attempt }
    requires fits { B.fits body.old stm.now.law (cells_in_stm stm.now) }
    ensures here { IsHere stm.now seat.new flight.new }
    ensures continues { Continues (moment seat.old flight.old.attempt (H.runs hooks.old) (R.rings bell.old)) (moment seat.new flight.new.attempt (H.runs hooks.new) (R.rings bell.new)) }
    ensures over { IsOver flight.new.attempt }
    ensures ends { EndsAs (L.lawful stm.now.law) (cells_in_stm stm.now)
        (λ out heap book. Whole B.means B.late_means body.old heap out book body.new)
        (λ cause heap book. Gave B.means B.late_means body.old heap cause book body.new)
        (λ heap. IsLeft B.means B.leaves B.late_means B.late_leaves body.old heap body.new) flight.new.attempt result }
    ensures fits { (law : L) (size : ℕ) → B.fits body.old law size ↔ B.fits body.new law size }
{
    let answer = run_body(seat, stm, bell, hooks, flight, body);
    flight.stands();
    match answer {
        Ok(out) => {
            take_turns(seat, stm, bell, hooks, flight, body);
            outcome_of(flight.ending(), Some(out))
        }
        Err(cause) => {
            flight.ask(seat, stm, bell, hooks, Ask::Abandon(cause));
            outcome_of(flight.ending(), None)
        }
    }
}

// The ending as an outcome, with what the body answered.
#[inline(always)]
pub fn outcome_of<T: Drop>(ending: Ending, out: Option<T>) -> Outcome<T>
    requires { MayEnd ending out }
    ensures { IsOutcome ending out result }
{
    match (ending, out) {
        (Ending::Committed { stamp }, Some(out)) => Outcome::Committed { out, stamp },
        (Ending::Read { prefix }, Some(out)) => Outcome::Read { out, prefix },
        (Ending::Rolled { cause, prefix }, _) => Outcome::Rolled { cause, prefix },
        _ => unreachable!(),
    }
}

// The lists of an attempt that is over.
#[inline(always)]
pub fn lists_of(running: Running) -> Lists
    ensures { result.reads ≡ running.footprint.reads }
{
    let footprint = running.footprint;
    Lists {
        reads: footprint.reads,
        writes: footprint.writes,
        handlers: running.handlers,
        levels: running.levels,
    }
}
