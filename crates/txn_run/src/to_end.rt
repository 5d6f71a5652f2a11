//! From the end of a body to the end of its attempt.
ghost use Rattle.std.specs.Prelude.{◌≡◌, ◌≢◌, ◌↔◌, ◌<◌, ◌^◌, ℕ, List, None, Option};
ghost use Rattle.stm_model.specs.Attempt.{Ended, Late, cause_at};
ghost use Rattle.stm_model.specs.declared.cause.Cause.{Cause};
ghost use Rattle.stm_model.specs.declared.note.Note.{Note};
ghost use Rattle.stm_model.specs.CellsState.{Book};
ghost use Rattle.stm_model.specs.Owes.{IsPossible, Owes};
ghost use Rattle.stm_model.specs.Telling.{Owing};
ghost use Rattle.stm_model.specs.Whole.{RunLate};
ghost use Rattle.txn_drive.specs.Going.{Continues};
ghost use Rattle.txn_drive.specs.Moment.{moment};
ghost use Rattle.txn_drive.specs.Standing.{IsOver};
ghost use Rattle.txn_run.specs.Flights.{IsHere, cells_in_stm, state_on};
ghost use Rattle.txn_run.specs.Turns.{ComesToEnd, GaveLate, InTurn, IsSince, LeftLate, Turning, turns_left};

use crate::bodies::run_late;
use crate::flights::Flight;
use ref_table::{Seat, Stm};
use stm_model::{Bell, Body, Cause, Hooks, Law};
use txn_drive::Ask;

/// The body has ended well. The before-commit bodies have their turns, and the attempt goes on until it is over.
pub fn take_turns<L: Law, R: Bell, H: Hooks, B: Body<L>>(
    seat: &mut Seat<L>,
    stm: &Stm<L>,
    bell: &mut R,
    hooks: &mut H,
    flight: &mut Flight<L>,
    body: &mut B,
)
    requires here { IsHere stm.now seat.old flight.old }
    requires going { flight.old.attempt.stage ≢ Ended }
    requires first { flight.old.attempt.turn ≡ 0 }
    requires fits { B.fits body.old stm.now.law (cells_in_stm stm.now) }
    requires owes { Owing (L.lawful stm.now.law) (L.may stm.now.law) (state_on stm.now flight.old.attempt) }
    ensures here { IsHere stm.now seat.new flight.new }
    ensures continues { Continues (moment seat.old flight.old.attempt (H.runs hooks.old) (R.rings bell.old)) (moment seat.new flight.new.attempt (H.runs hooks.new) (R.rings bell.new)) }
    ensures over { IsOver flight.new.attempt }
    ensures ends { ComesToEnd (L.lawful stm.now.law) (cells_in_stm stm.now)
        (λ heap book. IsSince (cause_at flight.old.attempt.stage ≡ None) (L.lawful stm.now.law) (cells_in_stm stm.now) flight.old.attempt.notes heap × RunLate B.late_means heap book.laters body.old flight.old.attempt.now book body.new)
        (λ cause heap book. IsSince (cause_at flight.old.attempt.stage ≡ None) (L.lawful stm.now.law) (cells_in_stm stm.now) flight.old.attempt.notes heap × GaveLate B.late_means heap cause body.old flight.old.attempt.now book body.new)
        (λ heap. IsPossible (L.lawful stm.now.law) (cells_in_stm stm.now) flight.old.attempt.notes heap × LeftLate (cause_at flight.old.attempt.stage ≡ None) B.late_means B.late_leaves heap body.old flight.old.attempt.now body.new) flight.new.attempt }
    ensures fits { (law : L) (size : ℕ) → B.fits body.old law size ↔ B.fits body.new law size }
{
    flight.stands();
    flight.ask(seat, stm, bell, hooks, Ask::Finish);
    while let Some(token) = flight.late() {
        let _turn = flight.turn();
        take_turn(seat, stm, bell, hooks, flight, body, token);
    }
}

// The before-commit body of this token has its turn.
fn take_turn<L: Law, R: Bell, H: Hooks, B: Body<L>>(
    seat: &mut Seat<L>,
    stm: &Stm<L>,
    bell: &mut R,
    hooks: &mut H,
    flight: &mut Flight<L>,
    body: &mut B,
    token: u64,
)
    requires here { IsHere stm.now seat.old flight.old }
    requires late { flight.old.attempt.stage ≡ Late token }
    requires fits { B.fits body.old stm.now.law (cells_in_stm stm.now) }
    requires owes { Owes (L.lawful stm.now.law) (L.may stm.now.law) (cells_in_stm stm.now) flight.old.attempt.notes flight.old.attempt.now.writes }
    requires turn { 0 < flight.old.attempt.turn }
    requires within { flight.old.attempt.turn < 2 ^ 64 }
    ensures here { IsHere stm.now seat.new flight.new }
    ensures continues { Continues (moment seat.old flight.old.attempt (H.runs hooks.old) (R.rings bell.old)) (moment seat.new flight.new.attempt (H.runs hooks.new) (R.rings bell.new)) }
    ensures turns { (refused : Option Cause) (first : B) (reads : List Note) (before : Book) → InTurn (refused ≡ None) B.late_means B.late_leaves (L.lawful stm.now.law) (L.may stm.now.law) (cells_in_stm stm.now) first reads before flight.old.attempt body.old →
        Turning (refused ≡ None) B.late_means B.late_leaves (L.lawful stm.now.law) (L.may stm.now.law) (cells_in_stm stm.now) first reads before flight.new.attempt body.new }
    ensures falls { turns_left flight.new.attempt.stage flight.new.attempt.turn < turns_left flight.old.attempt.stage flight.old.attempt.turn }
    ensures fits { (law : L) (size : ℕ) → B.fits body.old law size ↔ B.fits body.new law size }
{
    let answer = run_late(seat, stm, bell, hooks, flight, body, token);
    flight.stands();
    match answer {
        Ok(()) => flight.end_late(seat, stm, bell, hooks),
        Err(cause) => flight.ask(seat, stm, bell, hooks, Ask::Abandon(cause)),
    }
}
