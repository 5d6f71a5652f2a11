//! An attempt in flight, with what is known of it.
ghost use Rattle.std.specs.Prelude.{◌≡◌, ◌<◌, Some};
ghost use Rattle.ref_table.specs.Calls.{AreEmpty};
ghost use Rattle.ref_table.specs.Seats.{terms_in};
ghost use Rattle.ref_table.specs.Seen.{SafeSeat};
ghost use Rattle.stm_core.specs.Running.{IsSound, shown};
ghost use Rattle.stm_model.specs.Attempt.{Ended};
ghost use Rattle.stm_model.specs.Moves.{EndsLate, moved};
ghost use Rattle.stm_model.specs.Owes.{Owes};
ghost use Rattle.stm_model.specs.declared.access.Ask.TheVariants.{Finish};
ghost use Rattle.txn_drive.specs.Begun.{IsBegun};
ghost use Rattle.txn_drive.specs.Going.{Continues, IsAsked};
ghost use Rattle.txn_drive.specs.Moment.{moment};
ghost use Rattle.txn_drive.specs.Paying.{IsLed};
ghost use Rattle.txn_drive.specs.Standing.{IsOver, Rests};
ghost use Rattle.txn_run.specs.Told.{ending_by, token_at, token_by, told_by};

use ref_table::{Lists, Seat, Stm};
use std::marker::Model;
use std::snapshot::Snapshot;
use stm_core::{Next, Reply, State};
use stm_model::{Bell, Cause, Ending, Hooks, Law};
use txn_drive::{Ask, Running};

/// An attempt between two calls.
#[derive(Drop)]
pub struct Flight<L: Law> {
    stm: Snapshot<Stm<L>>,
    seat: Snapshot<Seat<L>>,
    running: Running,
}

impl<L: Law> Model for Flight<L> {
    ghost use Rattle.stm_core.specs.Running.{shown};
    ghost use Rattle.txn_run.specs.Flights.{FlightState, IsFlying};

    ghost Value = { FlightState L };

    ghost view = { λ flight. record { stm = flight.stm.value; seat = flight.seat.value; attempt = shown flight.running } };

    ghost invariant = { λ flight. IsFlying (L.lawful flight.stm.value.law) (L.may flight.stm.value.law) flight.stm.value flight.seat.value flight.running };
}

impl<L: Law> Flight<L> {
    ghost use Rattle.txn_run.specs.Flights.{IsHere, MayBeAsked, MayEndLate, Stands, told_at};

    /// The caller's next attempt begins, with these lists.
    #[inline(always)]
    pub fn begin(seat: &mut Seat<L>, stm: &Stm<L>, lists: Lists) -> Flight<L>
        requires own { seat.old.table ≡ stm.now.table }
        requires safe { SafeSeat (L.lawful stm.now.law) (L.may stm.now.law) (terms_in stm.now) seat.old }
        requires over { seat.old.view.attempt.stage ≡ Ended }
        requires attempts { seat.old.view.attempt.serial < stm.now.settings.attempts }
        requires lists { AreEmpty lists }
        ensures begun { IsBegun (L.lawful stm.now.law) (L.may stm.now.law) (terms_in stm.now) stm.now.settings seat.old seat.new result.attempt }
        ensures here { IsHere stm.now seat.new result }
    {
        let running = txn_drive::begin(seat, stm, lists);
        Flight {
            stm: Snapshot::of(stm),
            seat: Snapshot::of(seat),
            running,
        }
    }

    /// What is known of it.
    #[inline(always)]
    pub fn stands(&self)
        ensures { Stands (L.lawful self.now.stm.law) (L.may self.now.stm.law) (terms_in self.now.stm) self.now.seat self.now.attempt }
    {
        let _running = &self.running;
    }

    /// It is asked for something, and goes on until it waits to be asked again, or is over.
    #[inline(always)]
    pub fn ask<R: Bell, H: Hooks>(
        &mut self,
        seat: &mut Seat<L>,
        stm: &Stm<L>,
        bell: &mut R,
        hooks: &mut H,
        ask: Ask,
    )
        requires here { IsHere stm.now seat.old self.old }
        requires asks { MayBeAsked (L.lawful stm.now.law) (L.may stm.now.law) (terms_in stm.now) self.old.attempt ask }
        ensures here { IsHere stm.now seat.new self.new }
        ensures asked { IsAsked self.old.attempt ask self.new.attempt }
        ensures continues { Continues (moment seat.old self.old.attempt (H.runs hooks.old) (R.rings bell.old)) (moment seat.new self.new.attempt (H.runs hooks.new) (R.rings bell.new)) }
        ensures stands { Stands (L.lawful stm.now.law) (L.may stm.now.law) (terms_in stm.now) seat.new self.new.attempt }
    {
        txn_quick::ask(seat, stm, bell, hooks, &mut self.running, ask);
        self.seat = Snapshot::of(seat);
    }

    /// The before-commit body that has its turn is over.
    pub fn end_late<R: Bell, H: Hooks>(
        &mut self,
        seat: &mut Seat<L>,
        stm: &Stm<L>,
        bell: &mut R,
        hooks: &mut H,
    )
        requires here { IsHere stm.now seat.old self.old }
        requires ends { MayEndLate (L.lawful stm.now.law) (L.may stm.now.law) (terms_in stm.now) self.old.attempt }
        ensures here { IsHere stm.now seat.new self.new }
        ensures led { IsLed (moved self.old.attempt EndsLate) self.new.attempt }
        ensures continues { Continues (moment seat.old self.old.attempt (H.runs hooks.old) (R.rings bell.old)) (moment seat.new self.new.attempt (H.runs hooks.new) (R.rings bell.new)) }
        ensures stands { Stands (L.lawful stm.now.law) (L.may stm.now.law) (terms_in stm.now) seat.new self.new.attempt }
    {
        txn_drive::end_late(seat, stm, bell, hooks, &mut self.running);
        self.seat = Snapshot::of(seat);
    }

    /// What the last ask was answered by.
    #[inline(always)]
    pub fn told(&self) -> Result<Option<u64>, Cause>
        ensures { result ≡ told_at self.now.attempt.stage }
    {
        match self.running.state {
            State::Ready(told) => Ok(told),
            _ => answer_of(self.running.next()),
        }
    }

    /// The token of the before-commit body that has its turn.
    #[inline(always)]
    pub fn late(&self) -> Option<u64>
        ensures { result ≡ token_at self.now.attempt.stage }
    {
        match self.running.state {
            State::Ended(_) => None,
            _ => token_of(self.running.next()),
        }
    }

    /// How many before-commit bodies have had their turn.
    #[inline(always)]
    pub fn turn(&self) -> usize
        ensures { result ≡ self.now.attempt.turn }
    {
        self.running.turn
    }

    /// How it ended, once it is over.
    #[inline(always)]
    pub fn ending(&self) -> Ending
        requires { IsOver self.now.attempt }
        ensures { self.now.attempt.ending ≡ Some result }
    {
        if let State::Ended(ending) = self.running.state {
            return ending;
        }
        match ending_of(self.running.next()) {
            Some(ending) => ending,
            None => unreachable!(),
        }
    }

    /// The attempt as it was kept.
    #[inline(always)]
    pub fn into_running(self) -> Running
        ensures { result.footprint.reads.notes ≡ self.attempt.notes }
    {
        self.running
    }
}

// What an attempt that comes to this was answered by.
fn answer_of(next: Next) -> Result<Option<u64>, Cause>
    ensures { result ≡ told_by next }
{
    match next {
        Next::Reply(Reply::Value(value)) => Ok(Some(value)),
        Next::Reply(Reply::Stopped(cause)) => Err(cause),
        _ => Ok(None),
    }
}

// The token of the before-commit body that it comes to.
fn token_of(next: Next) -> Option<u64>
    ensures { result ≡ token_by next }
{
    match next {
        Next::Before { token } => Some(token),
        _ => None,
    }
}

// How an attempt that comes to this has ended.
fn ending_of(next: Next) -> Option<Ending>
    ensures { result ≡ ending_by next }
{
    match next {
        Next::Reply(Reply::Ended(ending)) => Some(ending),
        _ => None,
    }
}
