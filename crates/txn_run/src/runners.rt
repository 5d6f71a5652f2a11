//! Callers as the cells of their attempts.
ghost use Rattle.std.specs.Prelude.{◌≡◌, ◌≢◌, ◌≤◌, ◌<◌, ◌⊎◌, ℕ, [], List, length, IfSome, IfErr, IfOk, None, Option, Some, Ok, Err};
ghost use Rattle.std.specs.Map.{values_of};
ghost use Rattle.std.proofs.Common.{◌∙◌, ap, refl};
ghost use Rattle.std.proofs.Math.Logic.{∥∥₁_map};
ghost use Rattle.ref_table.specs.Calls.{AreEmpty};
ghost use Rattle.stm_model.specs.Attempt.{Ended, cause_at};
ghost use Rattle.stm_model.specs.Heap.{AreWords};
ghost use Rattle.stm_model.specs.Moves.{MayAsk};
ghost use Rattle.stm_model.specs.Owes.{IsPossible};
ghost use Rattle.stm_model.specs.Refusing.{IsOfBody, IsOfCells, deepest};
ghost use Rattle.stm_model.specs.Telling.{Owing, Witness};
ghost use Rattle.txn_drive.specs.Going.{Continues};
ghost use Rattle.txn_drive.specs.Moment.{moment};
ghost use Rattle.txn_drive.specs.Standing.{IsOver};
ghost use Rattle.txn_run.specs.Callers.{IsSameCaller, MayBegin, caller_of};
ghost use Rattle.txn_run.specs.Facts.{AreWords-prop, IsAnswer-prop, IsGoing-prop, begun_later, witness_map, went_by_on, went_by_self};
ghost use Rattle.txn_run.specs.Flights.{IsHere, IsOfBodies, Knows, Tells, Went, cells_in_stm, state_on};
ghost use Rattle.txn_run.specs.Runners.{BegunBy, EndedSo, IsGoing, MayEndWith, WentBy, placed, state_by};
ghost use Rattle.txn_run.specs.Turns.{EndsAs};

use crate::attempts::{is_spent, spent};
use crate::callers::{Caller, Outcome};
use crate::cells::HeapLaw;
use crate::closures::Runs;
use crate::flights::Flight;
use crate::making::{lists_of, outcome_of};
use crate::to_end::take_turns;
use ref_table::{Seat, Stm};
use stm_model::{Addr, Bell, Body, Cause, Cells, HookPhase, Hooks, Law, Quiet};
use txn_drive::Ask;

/// A caller as cells, which are those of the attempt that is under way. Between two attempts they refuse each call
/// with `Memory`. What their attempts ring goes to the bell, and what handlers run is told to nobody.
#[derive(Drop)]
pub struct Runner<'a, L: HeapLaw, R: Bell> {
    pub seat: &'a mut Seat<L>,
    pub stm: &'a Stm<L>,
    pub bell: &'a mut R,
    flight: Option<Flight<L>>,
    ghost here: { placed stm.now seat.now flight ≡ flight },
    ghost going: { IsGoing flight } by { IsGoing-prop flight },
    ghost witness: { ∥ Witness (L.heaps stm.now.law) (state_by stm.now flight).size (state_by stm.now flight).reads ∥₁ },
    ghost words: { AreWords (values_of (state_by stm.now flight).now.writes) } by { AreWords-prop (values_of (state_by stm.now flight).now.writes) },
    ghost answered: { IfSome (state_by stm.now flight).cause IsOfCells } by { IsAnswer-prop (state_by stm.now flight).cause },
    ghost deep: { length (state_by stm.now flight).saved ≤ deepest },
}

impl<'a, L: HeapLaw, R: Bell> Runner<'a, L, R> {
    /// The caller of this seat, at rest.
    pub fn new(seat: &'a mut Seat<L>, stm: &'a Stm<L>, bell: &'a mut R) -> Runner<'a, L, R>
        requires begins { MayBegin (L.lawful stm.now.law) (L.may stm.now.law) stm.now seat.old }
        ensures same_references { (result.seat.ghost_name ≡ seat.entry.ghost_name) × (result.bell.ghost_name ≡ bell.entry.ghost_name) }
        ensures same { (result.seat.now ≡ seat.old) × (result.bell.now ≡ bell.old) × (result.stm.now ≡ stm.now) }
        ensures rests { ⟦<Runner<'a, L, R> as Runs<L>>⟧.rests result }
    {
        Runner {
            seat,
            stm,
            bell,
            flight: None,
        }
    }

    /// The caller, once no attempt is under way.
    pub fn into_caller(self) -> Caller<'a, L, R>
        requires rests { ⟦<Runner<'a, L, R> as Runs<L>>⟧.rests self }
        ensures same_references { (result.seat.ghost_name ≡ self.entry.seat.ghost_name) × (result.bell.ghost_name ≡ self.entry.bell.ghost_name) }
        ensures same { (result.seat.now ≡ self.entry.seat.now) × (result.bell.now ≡ self.entry.bell.now) × (result.stm.now ≡ self.entry.stm.now) }
        ensures begins { MayBegin (L.lawful self.entry.stm.now.law) (L.may self.entry.stm.now.law) self.entry.stm.now self.entry.seat.now }
    {
        let Runner {
            seat,
            stm,
            bell,
            flight,
        } = self;
        drop(flight);
        Caller { seat, stm, bell }
    }

    // It is asked for something, and tells what it was answered by.
    fn ask(&mut self, ask: Ask) -> Result<Option<u64>, Cause>
        requires body { IsOfBodies ask }
        requires able { IfSome self.old.flight (λ flight. MayAsk (cells_in_stm self.old.stm.now) flight.attempt ask) }
        ensures same_table { self.new.stm.now ≡ self.old.stm.now }
        ensures names { (self.new.seat.ghost_name ≡ self.old.seat.ghost_name) × (self.new.bell.ghost_name ≡ self.old.bell.ghost_name) }
        ensures went { WentBy self.old.flight self.old.seat.now (R.rings self.old.bell.now) self.new.flight self.new.seat.now (R.rings self.new.bell.now) }
        ensures tells { Tells (L.lawful self.old.stm.now.law) ask result (state_by self.old.stm.now self.old.flight) (state_by self.old.stm.now self.new.flight) }
    {
        match &mut self.flight {
            None => Err(Cause::Memory),
            Some(flight) => ask_of(self.seat, self.stm, self.bell, &mut Quiet, flight, ask),
        }
    }
}

// The attempt is asked for something, and tells what it was answered by.
fn ask_of<L: HeapLaw, R: Bell, H: Hooks>(
    seat: &mut Seat<L>,
    stm: &Stm<L>,
    bell: &mut R,
    hooks: &mut H,
    flight: &mut Flight<L>,
    ask: Ask,
) -> Result<Option<u64>, Cause>
    requires here { IsHere stm.now seat.old flight.old }
    requires going { flight.old.attempt.stage ≢ Ended }
    requires body { IsOfBodies ask }
    requires able { MayAsk (cells_in_stm stm.now) flight.old.attempt ask }
    ensures here { IsHere stm.now seat.new flight.new }
    ensures going { flight.new.attempt.stage ≢ Ended }
    ensures knows { Knows (L.lawful stm.now.law) (cells_in_stm stm.now) flight.new.attempt }
    ensures went { Went (moment seat.old flight.old.attempt (H.runs hooks.old) (R.rings bell.old)) (moment seat.new flight.new.attempt (H.runs hooks.new) (R.rings bell.new)) }
    ensures tells { Tells (L.lawful stm.now.law) ask result (state_on stm.now flight.old.attempt) (state_on stm.now flight.new.attempt) }
{
    flight.stands();
    flight.ask(seat, stm, bell, hooks, ask);
    flight.told()
}

#[tactic(auto, unfolding(crate::specs::Flights::Tells, crate::specs::Flights::IsOfBodies, stm_model::specs::Moves::MayAsk))]
impl<'a, L: HeapLaw, R: Bell> Cells<L> for Runner<'a, L, R> {
    ghost law = { λ cells. cells.stm.now.law };

    ghost state = { λ cells. state_by cells.stm.now cells.flight };

    ghost follows = { λ before after. (after.seat.ghost_name ≡ before.seat.ghost_name) × (after.bell.ghost_name ≡ before.bell.ghost_name)
        × (after.stm.now ≡ before.stm.now)
        × WentBy before.flight before.seat.now (R.rings before.bell.now) after.flight after.seat.now (R.rings after.bell.now) };

    ghost follows_refl = { λ cells. (refl, refl, refl, went_by_self cells.flight cells.seat.now (R.rings cells.bell.now)) };

    ghost follows_trans = { λ first second third one two. (two.0 ∙ one.0, two.1 ∙ one.1, two.2 ∙ one.2, went_by_on first.flight second.flight third.flight _ _ _ _ _ _ one.3 two.3) };

    ghost witness = { λ cells. ∥∥₁_map cells.witness (witness_map _ _ _ _ (L.lawful_of cells.stm.now.law)) };

    ghost words = { λ cells. cells.words };

    ghost answered = { λ cells. cells.answered };

    ghost deep = { λ cells. cells.deep };

    fn size(&self) -> u32 {
        self.stm.cells()
    }

    fn get(&mut self, addr: Addr) -> Result<u64, Cause> {
        match self.ask(Ask::Get(addr)) {
            Ok(Some(value)) => Ok(value),
            Ok(None) => unreachable!(),
            Err(cause) => Err(cause),
        }
    }

    fn set(&mut self, addr: Addr, value: u64) -> Result<(), Cause> {
        match self.ask(Ask::Set(addr, value)) {
            Ok(_) => Ok(()),
            Err(cause) => Err(cause),
        }
    }

    fn enter(&mut self) -> Result<(), Cause> {
        match self.ask(Ask::Enter) {
            Ok(_) => Ok(()),
            Err(cause) => Err(cause),
        }
    }

    fn keep(&mut self) {
        let _ = self.ask(Ask::Keep);
    }

    fn undo(&mut self) {
        let _ = self.ask(Ask::Undo);
    }

    fn hook(&mut self, phase: HookPhase, token: u64) -> Result<(), Cause> {
        match self.ask(Ask::Hook(phase, token)) {
            Ok(_) => Ok(()),
            Err(cause) => Err(cause),
        }
    }

    fn later(&mut self, token: u64) -> Result<(), Cause> {
        match self.ask(Ask::Later(token)) {
            Ok(_) => Ok(()),
            Err(cause) => Err(cause),
        }
    }
}

impl<'a, L: HeapLaw, R: Bell> Runs<L> for Runner<'a, L, R> {
    ghost stm = { λ runner. runner.stm.now };

    ghost caller = { λ runner. caller_of runner.seat.now None (R.rings runner.bell.now) };

    ghost rests = { λ runner. (runner.flight ≡ None) × MayBegin (L.lawful runner.stm.now.law) (L.may runner.stm.now.law) runner.stm.now runner.seat.now };

    ghost begun = { λ before after. (after.seat.ghost_name ≡ before.seat.ghost_name) × (after.bell.ghost_name ≡ before.bell.ghost_name)
        × (after.stm.now ≡ before.stm.now)
        × BegunBy (L.lawful before.stm.now.law) (L.may before.stm.now.law) before.stm.now before.seat.now (R.rings before.bell.now) after.seat.now after.flight (R.rings after.bell.now) };

    ghost same = { λ before after. (after.seat.ghost_name ≡ before.seat.ghost_name) × (after.bell.ghost_name ≡ before.bell.ghost_name)
        × IsSameCaller before.stm.now after.stm.now before.seat.now after.seat.now };

    ghost begun_on = { λ first second third begun goes. (
      goes.0 ∙ begun.0,
      goes.1 ∙ begun.1,
      goes.2 ∙ begun.2,
      begun_later _ _ _ _ _ second.flight third.flight _ _ _ _ begun.3 goes.3,
    ) };

    ghost same_table = { λ first second begun. ap (λ stm. stm.law) begun.2 };

    fn begin<T: Drop>(&mut self) -> Option<Outcome<T>> {
        if is_spent(self.seat, self.stm) {
            return Some(spent(self.seat));
        }
        let lists = self.seat.lend();
        let flight = Flight::begin(self.seat, self.stm, lists);
        put(&mut self.flight, flight);
        None
    }

    fn finish<T: Drop>(&mut self, answer: Result<T, Cause>) -> Outcome<T> {
        let Some(flight) = self.flight.take() else {
            unreachable!()
        };
        let mut flight = flight;
        let outcome = end_of(
            self.seat,
            self.stm,
            self.bell,
            &mut Quiet,
            &mut flight,
            answer,
        );
        self.seat.give_back(lists_of(flight.into_running()));
        outcome
    }
}

// What a closure has run before the commit.
#[derive(Clone, Copy)]
struct Nothing;

impl<L: Law> Body<L> for Nothing {
    type Out = ();

    ghost fits = { λ body law size. Unit {0} };

    ghost means = { λ body heap before answer after left. (answer ≡ Ok tt) × (after ≡ before) };

    ghost leaves = { λ body heap before left. Unit {0} };

    ghost late_means = { λ body token heap before answer after left. (answer ≡ Ok tt) × (after ≡ before) };

    ghost late_leaves = { λ body token heap before left. Unit {0} };

    fn run<C: Cells<L>>(&mut self, _cells: &mut C) -> Result<(), Cause> {
        Ok(())
    }

    fn late<C: Cells<L>>(&mut self, _cells: &mut C, _token: u64) -> Result<(), Cause> {
        Ok(())
    }
}

// The value is put in this place.
fn put<T: Drop>(place: &mut Option<T>, value: T)
    ensures { place.new ≡ Some value }
{
    *place = Some(value);
}

// A closure has given its answer, and its attempt goes on until it is over.
fn end_of<L: HeapLaw, R: Bell, H: Hooks, T: Drop>(
    seat: &mut Seat<L>,
    stm: &Stm<L>,
    bell: &mut R,
    hooks: &mut H,
    flight: &mut Flight<L>,
    answer: Result<T, Cause>,
) -> Outcome<T>
    requires here { IsHere stm.now seat.old flight.old }
    requires ends { MayEndWith (L.lawful stm.now.law) (L.may stm.now.law) (cells_in_stm stm.now) flight.old.attempt answer }
    ensures ended { EndedSo (L.lawful stm.now.law) (L.may stm.now.law) stm.now (moment seat.old flight.old.attempt (H.runs hooks.old) (R.rings bell.old))
        (moment seat.new flight.new.attempt (H.runs hooks.new) (R.rings bell.new)) answer result }
{
    flight.stands();
    match answer {
        Ok(out) => {
            take_turns(seat, stm, bell, hooks, flight, &mut Nothing);
            flight.stands();
            outcome_of(flight.ending(), Some(out))
        }
        Err(cause) => {
            flight.ask(seat, stm, bell, hooks, Ask::Abandon(cause));
            outcome_of(flight.ending(), None)
        }
    }
}
