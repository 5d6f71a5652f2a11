//! The cells of an attempt on the shared table.
ghost use Rattle.std.specs.Prelude.{◌≡◌, ◌≢◌, ◌≤◌, ◌<◌, ℕ, List, length, IfSome, None, Option, Some};
ghost use Rattle.std.specs.Map.{values_of};
ghost use Rattle.std.proofs.Common.{◌∙◌, refl, subst, sym};
ghost use Rattle.std.proofs.Math.Logic.{∥∥₁_map};
ghost use Rattle.stm_model.specs.Attempt.{Ended, cause_at};
ghost use Rattle.stm_model.specs.Heap.{AreWords};
ghost use Rattle.stm_model.specs.Moves.{MayAsk};
ghost use Rattle.stm_model.specs.Refusing.{IsOfCells, deepest};
ghost use Rattle.stm_model.specs.Telling.{Witness};
ghost use Rattle.txn_drive.specs.Moment.{moment};
ghost use Rattle.txn_run.specs.Flights.{IsHere, IsOfBodies, Tells, Went, cells_in_stm, state_on, told_at};
ghost use Rattle.txn_run.specs.Facts.{AreWords-prop, IsAnswer-prop, went_on, went_self, witness_map};

use crate::flights::Flight;
use ref_table::{Seat, Stm};
use stm_model::{Addr, Bell, Cause, Cells, HookPhase, Hooks, Law};
use txn_drive::Ask;

/// The law of a heap, for the facts that cells keep.
pub trait HeapLaw: Law {
    ghost heaps: { Self → List ℕ → Type 0 };

    ghost lawful_of: { (law : Self) (heap : List ℕ) → heaps law heap → Self.lawful law heap };

    ghost heaps_of: { (law : Self) (heap : List ℕ) → Self.lawful law heap → heaps law heap };
}

impl<L: Law> HeapLaw for L {
    ghost heaps = { L.lawful };

    ghost lawful_of = { λ _ _ lawful. lawful };

    ghost heaps_of = { λ _ _ lawful. lawful };
}

/// The cells of an attempt. Calls of it go to the shared table, by the seat of its caller.
#[derive(Drop)]
pub struct Txn<'a, L: HeapLaw, R: Bell, H: Hooks> {
    pub(crate) seat: &'a mut Seat<L>,
    pub(crate) stm: &'a Stm<L>,
    pub(crate) bell: &'a mut R,
    pub(crate) hooks: &'a mut H,
    pub(crate) flight: &'a mut Flight<L>,
    ghost here: { IsHere stm.now seat.now flight.now },
    ghost going: { flight.now.attempt.stage ≢ Ended },
    ghost witness: { ∥ Witness (L.heaps stm.now.law) (cells_in_stm stm.now) flight.now.attempt.notes ∥₁ },
    ghost words: { AreWords (values_of flight.now.attempt.now.writes) } by { AreWords-prop (values_of flight.now.attempt.now.writes) },
    ghost answered: { IfSome (cause_at flight.now.attempt.stage) IsOfCells } by { IsAnswer-prop (cause_at flight.now.attempt.stage) },
    ghost deep: { length flight.now.attempt.saved ≤ deepest },
}

impl<'a, L: HeapLaw, R: Bell, H: Hooks> Txn<'a, L, R, H> {
    // It is asked for something, and tells what it was answered by.
    #[inline(always)]
    fn ask(&mut self, ask: Ask) -> Result<Option<u64>, Cause>
        requires body { IsOfBodies ask }
        requires able { MayAsk (cells_in_stm self.old.stm.now) self.old.flight.now.attempt ask }
        ensures same_table { self.new.stm.now ≡ self.old.stm.now }
        ensures names { (self.new.seat.ghost_name ≡ self.old.seat.ghost_name) × (self.new.bell.ghost_name ≡ self.old.bell.ghost_name)
            × (self.new.hooks.ghost_name ≡ self.old.hooks.ghost_name) × (self.new.flight.ghost_name ≡ self.old.flight.ghost_name) }
        ensures went { Went (moment self.old.seat.now self.old.flight.now.attempt (H.runs self.old.hooks.now) (R.rings self.old.bell.now))
            (moment self.new.seat.now self.new.flight.now.attempt (H.runs self.new.hooks.now) (R.rings self.new.bell.now)) }
        ensures tells { Tells (L.lawful self.old.stm.now.law) ask result (state_on self.old.stm.now self.old.flight.now.attempt) (state_on self.old.stm.now self.new.flight.now.attempt) }
    {
        self.flight.stands();
        self.flight
            .ask(self.seat, self.stm, self.bell, self.hooks, ask);
        self.flight.told()
    }
}

#[tactic(auto, unfolding(crate::specs::Flights::Tells, crate::specs::Flights::IsOfBodies, stm_model::specs::Moves::MayAsk))]
impl<'a, L: HeapLaw, R: Bell, H: Hooks> Cells<L> for Txn<'a, L, R, H> {
    ghost law = { λ cells. cells.stm.now.law };

    ghost state = { λ cells. state_on cells.stm.now cells.flight.now.attempt };

    ghost follows = { λ before after. (after.seat.ghost_name ≡ before.seat.ghost_name) × (after.bell.ghost_name ≡ before.bell.ghost_name)
        × (after.hooks.ghost_name ≡ before.hooks.ghost_name) × (after.flight.ghost_name ≡ before.flight.ghost_name)
        × (after.stm.now ≡ before.stm.now)
        × Went (moment before.seat.now before.flight.now.attempt (H.runs before.hooks.now) (R.rings before.bell.now))
        (moment after.seat.now after.flight.now.attempt (H.runs after.hooks.now) (R.rings after.bell.now)) };

    ghost follows_refl = { λ cells. (refl, refl, refl, refl, refl, went_self _) };

    ghost follows_trans = { λ first second third one two. (two.0 ∙ one.0, two.1 ∙ one.1, two.2 ∙ one.2, two.3 ∙ one.3, two.4 ∙ one.4, went_on _ _ _ one.5 two.5) };

    ghost witness = { λ cells. ∥∥₁_map cells.witness (witness_map _ _ _ _ (L.lawful_of cells.stm.now.law)) };

    ghost words = { λ cells. cells.words };

    ghost answered = { λ cells. cells.answered };

    ghost deep = { λ cells. cells.deep };

    fn size(&self) -> u32 {
        self.stm.cells()
    }

    #[inline(always)]
    fn get(&mut self, addr: Addr) -> Result<u64, Cause> {
        match self.ask(Ask::Get(addr)) {
            Ok(Some(value)) => Ok(value),
            Ok(None) => unreachable!(),
            Err(cause) => Err(cause),
        }
    }

    #[inline(always)]
    fn set(&mut self, addr: Addr, value: u64) -> Result<(), Cause> {
        match self.ask(Ask::Set(addr, value)) {
            Ok(_) => Ok(()),
            Err(cause) => Err(cause),
        }
    }

    fn enter(&mut self) -> Result<(), Cause> {
        match self.ask(Ask::Enter) {
            Ok(_) => Ok(()),
            Err(cause) => Err(cause),
        }
    }

    fn keep(&mut self) {
        let _ = self.ask(Ask::Keep);
    }

    fn undo(&mut self) {
        let _ = self.ask(Ask::Undo);
    }

    fn hook(&mut self, phase: HookPhase, token: u64) -> Result<(), Cause> {
        match self.ask(Ask::Hook(phase, token)) {
            Ok(_) => Ok(()),
            Err(cause) => Err(cause),
        }
    }

    fn later(&mut self, token: u64) -> Result<(), Cause> {
        match self.ask(Ask::Later(token)) {
            Ok(_) => Ok(()),
            Err(cause) => Err(cause),
        }
    }
}
