//! What is owed under the free law. The function does nothing: its clauses are theorems.
ghost use Rattle.std.specs.Prelude.{ℕ, List};
ghost use Rattle.stm_model.specs.Attempt.{Write};
ghost use Rattle.stm_model.specs.declared.access.Ask.{Ask};
ghost use Rattle.world_run.specs.Run.{AsksMeetOwed};
ghost use Rattle.world_run.specs.Simulation.{Simulation, MeetsOwedNext};

use stm_model::{Free, Law};

/// Under the free law any attempt meets what is owed, and so do any asks.
pub fn the_free_law_owes_nothing()
    ensures next { (simulation : Simulation Free) (p : ℕ) → MeetsOwedNext ⟦<Free as Law>⟧.lawful ⟦<Free as Law>⟧.may simulation p }
    ensures asks { (law : Free) (size : ℕ) (writes : List Write) (levels : List (List Write)) (asks : List Ask) →
        AsksMeetOwed (⟦<Free as Law>⟧.lawful law) (⟦<Free as Law>⟧.may law) size writes levels asks }
{}
