//! The laws of typed cells. Each function does nothing: its clauses are theorems.
ghost use Rattle.std.specs.Prelude.{◌≡◌, ◌<◌, ℕ, None};
ghost use Rattle.stm_model.specs.CellsState.{CellsState};
ghost use Rattle.stm_model.specs.Telling.{Extends, StaysLawful};
ghost use Rattle.ref_views.specs.Typed.{HoldsWordOf, IsCellOf, KeepsAllWords};

use stm_model::{Cells, Law, WordValue};

/// Every word is a number. So under any law, and at any moment, each cell holds the word of one.
pub fn each_word_is_a_number<L: Law>()
    ensures lawful { (law : L) (size address : ℕ) → address < size →
        IsCellOf ⟦<u64 as WordValue>⟧.value_of (L.lawful law) size address }
    ensures holds { (law : L) (address : ℕ) (state : CellsState) → address < state.size →
        HoldsWordOf ⟦<u64 as WordValue>⟧.value_of (L.lawful law) address state }
{}

/// A cell that holds a word of the type in every lawful heap does so in a block, as long as what is
/// written there leaves each heap lawful.
pub fn lawful_cells_hold_words<L: Law, C: Cells<L>, T: WordValue>()
    ensures { (cells : C) (address : ℕ) → IsCellOf T.value_of (L.lawful (C.law cells)) (C.state cells).size address →
        StaysLawful (L.lawful (C.law cells)) (C.state cells) →
        HoldsWordOf T.value_of (L.lawful (C.law cells)) address (C.state cells) }
{}

/// Where the same is written as before, each cell that held a word of a type still does. So it is after a
/// level was entered, kept or undone, and after a registration.
pub fn unchanged_writes_keep_words<L: Law, C: Cells<L>>()
    ensures { (before after : C) → C.law after ≡ C.law before → (C.state after).size ≡ (C.state before).size →
        (C.state after).now.writes ≡ (C.state before).now.writes → Extends (C.state before).reads (C.state after).reads →
        ((C.state after).cause ≡ None → (C.state before).cause ≡ None) → KeepsAllWords L.lawful C.law C.state before after }
{}
