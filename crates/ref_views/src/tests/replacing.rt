//! A body of one call on a typed cell.
ghost use Rattle.std.specs.Prelude.{◌≡◌, ◌⊎◌, ℕ, IfOk, List};
ghost use Rattle.stm_model.specs.Heap.{over};
ghost use Rattle.ref_views.specs.Typed.{Holds, IsCellOf, Puts, Replaces};

use crate::Ref;
use stm_model::{Body, Cause, Cells, Law, WordValue};

/// Puts the value that a function makes of the former one.
#[derive(Drop)]
pub struct Replacing<T, F> {
    pub cell: Ref<T>,
    pub f: F,
}

impl<L: Law, T: WordValue, F: FnMut(T) -> T> Body<L> for Replacing<T, F> {
    type Out = ();

    // Each lawful heap with any value put in is lawful, and one that the heap may become.
    ghost fits = { λ body law size. IsCellOf T.value_of (L.lawful law) size body.cell.addr.0
        × ((f : F) (value : T) → F.pre f value)
        × ((value : T) (before after : List ℕ) → L.lawful law before → Puts T.word_of T.value_of body.cell.addr.0 value before after → L.lawful law after × L.may law before after) };

    ghost means = { λ body heap before answer after left.
        (left.cell ≡ body.cell) × IfOk answer (λ _. (former : T) × (value : T) × F.step body.f former value left.f
        × Replaces T.word_of T.value_of body.cell.addr.0 former value (over heap before.writes) (over heap after.writes)
        × (after ≡ record before { writes = after.writes })) };

    ghost leaves = { λ body heap before left. (left.cell ≡ body.cell) × ((left.f ≡ body.f)
        ⊎ ((former : T) × (value : T) × F.step body.f former value left.f × Holds T.value_of body.cell.addr.0 former (over heap before.writes))) };

    ghost late_means = { λ body token heap before answer after left. (left ≡ body) × (after ≡ before) };

    ghost late_leaves = { λ body token heap before left. left ≡ body };

    fn run<C: Cells<L>>(&mut self, cells: &mut C) -> Result<(), Cause> {
        self.cell.transform(cells, &mut self.f)?;
        Ok(())
    }

    fn late<C: Cells<L>>(&mut self, _cells: &mut C, _token: u64) -> Result<(), Cause> {
        Ok(())
    }
}
