//! Bodies of a single operation on one cell. Each says of itself which operation it does on each heap.
ghost use Rattle.std.specs.Prelude.{◌≡◌, ℕ, List, MatchResult};
ghost use Rattle.ref_views.specs.Operating.{MayWrite, Operated, compares, gets, sets, swaps};
ghost use Rattle.ref_views.specs.Typed.{IsCellOf};

use crate::Ref;
use stm_model::{Body, Cause, Cells, Law, WordValue};

/// Reads a cell.
#[derive(Drop)]
pub struct Getting<T> {
    pub cell: Ref<T>,
}

impl<L: Law, T: WordValue> Body<L> for Getting<T> {
    type Out = T;

    ghost fits = { λ body law size. IsCellOf T.value_of (L.lawful law) size body.cell.addr.0 };

    ghost means = { λ body heap before answer after left. (left ≡ body)
        × MatchResult answer (λ out. Operated T.word_of T.value_of body.cell.addr.0 gets heap before out after) (λ _. ⊥) };

    ghost leaves = { λ body heap before left. left ≡ body };

    ghost late_means = { λ body token heap before answer after left. (left ≡ body) × MatchResult answer (λ _. after ≡ before) (λ _. ⊥) };

    ghost late_leaves = { λ body token heap before left. left ≡ body };

    fn run<C: Cells<L>>(&mut self, cells: &mut C) -> Result<T, Cause> {
        let value = self.cell.get(cells)?;
        Ok(value)
    }

    fn late<C: Cells<L>>(&mut self, _cells: &mut C, _token: u64) -> Result<(), Cause> {
        Ok(())
    }
}

/// Puts a value into a cell.
#[derive(Drop)]
pub struct Setting<T> {
    pub cell: Ref<T>,
    pub value: T,
}

impl<L: Law, T: WordValue> Body<L> for Setting<T> {
    type Out = ();

    ghost fits = { λ body law size. IsCellOf T.value_of (L.lawful law) size body.cell.addr.0
        × MayWrite T.word_of T.value_of (L.lawful law) (L.may law) body.cell.addr.0 (sets body.value) };

    ghost means = { λ body heap before answer after left. (left ≡ body)
        × MatchResult answer (λ out. Operated T.word_of T.value_of body.cell.addr.0 (sets body.value) heap before out after) (λ _. ⊥) };

    ghost leaves = { λ body heap before left. left ≡ body };

    ghost late_means = { λ body token heap before answer after left. (left ≡ body) × MatchResult answer (λ _. after ≡ before) (λ _. ⊥) };

    ghost late_leaves = { λ body token heap before left. left ≡ body };

    fn run<C: Cells<L>>(&mut self, cells: &mut C) -> Result<(), Cause> {
        self.cell.set(cells, self.value)?;
        Ok(())
    }

    fn late<C: Cells<L>>(&mut self, _cells: &mut C, _token: u64) -> Result<(), Cause> {
        Ok(())
    }
}

/// Puts a value in place of the former one.
#[derive(Drop)]
pub struct Swapping<T> {
    pub cell: Ref<T>,
    pub value: T,
}

impl<L: Law, T: WordValue> Body<L> for Swapping<T> {
    type Out = T;

    ghost fits = { λ body law size. IsCellOf T.value_of (L.lawful law) size body.cell.addr.0
        × MayWrite T.word_of T.value_of (L.lawful law) (L.may law) body.cell.addr.0 (swaps body.value) };

    ghost means = { λ body heap before answer after left. (left ≡ body)
        × MatchResult answer (λ out. Operated T.word_of T.value_of body.cell.addr.0 (swaps body.value) heap before out after) (λ _. ⊥) };

    ghost leaves = { λ body heap before left. left ≡ body };

    ghost late_means = { λ body token heap before answer after left. (left ≡ body) × MatchResult answer (λ _. after ≡ before) (λ _. ⊥) };

    ghost late_leaves = { λ body token heap before left. left ≡ body };

    fn run<C: Cells<L>>(&mut self, cells: &mut C) -> Result<T, Cause> {
        let former = self.cell.swap(cells, self.value)?;
        Ok(former)
    }

    fn late<C: Cells<L>>(&mut self, _cells: &mut C, _token: u64) -> Result<(), Cause> {
        Ok(())
    }
}

/// Puts a new value into a cell that holds the old one.
#[derive(Drop)]
pub struct Comparing<T> {
    pub cell: Ref<T>,
    pub old: T,
    pub new: T,
}

impl<L: Law, T: WordValue> Body<L> for Comparing<T> {
    type Out = bool;

    ghost fits = { λ body law size. IsCellOf T.value_of (L.lawful law) size body.cell.addr.0
        × MayWrite T.word_of T.value_of (L.lawful law) (L.may law) body.cell.addr.0 (compares body.old body.new) };

    ghost means = { λ body heap before answer after left. (left ≡ body)
        × MatchResult answer (λ out. Operated T.word_of T.value_of body.cell.addr.0 (compares body.old body.new) heap before out after) (λ _. ⊥) };

    ghost leaves = { λ body heap before left. left ≡ body };

    ghost late_means = { λ body token heap before answer after left. (left ≡ body) × MatchResult answer (λ _. after ≡ before) (λ _. ⊥) };

    ghost late_leaves = { λ body token heap before left. left ≡ body };

    fn run<C: Cells<L>>(&mut self, cells: &mut C) -> Result<bool, Cause> {
        let former = self.cell.get(cells)?;
        if former.to_word() != self.old.to_word() {
            return Ok(false);
        }
        self.cell.set(cells, self.new)?;
        Ok(true)
    }

    fn late<C: Cells<L>>(&mut self, _cells: &mut C, _token: u64) -> Result<(), Cause> {
        Ok(())
    }
}
