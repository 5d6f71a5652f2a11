//! What runs on cells: the body of a transaction, and the alternatives of a choice.
ghost use Rattle.std.specs.Prelude.{◌≡◌, ◌↔◌, ◌<◌, ℕ, List, Result};
ghost use Rattle.stm_model.specs.CellsState.{Book};
ghost use Rattle.stm_model.specs.Ran.{Running};
ghost use Rattle.stm_model.specs.Telling.{Owing};
ghost use Rattle.stm_model.specs.declared.cause.Cause.{Cause};

use crate::{Cause, Cells, Law};

/// The body of a transaction. It says of itself what it does on each heap.
pub trait Body<L: Law> {
    type Out: Drop;

    /// The laws and the numbers of cells that the body is for.
    ghost fits: { Self → L → ℕ → Type 0 };

    /// On this heap and from this book, `run` gives this answer, this book and this body.
    ghost means: { Self → List ℕ → Book → Result Self.Out Cause → Book → Self → Type 0 };

    /// On this heap and from this book, a `run` that may have been cut short leaves this body.
    ghost leaves: { Self → List ℕ → Book → Self → Type 0 };

    /// `late` with this token, likewise.
    ghost late_means: { Self → ℕ → List ℕ → Book → Result (Unit {0}) Cause → Book → Self → Type 0 };

    ghost late_leaves: { Self → ℕ → List ℕ → Book → Self → Type 0 };

    fn run<C: Cells<L>>(&mut self, cells: &mut C) -> Result<Self::Out, Cause>
        requires fits { fits self.old (C.law cells.old) (C.state cells.old).size }
        requires owes { Owing (L.lawful (C.law cells.old)) (L.may (C.law cells.old)) (C.state cells.old) }
        ensures fits { (law : L) (size : ℕ) → fits self.old law size ↔ fits self.new law size }
        ensures ran { Running L.lawful L.may C.law C.follows C.state cells.old cells.new
            (λ heap before answer after. means self.old heap before answer after self.new)
            (λ heap before. leaves self.old heap before self.new)
            result };

    /// The before-commit body that `run` registered under this token.
    fn late<C: Cells<L>>(&mut self, cells: &mut C, token: u64) -> Result<(), Cause>
        requires fits { fits self.old (C.law cells.old) (C.state cells.old).size }
        requires owes { Owing (L.lawful (C.law cells.old)) (L.may (C.law cells.old)) (C.state cells.old) }
        ensures fits { (law : L) (size : ℕ) → fits self.old law size ↔ fits self.new law size }
        ensures ran { Running L.lawful L.may C.law C.follows C.state cells.old cells.new
            (λ heap before answer after. late_means self.old token heap before answer after self.new)
            (λ heap before. late_leaves self.old token heap before self.new)
            result };
}

/// Alternatives, of which the first that doesn't ask for a retry is taken.
pub trait Choices<L: Law> {
    type Out: Drop;

    ghost number: { Self → ℕ };

    /// The laws and the numbers of cells that the alternatives are for.
    ghost fits: { Self → L → ℕ → Type 0 };

    /// On this heap and from this book, the alternative of this index gives this answer, this book and these alternatives.
    ghost means: { Self → ℕ → List ℕ → Book → Result Self.Out Cause → Book → Self → Type 0 };

    /// On this heap and from this book, the alternative of this index, which may have been cut short, leaves these alternatives.
    ghost leaves: { Self → ℕ → List ℕ → Book → Self → Type 0 };

    /// How many alternatives there are.
    fn count(&self) -> u32
        ensures { result ≡ number self.now };

    fn run<C: Cells<L>>(&mut self, index: u32, cells: &mut C) -> Result<Self::Out, Cause>
        requires index { index < number self.old }
        requires fits { fits self.old (C.law cells.old) (C.state cells.old).size }
        requires owes { Owing (L.lawful (C.law cells.old)) (L.may (C.law cells.old)) (C.state cells.old) }
        ensures number { number self.new ≡ number self.old }
        ensures fits { (law : L) (size : ℕ) → fits self.old law size ↔ fits self.new law size }
        ensures ran { Running L.lawful L.may C.law C.follows C.state cells.old cells.new
            (λ heap before answer after. means self.old index heap before answer after self.new)
            (λ heap before. leaves self.old index heap before self.new)
            result };
}
