//! Single operations on one cell that call a closure on its value, and their bodies.
ghost use Rattle.std.specs.Prelude.{◌≡◌, ◌⊎◌, ℕ, List, MatchResult, None, Some};
ghost use Rattle.stm_model.specs.Heap.{over};
ghost use Rattle.ref_views.specs.Operating.{MayWrite, Operated, Operates, answering, called_on, exchanges, gets_with, transforms, transforms_if_defined};
ghost use Rattle.ref_views.specs.Typed.{CanHold, Holds, IsCellOf};
ghost use Rattle.txn_run.specs.Callers.{IsSameCaller, MayBegin, caller_of};
ghost use Rattle.txn_run.specs.Flights.{cells_in_stm};

use crate::Ref;
use stm_model::{Bell, Body, Cause, Cells, Law, Quiet, WordValue};
use txn_run::{Caller, Outcome, attempt};

/// A value and the one that was put in its place.
#[derive(Clone, Copy)]
pub struct Exchanged<T> {
    pub former: T,
    pub value: T,
}

/// Puts what a closure makes of the value in its place.
#[derive(Drop)]
pub struct Transforming<'a, T, F> {
    pub cell: Ref<T>,
    pub f: &'a mut F,
}

impl<'a, L: Law, T: WordValue, F: FnMut(T) -> T> Body<L> for Transforming<'a, T, F> {
    type Out = Exchanged<T>;

    ghost fits = { λ body law size. IsCellOf T.value_of (L.lawful law) size body.cell.addr.0
        × ((f : F) (value : T) → CanHold T.value_of (L.lawful law) size body.cell.addr.0 value → F.pre f value)
        × ((f left : F) → MayWrite T.word_of T.value_of (L.lawful law) (L.may law) body.cell.addr.0 (transforms (λ f former value left. F.step f former value left) f left)) };

    ghost means = { λ body heap before answer after left. (left.cell ≡ body.cell) × (left.f.ghost_name ≡ body.f.ghost_name)
        × MatchResult answer (λ out. Operated T.word_of T.value_of body.cell.addr.0 (exchanges (λ f former value left. F.step f former value left) body.f.now left.f.now) heap before out after) (λ _. ⊥) };

    ghost leaves = { λ body heap before left. (left.cell ≡ body.cell) × (left.f.ghost_name ≡ body.f.ghost_name)
        × (called_on (λ f former value left. F.step f former value left) body.f.now left.f.now None
        ⊎ ((former : T) × called_on (λ f former value left. F.step f former value left) body.f.now left.f.now (Some former) × Holds T.value_of body.cell.addr.0 former (over heap before.writes))) };

    ghost late_means = { λ body token heap before answer after left. (left ≡ body) × MatchResult answer (λ _. after ≡ before) (λ _. ⊥) };

    ghost late_leaves = { λ body token heap before left. left ≡ body };

    fn run<C: Cells<L>>(&mut self, cells: &mut C) -> Result<Exchanged<T>, Cause> {
        let former = self.cell.get(cells)?;
        let value = (self.f)(former);
        self.cell.set(cells, value)?;
        Ok(Exchanged { former, value })
    }

    fn late<C: Cells<L>>(&mut self, _cells: &mut C, _token: u64) -> Result<(), Cause> {
        Ok(())
    }
}

/// Puts what a closure makes of the value in its place, if it makes one.
#[derive(Drop)]
pub struct TransformingIfDefined<'a, T, F> {
    pub cell: Ref<T>,
    pub f: &'a mut F,
}

impl<'a, L: Law, T: WordValue, F: FnMut(T) -> Option<T>> Body<L>
    for TransformingIfDefined<'a, T, F> {
    type Out = bool;

    ghost fits = { λ body law size. IsCellOf T.value_of (L.lawful law) size body.cell.addr.0
        × ((f : F) (value : T) → CanHold T.value_of (L.lawful law) size body.cell.addr.0 value → F.pre f value)
        × ((f left : F) → MayWrite T.word_of T.value_of (L.lawful law) (L.may law) body.cell.addr.0 (transforms_if_defined (λ f former value left. F.step f former value left) f left)) };

    ghost means = { λ body heap before answer after left. (left.cell ≡ body.cell) × (left.f.ghost_name ≡ body.f.ghost_name)
        × MatchResult answer (λ out. Operated T.word_of T.value_of body.cell.addr.0 (transforms_if_defined (λ f former value left. F.step f former value left) body.f.now left.f.now) heap before out after) (λ _. ⊥) };

    ghost leaves = { λ body heap before left. (left.cell ≡ body.cell) × (left.f.ghost_name ≡ body.f.ghost_name)
        × (called_on (λ f former value left. F.step f former value left) body.f.now left.f.now None
        ⊎ ((former : T) × called_on (λ f former value left. F.step f former value left) body.f.now left.f.now (Some former) × Holds T.value_of body.cell.addr.0 former (over heap before.writes))) };

    ghost late_means = { λ body token heap before answer after left. (left ≡ body) × MatchResult answer (λ _. after ≡ before) (λ _. ⊥) };

    ghost late_leaves = { λ body token heap before left. left ≡ body };

    fn run<C: Cells<L>>(&mut self, cells: &mut C) -> Result<bool, Cause> {
        let former = self.cell.get(cells)?;
        let Some(value) = (self.f)(former) else {
            return Ok(false);
        };
        self.cell.set(cells, value)?;
        Ok(true)
    }

    fn late<C: Cells<L>>(&mut self, _cells: &mut C, _token: u64) -> Result<(), Cause> {
        Ok(())
    }
}

/// Answers what a closure makes of the value.
#[derive(Drop)]
pub struct GettingWith<'a, T, F> {
    pub cell: Ref<T>,
    pub f: &'a mut F,
}

impl<'a, L: Law, T: WordValue, Z: Drop, F: FnMut(T) -> Z> Body<L> for GettingWith<'a, T, F> {
    type Out = Z;

    ghost fits = { λ body law size. IsCellOf T.value_of (L.lawful law) size body.cell.addr.0
        × ((f : F) (value : T) → CanHold T.value_of (L.lawful law) size body.cell.addr.0 value → F.pre f value) };

    ghost means = { λ body heap before answer after left. (left.cell ≡ body.cell) × (left.f.ghost_name ≡ body.f.ghost_name)
        × MatchResult answer (λ out. Operated T.word_of T.value_of body.cell.addr.0 (gets_with (λ f former value left. F.step f former value left) body.f.now left.f.now) heap before out after) (λ _. ⊥) };

    ghost leaves = { λ body heap before left. (left.cell ≡ body.cell) × (left.f.ghost_name ≡ body.f.ghost_name)
        × (called_on (λ f former value left. F.step f former value left) body.f.now left.f.now None
        ⊎ ((former : T) × called_on (λ f former value left. F.step f former value left) body.f.now left.f.now (Some former) × Holds T.value_of body.cell.addr.0 former (over heap before.writes))) };

    ghost late_means = { λ body token heap before answer after left. (left ≡ body) × MatchResult answer (λ _. after ≡ before) (λ _. ⊥) };

    ghost late_leaves = { λ body token heap before left. left ≡ body };

    fn run<C: Cells<L>>(&mut self, cells: &mut C) -> Result<Z, Cause> {
        let value = self.cell.get(cells)?;
        Ok((self.f)(value))
    }

    fn late<C: Cells<L>>(&mut self, _cells: &mut C, _token: u64) -> Result<(), Cause> {
        Ok(())
    }
}

/// One attempt to put what a closure makes of a cell's value in its place.
pub fn exchange<L: Law, R: Bell, T: WordValue, F: FnMut(T) -> T>(
    caller: &mut Caller<'_, L, R>,
    cell: Ref<T>,
    f: &mut F,
) -> Outcome<Exchanged<T>>
    requires begins { MayBegin (L.lawful caller.old.stm.now.law) (L.may caller.old.stm.now.law) caller.old.stm.now caller.old.seat.now }
    requires typed { IsCellOf T.value_of (L.lawful caller.old.stm.now.law) (cells_in_stm caller.old.stm.now) cell.addr.0 }
    requires callable { (state : F) (value : T) →
        CanHold T.value_of (L.lawful caller.old.stm.now.law) (cells_in_stm caller.old.stm.now) cell.addr.0 value → F.pre state value }
    requires allowed { (state left : F) → MayWrite T.word_of T.value_of (L.lawful caller.old.stm.now.law) (L.may caller.old.stm.now.law) cell.addr.0
        (transforms (λ f former value left. F.step f former value left) state left) }
    ensures same_references { (caller.new.seat.ghost_name ≡ caller.old.seat.ghost_name) × (caller.new.bell.ghost_name ≡ caller.old.bell.ghost_name) }
    ensures same { IsSameCaller caller.old.stm.now caller.new.stm.now caller.old.seat.now caller.new.seat.now }
    ensures begins { MayBegin (L.lawful caller.old.stm.now.law) (L.may caller.old.stm.now.law) caller.old.stm.now caller.new.seat.now }
    ensures operates { Operates T.word_of T.value_of cell.addr.0 (exchanges (λ f former value left. F.step f former value left) f.old f.new) (called_on (λ f former value left. F.step f former value left) f.old f.new) caller.old.stm.now
        (caller_of caller.old.seat.now None (R.rings caller.old.bell.now)) (caller_of caller.new.seat.now None (R.rings caller.new.bell.now)) result }
{
    let mut body = Transforming { cell, f };
    attempt(caller, &mut body, &mut Quiet)
}

/// The outcome, of whose answer nothing is told.
pub fn only_done<T: WordValue>(outcome: Outcome<Exchanged<T>>) -> Outcome<()>
    ensures { result ≡ answering (λ exchanged. tt) outcome }
{
    match outcome {
        Outcome::Committed { out: _, stamp } => Outcome::Committed { out: (), stamp },
        Outcome::Read { out: _, prefix } => Outcome::Read { out: (), prefix },
        Outcome::Rolled { cause, prefix } => Outcome::Rolled { cause, prefix },
    }
}

/// The outcome with the former value for its answer.
pub fn only_former<T: WordValue>(outcome: Outcome<Exchanged<T>>) -> Outcome<T>
    ensures { result ≡ answering (λ exchanged. exchanged.former) outcome }
{
    match outcome {
        Outcome::Committed { out, stamp } => Outcome::Committed {
            out: out.former,
            stamp,
        },
        Outcome::Read { out, prefix } => Outcome::Read {
            out: out.former,
            prefix,
        },
        Outcome::Rolled { cause, prefix } => Outcome::Rolled { cause, prefix },
    }
}

/// The outcome with the new value for its answer.
pub fn only_value<T: WordValue>(outcome: Outcome<Exchanged<T>>) -> Outcome<T>
    ensures { result ≡ answering (λ exchanged. exchanged.value) outcome }
{
    match outcome {
        Outcome::Committed { out, stamp } => Outcome::Committed {
            out: out.value,
            stamp,
        },
        Outcome::Read { out, prefix } => Outcome::Read {
            out: out.value,
            prefix,
        },
        Outcome::Rolled { cause, prefix } => Outcome::Rolled { cause, prefix },
    }
}
