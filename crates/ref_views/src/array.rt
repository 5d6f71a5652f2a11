//! Arrays of cells.
ghost use Rattle.std.specs.Prelude.{◌≡◌, ◌+◌, ◌-◌, ◌<◌, ◌≤◌, ◌^◌, None, false, is_ok, MatchResult, ⊤};
ghost use Rattle.std.specs.Iterator.{YieldsFirstBy, item_count};
ghost use Rattle.std.specs.List.{range_with_len};
ghost use Rattle.stm_model.specs.Refusing.{RefusesRead, RefusesWrite};
ghost use Rattle.stm_model.specs.Telling.{Leads, Reading, Stopping, Writing};
ghost use Rattle.ref_views.specs.Typed.{Holds, HoldsWordOf, KeepsAllWords, KeepsWords, Puts};
ghost use Rattle.ref_views.specs.Using.{Uses};

use crate::Ref;
use std::alloc::AllocError;
use std::marker::{Model, PhantomData};
use stm_model::{Addr, Cause, Cells, Law, WordValue};

/// An array has no cell of this index.
#[derive(Clone, Copy, Debug, PartialEq, Eq)]
pub struct OutOfRange;

/// Cells in a row that hold values of a type, as a `TArray` of ScalaSTM.
pub struct TArray<T> {
    pub first: Addr,
    pub len: u32,
    of: PhantomData<T>,
    ghost addressed: { first.0 + len ≤ 2 ^ 32 },
}

impl<T> Clone for TArray<T> {
    ghost is_clone = { λ array copy. copy ≡ array };

    ghost is_infallible = { λ _. ⊤ };

    fn clone(&self) -> Result<TArray<T>, AllocError> {
        Ok(*self)
    }
}

impl<T> Copy for TArray<T> {}

impl<T: WordValue> TArray<T> {
    pub fn new(first: Addr, len: u32) -> TArray<T>
        requires { first.0 + len ≤ 2 ^ 32 }
        ensures first { result.first ≡ first }
        ensures len { result.len ≡ len }
    {
        TArray {
            first,
            len,
            of: PhantomData,
        }
    }

    pub fn len(&self) -> u32
        ensures { result ≡ self.now.len }
    {
        self.len
    }

    /// The cell of this index, from 0.
    pub fn at(&self, index: u32) -> Result<Ref<T>, OutOfRange>
        ensures { MatchResult result
            (λ cell. (index < self.now.len) × (cell.addr.0 ≡ self.now.first.0 + index))
            (λ _. self.now.len ≤ index) }
    {
        if index < self.len {
            Ok(self.cell(index))
        } else {
            Err(OutOfRange)
        }
    }

    fn cell(&self, index: u32) -> Ref<T>
        requires { index < self.now.len }
        ensures { result.addr.0 ≡ self.now.first.0 + index }
    {
        Ref::new(Addr(self.first.0 + index))
    }

    /// As [`Ref::get`] on the cell of this index.
    pub fn get<L: Law, C: Cells<L>>(&self, cells: &mut C, index: u32) -> Result<T, Cause>
        requires range { index < self.now.len }
        requires typed { HoldsWordOf T.value_of (L.lawful (C.law cells.old)) (self.now.first.0 + index) (C.state cells.old) }
        ensures told { MatchResult result
            (λ value. Reading L.lawful C.law C.follows C.state cells.old cells.new
            (Holds T.value_of (self.now.first.0 + index) value))
            (λ cause. Stopping C.law C.follows C.state cells.old cells.new cause) }
        ensures causes { MatchResult result
            (λ _. (C.state cells.old).cause ≡ None)
            (λ cause. (C.state cells.old).cause ≡ None → RefusesRead (C.state cells.old) (self.now.first.0 + index) cause) }
        ensures own { Leads C.law C.follows C.state cells.old cells.new
            (Uses (self.now.first.0 + index) (record { reads = is_ok result; writes = false })) }
        ensures typed { HoldsWordOf T.value_of (L.lawful (C.law cells.new)) (self.now.first.0 + index) (C.state cells.new) }
        ensures kept { KeepsAllWords L.lawful C.law C.state cells.old cells.new }
    {
        self.cell(index).get(cells)
    }

    /// As [`Ref::set`] on the cell of this index.
    pub fn set<L: Law, C: Cells<L>>(&self, cells: &mut C, index: u32, value: T) -> Result<(), Cause>
        requires range { index < self.now.len }
        requires cells { self.now.first.0 + index < (C.state cells.old).size }
        ensures told { MatchResult result
            (λ _. Writing L.lawful C.law C.follows C.state cells.old cells.new
            (Puts T.word_of T.value_of (self.now.first.0 + index) value))
            (λ cause. Stopping C.law C.follows C.state cells.old cells.new cause) }
        ensures causes { MatchResult result
            (λ _. (C.state cells.old).cause ≡ None)
            (λ cause. (C.state cells.old).cause ≡ None → RefusesWrite (C.state cells.old) (self.now.first.0 + index) cause) }
        ensures own { Leads C.law C.follows C.state cells.old cells.new
            (Uses (self.now.first.0 + index) (record { reads = false; writes = is_ok result })) }
        ensures typed { HoldsWordOf T.value_of (L.lawful (C.law cells.new)) (self.now.first.0 + index) (C.state cells.new) }
        ensures kept { KeepsWords T.value_of L.lawful C.law C.state (self.now.first.0 + index) cells.old cells.new }
    {
        self.cell(index).set(cells, value)
    }

    /// References to all its cells, in order.
    pub fn refs(&self) -> Refs<T>
        ensures { result ≡ range_with_len self.now.first.0 self.now.len }
    {
        Refs {
            array: *self,
            next: 0,
        }
    }
}

/// References to the cells of an array, in order. From [`TArray::refs`].
#[derive(Drop)]
pub struct Refs<T> {
    array: TArray<T>,
    /// The index of the cell that comes next.
    next: u32,
}

impl<T> Model for Refs<T> {
    ghost use Rattle.std.specs.Prelude.{◌+◌, ◌-◌, ◌≤◌, List, ℕ};
    ghost use Rattle.std.specs.List.{range_with_len};

    ghost Value = { List ℕ };

    ghost view = { λ refs. range_with_len (refs.array.first.0 + refs.next) (refs.array.len - refs.next) };

    ghost invariant = { λ refs. refs.next ≤ refs.array.len };
}

impl<T: WordValue> Iterator for Refs<T> {
    type Item = Ref<T>;

    ghost next_gives = { YieldsFirstBy (λ cell. cell.addr.0) (λ rest. rest) };

    ghost remaining = { item_count (λ rest. rest) };

    fn next(&mut self) -> Option<Ref<T>> {
        let Ok(cell) = self.array.at(self.next) else {
            return None;
        };
        self.next += 1;
        Some(cell)
    }
}
