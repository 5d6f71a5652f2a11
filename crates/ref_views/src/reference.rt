//! References to single cells.
ghost use Rattle.std.specs.Prelude.{◌≡◌, ◌<◌, ◌⊎◌, None, Some, false, true, is_ok, MatchBool, MatchResult, OnErr};
ghost use Rattle.std.specs.Result.{result_unwrap_or};
ghost use Rattle.stm_model.specs.Refusing.{RefusesRead, RefusesWrite};
ghost use Rattle.stm_model.specs.Telling.{Leads, Reading, Stopping, Writing};
ghost use Rattle.ref_views.specs.Typed.{Held, Holds, HoldsWordOf, KeepsAllWords, KeepsWords, MayHold, Puts, Replaces};
ghost use Rattle.ref_views.specs.Using.{RefusesUse, Uses};

use crate::View;
use std::marker::PhantomData;
use stm_model::{Addr, Cause, Cells, Law, WordValue};

/// A reference to a cell that holds values of a type, as a `Ref` of ScalaSTM. Its calls on cells are for use
/// within a block. An `Err` is a cause that the cells answered.
#[derive(Clone, Copy)]
pub struct Ref<T> {
    pub addr: Addr,
    of: PhantomData<T>,
}

impl<T: WordValue> Ref<T> {
    pub fn new(addr: Addr) -> Ref<T>
        ensures { result.addr ≡ addr }
    {
        Ref {
            addr,
            of: PhantomData,
        }
    }

    /// The cell for single operations: `single` of ScalaSTM.
    pub fn single(self) -> View<T>
        ensures { result.cell ≡ self }
    {
        View { cell: self }
    }

    pub fn get<L: Law, C: Cells<L>>(&self, cells: &mut C) -> Result<T, Cause>
        requires { HoldsWordOf T.value_of (L.lawful (C.law cells.old)) self.now.addr.0 (C.state cells.old) }
        ensures told { MatchResult result
            (λ value. Reading L.lawful C.law C.follows C.state cells.old cells.new (Holds T.value_of self.now.addr.0 value))
            (λ cause. Stopping C.law C.follows C.state cells.old cells.new cause) }
        ensures causes { MatchResult result
            (λ _. (C.state cells.old).cause ≡ None)
            (λ cause. (C.state cells.old).cause ≡ None → RefusesRead (C.state cells.old) self.now.addr.0 cause) }
        ensures own { Leads C.law C.follows C.state cells.old cells.new
            (Uses self.now.addr.0 (record { reads = is_ok result; writes = false })) }
        ensures typed { HoldsWordOf T.value_of (L.lawful (C.law cells.new)) self.now.addr.0 (C.state cells.new) }
        ensures kept { KeepsAllWords L.lawful C.law C.state cells.old cells.new }
    {
        let word = cells.get(self.addr)?;
        match T::from_word(word) {
            Some(value) => Ok(value),
            None => unreachable!(),
        }
    }

    /// Reads nothing, so the cell may hold any word before.
    pub fn set<L: Law, C: Cells<L>>(&self, cells: &mut C, value: T) -> Result<(), Cause>
        requires { self.now.addr.0 < (C.state cells.old).size }
        ensures told { MatchResult result
            (λ _. Writing L.lawful C.law C.follows C.state cells.old cells.new (Puts T.word_of T.value_of self.now.addr.0 value))
            (λ cause. Stopping C.law C.follows C.state cells.old cells.new cause) }
        ensures causes { MatchResult result
            (λ _. (C.state cells.old).cause ≡ None)
            (λ cause. (C.state cells.old).cause ≡ None → RefusesWrite (C.state cells.old) self.now.addr.0 cause) }
        ensures own { Leads C.law C.follows C.state cells.old cells.new
            (Uses self.now.addr.0 (record { reads = false; writes = is_ok result })) }
        ensures typed { HoldsWordOf T.value_of (L.lawful (C.law cells.new)) self.now.addr.0 (C.state cells.new) }
        ensures kept { KeepsWords T.value_of L.lawful C.law C.state self.now.addr.0 cells.old cells.new }
    {
        cells.set(self.addr, value.to_word())?;
        Ok(())
    }

    /// Puts a value in place of the former one, which it answers.
    pub fn swap<L: Law, C: Cells<L>>(&self, cells: &mut C, value: T) -> Result<T, Cause>
        requires { HoldsWordOf T.value_of (L.lawful (C.law cells.old)) self.now.addr.0 (C.state cells.old) }
        ensures told { MatchResult result
            (λ former. Writing L.lawful C.law C.follows C.state cells.old cells.new
            (Replaces T.word_of T.value_of self.now.addr.0 former value))
            (λ cause. Stopping C.law C.follows C.state cells.old cells.new cause) }
        ensures causes { MatchResult result
            (λ _. (C.state cells.old).cause ≡ None)
            (λ cause. (C.state cells.old).cause ≡ None → RefusesUse self.now.addr.0 (C.state cells.old) (C.state cells.new) cause) }
        ensures own { Leads C.law C.follows C.state cells.old cells.new
            (Uses self.now.addr.0 (record { reads = true; writes = is_ok result })) }
        ensures typed { HoldsWordOf T.value_of (L.lawful (C.law cells.new)) self.now.addr.0 (C.state cells.new) }
        ensures kept { KeepsWords T.value_of L.lawful C.law C.state self.now.addr.0 cells.old cells.new }
    {
        let former = self.get(cells)?;
        self.set(cells, value)?;
        Ok(former)
    }

    /// Puts what the function makes of the value in its place. The function is called once, on the value
    /// that the cell held, or not at all where the read is refused. So after an `Err` (`called`) either
    /// nothing was called, or the function was called once, on that value, and the write was refused.
    pub fn transform<L: Law, C: Cells<L>, F: FnMut(T) -> T>(
        &self,
        cells: &mut C,
        f: &mut F,
    ) -> Result<(), Cause>
        requires typed { HoldsWordOf T.value_of (L.lawful (C.law cells.old)) self.now.addr.0 (C.state cells.old) }
        requires callable { (value : T) →
            MayHold T.value_of (L.lawful (C.law cells.old)) self.now.addr.0 value (C.state cells.old) → F.pre f.old value }
        ensures told { MatchResult result
            (λ _. (former : T) × (value : T) × F.step f.old former value f.new
            × Writing L.lawful C.law C.follows C.state cells.old cells.new
            (Replaces T.word_of T.value_of self.now.addr.0 former value))
            (λ cause. Stopping C.law C.follows C.state cells.old cells.new cause) }
        ensures called { OnErr result ((f.new ≡ f.old)
            ⊎ ((former : T) × (value : T) × F.step f.old former value f.new
            × Held T.value_of (L.lawful (C.law cells.old)) self.now.addr.0 former (C.state cells.old) (C.state cells.new))) }
        ensures causes { MatchResult result
            (λ _. (C.state cells.old).cause ≡ None)
            (λ cause. (C.state cells.old).cause ≡ None → RefusesUse self.now.addr.0 (C.state cells.old) (C.state cells.new) cause) }
        ensures own { Leads C.law C.follows C.state cells.old cells.new
            (Uses self.now.addr.0 (record { reads = true; writes = is_ok result })) }
        ensures typed { HoldsWordOf T.value_of (L.lawful (C.law cells.new)) self.now.addr.0 (C.state cells.new) }
        ensures kept { KeepsWords T.value_of L.lawful C.law C.state self.now.addr.0 cells.old cells.new }
    {
        let former = self.get(cells)?;
        let value = f(former);
        self.set(cells, value)?;
        Ok(())
    }

    /// Puts what the function makes of the value in its place, if it makes one, and answers whether it
    /// did: `transformIfDefined` of ScalaSTM.
    pub fn transform_if_defined<L: Law, C: Cells<L>, F: FnMut(T) -> Option<T>>(
        &self,
        cells: &mut C,
        f: &mut F,
    ) -> Result<bool, Cause>
        requires typed { HoldsWordOf T.value_of (L.lawful (C.law cells.old)) self.now.addr.0 (C.state cells.old) }
        requires callable { (value : T) →
            MayHold T.value_of (L.lawful (C.law cells.old)) self.now.addr.0 value (C.state cells.old) → F.pre f.old value }
        ensures told { MatchResult result
            (λ is_defined. MatchBool is_defined
            ((former : T) × (value : T) × F.step f.old former (Some value) f.new
            × Writing L.lawful C.law C.follows C.state cells.old cells.new
            (Replaces T.word_of T.value_of self.now.addr.0 former value))
            ((former : T) × F.step f.old former None f.new
            × Reading L.lawful C.law C.follows C.state cells.old cells.new (Holds T.value_of self.now.addr.0 former)))
            (λ cause. Stopping C.law C.follows C.state cells.old cells.new cause) }
        ensures called { OnErr result ((f.new ≡ f.old)
            ⊎ ((former : T) × (value : T) × F.step f.old former (Some value) f.new
            × Held T.value_of (L.lawful (C.law cells.old)) self.now.addr.0 former (C.state cells.old) (C.state cells.new))) }
        ensures causes { MatchResult result
            (λ _. (C.state cells.old).cause ≡ None)
            (λ cause. (C.state cells.old).cause ≡ None → RefusesUse self.now.addr.0 (C.state cells.old) (C.state cells.new) cause) }
        ensures own { Leads C.law C.follows C.state cells.old cells.new
            (Uses self.now.addr.0 (record { reads = true; writes = result_unwrap_or result false })) }
        ensures typed { HoldsWordOf T.value_of (L.lawful (C.law cells.new)) self.now.addr.0 (C.state cells.new) }
        ensures kept { KeepsWords T.value_of L.lawful C.law C.state self.now.addr.0 cells.old cells.new }
    {
        let former = self.get(cells)?;
        let Some(value) = f(former) else {
            return Ok(false);
        };
        self.set(cells, value)?;
        Ok(true)
    }

    /// What the function makes of the value: `getWith` of ScalaSTM.
    pub fn get_with<L: Law, C: Cells<L>, Z, F: FnMut(T) -> Z>(
        &self,
        cells: &mut C,
        f: &mut F,
    ) -> Result<Z, Cause>
        requires typed { HoldsWordOf T.value_of (L.lawful (C.law cells.old)) self.now.addr.0 (C.state cells.old) }
        requires callable { (value : T) →
            MayHold T.value_of (L.lawful (C.law cells.old)) self.now.addr.0 value (C.state cells.old) → F.pre f.old value }
        ensures told { MatchResult result
            (λ made. (value : T) × F.step f.old value made f.new
            × Reading L.lawful C.law C.follows C.state cells.old cells.new (Holds T.value_of self.now.addr.0 value))
            (λ cause. Stopping C.law C.follows C.state cells.old cells.new cause) }
        ensures called { OnErr result (f.new ≡ f.old) }
        ensures causes { MatchResult result
            (λ _. (C.state cells.old).cause ≡ None)
            (λ cause. (C.state cells.old).cause ≡ None → RefusesRead (C.state cells.old) self.now.addr.0 cause) }
        ensures own { Leads C.law C.follows C.state cells.old cells.new
            (Uses self.now.addr.0 (record { reads = is_ok result; writes = false })) }
        ensures typed { HoldsWordOf T.value_of (L.lawful (C.law cells.new)) self.now.addr.0 (C.state cells.new) }
        ensures kept { KeepsAllWords L.lawful C.law C.state cells.old cells.new }
    {
        let value = self.get(cells)?;
        Ok(f(value))
    }
}
