//! Single operations on a cell of the shared table, each an attempt of its own.
ghost use Rattle.std.specs.Prelude.{◌≡◌, None};
ghost use Rattle.txn_run.specs.Callers.{IsSameCaller, MayBegin, caller_of};
ghost use Rattle.txn_run.specs.Flights.{cells_in_stm};
ghost use Rattle.ref_views.specs.Operating.{MayWrite, Operates, called_on, compares, gets, gets_and_transforms, gets_with, sets, swaps, transforms, transforms_and_gets, transforms_if_defined, untold};
ghost use Rattle.ref_views.specs.Typed.{CanHold, IsCellOf};

use crate::Ref;
use crate::closures::{
    GettingWith, TransformingIfDefined, exchange, only_done, only_former, only_value,
};
use crate::operations::{Comparing, Getting, Setting, Swapping};
use stm_model::{Bell, Law, Quiet, WordValue};
use txn_run::{Caller, Outcome, attempt};

/// A cell seen by single operations, as a `Ref.View` of ScalaSTM. Each call is one attempt of a caller to run
/// the operation as a transaction of its own, and waits for nobody.
///
/// It is `Committed` where it wrote and `Read` where it wrote nothing. It is `Rolled`, and nothing is written,
/// where another caller was in the way, where memory is out, where the clock is at its limit or where the caller
/// has made all its attempts. Then the call may be made again.
#[derive(Clone, Copy)]
pub struct View<T> {
    pub cell: Ref<T>,
}

impl<T: WordValue> View<T> {
    /// What the cell holds: `get` of ScalaSTM. It is never `Committed`.
    pub fn get<L: Law, R: Bell>(&self, caller: &mut Caller<'_, L, R>) -> Outcome<T>
        requires begins { MayBegin (L.lawful caller.old.stm.now.law) (L.may caller.old.stm.now.law) caller.old.stm.now caller.old.seat.now }
        requires typed { IsCellOf T.value_of (L.lawful caller.old.stm.now.law) (cells_in_stm caller.old.stm.now) self.now.cell.addr.0 }
        ensures same_references { (caller.new.seat.ghost_name ≡ caller.old.seat.ghost_name) × (caller.new.bell.ghost_name ≡ caller.old.bell.ghost_name) }
        ensures same { IsSameCaller caller.old.stm.now caller.new.stm.now caller.old.seat.now caller.new.seat.now }
        ensures begins { MayBegin (L.lawful caller.old.stm.now.law) (L.may caller.old.stm.now.law) caller.old.stm.now caller.new.seat.now }
        ensures operates { Operates T.word_of T.value_of self.now.cell.addr.0 gets untold caller.old.stm.now
            (caller_of caller.old.seat.now None (R.rings caller.old.bell.now)) (caller_of caller.new.seat.now None (R.rings caller.new.bell.now)) result }
    {
        attempt(caller, &mut Getting { cell: self.cell }, &mut Quiet)
    }

    /// Puts a value into the cell, whatever it held: `set` of ScalaSTM. It is never `Read`.
    pub fn set<L: Law, R: Bell>(&self, caller: &mut Caller<'_, L, R>, value: T) -> Outcome<()>
        requires begins { MayBegin (L.lawful caller.old.stm.now.law) (L.may caller.old.stm.now.law) caller.old.stm.now caller.old.seat.now }
        requires typed { IsCellOf T.value_of (L.lawful caller.old.stm.now.law) (cells_in_stm caller.old.stm.now) self.now.cell.addr.0 }
        requires allowed { MayWrite T.word_of T.value_of (L.lawful caller.old.stm.now.law) (L.may caller.old.stm.now.law) self.now.cell.addr.0 (sets value) }
        ensures same_references { (caller.new.seat.ghost_name ≡ caller.old.seat.ghost_name) × (caller.new.bell.ghost_name ≡ caller.old.bell.ghost_name) }
        ensures same { IsSameCaller caller.old.stm.now caller.new.stm.now caller.old.seat.now caller.new.seat.now }
        ensures begins { MayBegin (L.lawful caller.old.stm.now.law) (L.may caller.old.stm.now.law) caller.old.stm.now caller.new.seat.now }
        ensures operates { Operates T.word_of T.value_of self.now.cell.addr.0 (sets value) untold caller.old.stm.now
            (caller_of caller.old.seat.now None (R.rings caller.old.bell.now)) (caller_of caller.new.seat.now None (R.rings caller.new.bell.now)) result }
    {
        let mut body = Setting {
            cell: self.cell,
            value,
        };
        attempt(caller, &mut body, &mut Quiet)
    }

    /// Puts a value in place of the former one, which it answers: `swap` of ScalaSTM. It is never `Read`.
    pub fn swap<L: Law, R: Bell>(&self, caller: &mut Caller<'_, L, R>, value: T) -> Outcome<T>
        requires begins { MayBegin (L.lawful caller.old.stm.now.law) (L.may caller.old.stm.now.law) caller.old.stm.now caller.old.seat.now }
        requires typed { IsCellOf T.value_of (L.lawful caller.old.stm.now.law) (cells_in_stm caller.old.stm.now) self.now.cell.addr.0 }
        requires allowed { MayWrite T.word_of T.value_of (L.lawful caller.old.stm.now.law) (L.may caller.old.stm.now.law) self.now.cell.addr.0 (swaps value) }
        ensures same_references { (caller.new.seat.ghost_name ≡ caller.old.seat.ghost_name) × (caller.new.bell.ghost_name ≡ caller.old.bell.ghost_name) }
        ensures same { IsSameCaller caller.old.stm.now caller.new.stm.now caller.old.seat.now caller.new.seat.now }
        ensures begins { MayBegin (L.lawful caller.old.stm.now.law) (L.may caller.old.stm.now.law) caller.old.stm.now caller.new.seat.now }
        ensures operates { Operates T.word_of T.value_of self.now.cell.addr.0 (swaps value) untold caller.old.stm.now
            (caller_of caller.old.seat.now None (R.rings caller.old.bell.now)) (caller_of caller.new.seat.now None (R.rings caller.new.bell.now)) result }
    {
        let mut body = Swapping {
            cell: self.cell,
            value,
        };
        attempt(caller, &mut body, &mut Quiet)
    }

    /// Puts the new value into the cell exactly where it holds the old one, and answers whether it did:
    /// `compareAndSet` of ScalaSTM. So it is `Committed` with true, or `Read` with false.
    pub fn compare_and_set<L: Law, R: Bell>(
        &self,
        caller: &mut Caller<'_, L, R>,
        old: T,
        new: T,
    ) -> Outcome<bool>
        requires begins { MayBegin (L.lawful caller.old.stm.now.law) (L.may caller.old.stm.now.law) caller.old.stm.now caller.old.seat.now }
        requires typed { IsCellOf T.value_of (L.lawful caller.old.stm.now.law) (cells_in_stm caller.old.stm.now) self.now.cell.addr.0 }
        requires allowed { MayWrite T.word_of T.value_of (L.lawful caller.old.stm.now.law) (L.may caller.old.stm.now.law) self.now.cell.addr.0 (compares old new) }
        ensures same_references { (caller.new.seat.ghost_name ≡ caller.old.seat.ghost_name) × (caller.new.bell.ghost_name ≡ caller.old.bell.ghost_name) }
        ensures same { IsSameCaller caller.old.stm.now caller.new.stm.now caller.old.seat.now caller.new.seat.now }
        ensures begins { MayBegin (L.lawful caller.old.stm.now.law) (L.may caller.old.stm.now.law) caller.old.stm.now caller.new.seat.now }
        ensures operates { Operates T.word_of T.value_of self.now.cell.addr.0 (compares old new) untold caller.old.stm.now
            (caller_of caller.old.seat.now None (R.rings caller.old.bell.now)) (caller_of caller.new.seat.now None (R.rings caller.new.bell.now)) result }
    {
        let mut body = Comparing {
            cell: self.cell,
            old,
            new,
        };
        attempt(caller, &mut body, &mut Quiet)
    }

    /// Puts what the closure makes of the value in its place: `transform` of ScalaSTM. The closure is called
    /// once, on the value of the heap that the outcome tells. Where it is `Rolled`, it was called once on the
    /// value of the heap at the prefix, or not at all. The same holds of the other calls that take a closure. It
    /// has to be callable in whatever state it is in, so one that counts adds by `wrapping_add` or the like.
    pub fn transform<L: Law, R: Bell, F: FnMut(T) -> T>(
        &self,
        caller: &mut Caller<'_, L, R>,
        f: &mut F,
    ) -> Outcome<()>
        requires begins { MayBegin (L.lawful caller.old.stm.now.law) (L.may caller.old.stm.now.law) caller.old.stm.now caller.old.seat.now }
        requires typed { IsCellOf T.value_of (L.lawful caller.old.stm.now.law) (cells_in_stm caller.old.stm.now) self.now.cell.addr.0 }
        requires callable { (state : F) (value : T) →
            CanHold T.value_of (L.lawful caller.old.stm.now.law) (cells_in_stm caller.old.stm.now) self.now.cell.addr.0 value → F.pre state value }
        requires allowed { (state left : F) → MayWrite T.word_of T.value_of (L.lawful caller.old.stm.now.law) (L.may caller.old.stm.now.law) self.now.cell.addr.0
            (transforms (λ f former value left. F.step f former value left) state left) }
        ensures same_references { (caller.new.seat.ghost_name ≡ caller.old.seat.ghost_name) × (caller.new.bell.ghost_name ≡ caller.old.bell.ghost_name) }
        ensures same { IsSameCaller caller.old.stm.now caller.new.stm.now caller.old.seat.now caller.new.seat.now }
        ensures begins { MayBegin (L.lawful caller.old.stm.now.law) (L.may caller.old.stm.now.law) caller.old.stm.now caller.new.seat.now }
        ensures operates { Operates T.word_of T.value_of self.now.cell.addr.0 (transforms (λ f former value left. F.step f former value left) f.old f.new) (called_on (λ f former value left. F.step f former value left) f.old f.new) caller.old.stm.now
            (caller_of caller.old.seat.now None (R.rings caller.old.bell.now)) (caller_of caller.new.seat.now None (R.rings caller.new.bell.now)) result }
    {
        only_done(exchange(caller, self.cell, f))
    }

    /// Does the same, and answers the former value: `getAndTransform` of ScalaSTM.
    pub fn get_and_transform<L: Law, R: Bell, F: FnMut(T) -> T>(
        &self,
        caller: &mut Caller<'_, L, R>,
        f: &mut F,
    ) -> Outcome<T>
        requires begins { MayBegin (L.lawful caller.old.stm.now.law) (L.may caller.old.stm.now.law) caller.old.stm.now caller.old.seat.now }
        requires typed { IsCellOf T.value_of (L.lawful caller.old.stm.now.law) (cells_in_stm caller.old.stm.now) self.now.cell.addr.0 }
        requires callable { (state : F) (value : T) →
            CanHold T.value_of (L.lawful caller.old.stm.now.law) (cells_in_stm caller.old.stm.now) self.now.cell.addr.0 value → F.pre state value }
        requires allowed { (state left : F) → MayWrite T.word_of T.value_of (L.lawful caller.old.stm.now.law) (L.may caller.old.stm.now.law) self.now.cell.addr.0
            (transforms (λ f former value left. F.step f former value left) state left) }
        ensures same_references { (caller.new.seat.ghost_name ≡ caller.old.seat.ghost_name) × (caller.new.bell.ghost_name ≡ caller.old.bell.ghost_name) }
        ensures same { IsSameCaller caller.old.stm.now caller.new.stm.now caller.old.seat.now caller.new.seat.now }
        ensures begins { MayBegin (L.lawful caller.old.stm.now.law) (L.may caller.old.stm.now.law) caller.old.stm.now caller.new.seat.now }
        ensures operates { Operates T.word_of T.value_of self.now.cell.addr.0 (gets_and_transforms (λ f former value left. F.step f former value left) f.old f.new) (called_on (λ f former value left. F.step f former value left) f.old f.new) caller.old.stm.now
            (caller_of caller.old.seat.now None (R.rings caller.old.bell.now)) (caller_of caller.new.seat.now None (R.rings caller.new.bell.now)) result }
    {
        only_former(exchange(caller, self.cell, f))
    }

    /// Does the same, and answers the new value: `transformAndGet` of ScalaSTM.
    pub fn transform_and_get<L: Law, R: Bell, F: FnMut(T) -> T>(
        &self,
        caller: &mut Caller<'_, L, R>,
        f: &mut F,
    ) -> Outcome<T>
        requires begins { MayBegin (L.lawful caller.old.stm.now.law) (L.may caller.old.stm.now.law) caller.old.stm.now caller.old.seat.now }
        requires typed { IsCellOf T.value_of (L.lawful caller.old.stm.now.law) (cells_in_stm caller.old.stm.now) self.now.cell.addr.0 }
        requires callable { (state : F) (value : T) →
            CanHold T.value_of (L.lawful caller.old.stm.now.law) (cells_in_stm caller.old.stm.now) self.now.cell.addr.0 value → F.pre state value }
        requires allowed { (state left : F) → MayWrite T.word_of T.value_of (L.lawful caller.old.stm.now.law) (L.may caller.old.stm.now.law) self.now.cell.addr.0
            (transforms (λ f former value left. F.step f former value left) state left) }
        ensures same_references { (caller.new.seat.ghost_name ≡ caller.old.seat.ghost_name) × (caller.new.bell.ghost_name ≡ caller.old.bell.ghost_name) }
        ensures same { IsSameCaller caller.old.stm.now caller.new.stm.now caller.old.seat.now caller.new.seat.now }
        ensures begins { MayBegin (L.lawful caller.old.stm.now.law) (L.may caller.old.stm.now.law) caller.old.stm.now caller.new.seat.now }
        ensures operates { Operates T.word_of T.value_of self.now.cell.addr.0 (transforms_and_gets (λ f former value left. F.step f former value left) f.old f.new) (called_on (λ f former value left. F.step f former value left) f.old f.new) caller.old.stm.now
            (caller_of caller.old.seat.now None (R.rings caller.old.bell.now)) (caller_of caller.new.seat.now None (R.rings caller.new.bell.now)) result }
    {
        only_value(exchange(caller, self.cell, f))
    }

    /// Puts what the closure makes of the value in its place, if it makes one, and answers whether it did:
    /// `transformIfDefined` of ScalaSTM. So it is `Committed` with true, or `Read` with false.
    pub fn transform_if_defined<L: Law, R: Bell, F: FnMut(T) -> Option<T>>(
        &self,
        caller: &mut Caller<'_, L, R>,
        f: &mut F,
    ) -> Outcome<bool>
        requires begins { MayBegin (L.lawful caller.old.stm.now.law) (L.may caller.old.stm.now.law) caller.old.stm.now caller.old.seat.now }
        requires typed { IsCellOf T.value_of (L.lawful caller.old.stm.now.law) (cells_in_stm caller.old.stm.now) self.now.cell.addr.0 }
        requires callable { (state : F) (value : T) →
            CanHold T.value_of (L.lawful caller.old.stm.now.law) (cells_in_stm caller.old.stm.now) self.now.cell.addr.0 value → F.pre state value }
        requires allowed { (state left : F) → MayWrite T.word_of T.value_of (L.lawful caller.old.stm.now.law) (L.may caller.old.stm.now.law) self.now.cell.addr.0
            (transforms_if_defined (λ f former value left. F.step f former value left) state left) }
        ensures same_references { (caller.new.seat.ghost_name ≡ caller.old.seat.ghost_name) × (caller.new.bell.ghost_name ≡ caller.old.bell.ghost_name) }
        ensures same { IsSameCaller caller.old.stm.now caller.new.stm.now caller.old.seat.now caller.new.seat.now }
        ensures begins { MayBegin (L.lawful caller.old.stm.now.law) (L.may caller.old.stm.now.law) caller.old.stm.now caller.new.seat.now }
        ensures operates { Operates T.word_of T.value_of self.now.cell.addr.0 (transforms_if_defined (λ f former value left. F.step f former value left) f.old f.new) (called_on (λ f former value left. F.step f former value left) f.old f.new) caller.old.stm.now
            (caller_of caller.old.seat.now None (R.rings caller.old.bell.now)) (caller_of caller.new.seat.now None (R.rings caller.new.bell.now)) result }
    {
        let mut body = TransformingIfDefined { cell: self.cell, f };
        attempt(caller, &mut body, &mut Quiet)
    }

    /// What the closure makes of the value: `getWith` of ScalaSTM.
    pub fn get_with<L: Law, R: Bell, Z: Drop, F: FnMut(T) -> Z>(
        &self,
        caller: &mut Caller<'_, L, R>,
        f: &mut F,
    ) -> Outcome<Z>
        requires begins { MayBegin (L.lawful caller.old.stm.now.law) (L.may caller.old.stm.now.law) caller.old.stm.now caller.old.seat.now }
        requires typed { IsCellOf T.value_of (L.lawful caller.old.stm.now.law) (cells_in_stm caller.old.stm.now) self.now.cell.addr.0 }
        requires callable { (state : F) (value : T) →
            CanHold T.value_of (L.lawful caller.old.stm.now.law) (cells_in_stm caller.old.stm.now) self.now.cell.addr.0 value → F.pre state value }
        ensures same_references { (caller.new.seat.ghost_name ≡ caller.old.seat.ghost_name) × (caller.new.bell.ghost_name ≡ caller.old.bell.ghost_name) }
        ensures same { IsSameCaller caller.old.stm.now caller.new.stm.now caller.old.seat.now caller.new.seat.now }
        ensures begins { MayBegin (L.lawful caller.old.stm.now.law) (L.may caller.old.stm.now.law) caller.old.stm.now caller.new.seat.now }
        ensures operates { Operates T.word_of T.value_of self.now.cell.addr.0 (gets_with (λ f former value left. F.step f former value left) f.old f.new) (called_on (λ f former value left. F.step f former value left) f.old f.new) caller.old.stm.now
            (caller_of caller.old.seat.now None (R.rings caller.old.bell.now)) (caller_of caller.new.seat.now None (R.rings caller.new.bell.now)) result }
    {
        let mut body = GettingWith { cell: self.cell, f };
        attempt(caller, &mut body, &mut Quiet)
    }
}
