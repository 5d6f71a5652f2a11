//! Callers' seats, and marks of what they have seen.
ghost use Rattle.std.specs.Prelude.{◌≡◌, [], length};
ghost use Rattle.opacity.specs.Words.{IsOfTable};
ghost use Rattle.ref_table.specs.Calls.{AreEmpty, HasNoneOf, KeepsRoom, SeesBoth};
ghost use Rattle.ref_table.specs.Keyed.{seat_of};
ghost use Rattle.ref_table.specs.Knowledge.{Caller};
ghost use Rattle.ref_table.specs.Performs.{FoundFits, IsStepOfWorld, MayPerform, Performs};
ghost use Rattle.ref_table.specs.Seats.{IsSameSeat, terms_in};
ghost use Rattle.ref_table.specs.Seen.{SafeSeat};
ghost use Rattle.stm_model.specs.Accesses.{word_of};
ghost use Rattle.stm_model.specs.Attempt.{Ended};

use crate::lists::Lists;
use crate::place::{brings, clock_after, serial_after};
use crate::rule::{Copied, Heeds, Held};
use crate::stm::Stm;
use std::alloc::Global;
use std::marker::{Brand, Model, PhantomData};
use std::mem::replace;
use stm_model::{Access, Law, Shown};

/// A caller's seat. It goes from thread to thread, and is used by one at a time.
#[derive(Drop)]
pub struct Seat<L> {
    pub(crate) seat: atomic_table::Seat<(), Held>,
    pub(crate) number: u16,
    pub(crate) serial: u64,
    pub(crate) clock: u64,
    pub(crate) lists: Lists,
    pub(crate) alloc: Global,
    pub(crate) of: PhantomData<L>,
}

impl<L> Model for Seat<L> {
    ghost use Rattle.ref_table.specs.Seats.{SeatState};

    ghost Value = { SeatState };

    ghost use Rattle.ref_table.specs.Keyed.{HoldsSeat, seat_of};

    ghost view = { λ seat. seat_of seat.seat.table_id seat.number seat.lists seat.seat.me.0 };

    ghost invariant = { λ seat. HoldsSeat seat.number seat.serial seat.clock seat.seat.me };
}

/// What a caller had seen when it made the mark. Whoever heeds it has seen that too.
#[derive(Drop)]
pub struct Mark<L> {
    seat: atomic_table::Seat<(), Held>,
    of: PhantomData<L>,
}

impl<L> Model for Mark<L> {
    ghost use Rattle.ref_table.specs.Seats.{MarkState};

    ghost Value = { MarkState };

    ghost use Rattle.ref_table.specs.Keyed.{HoldsMark};

    ghost view = { λ mark. record { table = mark.seat.table_id; seen = mark.seat.me.0.seen } };

    ghost invariant = { λ mark. HoldsMark mark.seat.me };
}

impl<L> Seat<L> {
    /// The caller's number, from 1.
    pub fn number(&self) -> u16
        ensures { result ≡ self.now.number }
    {
        self.number
    }

    /// The number of the caller's latest attempt, or 0 before the first.
    pub fn serial(&self) -> u64
        ensures { result ≡ self.now.view.attempt.serial }
    {
        self.serial
    }

    /// The clock as the caller's attempts loaded it last.
    pub fn clock(&self) -> u64
        ensures { result ≡ self.now.view.clock }
    {
        self.clock
    }

    /// The lists, for an attempt. The seat has empty ones instead.
    pub fn lend(&mut self) -> Lists
        ensures lent { result ≡ self.old.lists }
        ensures same { self.new ≡ record self.old { lists = self.new.lists } }
        ensures empty { AreEmpty self.new.lists }
    {
        replace(&mut self.lists, Lists::new(self.alloc))
    }

    /// Takes lists back after an attempt. They are emptied and keep their memory.
    pub fn give_back(&mut self, lists: Lists)
        ensures same { self.new ≡ record self.old { lists = self.new.lists } }
        ensures room { KeepsRoom lists self.new.lists }
    {
        let mut lists = lists;
        lists.clear();
        self.lists = lists;
    }

    // The seat on the table.
    pub(crate) fn into_base(self) -> atomic_table::Seat<(), Held>
        ensures table { result.table_id ≡ self.table }
        ensures holds { (result.me.0.whose ≡ Caller self.number) × (result.me.1 ≡ []) }
        ensures known { seat_of result.table_id self.number self.lists result.me.0 ≡ self }
    {
        let Seat {
            seat,
            number: _,
            serial: _,
            clock: _,
            lists,
            alloc: _,
            of: _,
        } = self;
        drop(lists);
        seat
    }
}

impl<L: Law> Seat<L> {
    /// One access, which is the next one of the shown attempt, or a wait for a cell where none is shown. It
    /// gives the word that it found, or at a store the word that it stored.
    #[inline(always)]
    pub fn perform<V: Shown>(&mut self, stm: &Stm<L>, access: Access, shown: &V) -> u64
        requires own { self.old.table ≡ stm.now.table }
        requires word { IsOfTable (terms_in stm.now) (word_of access) }
        requires may { MayPerform (L.lawful stm.now.law) (L.may stm.now.law) (terms_in stm.now) self.old.view access (V.shows shown.now) }
        ensures same { IsSameSeat self.old self.new }
        ensures fits { FoundFits (terms_in stm.now) (word_of access) result }
        ensures steps { IsStepOfWorld (L.lawful stm.now.law) (L.may stm.now.law) (terms_in stm.now) access result self.old self.new (V.shows shown.now) }
        ensures performs { Performs access result self.old self.new (V.shows shown.now) }
        ensures safe { SafeSeat (L.lawful stm.now.law) (L.may stm.now.law) (terms_in stm.now) self.new }
    {
        brings(access);
        let found = stm.step::<Brand, V>(&mut self.seat, access, shown);
        self.serial = serial_after(access, self.serial);
        self.clock = clock_after(access, found, self.clock);
        found
    }

    /// A mark of what the caller has seen.
    pub fn mark(&mut self, stm: &Stm<L>) -> Mark<L>
        requires own { self.old.table ≡ stm.now.table }
        ensures same { self.new ≡ self.old }
        ensures table { result.table ≡ self.old.table }
        ensures seen { result.seen ≡ self.old.seen }
    {
        let seat = stm.table.shared.split_seat::<Copied>(&mut self.seat);
        Mark {
            seat,
            of: PhantomData,
        }
    }

    /// Learns what the mark's caller had seen. No attempt is in flight.
    pub fn heed(&mut self, stm: &Stm<L>, mark: Mark<L>)
        requires own { self.old.table ≡ stm.now.table }
        requires other { mark.table ≡ stm.now.table }
        requires rests { self.old.view.attempt.stage ≡ Ended }
        ensures same { IsSameSeat self.old self.new }
        ensures view { self.new.view ≡ record self.old.view { seen = length self.new.seen } }
        ensures sees { SeesBoth self.old.seen mark.seen self.new.seen }
        ensures fresh { HasNoneOf self.new.number self.old.seen self.new.seen }
        ensures safe { SafeSeat (L.lawful stm.now.law) (L.may stm.now.law) (terms_in stm.now) self.new }
    {
        let Mark { seat: other, of: _ } = mark;
        stm.table.shared.join_seat::<Heeds>(&mut self.seat, other);
        stm.learn(&mut self.seat);
    }
}

fn is_send<T: Send>() {}

fn is_sync<T: Sync>() {}

// Threads share a table, and seats, marks and the maker go from thread to thread.
fn threads_may_use<L: Law + Send + Sync>() {
    is_send::<Stm<L>>();
    is_sync::<Stm<L>>();
    is_send::<Seat<L>>();
    is_send::<Mark<L>>();
    is_send::<crate::maker::Maker<L>>();
}
