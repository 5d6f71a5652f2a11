//! Who makes callers, and gathers their seats at the end.
ghost use Rattle.std.specs.Prelude.{◌≡◌, ◌↔◌, IfOk, IsErr, OnErr};
ghost use Rattle.ref_table.specs.Calls.{IsDealt, IsGathered};
ghost use Rattle.ref_table.specs.Keyed.{HoldsMaker};
ghost use Rattle.ref_table.specs.Parts.{gathered_of};
ghost use Rattle.ref_table.specs.Seats.{terms_in};
ghost use Rattle.ref_table.specs.Seen.{SafeMaker, SafeSeat};
ghost use Rattle.stm_model.specs.Attempt.{Ended};

use crate::lists::Lists;
use crate::rule::{Deal, Gathers, Held};
use crate::seat::Seat;
use crate::stm::Stm;
use std::alloc::Global;
use std::marker::{Model, PhantomData};
use stm_model::Law;

/// Who makes callers.
#[derive(Drop)]
pub struct Maker<L> {
    pub(crate) seat: atomic_table::Seat<(), Held>,
    pub(crate) given: u16,
    pub(crate) alloc: Global,
    pub(crate) of: PhantomData<L>,
}

impl<L> Model for Maker<L> {
    ghost use Rattle.ref_table.specs.Seats.{MakerState};

    ghost Value = { MakerState };

    ghost use Rattle.ref_table.specs.Keyed.{HoldsMaker};
    ghost use Rattle.ref_table.specs.Parts.{gathered_of};

    ghost view = { λ maker. record {
      table = maker.seat.table_id;
      given = maker.given;
      gathered = gathered_of maker.seat.me.0.whose;
      seen = maker.seat.me.0.seen;
    } };

    ghost invariant = { λ maker. HoldsMaker maker.given maker.seat.me };
}

/// All seats were made.
#[derive(Clone, Copy, Debug, PartialEq, Eq)]
pub struct SeatsEnd;

impl<L: Law> Maker<L> {
    /// The next caller's seat. It is refused exactly where as many were made as the settings allow.
    pub fn caller(&mut self, stm: &Stm<L>) -> Result<Seat<L>, SeatsEnd>
        requires own { self.old.table ≡ stm.now.table }
        ensures ends { IsErr result ↔ (self.old.given ≡ stm.now.settings.callers) }
        ensures refused { OnErr result (self.new ≡ self.old) }
        ensures dealt { IfOk result (λ seat. IsDealt stm.now.settings self.old self.new seat) }
        ensures safe { IfOk result (λ seat. SafeSeat (L.lawful stm.now.law) (L.may stm.now.law) (terms_in stm.now) seat) }
    {
        stm.confirm(&mut self.seat);
        if self.given >= stm.settings().callers {
            return Err(SeatsEnd);
        }
        let seat = stm.table.shared.split_seat::<Deal>(&mut self.seat);
        self.given += 1;
        Ok(Seat {
            seat,
            number: self.given,
            serial: 0,
            clock: 0,
            lists: Lists::new(self.alloc),
            alloc: self.alloc,
            of: PhantomData,
        })
    }

    /// Takes in a caller's seat that has no attempt in flight, and all that it has seen.
    pub fn gather(&mut self, stm: &Stm<L>, seat: Seat<L>)
        requires own { self.old.table ≡ stm.now.table }
        requires other { seat.table ≡ stm.now.table }
        requires rests { seat.view.attempt.stage ≡ Ended }
        ensures gathered { IsGathered self.old self.new seat }
        ensures safe { SafeMaker (L.lawful stm.now.law) (L.may stm.now.law) (terms_in stm.now) self.new }
    {
        stm.table
            .shared
            .join_seat::<Gathers>(&mut self.seat, seat.into_base());
        stm.confirm(&mut self.seat);
    }

    // The seat on the table.
    pub(crate) fn into_base(self) -> atomic_table::Seat<(), Held>
        ensures table { result.table_id ≡ self.table }
        ensures holds { HoldsMaker self.given result.me }
        ensures gathered { gathered_of result.me.0.whose ≡ self.gathered }
        ensures seen { result.me.0.seen ≡ self.seen }
    {
        let Maker {
            seat,
            given: _,
            alloc: _,
            of: _,
        } = self;
        seat
    }
}
