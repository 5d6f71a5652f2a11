//! Asks of a running attempt.
ghost use Rattle.std.specs.Prelude.{◌≡◌, None};
ghost use Rattle.ref_table.specs.Seats.{terms_in};
ghost use Rattle.stm_core.specs.Running.{IsSound, shown};
ghost use Rattle.stm_model.specs.Attempt.{cause_at};
ghost use Rattle.stm_model.specs.Moves.{AwaitsAsk, MayAsk};
ghost use Rattle.stm_model.specs.Owes.{Owes};
ghost use Rattle.stm_model.specs.World.{cells_in};
ghost use Rattle.stm_model.specs.declared.access.Ask.TheVariants.{Finish};
ghost use Rattle.txn_drive.specs.Going.{Continues, Goes, IsAsked};
ghost use Rattle.txn_drive.specs.Moment.{moment};
ghost use Rattle.txn_drive.specs.Paying.{Pays};
ghost use Rattle.txn_drive.specs.Standing.{IsOn, Rests};

use crate::commits::finish;
use crate::reads::get;
use crate::writes::set;
use ref_table::{Seat, Stm};
use stm_model::{Bell, Hooks, Law};
use txn_drive::{Ask, Running};

/// The attempt is asked for something, as the driver asks it. What is straight code here goes straight to the
/// table, and all else goes to the driver.
pub fn ask<L: Law, R: Bell, H: Hooks>(
    seat: &mut Seat<L>,
    stm: &Stm<L>,
    bell: &mut R,
    hooks: &mut H,
    running: &mut Running,
    ask: Ask,
)
    requires own { seat.old.table ≡ stm.now.table }
    requires sound { IsSound running.old }
    requires on { IsOn (L.lawful stm.now.law) (L.may stm.now.law) (terms_in stm.now) seat.old (shown running.old) }
    requires waits { AwaitsAsk (shown running.old) }
    requires may { MayAsk (cells_in (terms_in stm.now)) (shown running.old) ask }
    requires owes { ask ≡ Finish → cause_at (shown running.old).stage ≡ None → Owes (L.lawful stm.now.law) (L.may stm.now.law) (cells_in (terms_in stm.now)) (shown running.old).notes (shown running.old).now.writes }
    ensures asked { IsAsked (shown running.old) ask (shown running.new) }
    ensures continues { Continues (moment seat.old (shown running.old) (H.runs hooks.old) (R.rings bell.old)) (moment seat.new (shown running.new) (H.runs hooks.new) (R.rings bell.new)) }
    ensures on { IsOn (L.lawful stm.now.law) (L.may stm.now.law) (terms_in stm.now) seat.new (shown running.new) }
    ensures sound { IsSound running.new }
    ensures rests { Rests (shown running.new) }
{
    match ask {
        Ask::Get(addr) => get(seat, stm, bell, hooks, running, addr),
        Ask::Set(addr, value) => set(seat, stm, bell, hooks, running, addr, value),
        Ask::Finish => finish(seat, stm, bell, hooks, running),
        ask => txn_drive::ask(seat, stm, bell, hooks, running, ask),
    }
}
