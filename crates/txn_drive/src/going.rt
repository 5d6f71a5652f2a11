//! An attempt goes on until it waits to be asked, or is over.
ghost use Rattle.std.specs.Prelude.{◌≡◌, None};
ghost use Rattle.ref_table.specs.Seats.{terms_in};
ghost use Rattle.stm_core.specs.Running.{IsSound, shown};
ghost use Rattle.stm_model.specs.Attempt.{cause_at};
ghost use Rattle.stm_model.specs.Moves.{AwaitsAsk, MayAsk};
ghost use Rattle.stm_model.specs.Owes.{Owes};
ghost use Rattle.stm_model.specs.World.{cells_in};
ghost use Rattle.stm_model.specs.declared.access.Ask.TheVariants.{Finish};
ghost use Rattle.txn_drive.specs.Going.{Continues, Goes, IsAsked};
ghost use Rattle.txn_drive.specs.Moment.{moment};
ghost use Rattle.txn_drive.specs.Paying.{Pays};
ghost use Rattle.txn_drive.specs.Standing.{IsOn, Rests};

use crate::access::advance;
use crate::due::settle;
use ref_table::{Seat, Stm};
use stm_core::{Ask, Running};
use stm_model::{Bell, Hooks, Law};

/// All that is due is done, and the attempt makes its accesses, with what is due behind each of them, until it
/// waits to be asked or is over. Wherever its steps lead it, what is owed has to be met before it exchanges the
/// clock (`Pays`).
pub fn go_on<L: Law, R: Bell, H: Hooks>(
    seat: &mut Seat<L>,
    stm: &Stm<L>,
    bell: &mut R,
    hooks: &mut H,
    running: &mut Running,
)
    requires own { seat.old.table ≡ stm.now.table }
    requires sound { IsSound running.old }
    requires on { IsOn (L.lawful stm.now.law) (L.may stm.now.law) (terms_in stm.now) seat.old (shown running.old) }
    requires pays { Pays (L.lawful stm.now.law) (L.may stm.now.law) (cells_in (terms_in stm.now)) (shown running.old) }
    ensures goes { Goes (moment seat.old (shown running.old) (H.runs hooks.old) (R.rings bell.old)) (moment seat.new (shown running.new) (H.runs hooks.new) (R.rings bell.new)) }
    ensures on { IsOn (L.lawful stm.now.law) (L.may stm.now.law) (terms_in stm.now) seat.new (shown running.new) }
    ensures sound { IsSound running.new }
    ensures rests { Rests (shown running.new) }
{
    settle(bell, hooks, running);
    while let Some(access) = running.access() {
        advance(seat, stm, running, access);
        settle(bell, hooks, running);
    }
}

/// The attempt, which waits, is asked for one thing: to read or write a cell, to open or close a level, to
/// register something, or to end. It takes the ask and goes on. What comes back is an attempt that waits to be
/// asked again, is over, or was refused what it was asked for: then it waits too, with the cause, which is
/// `Memory` where memory ran out. It is over after `Abandon`, and after `Finish` unless a before-commit body has
/// its turn. `Running::next` tells which of these it is. Before `Finish` what is owed has to be met, unless the
/// attempt was refused something before.
pub fn ask<L: Law, R: Bell, H: Hooks>(
    seat: &mut Seat<L>,
    stm: &Stm<L>,
    bell: &mut R,
    hooks: &mut H,
    running: &mut Running,
    ask: Ask,
)
    requires own { seat.old.table ≡ stm.now.table }
    requires sound { IsSound running.old }
    requires on { IsOn (L.lawful stm.now.law) (L.may stm.now.law) (terms_in stm.now) seat.old (shown running.old) }
    requires waits { AwaitsAsk (shown running.old) }
    requires may { MayAsk (cells_in (terms_in stm.now)) (shown running.old) ask }
    requires owes { ask ≡ Finish → cause_at (shown running.old).stage ≡ None → Owes (L.lawful stm.now.law) (L.may stm.now.law) (cells_in (terms_in stm.now)) (shown running.old).notes (shown running.old).now.writes }
    ensures asked { IsAsked (shown running.old) ask (shown running.new) }
    ensures continues { Continues (moment seat.old (shown running.old) (H.runs hooks.old) (R.rings bell.old)) (moment seat.new (shown running.new) (H.runs hooks.new) (R.rings bell.new)) }
    ensures on { IsOn (L.lawful stm.now.law) (L.may stm.now.law) (terms_in stm.now) seat.new (shown running.new) }
    ensures sound { IsSound running.new }
    ensures rests { Rests (shown running.new) }
{
    running.ask(ask);
    go_on(seat, stm, bell, hooks, running);
}
