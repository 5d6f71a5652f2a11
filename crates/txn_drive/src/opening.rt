//! The begin of an attempt.
ghost use Rattle.std.specs.Prelude.{◌≡◌, ◌<◌, ◌≤◌};
ghost use Rattle.meta_word.specs.declared.status.TheConstants.{MAX_SERIAL};
ghost use Rattle.ref_table.specs.Calls.{AreEmpty};
ghost use Rattle.ref_table.specs.Seats.{terms_in};
ghost use Rattle.ref_table.specs.Seen.{SafeSeat};
ghost use Rattle.stm_core.specs.Running.{IsSound, shown};
ghost use Rattle.stm_model.specs.Attempt.{Ended};
ghost use Rattle.txn_drive.specs.Begun.{IsBegun, unbegun};
ghost use Rattle.txn_drive.specs.Opening.{Opens, announcement};
ghost use Rattle.txn_drive.specs.Stepping.{MayAccess};

use meta_word::{Phase, pack_status};
use ref_table::{Lists, Seat, Stm};
use stm_core::{Footprint, Running};
use stm_model::{Access, Law, Settings, Shown, TxnStatus, Word};

/// An attempt before its first access, as it is shown to the table.
#[derive(Clone, Copy)]
struct Announcing {
    own: u16,
    serial: u64,
    settings: Settings,
}

impl Shown for Announcing {
    ghost use Rattle.std.specs.Prelude.{Some};
    ghost use Rattle.txn_drive.specs.Begun.{unbegun};

    ghost shows = { λ first. Some (unbegun first.own first.serial first.settings) };
}

/// An attempt that loads the clock next, as it is shown to the table.
#[derive(Clone, Copy)]
struct Loading {
    own: u16,
    serial: u64,
    settings: Settings,
}

impl Shown for Loading {
    ghost use Rattle.std.specs.Prelude.{Some};
    ghost use Rattle.txn_drive.specs.Begun.{unbegun};
    ghost use Rattle.txn_drive.specs.Opening.{announced};

    ghost shows = { λ second. Some (announced (unbegun second.own second.serial second.settings)) };
}

/// The caller's next attempt begins, with these lists: its status is stored, and the clock is loaded. It takes no
/// memory.
#[inline(always)]
pub fn begin<L: Law>(seat: &mut Seat<L>, stm: &Stm<L>, lists: Lists) -> Running
    requires own { seat.old.table ≡ stm.now.table }
    requires safe { SafeSeat (L.lawful stm.now.law) (L.may stm.now.law) (terms_in stm.now) seat.old }
    requires over { seat.old.view.attempt.stage ≡ Ended }
    requires attempts { seat.old.view.attempt.serial < stm.now.settings.attempts }
    requires lists { AreEmpty lists }
    ensures begun { IsBegun (L.lawful stm.now.law) (L.may stm.now.law) (terms_in stm.now) stm.now.settings seat.old seat.new (shown result) }
    ensures sound { IsSound result }
{
    let own = seat.number();
    let serial = seat.serial() + 1;
    let settings = stm.settings();
    let prefix = make_accesses(seat, stm, own, serial, settings);
    let footprint = Footprint {
        reads: lists.reads,
        writes: lists.writes,
    };
    Running::begun(
        own,
        serial,
        settings,
        prefix,
        footprint,
        lists.handlers,
        lists.levels,
    )
}

// The status of an attempt is stored, and the clock is loaded, which is given.
#[inline(always)]
fn make_accesses<L: Law>(
    seat: &mut Seat<L>,
    stm: &Stm<L>,
    own: u16,
    serial: u64,
    settings: Settings,
) -> u64
    requires table { seat.old.table ≡ stm.now.table }
    requires serial { serial ≤ MAX_SERIAL }
    requires able { MayAccess (L.lawful stm.now.law) (L.may stm.now.law) (terms_in stm.now) seat.old.view (announcement own serial) (unbegun own serial settings) }
    ensures opens { Opens (L.lawful stm.now.law) (L.may stm.now.law) (terms_in stm.now) seat.old (unbegun own serial settings) seat.new result }
{
    let announcing = Announcing {
        own,
        serial,
        settings,
    };
    seat.perform(stm, announcement(own, serial), &announcing);
    let loading = Loading {
        own,
        serial,
        settings,
    };
    seat.perform(stm, Access::Load(Word::Clock), &loading)
}

// The store by which an attempt begins.
#[inline(always)]
#[tactic(auto, unfolding(stm_model::specs::Accesses::access_of))]
fn announcement(own: u16, serial: u64) -> Access
    requires { serial ≤ MAX_SERIAL }
    ensures { result ≡ announcement own serial }
{
    let status = pack_status(TxnStatus {
        serial,
        phase: Phase::Active,
    });
    Access::Store(Word::Status(own), status)
}
