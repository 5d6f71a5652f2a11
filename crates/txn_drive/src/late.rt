//! A before-commit body is over.
ghost use Rattle.std.specs.Prelude.{◌≡◌, ◌<◌, None};
ghost use Rattle.ref_table.specs.Seats.{terms_in};
ghost use Rattle.stm_core.specs.Running.{IsSound, shown};
ghost use Rattle.stm_model.specs.Attempt.{cause_at};
ghost use Rattle.stm_model.specs.Moves.{AwaitsAsk, EndsLate, moved};
ghost use Rattle.stm_model.specs.Owes.{Owes};
ghost use Rattle.stm_model.specs.World.{cells_in};
ghost use Rattle.txn_drive.specs.Going.{Continues};
ghost use Rattle.txn_drive.specs.Moment.{moment};
ghost use Rattle.txn_drive.specs.Paying.{IsLed};
ghost use Rattle.txn_drive.specs.Standing.{IsOn, Rests};

use crate::going::go_on;
use ref_table::{Seat, Stm};
use stm_core::Running;
use stm_model::{Bell, Hooks, Law};

/// The before-commit body that has its turn has run, and the attempt, which waits, is told so. What comes back is
/// an attempt that waits to be asked by the next such body, or, where there is none, one that is over, committed or
/// rolled back. Where it was refused something before, it is rolled back with that cause, and no further body has
/// its turn. Else what is owed has to be met before the call.
pub fn end_late<L: Law, R: Bell, H: Hooks>(
    seat: &mut Seat<L>,
    stm: &Stm<L>,
    bell: &mut R,
    hooks: &mut H,
    running: &mut Running,
)
    requires own { seat.old.table ≡ stm.now.table }
    requires sound { IsSound running.old }
    requires on { IsOn (L.lawful stm.now.law) (L.may stm.now.law) (terms_in stm.now) seat.old (shown running.old) }
    requires waits { AwaitsAsk (shown running.old) }
    requires late { 0 < (shown running.old).turn }
    requires owes { cause_at (shown running.old).stage ≡ None → Owes (L.lawful stm.now.law) (L.may stm.now.law) (cells_in (terms_in stm.now)) (shown running.old).notes (shown running.old).now.writes }
    ensures led { IsLed (moved (shown running.old) EndsLate) (shown running.new) }
    ensures continues { Continues (moment seat.old (shown running.old) (H.runs hooks.old) (R.rings bell.old)) (moment seat.new (shown running.new) (H.runs hooks.new) (R.rings bell.new)) }
    ensures on { IsOn (L.lawful stm.now.law) (L.may stm.now.law) (terms_in stm.now) seat.new (shown running.new) }
    ensures sound { IsSound running.new }
    ensures rests { Rests (shown running.new) }
{
    running.end_late();
    go_on(seat, stm, bell, hooks, running);
}
