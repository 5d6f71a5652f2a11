//! One access of an attempt.
ghost use Rattle.std.specs.Prelude.{◌≡◌, ◌<◌};
ghost use Rattle.ref_table.specs.Seats.{terms_in};
ghost use Rattle.stm_core.specs.Running.{IsSound, left_in, shown};
ghost use Rattle.txn_drive.specs.Stepping.{MayAccess, Accesses};

use crate::standing::Standing;
use ref_table::{Seat, Stm};
use stm_core::Running;
use stm_model::{Access, Law};

/// The attempt makes its next access, which is this one.
#[inline(always)]
pub fn advance<L: Law>(seat: &mut Seat<L>, stm: &Stm<L>, running: &mut Running, access: Access)
    requires own { seat.old.table ≡ stm.now.table }
    requires sound { IsSound running.old }
    requires may { MayAccess (L.lawful stm.now.law) (L.may stm.now.law) (terms_in stm.now) seat.old.view access (shown running.old) }
    ensures accesses { Accesses (L.lawful stm.now.law) (L.may stm.now.law) (terms_in stm.now) seat.old (shown running.old) seat.new (shown running.new) }
    ensures sound { IsSound running.new }
    ensures falls { left_in running.new < left_in running.old }
{
    let standing = Standing { running };
    let found = seat.perform(stm, access, &standing);
    running.take(found);
}
