//! Attempts of a caller.
ghost use Rattle.std.specs.Prelude.{◌≡◌, ◌↔◌, ◌≤◌, ℕ, IsTrue};
ghost use Rattle.ref_table.specs.Calls.{AreEmpty};
ghost use Rattle.stm_model.specs.Whole.{Whole};
ghost use Rattle.stm_model.specs.declared.cause.Cause.TheVariants.{AttemptsEnd};
ghost use Rattle.txn_run.specs.declared.callers.Outcome.TheVariants as with;
ghost use Rattle.txn_run.specs.Bodies.{Gave, IsLeft};
ghost use Rattle.txn_run.specs.Callers.{IsSameCaller, MayBegin, attempt_in, caller_of};
ghost use Rattle.txn_run.specs.Flights.{cells_in_stm};
ghost use Rattle.txn_run.specs.Outcomes.{Concludes, HandsBack};

use crate::callers::{Caller, Outcome};
use crate::making::make;
use read_set::ReadSet;
use ref_table::{Seat, Stm};
use std::mem::replace;
use stm_model::{Bell, Body, Cause, Hooks, Law};

/// Makes one attempt to run the body as one step, and waits for nobody. Whatever other callers do, the attempt
/// reads one heap, and either all that the body wrote is committed at once, or nothing is.
///
/// It is rolled back with the cause that the body answers (`Retry`, `User` or `Full`), with the cause that its
/// cells answered, also where the body went on after that, with the one that its commit meets, or where memory is
/// out. After as many attempts as the settings allow none is made, and the cause is `AttemptsEnd`.
pub fn attempt<L: Law, R: Bell, B: Body<L>, H: Hooks>(
    caller: &mut Caller<'_, L, R>,
    body: &mut B,
    hooks: &mut H,
) -> Outcome<B::Out>
    requires begins { MayBegin (L.lawful caller.old.stm.now.law) (L.may caller.old.stm.now.law) caller.old.stm.now caller.old.seat.now }
    requires fits { B.fits body.old caller.old.stm.now.law (cells_in_stm caller.old.stm.now) }
    ensures same_references { (caller.new.seat.ghost_name ≡ caller.old.seat.ghost_name) × (caller.new.bell.ghost_name ≡ caller.old.bell.ghost_name) }
    ensures same { IsSameCaller caller.old.stm.now caller.new.stm.now caller.old.seat.now caller.new.seat.now }
    ensures begins { MayBegin (L.lawful caller.old.stm.now.law) (L.may caller.old.stm.now.law) caller.old.stm.now caller.new.seat.now }
    ensures concludes { Concludes (λ out heap book. Whole B.means B.late_means body.old heap out book body.new)
        (λ cause heap book. Gave B.means B.late_means body.old heap cause book body.new)
        (λ heap. IsLeft B.means B.leaves B.late_means B.late_leaves body.old heap body.new) (body.new ≡ body.old) caller.old.stm.now
        (caller_of caller.old.seat.now (H.runs hooks.old) (R.rings caller.old.bell.now)) (caller_of caller.new.seat.now (H.runs hooks.new) (R.rings caller.new.bell.now)) result }
    ensures fits { (law : L) (size : ℕ) → B.fits body.old law size ↔ B.fits body.new law size }
{
    if is_spent(caller.seat, caller.stm) {
        return spent(caller.seat);
    }
    let (outcome, lists) = make(caller.seat, caller.stm, caller.bell, hooks, body);
    caller.seat.give_back(lists);
    outcome
}

/// Makes one attempt as `attempt` does, and hands back what it read, with the versions.
pub fn attempt_noting<L: Law, R: Bell, B: Body<L>, H: Hooks>(
    caller: &mut Caller<'_, L, R>,
    body: &mut B,
    hooks: &mut H,
) -> (Outcome<B::Out>, ReadSet)
    requires begins { MayBegin (L.lawful caller.old.stm.now.law) (L.may caller.old.stm.now.law) caller.old.stm.now caller.old.seat.now }
    requires fits { B.fits body.old caller.old.stm.now.law (cells_in_stm caller.old.stm.now) }
    ensures same_references { (caller.new.seat.ghost_name ≡ caller.old.seat.ghost_name) × (caller.new.bell.ghost_name ≡ caller.old.bell.ghost_name) }
    ensures same { IsSameCaller caller.old.stm.now caller.new.stm.now caller.old.seat.now caller.new.seat.now }
    ensures begins { MayBegin (L.lawful caller.old.stm.now.law) (L.may caller.old.stm.now.law) caller.old.stm.now caller.new.seat.now }
    ensures concludes { Concludes (λ out heap book. Whole B.means B.late_means body.old heap out book body.new)
        (λ cause heap book. Gave B.means B.late_means body.old heap cause book body.new)
        (λ heap. IsLeft B.means B.leaves B.late_means B.late_leaves body.old heap body.new) (body.new ≡ body.old) caller.old.stm.now
        (caller_of caller.old.seat.now (H.runs hooks.old) (R.rings caller.old.bell.now)) (caller_of caller.new.seat.now (H.runs hooks.new) (R.rings caller.new.bell.now)) result.0 }
    ensures notes { HandsBack caller.old.stm.now.settings.attempts caller.old.seat.now caller.new.seat.now result.1.notes }
    ensures fits { (law : L) (size : ℕ) → B.fits body.old law size ↔ B.fits body.new law size }
{
    if is_spent(caller.seat, caller.stm) {
        return (spent(caller.seat), take_reads(caller.seat));
    }
    let (outcome, lists) = make(caller.seat, caller.stm, caller.bell, hooks, body);
    let mut lists = lists;
    let reads = replace(&mut lists.reads, take_reads(caller.seat));
    caller.seat.give_back(lists);
    (outcome, reads)
}

// Whether all attempts that there may be were made.
#[inline(always)]
pub fn is_spent<L: Law>(seat: &Seat<L>, stm: &Stm<L>) -> bool
    ensures { IsTrue result ↔ (stm.now.settings.attempts ≤ (attempt_in seat.now).serial) }
{
    seat.serial() >= stm.settings().attempts
}

// No attempt is made any more.
pub fn spent<L, T>(seat: &Seat<L>) -> Outcome<T>
    ensures { result ≡ with.Rolled (AttemptsEnd (attempt_in seat.now).serial) seat.now.view.clock }
{
    Outcome::Rolled {
        cause: Cause::AttemptsEnd {
            serial: seat.serial(),
        },
        prefix: seat.clock(),
    }
}

// The seat's list for what is read. All its lists are new ones then.
fn take_reads<L>(seat: &mut Seat<L>) -> ReadSet
    ensures taken { result ≡ seat.old.lists.reads }
    ensures same { seat.new ≡ record seat.old { lists = seat.new.lists } }
    ensures empty { AreEmpty seat.new.lists }
{
    seat.lend().reads
}
