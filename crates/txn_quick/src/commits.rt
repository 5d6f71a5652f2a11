//! The end of a body. What only has read stores its status, and what has written is committed, one access after
//! another.
ghost use Rattle.std.specs.Prelude.{◌≡◌, ◌<◌, ℕ, IfSome, IsTrue, List, None, Option, length};
ghost use Rattle.op_commit.specs.Commit.{accesses_left};
ghost use Rattle.op_commit.specs.declared.commit.CommitEnd.TheVariants.{Stamp};
ghost use Rattle.op_commit.specs.declared.commit.CommitPlace.TheVariants.{Ended};
ghost use Rattle.ref_table.specs.Seats.{terms_in};
ghost use Rattle.stm_core.specs.Running.{IsCommitting, IsSound, shown};
ghost use Rattle.stm_model.specs.Attempt.{cause_at};
ghost use Rattle.stm_model.specs.Handlers.{Handlers};
ghost use Rattle.stm_model.specs.Moves.{AwaitsAsk, MayAsk};
ghost use Rattle.stm_model.specs.Owes.{Owes};
ghost use Rattle.stm_model.specs.World.{cells_in};
ghost use Rattle.stm_model.specs.declared.access.Ask.TheVariants.{Finish};
ghost use Rattle.txn_drive.specs.Going.{Continues, IsAsked};
ghost use Rattle.txn_drive.specs.Moment.{moment};
ghost use Rattle.txn_drive.specs.Paying.{Pays};
ghost use Rattle.txn_drive.specs.Standing.{IsOn, Rests};
ghost use Rattle.txn_quick.specs.Gone.{HasGone};
ghost use Rattle.txn_quick.specs.Committing.{CommitsOn, IsInCommit, IsPlain, IsQuiet, IsUndisturbed, commits_at, to_close, to_commit};

use crate::parts::{
    ClockLoad, Close, Decision, Marks, Part, Prepare, Releases, Stores, Validation,
};
use meta_word::{Phase, pack_status};
use op_commit::{CommitEnd, CommitOp, CommitPlace};
use stm_core::{Ask, Ending, Running, State};
use stm_model::{Access, Bell, Hooks, Law, Shown, TxnStatus, Word};
use txn_drive::{Seat, Stm, ask, go_on};

/// An attempt that ends as a reader, as it is shown to the table.
#[derive(Clone, Copy)]
struct Closing<'a> {
    running: &'a Running,
}

impl<'a> Shown for Closing<'a> {
    ghost use Rattle.std.specs.Prelude.{Some};
    ghost use Rattle.txn_quick.specs.Committing.{to_close};

    ghost shows = { λ closing. Some (to_close closing.running.now) };
}

/// An attempt in the middle of its commit, as it is shown to the table.
#[derive(Clone, Copy)]
struct Committing<'a> {
    running: &'a Running,
    op: CommitOp,
}

impl<'a> Shown for Committing<'a> {
    ghost use Rattle.std.specs.Prelude.{Some};
    ghost use Rattle.txn_quick.specs.Committing.{commits_at};

    ghost shows = { λ commit. Some (commits_at commit.running.now commit.op) };
}

/// The body is over. What comes of it is what comes of the ask `Finish`.
pub fn finish<L: Law, R: Bell, H: Hooks>(
    seat: &mut Seat<L>,
    stm: &Stm<L>,
    bell: &mut R,
    hooks: &mut H,
    running: &mut Running,
)
    requires own { seat.old.table ≡ stm.now.table }
    requires sound { IsSound running.old }
    requires on { IsOn (L.lawful stm.now.law) (L.may stm.now.law) (terms_in stm.now) seat.old (shown running.old) }
    requires waits { AwaitsAsk (shown running.old) }
    requires may { MayAsk (cells_in (terms_in stm.now)) (shown running.old) Finish }
    requires owes { cause_at (shown running.old).stage ≡ None → Owes (L.lawful stm.now.law) (L.may stm.now.law) (cells_in (terms_in stm.now)) (shown running.old).notes (shown running.old).now.writes }
    ensures asked { IsAsked (shown running.old) Finish (shown running.new) }
    ensures continues { Continues (moment seat.old (shown running.old) (H.runs hooks.old) (R.rings bell.old)) (moment seat.new (shown running.new) (H.runs hooks.new) (R.rings bell.new)) }
    ensures on { IsOn (L.lawful stm.now.law) (L.may stm.now.law) (terms_in stm.now) seat.new (shown running.new) }
    ensures sound { IsSound running.new }
    ensures rests { Rests (shown running.new) }
{
    if !is_plain(running) {
        ask(seat, stm, bell, hooks, running, Ask::Finish);
    } else if running.footprint.writes.len() == 0 {
        end_reader(seat, stm, running);
    } else {
        commit(seat, stm, bell, hooks, running);
    }
}

// Whether no handlers and no before-commit bodies have to be run.
#[inline(always)]
fn is_plain(running: &Running) -> bool
    ensures { IsTrue result → IsPlain running.now }
{
    matches!(running.state, State::Ready(_))
        && running.handlers.mark() == 0
        && running.handlers.later_mark() <= running.turn
}

// Stores the status of a reader.
#[inline(always)]
fn end_reader<L: Law>(seat: &mut Seat<L>, stm: &Stm<L>, running: &mut Running)
    requires own { seat.old.table ≡ stm.now.table }
    requires quiet { IsQuiet running.old }
    requires on { IsOn (L.lawful stm.now.law) (L.may stm.now.law) (terms_in stm.now) seat.old (to_close running.old) }
    ensures gone { (runs : Option Handlers) (rings : Option (List ℕ)) → HasGone (L.lawful stm.now.law) (L.may stm.now.law) (terms_in stm.now) (moment seat.old (to_close running.old) runs rings) (moment seat.new (shown running.new) runs rings) }
    ensures sound { IsSound running.new }
{
    let status = TxnStatus {
        serial: running.serial,
        phase: Phase::Idle,
    };
    let access = Access::Store(Word::Status(running.own), pack_status(status));
    let closing = Closing { running };
    seat.perform(stm, access, &closing);
    running.state = State::Ended(Ending::Read {
        prefix: running.prefix,
    });
}

// Commits what was written, unless it is disturbed.
#[inline(always)]
fn commit<L: Law, R: Bell, H: Hooks>(
    seat: &mut Seat<L>,
    stm: &Stm<L>,
    bell: &mut R,
    hooks: &mut H,
    running: &mut Running,
)
    requires own { seat.old.table ≡ stm.now.table }
    requires quiet { IsQuiet running.old }
    requires on { IsOn (L.lawful stm.now.law) (L.may stm.now.law) (terms_in stm.now) seat.old (to_commit running.old) }
    requires pays { Pays (L.lawful stm.now.law) (L.may stm.now.law) (cells_in (terms_in stm.now)) (to_commit running.old) }
    ensures gone { HasGone (L.lawful stm.now.law) (L.may stm.now.law) (terms_in stm.now) (moment seat.old (to_commit running.old) (H.runs hooks.old) (R.rings bell.old)) (moment seat.new (shown running.new) (H.runs hooks.new) (R.rings bell.new)) }
    ensures sound { IsSound running.new }
{
    let mut op = commit_of(running);
    make_accesses(seat, stm, running, &mut op);
    match stamp_of(&op) {
        Some(stamp) => running.state = State::Ended(Ending::Committed { stamp }),
        None => hand_on(seat, stm, bell, hooks, running, op),
    }
}

// The commit before its first access.
#[inline(always)]
fn commit_of(running: &Running) -> CommitOp
    requires { IsQuiet running.now }
    ensures begins { commits_at running.now result ≡ to_commit running.now }
    ensures commits { IsCommitting running.now result }
{
    CommitOp {
        own: running.own,
        serial: running.serial,
        tries: running.settings.tries,
        limit: running.settings.clock,
        writes: running.footprint.writes.len(),
        rung: None,
        place: CommitPlace::Prepare,
    }
}

// All accesses, with no stop where handlers would be run, while nothing disturbs them.
#[inline(always)]
fn make_accesses<L: Law>(seat: &mut Seat<L>, stm: &Stm<L>, running: &Running, op: &mut CommitOp)
    requires own { seat.old.table ≡ stm.now.table }
    requires quiet { IsQuiet running.now }
    requires here { IsInCommit (L.lawful stm.now.law) (L.may stm.now.law) (terms_in stm.now) seat.old running.now op.old }
    ensures { CommitsOn (L.lawful stm.now.law) (L.may stm.now.law) (terms_in stm.now) running.now seat.old op.old seat.new op.new }
{
    go_through::<Prepare, L>(seat, stm, running, op);
    go_through::<Marks, L>(seat, stm, running, op);
    go_through::<ClockLoad, L>(seat, stm, running, op);
    go_through::<Validation, L>(seat, stm, running, op);
    go_through::<Decision, L>(seat, stm, running, op);
    go_through::<Stores, L>(seat, stm, running, op);
    go_through::<Releases, L>(seat, stm, running, op);
    go_through::<Close, L>(seat, stm, running, op);
}

// The accesses of one part, while nothing disturbs them.
#[inline(always)]
fn go_through<P: Part, L: Law>(
    seat: &mut Seat<L>,
    stm: &Stm<L>,
    running: &Running,
    op: &mut CommitOp,
)
    requires own { seat.old.table ≡ stm.now.table }
    requires quiet { IsQuiet running.now }
    requires here { IsInCommit (L.lawful stm.now.law) (L.may stm.now.law) (terms_in stm.now) seat.old running.now op.old }
    ensures { CommitsOn (L.lawful stm.now.law) (L.may stm.now.law) (terms_in stm.now) running.now seat.old op.old seat.new op.new }
{
    while P::is_next(op) && is_undisturbed(op) {
        step(seat, stm, running, op);
        resume(running, op);
    }
}

// Whether an access comes next, and no cell is to be rung for.
#[inline(always)]
fn is_undisturbed(op: &CommitOp) -> bool
    ensures { IsTrue result → IsUndisturbed op.now }
{
    op.end().is_none() && op.rings().is_none()
}

// One access of a commit.
#[inline(always)]
fn step<L: Law>(seat: &mut Seat<L>, stm: &Stm<L>, running: &Running, op: &mut CommitOp)
    requires own { seat.old.table ≡ stm.now.table }
    requires quiet { IsQuiet running.now }
    requires here { IsInCommit (L.lawful stm.now.law) (L.may stm.now.law) (terms_in stm.now) seat.old running.now op.old }
    requires undisturbed { IsUndisturbed op.old }
    ensures commits { CommitsOn (L.lawful stm.now.law) (L.may stm.now.law) (terms_in stm.now) running.now seat.old op.old seat.new op.new }
    ensures falls { accesses_left op.new (length running.now.footprint.reads.notes) < accesses_left op.old (length running.now.footprint.reads.notes) }
{
    let Some(access) = op.next(&running.footprint) else {
        unreachable!();
    };
    let commit = Committing { running, op: *op };
    let found = seat.perform(stm, access, &commit);
    op.take(&running.footprint, found);
}

// Goes on from a stop, where no handler is to be run.
#[inline(always)]
fn resume(running: &Running, op: &mut CommitOp)
    requires quiet { IsQuiet running.now }
    requires commits { IsCommitting running.now op.old }
    ensures same { commits_at running.now op.new ≡ commits_at running.now op.old }
    ensures commits { IsCommitting running.now op.new }
    ensures left { (reads : ℕ) → accesses_left op.new reads ≡ accesses_left op.old reads }
{
    let place = op.place;
    if let CommitPlace::Ended(CommitEnd::Prepared | CommitEnd::Decided { .. }) = place {
        op.resume();
    }
}

// The stamp, once the commit has ended so and no cell is to be rung for.
#[inline(always)]
fn stamp_of(op: &CommitOp) -> Option<u64>
    ensures { IfSome result (λ stamp. (op.now.place ≡ Ended (Stamp stamp)) × (op.now.rung ≡ None)) }
{
    match (op.place, op.rung) {
        (CommitPlace::Ended(CommitEnd::Stamp(stamp)), None) => Some(stamp),
        _ => None,
    }
}

// The driver goes on with this commit.
#[cold]
#[inline(never)]
fn hand_on<L: Law, R: Bell, H: Hooks>(
    seat: &mut Seat<L>,
    stm: &Stm<L>,
    bell: &mut R,
    hooks: &mut H,
    running: &mut Running,
    op: CommitOp,
)
    requires own { seat.old.table ≡ stm.now.table }
    requires quiet { IsQuiet running.old }
    requires here { IsInCommit (L.lawful stm.now.law) (L.may stm.now.law) (terms_in stm.now) seat.old running.old op }
    ensures gone { HasGone (L.lawful stm.now.law) (L.may stm.now.law) (terms_in stm.now) (moment seat.old (commits_at running.old op) (H.runs hooks.old) (R.rings bell.old)) (moment seat.new (shown running.new) (H.runs hooks.new) (R.rings bell.new)) }
    ensures sound { IsSound running.new }
{
    running.put_commit(op);
    go_on(seat, stm, bell, hooks, running);
}
