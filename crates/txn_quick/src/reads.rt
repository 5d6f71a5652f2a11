//! A read. The first one of a cell makes its three accesses one after another.
ghost use Rattle.std.specs.Prelude.{◌≡◌};
ghost use Rattle.op_read.specs.Read.{got, reading};
ghost use Rattle.ref_table.specs.Seats.{terms_in};
ghost use Rattle.stm_core.specs.Running.{HasRoomFor, IsFree, IsReading, IsSound, base, shown};
ghost use Rattle.stm_model.specs.Moves.{AwaitsAsk, MayAsk, Takes, moved};
ghost use Rattle.stm_model.specs.World.{cells_in};
ghost use Rattle.stm_model.specs.declared.access.Ask.TheVariants.{Get};
ghost use Rattle.txn_drive.specs.Going.{Continues, IsAsked};
ghost use Rattle.txn_drive.specs.Moment.{moment};
ghost use Rattle.txn_drive.specs.Standing.{IsOn, Rests};
ghost use Rattle.txn_quick.specs.Gone.{HasGone};
ghost use Rattle.txn_quick.specs.Sought.{IsSought};
ghost use Rattle.txn_quick.specs.Reads.{IsFirstRead, IsKnown, IsUnderWay, LoadsValue, ReadsOn, cell_loaded, meta_loaded, to_read};

use crate::told::tell;
use op_read::{ReadEnd, ReadOp, ReadPlace};
use stm_core::{Ask, Running, State};
use stm_model::{Addr, Bell, Hooks, Law, Note, Shown};
use txn_drive::{Seat, Stm, ask, go_on};

/// An attempt in the middle of a read, as it is shown to the table.
#[derive(Clone, Copy)]
struct Reading<'a> {
    running: &'a Running,
    op: ReadOp,
}

impl<'a> Shown for Reading<'a> {
    ghost use Rattle.std.specs.Prelude.{Some};
    ghost use Rattle.op_read.specs.Read.{reading};
    ghost use Rattle.stm_core.specs.Running.{base};

    ghost shows = { λ read. Some (reading read.op (base read.running.now)) };
}

/// The attempt reads a cell. What comes of it is what comes of the ask `Get`.
pub fn get<L: Law, R: Bell, H: Hooks>(
    seat: &mut Seat<L>,
    stm: &Stm<L>,
    bell: &mut R,
    hooks: &mut H,
    running: &mut Running,
    addr: Addr,
)
    requires own { seat.old.table ≡ stm.now.table }
    requires sound { IsSound running.old }
    requires on { IsOn (L.lawful stm.now.law) (L.may stm.now.law) (terms_in stm.now) seat.old (shown running.old) }
    requires waits { AwaitsAsk (shown running.old) }
    requires may { MayAsk (cells_in (terms_in stm.now)) (shown running.old) (Get addr) }
    ensures asked { IsAsked (shown running.old) (Get addr) (shown running.new) }
    ensures continues { Continues (moment seat.old (shown running.old) (H.runs hooks.old) (R.rings bell.old)) (moment seat.new (shown running.new) (H.runs hooks.new) (R.rings bell.new)) }
    ensures on { IsOn (L.lawful stm.now.law) (L.may stm.now.law) (terms_in stm.now) seat.new (shown running.new) }
    ensures sound { IsSound running.new }
    ensures rests { Rests (shown running.new) }
{
    match seek(running, addr) {
        Sought::Known(value) => tell_known(running, addr, value),
        Sought::Unread => first_read(seat, stm, bell, hooks, running, addr),
        Sought::Other => ask(seat, stm, bell, hooks, running, Ask::Get(addr)),
    }
}

// A cell that an attempt is asked for, as the attempt has it.
#[derive(Clone, Copy)]
enum Sought {
    // It was written or noted with this value.
    Known(u64),
    // It was neither, and its note needs no memory.
    Unread,
    // The driver finds what it is.
    Other,
}

// What the attempt has of the cell.
#[inline(always)]
#[tactic(auto, unfolding(stm_model::specs::Moves::asked_going))]
fn seek(running: &Running, addr: Addr) -> Sought
    ensures { IsSought running.now addr result }
{
    let State::Ready(_) = running.state else {
        return Sought::Other;
    };
    if let Some(value) = running.footprint.writes.find(addr) {
        return Sought::Known(value);
    }
    if let Some(note) = running.footprint.reads.find(addr) {
        return Sought::Known(note.value);
    }
    if running.footprint.reads.spare() > 0 {
        Sought::Unread
    } else {
        Sought::Other
    }
}

// Answers by the value that it has.
#[inline(always)]
fn tell_known(running: &mut Running, addr: Addr, value: u64)
    requires free { IsFree running.old }
    requires known { IsKnown running.old addr value }
    ensures takes { shown running.new ≡ moved (shown running.old) (Takes (Get addr)) }
    ensures sound { IsSound running.new }
    ensures rests { Rests (shown running.new) }
{
    tell(&mut running.state, Some(value));
}

// Loads the meta word, the value, and the meta word again.
#[inline(always)]
fn first_read<L: Law, R: Bell, H: Hooks>(
    seat: &mut Seat<L>,
    stm: &Stm<L>,
    bell: &mut R,
    hooks: &mut H,
    running: &mut Running,
    addr: Addr,
)
    requires own { seat.old.table ≡ stm.now.table }
    requires free { IsFree running.old }
    requires first { IsFirstRead running.old addr }
    requires on { IsOn (L.lawful stm.now.law) (L.may stm.now.law) (terms_in stm.now) seat.old (to_read running.old addr) }
    ensures gone { HasGone (L.lawful stm.now.law) (L.may stm.now.law) (terms_in stm.now) (moment seat.old (to_read running.old addr) (H.runs hooks.old) (R.rings bell.old)) (moment seat.new (shown running.new) (H.runs hooks.new) (R.rings bell.new)) }
    ensures sound { IsSound running.new }
{
    let mut op = read_of(running, addr);
    let first = step(seat, stm, running, &mut op);
    let ReadPlace::ReadValue { .. } = op.place else {
        read_on(seat, stm, bell, hooks, running, addr, first);
        return;
    };
    let value = step(seat, stm, running, &mut op);
    let second = step(seat, stm, running, &mut op);
    match op.end() {
        Some(ReadEnd::Got { value, version }) => {
            let noted = Note {
                addr,
                version,
                value,
            };
            note(running, noted);
        }
        _ => {
            let found = (first, value, second);
            validate_on(seat, stm, bell, hooks, running, addr, found);
        }
    }
}

// The read of this cell before its first access.
#[inline(always)]
fn read_of(running: &Running, addr: Addr) -> ReadOp
    requires free { IsFree running.now }
    requires room { HasRoomFor running.now.footprint.reads addr.0 }
    ensures begins { reading result (base running.now) ≡ to_read running.now addr }
    ensures under_way { IsUnderWay running.now result }
    ensures cell { result.addr ≡ addr }
{
    ReadOp::new(
        addr,
        running.own,
        running.prefix,
        running.settings.policy.looks(),
    )
}

// One access of a read.
#[inline(always)]
fn step<L: Law>(seat: &mut Seat<L>, stm: &Stm<L>, running: &Running, op: &mut ReadOp) -> u64
    requires own { seat.old.table ≡ stm.now.table }
    requires on { IsOn (L.lawful stm.now.law) (L.may stm.now.law) (terms_in stm.now) seat.old (reading op.old (base running.now)) }
    requires under_way { IsUnderWay running.now op.old }
    ensures { ReadsOn (L.lawful stm.now.law) (L.may stm.now.law) (terms_in stm.now) running.now seat.old op.old result seat.new op.new }
{
    let Some(access) = op.next(&running.footprint.reads) else {
        unreachable!();
    };
    let read = Reading { running, op: *op };
    let found = seat.perform(stm, access, &read);
    op.take(&running.footprint.reads, found);
    found
}

// Notes what was read, and answers it.
#[inline(always)]
fn note(running: &mut Running, note: Note)
    requires free { IsFree running.old }
    requires first { IsFirstRead running.old note.addr }
    ensures got { shown running.new ≡ got (base running.old) note.addr.0 note.value note.version }
    ensures sound { IsSound running.new }
{
    running.footprint.reads.add_spare(note);
    tell(&mut running.state, Some(note.value));
}

// The driver goes on with a read that has found this meta word.
#[cold]
#[inline(never)]
fn read_on<L: Law, R: Bell, H: Hooks>(
    seat: &mut Seat<L>,
    stm: &Stm<L>,
    bell: &mut R,
    hooks: &mut H,
    running: &mut Running,
    addr: Addr,
    first: u64,
)
    requires own { seat.old.table ≡ stm.now.table }
    requires free { IsFree running.old }
    requires room { HasRoomFor running.old.footprint.reads addr.0 }
    requires on { IsOn (L.lawful stm.now.law) (L.may stm.now.law) (terms_in stm.now) seat.old (meta_loaded running.old addr first) }
    ensures gone { HasGone (L.lawful stm.now.law) (L.may stm.now.law) (terms_in stm.now) (moment seat.old (meta_loaded running.old addr first) (H.runs hooks.old) (R.rings bell.old)) (moment seat.new (shown running.new) (H.runs hooks.new) (R.rings bell.new)) }
    ensures sound { IsSound running.new }
{
    let op = meta_found(running, addr, first);
    hand_on(seat, stm, bell, hooks, running, op);
}

// The driver goes on with a read that has found these words.
#[cold]
#[inline(never)]
fn validate_on<L: Law, R: Bell, H: Hooks>(
    seat: &mut Seat<L>,
    stm: &Stm<L>,
    bell: &mut R,
    hooks: &mut H,
    running: &mut Running,
    addr: Addr,
    found: (u64, u64, u64),
)
    requires own { seat.old.table ≡ stm.now.table }
    requires free { IsFree running.old }
    requires room { HasRoomFor running.old.footprint.reads addr.0 }
    requires loads { LoadsValue running.old addr found.0 }
    requires on { IsOn (L.lawful stm.now.law) (L.may stm.now.law) (terms_in stm.now) seat.old (cell_loaded running.old addr found.0 found.1 found.2) }
    ensures gone { HasGone (L.lawful stm.now.law) (L.may stm.now.law) (terms_in stm.now) (moment seat.old (cell_loaded running.old addr found.0 found.1 found.2) (H.runs hooks.old) (R.rings bell.old)) (moment seat.new (shown running.new) (H.runs hooks.new) (R.rings bell.new)) }
    ensures sound { IsSound running.new }
{
    let op = cell_found(running, addr, found);
    hand_on(seat, stm, bell, hooks, running, op);
}

// The read of this cell that has found this meta word.
fn meta_found(running: &Running, addr: Addr, first: u64) -> ReadOp
    requires free { IsFree running.now }
    requires room { HasRoomFor running.now.footprint.reads addr.0 }
    ensures loaded { reading result (base running.now) ≡ meta_loaded running.now addr first }
    ensures reads { IsReading running.now result }
{
    let mut op = read_of(running, addr);
    op.take(&running.footprint.reads, first);
    op
}

// The read of this cell that has found these words: a meta word, the value, and a meta word.
fn cell_found(running: &Running, addr: Addr, found: (u64, u64, u64)) -> ReadOp
    requires free { IsFree running.now }
    requires room { HasRoomFor running.now.footprint.reads addr.0 }
    requires loads { LoadsValue running.now addr found.0 }
    ensures loaded { reading result (base running.now) ≡ cell_loaded running.now addr found.0 found.1 found.2 }
    ensures reads { IsReading running.now result }
{
    let (first, value, second) = found;
    let mut op = meta_found(running, addr, first);
    op.take(&running.footprint.reads, value);
    op.take(&running.footprint.reads, second);
    op
}

// The driver goes on with this read.
fn hand_on<L: Law, R: Bell, H: Hooks>(
    seat: &mut Seat<L>,
    stm: &Stm<L>,
    bell: &mut R,
    hooks: &mut H,
    running: &mut Running,
    op: ReadOp,
)
    requires own { seat.old.table ≡ stm.now.table }
    requires free { IsFree running.old }
    requires reads { IsReading running.old op }
    requires on { IsOn (L.lawful stm.now.law) (L.may stm.now.law) (terms_in stm.now) seat.old (reading op (base running.old)) }
    ensures gone { HasGone (L.lawful stm.now.law) (L.may stm.now.law) (terms_in stm.now) (moment seat.old (reading op (base running.old)) (H.runs hooks.old) (R.rings bell.old)) (moment seat.new (shown running.new) (H.runs hooks.new) (R.rings bell.new)) }
    ensures sound { IsSound running.new }
{
    running.put_read(op);
    go_on(seat, stm, bell, hooks, running);
}
