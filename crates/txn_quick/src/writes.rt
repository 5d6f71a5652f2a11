//! A write. The first one of a cell makes its two accesses one after another.
ghost use Rattle.std.specs.Prelude.{◌≡◌, ◌≤◌, ℕ, IsTrue, Some};
ghost use Rattle.meta_word.specs.Meta.{MetaFits};
ghost use Rattle.meta_word.specs.declared.meta.TheConstants.{MAX_OWNER};
ghost use Rattle.op_commit.specs.Acquire.{acquiring, version_in, wrote};
ghost use Rattle.ref_table.specs.Seats.{terms_in};
ghost use Rattle.stm_core.specs.Running.{IsAcquiring, IsFree, IsSound, base, shown};
ghost use Rattle.stm_model.specs.Accesses.{ExchangeMeta, access_of, next_access, owned};
ghost use Rattle.stm_model.specs.After.{note_of};
ghost use Rattle.stm_model.specs.Moves.{AwaitsAsk, MayAsk};
ghost use Rattle.stm_model.specs.World.{cells_in};
ghost use Rattle.stm_model.specs.declared.access.Ask.TheVariants.{Set};
ghost use Rattle.txn_drive.specs.Going.{Continues, IsAsked};
ghost use Rattle.txn_drive.specs.Moment.{moment};
ghost use Rattle.txn_drive.specs.Standing.{IsOn, Rests};
ghost use Rattle.txn_quick.specs.Gone.{HasGone};
ghost use Rattle.txn_quick.specs.Writing.{HasRoomToWrite, IsFirstWrite, IsWriting, ToExchange, WritesOn, owner_exchanged, owner_loaded, to_write};

use crate::told::tell;
use meta_word::pack_meta;
use op_commit::{AcquireEnd, AcquireOp, AcquirePlace};
use stm_core::{Ask, Running, State};
use stm_model::{Access, Addr, Bell, Hooks, Law, Meta, Shown, Word};
use txn_drive::{Seat, Stm, ask, go_on};

/// An attempt in the middle of a first write of this value, as it is shown to the table.
#[derive(Clone, Copy)]
struct Writing<'a> {
    running: &'a Running,
    op: AcquireOp,
    value: u64,
}

impl<'a> Shown for Writing<'a> {
    ghost use Rattle.std.specs.Prelude.{Some};
    ghost use Rattle.op_commit.specs.Acquire.{acquiring};
    ghost use Rattle.stm_core.specs.Running.{base};

    ghost shows = { λ write. Some (acquiring write.op write.value (base write.running.now)) };
}

// A cell with the value that it is to have.
#[derive(Clone, Copy)]
struct Write {
    addr: Addr,
    value: u64,
}

/// The attempt writes a cell. What comes of it is what comes of the ask `Set`.
pub fn set<L: Law, R: Bell, H: Hooks>(
    seat: &mut Seat<L>,
    stm: &Stm<L>,
    bell: &mut R,
    hooks: &mut H,
    running: &mut Running,
    addr: Addr,
    value: u64,
)
    requires own { seat.old.table ≡ stm.now.table }
    requires sound { IsSound running.old }
    requires on { IsOn (L.lawful stm.now.law) (L.may stm.now.law) (terms_in stm.now) seat.old (shown running.old) }
    requires waits { AwaitsAsk (shown running.old) }
    requires may { MayAsk (cells_in (terms_in stm.now)) (shown running.old) (Set addr value) }
    ensures asked { IsAsked (shown running.old) (Set addr value) (shown running.new) }
    ensures continues { Continues (moment seat.old (shown running.old) (H.runs hooks.old) (R.rings bell.old)) (moment seat.new (shown running.new) (H.runs hooks.new) (R.rings bell.new)) }
    ensures on { IsOn (L.lawful stm.now.law) (L.may stm.now.law) (terms_in stm.now) seat.new (shown running.new) }
    ensures sound { IsSound running.new }
    ensures rests { Rests (shown running.new) }
{
    if is_first_write(running, addr) {
        let write = Write { addr, value };
        first_write(seat, stm, bell, hooks, running, write);
    } else {
        ask(seat, stm, bell, hooks, running, Ask::Set(addr, value));
    }
}

// Whether the attempt waits to be asked, and this is the first write of the cell, with room.
#[inline(always)]
fn is_first_write(running: &Running, addr: Addr) -> bool
    ensures { IsTrue result → IsFirstWrite running.now addr }
{
    let State::Ready(_) = running.state else {
        return false;
    };
    let writes = &running.footprint.writes;
    writes.find(addr).is_none() && writes.spare_first_writes() > 0
}

// Loads the meta word, and exchanges it for one by which the caller owns the cell.
#[inline(always)]
fn first_write<L: Law, R: Bell, H: Hooks>(
    seat: &mut Seat<L>,
    stm: &Stm<L>,
    bell: &mut R,
    hooks: &mut H,
    running: &mut Running,
    write: Write,
)
    requires own { seat.old.table ≡ stm.now.table }
    requires free { IsFree running.old }
    requires first { IsFirstWrite running.old write.addr }
    requires on { IsOn (L.lawful stm.now.law) (L.may stm.now.law) (terms_in stm.now) seat.old (to_write running.old write.addr write.value) }
    ensures gone { HasGone (L.lawful stm.now.law) (L.may stm.now.law) (terms_in stm.now) (moment seat.old (to_write running.old write.addr write.value) (H.runs hooks.old) (R.rings bell.old)) (moment seat.new (shown running.new) (H.runs hooks.new) (R.rings bell.new)) }
    ensures sound { IsSound running.new }
{
    let Write { addr, value } = write;
    let mut op = write_of(running, addr);
    let load = Access::Load(Word::Meta(addr));
    let first = step(seat, stm, running, &mut op, value, load);
    let AcquirePlace::Acquire { expected, .. } = op.place else {
        load_on(seat, stm, bell, hooks, running, write, first);
        return;
    };
    let exchange = exchange_of(addr, running.own, expected);
    let found = step(seat, stm, running, &mut op, value, exchange);
    match op.end() {
        Some(AcquireEnd::Owned { .. }) => buffer(running, addr, value),
        _ => exchange_on(seat, stm, bell, hooks, running, write, (first, found)),
    }
}

// The first write of this cell before its first access.
#[inline(always)]
fn write_of(running: &Running, addr: Addr) -> AcquireOp
    requires free { IsFree running.now }
    requires room { HasRoomToWrite running.now addr }
    ensures begins { (value : ℕ) → acquiring result value (base running.now) ≡ to_write running.now addr value }
    ensures writes { IsWriting running.now result }
    ensures cell { result.addr ≡ addr }
{
    let noted = noted_version(running, addr);
    AcquireOp::new(addr, running.own, running.settings.policy, noted)
}

// The version that was noted of a cell.
#[inline(always)]
fn noted_version(running: &Running, addr: Addr) -> Option<u64>
    ensures { result ≡ version_in (note_of running.now.footprint.reads.notes addr.0) }
{
    match running.footprint.reads.find(addr) {
        Some(note) => Some(note.version),
        None => None,
    }
}

// The exchange by which this caller owns the cell, whose meta word is to be this one.
#[inline(always)]
#[tactic(auto, unfolding(stm_model::specs::Accesses::access_of))]
fn exchange_of(addr: Addr, own: u16, expected: Meta) -> Access
    requires own { own ≤ MAX_OWNER }
    requires fits { MetaFits expected }
    ensures { result ≡ access_of (ExchangeMeta addr.0 expected (owned own expected)) }
{
    Access::Exchange {
        word: Word::Meta(addr),
        old: pack_meta(expected),
        new: pack_meta(Meta {
            owner: own,
            ..expected
        }),
    }
}

// One access of a first write of this value, which is its next one.
#[inline(always)]
fn step<L: Law>(
    seat: &mut Seat<L>,
    stm: &Stm<L>,
    running: &Running,
    op: &mut AcquireOp,
    value: u64,
    access: Access,
) -> u64
    requires own { seat.old.table ≡ stm.now.table }
    requires on { IsOn (L.lawful stm.now.law) (L.may stm.now.law) (terms_in stm.now) seat.old (acquiring op.old value (base running.now)) }
    requires writes { IsWriting running.now op.old }
    requires comes { next_access (acquiring op.old value (base running.now)) ≡ Some access }
    ensures { WritesOn (L.lawful stm.now.law) (L.may stm.now.law) (terms_in stm.now) running.now value seat.old op.old result seat.new op.new }
{
    let write = Writing {
        running,
        op: *op,
        value,
    };
    let found = seat.perform(stm, access, &write);
    op.take(&running.footprint.reads, found);
    found
}

// Buffers the first write of a cell, and answers that it is done.
#[inline(always)]
fn buffer(running: &mut Running, addr: Addr, value: u64)
    requires free { IsFree running.old }
    requires first { IsFirstWrite running.old addr }
    ensures wrote { shown running.new ≡ wrote (base running.old) addr.0 value }
    ensures sound { IsSound running.new }
{
    running.footprint.writes.put_first(addr, value);
    tell(&mut running.state, None);
}

// The driver goes on with a first write that has loaded this meta word.
#[cold]
#[inline(never)]
fn load_on<L: Law, R: Bell, H: Hooks>(
    seat: &mut Seat<L>,
    stm: &Stm<L>,
    bell: &mut R,
    hooks: &mut H,
    running: &mut Running,
    write: Write,
    first: u64,
)
    requires own { seat.old.table ≡ stm.now.table }
    requires free { IsFree running.old }
    requires room { HasRoomToWrite running.old write.addr }
    requires on { IsOn (L.lawful stm.now.law) (L.may stm.now.law) (terms_in stm.now) seat.old (owner_loaded running.old write.addr write.value first) }
    ensures gone { HasGone (L.lawful stm.now.law) (L.may stm.now.law) (terms_in stm.now) (moment seat.old (owner_loaded running.old write.addr write.value first) (H.runs hooks.old) (R.rings bell.old)) (moment seat.new (shown running.new) (H.runs hooks.new) (R.rings bell.new)) }
    ensures sound { IsSound running.new }
{
    let op = meta_loaded(running, write.addr, first);
    hand_on(seat, stm, bell, hooks, running, op, write.value);
}

// The driver goes on with a first write that has found these words.
#[cold]
#[inline(never)]
fn exchange_on<L: Law, R: Bell, H: Hooks>(
    seat: &mut Seat<L>,
    stm: &Stm<L>,
    bell: &mut R,
    hooks: &mut H,
    running: &mut Running,
    write: Write,
    found: (u64, u64),
)
    requires own { seat.old.table ≡ stm.now.table }
    requires free { IsFree running.old }
    requires room { HasRoomToWrite running.old write.addr }
    requires exchanges { ToExchange running.old write.addr write.value found.0 }
    requires on { IsOn (L.lawful stm.now.law) (L.may stm.now.law) (terms_in stm.now) seat.old (owner_exchanged running.old write.addr write.value found.0 found.1) }
    ensures gone { HasGone (L.lawful stm.now.law) (L.may stm.now.law) (terms_in stm.now) (moment seat.old (owner_exchanged running.old write.addr write.value found.0 found.1) (H.runs hooks.old) (R.rings bell.old)) (moment seat.new (shown running.new) (H.runs hooks.new) (R.rings bell.new)) }
    ensures sound { IsSound running.new }
{
    let op = meta_exchanged(running, write, found);
    hand_on(seat, stm, bell, hooks, running, op, write.value);
}

// The first write of this cell that has loaded this meta word.
fn meta_loaded(running: &Running, addr: Addr, first: u64) -> AcquireOp
    requires free { IsFree running.now }
    requires room { HasRoomToWrite running.now addr }
    ensures loaded { (value : ℕ) → acquiring result value (base running.now) ≡ owner_loaded running.now addr value first }
    ensures acquires { IsAcquiring running.now result }
{
    let mut op = write_of(running, addr);
    op.take(&running.footprint.reads, first);
    op
}

// The first write that has loaded a meta word, and whose exchange has found another.
fn meta_exchanged(running: &Running, write: Write, found: (u64, u64)) -> AcquireOp
    requires free { IsFree running.now }
    requires room { HasRoomToWrite running.now write.addr }
    requires exchanges { ToExchange running.now write.addr write.value found.0 }
    ensures exchanged { acquiring result write.value (base running.now) ≡ owner_exchanged running.now write.addr write.value found.0 found.1 }
    ensures acquires { IsAcquiring running.now result }
{
    let mut op = meta_loaded(running, write.addr, found.0);
    op.take(&running.footprint.reads, found.1);
    op
}

// The driver goes on with this first write of this value.
fn hand_on<L: Law, R: Bell, H: Hooks>(
    seat: &mut Seat<L>,
    stm: &Stm<L>,
    bell: &mut R,
    hooks: &mut H,
    running: &mut Running,
    op: AcquireOp,
    value: u64,
)
    requires own { seat.old.table ≡ stm.now.table }
    requires free { IsFree running.old }
    requires acquires { IsAcquiring running.old op }
    requires on { IsOn (L.lawful stm.now.law) (L.may stm.now.law) (terms_in stm.now) seat.old (acquiring op value (base running.old)) }
    ensures gone { HasGone (L.lawful stm.now.law) (L.may stm.now.law) (terms_in stm.now) (moment seat.old (acquiring op value (base running.old)) (H.runs hooks.old) (R.rings bell.old)) (moment seat.new (shown running.new) (H.runs hooks.new) (R.rings bell.new)) }
    ensures sound { IsSound running.new }
{
    running.put_acquire(op, value);
    go_on(seat, stm, bell, hooks, running);
}
