//! Two threads on one table, each with its seat.
ghost use Rattle.std.specs.Prelude.{◌≡◌, length};
ghost use Rattle.ref_table.specs.Seats.{IsSameSeat, terms_in};
ghost use Rattle.table_tests.specs.Driving.{Rests};

use crate::driver::{ONE, ZERO, ask, begin, finish};
use ref_table::{Seat, Stm};
use std::alloc::Global;
use std::process::Abort;
use std::test::Fail;
use std::thread::join;
use stm_core::{Ask, Ending, Reply};
use stm_model::{Free, Policy, Settings};

/// How many commits each thread makes of each kind.
const COMMITS: u64 = 1000;

/// The most attempts that it makes for them.
const MOST_ATTEMPTS: u32 = 100_000_000;

// One is added to cell 0, if the attempt commits.
fn add_one(rt: &impl Abort, alloc: Global, stm: &Stm<Free>, seat: &mut Seat<Free>) -> Ending
    requires own { seat.old.table ≡ stm.now.table }
    requires cells { length stm.now.opening ≡ 2 }
    requires rests { Rests seat.old }
    ensures same { IsSameSeat seat.old seat.new }
    ensures rests { Rests seat.new }
{
    let mut attempt = begin(rt, alloc, stm, seat);
    let told = ask(rt, stm, seat, &mut attempt, Ask::Get(ZERO));
    if let Reply::Value(value) = told.reply {
        let more = value.wrapping_add(1);
        ask(rt, stm, seat, &mut attempt, Ask::Set(ZERO, more));
    }
    finish(rt, stm, seat, attempt).0
}

// One is moved from cell 0 to cell 1, if the attempt commits.
fn move_one(rt: &impl Abort, alloc: Global, stm: &Stm<Free>, seat: &mut Seat<Free>) -> Ending
    requires own { seat.old.table ≡ stm.now.table }
    requires cells { length stm.now.opening ≡ 2 }
    requires rests { Rests seat.old }
    ensures same { IsSameSeat seat.old seat.new }
    ensures rests { Rests seat.new }
{
    let mut attempt = begin(rt, alloc, stm, seat);
    let from = ask(rt, stm, seat, &mut attempt, Ask::Get(ZERO));
    let to = ask(rt, stm, seat, &mut attempt, Ask::Get(ONE));
    if let (Reply::Value(from), Reply::Value(to)) = (from.reply, to.reply) {
        let (less, more) = (from.wrapping_sub(1), to.wrapping_add(1));
        ask(rt, stm, seat, &mut attempt, Ask::Set(ZERO, less));
        ask(rt, stm, seat, &mut attempt, Ask::Set(ONE, more));
    }
    finish(rt, stm, seat, attempt).0
}

// Attempts until so many have committed, of one kind or the other.
fn commit_often(rt: &impl Abort, alloc: Global, stm: &Stm<Free>, seat: &mut Seat<Free>, moves: bool)
    requires own { seat.old.table ≡ stm.now.table }
    requires cells { length stm.now.opening ≡ 2 }
    requires rests { Rests seat.old }
    ensures same { IsSameSeat seat.old seat.new }
    ensures rests { Rests seat.new }
{
    let mut committed = 0u64;
    for _ in 0..MOST_ATTEMPTS {
        let ending = if moves {
            move_one(rt, alloc, stm, seat)
        } else {
            add_one(rt, alloc, stm, seat)
        };
        if let Ending::Committed { .. } = ending {
            committed = committed.saturating_add(1);
        }
        if committed == COMMITS {
            return;
        }
    }
    assert!(rt; false, "too few have committed");
}

// What one thread does.
fn work(rt: &impl Abort, alloc: Global, stm: &Stm<Free>, mut seat: Seat<Free>) -> Seat<Free>
    requires own { seat.table ≡ stm.now.table }
    requires cells { length stm.now.opening ≡ 2 }
    requires rests { Rests seat }
    ensures own { result.table ≡ stm.now.table }
    ensures rests { Rests result }
{
    commit_often(rt, alloc, stm, &mut seat, false);
    commit_often(rt, alloc, stm, &mut seat, true);
    seat
}

#[test]
fn two_threads_lose_no_commit(rt: HostRuntime) -> Result<(), Fail> {
    let alloc = rt.alloc();
    let settings = Settings {
        callers: 2,
        policy: Policy::Look(0),
        tries: 3,
        clock: 2_251_799_813_685_247,
        attempts: 4_611_686_018_427_387_903,
    };
    let (mut maker, stm) = Stm::new(alloc, &[0, 0], settings)?;
    let (Ok(first), Ok(second)) = (maker.caller(&stm), maker.caller(&stm)) else {
        panic!(rt; "it has two seats")
    };
    let (shared, handle) = (&stm, &rt);
    let (first, second) = join(
        &rt,
        move || -> Seat<Free>
            requires own { first.table ≡ shared.now.table }
            requires cells { length shared.now.opening ≡ 2 }
            requires rests { Rests first }
            ensures own { result.table ≡ shared.entry.now.table }
            ensures rests { Rests result }
        { work(handle, alloc, shared, first) },
        move || -> Seat<Free>
            requires own { second.table ≡ shared.now.table }
            requires cells { length shared.now.opening ≡ 2 }
            requires rests { Rests second }
            ensures own { result.table ≡ shared.entry.now.table }
            ensures rests { Rests result }
        { work(handle, alloc, shared, second) },
    );
    maker.gather(&stm, first);
    maker.gather(&stm, second);
    let Ok(finished) = stm.close(maker) else {
        panic!(rt; "no memory")
    };
    assert_eq!(rt; finished.clock, 4 * COMMITS);
    assert_eq!(rt; finished.values.as_slice(), [0, 2 * COMMITS].as_slice());
    Ok(())
}
