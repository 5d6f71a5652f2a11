//! Two threads on one table, each with its seat.
ghost use Rattle.std.specs.Prelude.{◌≡◌, None, length};
ghost use Rattle.run_tests.specs.Tables.{Begins};

use crate::bodies::{AddsOne, Counted};
use crate::guide::alternatives::{Payers, Pays};
use crate::guide::blocks::Attempts;
use crate::guide::tables::{ONE, SETTINGS, TWO, ZERO, next_seat, try_with};
use crate::guide::transfers::Transfer;
use ref_table::Finished;
use ref_views::{Ref, TArray};
use std::alloc::Global;
use std::process::Abort;
use std::thread::{Threads, join, yield_now};
use stm_model::{Addr, Free, HookPhase, Policy, Settings};
use txn_run::{Body, Hooks, Outcome, Quiet, Seat, Stm};

/// The most attempts that a thread makes.
const MOST_ATTEMPTS: u32 = 100_000_000;

/// As many attempts as there may be, each of which looks often before it gives way.
const MANY: Settings = Settings {
    policy: Policy::Look(100),
    attempts: 4_611_686_018_427_387_903,
    ..SETTINGS
};

/// Counts the runs of handlers.
#[derive(Clone, Copy, Debug, PartialEq, Eq)]
struct Counts {
    completions: u64,
    others: u64,
}

impl Hooks for Counts {
    ghost runs = { λ _. None };

    fn run(&mut self, phase: HookPhase, _token: u64) {
        match phase {
            HookPhase::Completion => self.completions = self.completions.saturating_add(1),
            _ => self.others = self.others.saturating_add(1),
        }
    }
}

// Attempts until so many have committed.
fn commit_often<B: Body<Free> + Drop, H: Hooks>(
    rt: &impl Abort,
    stm: &Stm<Free>,
    mut seat: Seat<Free>,
    mut body: B,
    times: u32,
    hooks: &mut H,
) -> Seat<Free>
    requires begins { Begins stm.now seat }
    requires fits { B.fits body stm.now.law (length stm.now.opening) }
    ensures begins { Begins stm.now result }
{
    let mut committed = 0u32;
    for _ in 0..MOST_ATTEMPTS {
        let outcome = try_with(stm, &mut seat, &mut Quiet, &mut body, hooks);
        match outcome {
            Outcome::Committed { .. } => committed = committed.saturating_add(1),
            _ => yield_now(),
        }
        if committed == times {
            return seat;
        }
    }
    panic!(rt; "too few have committed")
}

/// What a thread does.
#[derive(Clone, Copy)]
enum Role {
    /// Adds one to cell 0, 1,000 times.
    Adds,
    /// Adds one to cell 1, 1,000 times, and counts the runs of its handlers.
    Counts,
    /// Moves one from cell 0 to cell 1, 5,000 times.
    There,
    /// Moves one from cell 1 to cell 0, 5,000 times.
    Back,
    /// Moves one from cell 0 to cell 1 if there is one, and else counts in cell 3, 1,000 times in all.
    Tries,
    /// Pays one from cell 0 or cell 1 into cell 2, 1,000 times.
    Pays,
}

fn one_from(from: Addr, to: Addr) -> Transfer
    ensures { (result.from.addr ≡ from) × (result.to.addr ≡ to) }
{
    Transfer {
        from: Ref::new(from),
        to: Ref::new(to),
        amount: 1,
    }
}

// One is added to cell 1, 1,000 times. In each attempt the handler ran once, also where it was rolled back.
fn count(rt: &impl Abort, stm: &Stm<Free>, seat: Seat<Free>) -> Seat<Free>
    requires begins { Begins stm.now seat }
    requires cells { length stm.now.opening ≡ 4 }
    ensures begins { Begins stm.now result }
{
    let counted = Counted {
        cell: Ref::new(ONE),
    };
    let mut counts = Counts {
        completions: 0,
        others: 0,
    };
    let seat = commit_often(rt, stm, seat, counted, 1000, &mut counts);
    let ran = Counts {
        completions: seat.serial(),
        others: 0,
    };
    assert_eq!(rt; counts, ran);
    seat
}

// What one thread does, with its seat.
fn work(rt: &impl Abort, stm: &Stm<Free>, seat: Seat<Free>, role: Role) -> Seat<Free>
    requires begins { Begins stm.now seat }
    requires cells { length stm.now.opening ≡ 4 }
    ensures begins { Begins stm.now result }
{
    match role {
        Role::Adds => {
            let adds = AddsOne {
                cell: Ref::new(ZERO),
            };
            commit_often(rt, stm, seat, adds, 1000, &mut Quiet)
        }
        Role::Counts => count(rt, stm, seat),
        Role::There => {
            let there = one_from(ZERO, ONE);
            commit_often(rt, stm, seat, there, 5000, &mut Quiet)
        }
        Role::Back => {
            let back = one_from(ONE, ZERO);
            commit_often(rt, stm, seat, back, 5000, &mut Quiet)
        }
        Role::Tries => {
            let tries = Attempts {
                transfer: one_from(ZERO, ONE),
                failures: Ref::new(Addr(3)),
            };
            commit_often(rt, stm, seat, tries, 1000, &mut Quiet)
        }
        Role::Pays => {
            let pays = Pays {
                payers: Payers {
                    accounts: TArray::new(ZERO, 2),
                    amount: 1,
                },
                to: Ref::new(TWO),
            };
            commit_often(rt, stm, seat, pays, 1000, &mut Quiet)
        }
    }
}

// Two threads on a table that opens so. Tells what is left of it.
fn side_by_side<R: Abort + Threads + Sync>(
    rt: &R,
    alloc: Global,
    opening: [u64; 4],
    roles: (Role, Role),
) -> Finished {
    let Ok((mut maker, stm)) = Stm::new(alloc, &opening, MANY) else {
        panic!(rt; "no table")
    };
    let first = next_seat(rt, &mut maker, &stm);
    let second = next_seat(rt, &mut maker, &stm);
    let (one, other) = roles;
    let shared = &stm;
    let (first, second) = join(
        rt,
        move || -> Seat<Free>
            requires begins { Begins shared.now first }
            requires cells { length shared.now.opening ≡ 4 }
            ensures begins { Begins shared.entry.now result }
        { work(rt, shared, first, one) },
        move || -> Seat<Free>
            requires begins { Begins shared.now second }
            requires cells { length shared.now.opening ≡ 4 }
            ensures begins { Begins shared.entry.now result }
        { work(rt, shared, second, other) },
    );
    maker.gather(&stm, first);
    maker.gather(&stm, second);
    match stm.close(maker) {
        Ok(finished) => finished,
        Err(_) => panic!(rt; "no memory"),
    }
}

#[test]
fn two_threads_lose_no_addition(rt: HostRuntime) {
    let finished = side_by_side(&rt, rt.alloc(), [0; 4], (Role::Adds, Role::Adds));
    assert_eq!(rt; finished.clock, 2000);
    assert_eq!(rt; finished.values.as_slice(), [2000, 0, 0, 0].as_slice());
}

#[test]
fn two_threads_lose_no_handler(rt: HostRuntime) {
    let finished = side_by_side(&rt, rt.alloc(), [0; 4], (Role::Counts, Role::Counts));
    assert_eq!(rt; finished.clock, 2000);
    assert_eq!(rt; finished.values.as_slice(), [0, 2000, 0, 0].as_slice());
}

#[test]
fn transfers_each_way_keep_the_sum(rt: HostRuntime) {
    let opening = [10_000, 20_000, 0, 0];
    let finished = side_by_side(&rt, rt.alloc(), opening, (Role::There, Role::Back));
    assert_eq!(rt; finished.clock, 10_000);
    assert_eq!(rt; finished.values.as_slice(), opening.as_slice());
}

#[test]
fn blocks_and_alternatives_take_place_whole(rt: HostRuntime) {
    let opening = [1000, 0, 0, 0];
    let finished = side_by_side(&rt, rt.alloc(), opening, (Role::Tries, Role::Pays));
    assert_eq!(rt; finished.clock, 2000);
    let failures = finished.values.as_slice().last().copied().unwrap_or(0);
    assert!(rt; failures <= 1000);
    assert_eq!(rt;
        finished.values.as_slice(),
        [0, 0, 1000, failures].as_slice()
    );
}
