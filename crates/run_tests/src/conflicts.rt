//! What another caller's attempt in the middle of an attempt makes of both.
ghost use Rattle.std.specs.Prelude.{◌<◌, length};
ghost use Rattle.run_tests.specs.Tables.{Begins};

use crate::bodies::Sets;
use crate::guide::tables::{ONE, SETTINGS, ZERO, next_seat, try_once};
use meta_word::{Meta, Phase, TxnStatus};
use ref_views::Ref;
use std::alloc::Global;
use std::process::Abort;
use stm_model::{Addr, Free, Policy, Settings};
use txn_run::{Body, Cause, Cells, Outcome, Seat, Stm};

/// Reads cell 0 and writes 4 to a cell. Then another caller makes an attempt to set cell 0 to 7, and after that
/// this body sets it to 5.
#[derive(Drop)]
struct Disturbed<'a> {
    first: Ref<u64>,
    stm: &'a Stm<Free>,
    other: &'a mut Seat<Free>,
    /// How the other caller's attempt ended.
    told: Option<Outcome<()>>,
}

impl<'a> Body<Free> for Disturbed<'a> {
    type Out = ();

    ghost fits = { λ body law size. (body.first.addr.0 < size) × (0 < size) × (0 < length body.stm.now.opening) × Begins body.stm.now body.other.now };

    ghost means = { λ body heap before answer after left. Unit {0} };

    ghost leaves = { λ body heap before left. Unit {0} };

    ghost late_means = { λ body token heap before answer after left. Unit {0} };

    ghost late_leaves = { λ body token heap before left. Unit {0} };

    fn run<C: Cells<Free>>(&mut self, cells: &mut C) -> Result<(), Cause> {
        let cell: Ref<u64> = Ref::new(ZERO);
        cell.get(cells)?;
        self.first.set(cells, 4)?;
        let mut sets = Sets { cell, value: 7 };
        let told = try_once(self.stm, self.other, &mut sets);
        self.told = Some(told);
        cell.set(cells, 5)?;
        Ok(())
    }

    fn late<C: Cells<Free>>(&mut self, _cells: &mut C, _token: u64) -> Result<(), Cause> {
        Ok(())
    }
}

// The metadata word of a cell of this version, with this owner.
fn word_of(version: u64, owner: u16) -> Meta {
    Meta {
        version,
        owner,
        pending: false,
        changing: false,
    }
}

// How the disturbed attempt of caller 1 ends, which writes to this cell first, and the one of caller 2 in its
// middle.
fn disturb(
    rt: &impl Abort,
    alloc: Global,
    policy: Policy,
    first: Addr,
) -> (Outcome<()>, Option<Outcome<()>>)
    requires { first.0 < 2 }
{
    let settings = Settings { policy, ..SETTINGS };
    let Ok((mut maker, stm)) = Stm::new(alloc, &[0, 0], settings) else {
        panic!(rt; "no table")
    };
    let mut one = next_seat(rt, &mut maker, &stm);
    let mut other = next_seat(rt, &mut maker, &stm);
    let mut disturbed = Disturbed {
        first: Ref::new(first),
        stm: &stm,
        other: &mut other,
        told: None,
    };
    let outcome = try_once(&stm, &mut one, &mut disturbed);
    (outcome, disturbed.told)
}

#[test]
fn what_was_read_is_stale_after_a_commit(rt: HostRuntime) {
    let (outcome, other) = disturb(&rt, rt.alloc(), Policy::Look(0), ONE);
    assert_eq!(rt; other, Some(Outcome::Committed { out: (), stamp: 1 }));
    let cause = Cause::Stale {
        addr: ZERO,
        version: 0,
        meta: word_of(1, 0),
    };
    assert_eq!(rt; outcome, Outcome::Rolled { cause, prefix: 0 });
}

#[test]
fn the_second_writer_of_a_cell_gives_way(rt: HostRuntime) {
    let (outcome, other) = disturb(&rt, rt.alloc(), Policy::Look(2), ZERO);
    let cause = Cause::WriteConflict {
        addr: ZERO,
        meta: word_of(0, 1),
    };
    assert_eq!(rt; other, Some(Outcome::Rolled { cause, prefix: 0 }));
    assert_eq!(rt; outcome, Outcome::Committed { out: (), stamp: 1 });
}

#[test]
fn the_first_writer_of_a_cell_may_be_doomed(rt: HostRuntime) {
    let (outcome, other) = disturb(&rt, rt.alloc(), Policy::Doom(0), ZERO);
    let cause = Cause::WriteConflict {
        addr: ZERO,
        meta: word_of(0, 1),
    };
    assert_eq!(rt; other, Some(Outcome::Rolled { cause, prefix: 0 }));
    let status = TxnStatus {
        phase: Phase::Doomed,
        serial: 1,
    };
    let cause = Cause::Doomed { status };
    assert_eq!(rt; outcome, Outcome::Rolled { cause, prefix: 0 });
}
