//! A first reference and a first body.
ghost use Rattle.std.specs.Prelude.{◌≡◌, ◌<◌, Ok, slice_set};
ghost use Rattle.stm_model.specs.Heap.{over};
ghost use Rattle.run_tests.specs.Deposits.{deposited};

use crate::guide::tables::{SETTINGS, ZERO, next_seat, try_once};
use ref_views::Ref;
use std::test::Fail;
use stm_model::Free;
use txn_run::{Body, Cause, Cells, Outcome, Stm};

/// Adds an amount to an account, modulo 2^64, and answers what is there then.
#[derive(Clone, Copy)]
pub struct Deposit {
    pub account: Ref<u64>,
    pub amount: u64,
}

impl Body<Free> for Deposit {
    type Out = u64;

    ghost fits = { λ body law size. body.account.addr.0 < size };

    ghost means = { λ body heap before answer after left.
        let balance = deposited body.account.addr.0 body.amount (over heap before.writes) in
        (answer ≡ Ok balance) × (over heap after.writes ≡ slice_set (over heap before.writes) body.account.addr.0 balance) };

    ghost leaves = { λ body heap before left. left ≡ body };

    ghost late_means = { λ body token heap before answer after left. Unit {0} };

    ghost late_leaves = { λ body token heap before left. Unit {0} };

    fn run<C: Cells<Free>>(&mut self, cells: &mut C) -> Result<u64, Cause> {
        let balance = self.account.get(cells)?;
        let more = balance.wrapping_add(self.amount);
        self.account.set(cells, more)?;
        Ok(more)
    }

    fn late<C: Cells<Free>>(&mut self, _cells: &mut C, _token: u64) -> Result<(), Cause> {
        Ok(())
    }
}

#[test]
fn a_deposit_is_read_and_written_in_one_step(rt: HostRuntime) -> Result<(), Fail> {
    let alloc = rt.alloc();
    let (mut maker, stm) = Stm::new(alloc, &[100, 0], SETTINGS)?;
    let mut seat = next_seat(&rt, &mut maker, &stm);
    let mut deposit = Deposit {
        account: Ref::new(ZERO),
        amount: 30,
    };
    let outcome = try_once(&stm, &mut seat, &mut deposit);
    assert_eq!(rt; outcome, Outcome::Committed { out: 130, stamp: 1 });
    Ok(())
}
