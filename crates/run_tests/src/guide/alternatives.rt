//! Alternatives.
ghost use Rattle.std.specs.Prelude.{◌≡◌, ◌+◌, ◌<◌, ◌≤◌};

use crate::guide::tables::{SETTINGS, TWO, ZERO, next_seat, try_once};
use or_atomic::{Choices, either};
use ref_views::{Ref, TArray};
use std::test::Fail;
use stm_model::Free;
use txn_run::{Body, Cause, Cells, Outcome, Stm};

/// The accounts that may pay an amount, in their order.
#[derive(Clone, Copy)]
pub struct Payers {
    pub accounts: TArray<u64>,
    pub amount: u64,
}

impl Choices<Free> for Payers {
    type Out = u32;

    ghost number = { λ payers. payers.accounts.len };

    ghost fits = { λ payers law size. payers.accounts.first.0 + payers.accounts.len ≤ size };

    ghost means = { λ payers index heap before answer after left. Unit {0} };

    ghost leaves = { λ payers index heap before left. left ≡ payers };

    fn count(&self) -> u32 {
        self.accounts.len()
    }

    fn run<C: Cells<Free>>(&mut self, index: u32, cells: &mut C) -> Result<u32, Cause> {
        let balance = self.accounts.get(cells, index)?;
        let Some(less) = balance.checked_sub(self.amount) else {
            return Err(Cause::Retry);
        };
        self.accounts.set(cells, index, less)?;
        Ok(index)
    }
}

/// The first account that holds enough pays into another one. Answers its index.
#[derive(Clone, Copy)]
pub struct Pays {
    pub payers: Payers,
    pub to: Ref<u64>,
}

impl Body<Free> for Pays {
    type Out = u32;

    ghost fits = { λ body law size. (0 < body.payers.accounts.len) × (body.payers.accounts.first.0 + body.payers.accounts.len ≤ size) × (body.to.addr.0 < size) };

    ghost means = { λ body heap before answer after left. Unit {0} };

    ghost leaves = { λ body heap before left. Unit {0} };

    ghost late_means = { λ body token heap before answer after left. Unit {0} };

    ghost late_leaves = { λ body token heap before left. Unit {0} };

    fn run<C: Cells<Free>>(&mut self, cells: &mut C) -> Result<u32, Cause> {
        let mut payers = self.payers;
        let payer = either(cells, &mut payers)?;
        let paid = self.to.get(cells)?;
        self.to.set(cells, paid.wrapping_add(self.payers.amount))?;
        Ok(payer)
    }

    fn late<C: Cells<Free>>(&mut self, _cells: &mut C, _token: u64) -> Result<(), Cause> {
        Ok(())
    }
}

#[test]
fn the_first_that_can_pays(rt: HostRuntime) -> Result<(), Fail> {
    let alloc = rt.alloc();
    let (mut maker, stm) = Stm::new(alloc, &[20, 50, 0], SETTINGS)?;
    let mut seat = next_seat(&rt, &mut maker, &stm);
    let mut pays = Pays {
        payers: Payers {
            accounts: TArray::new(ZERO, 2),
            amount: 30,
        },
        to: Ref::new(TWO),
    };
    let paid = try_once(&stm, &mut seat, &mut pays);
    assert_eq!(rt; paid, Outcome::Committed { out: 1, stamp: 1 });
    let not_paid = try_once(&stm, &mut seat, &mut pays);
    let cause = Cause::Retry;
    assert_eq!(rt; not_paid, Outcome::Rolled { cause, prefix: 1 });
    maker.gather(&stm, seat);
    let Ok(finished) = stm.close(maker) else {
        panic!(rt; "no memory")
    };
    assert_eq!(rt; finished.values.as_slice(), [20, 20, 30].as_slice());
    Ok(())
}
