//! A before-commit body.
ghost use Rattle.std.specs.Prelude.{◌<◌};

use crate::guide::tables::{ONE, SETTINGS, TWO, ZERO, next_seat, try_once};
use ref_views::Ref;
use std::test::Fail;
use stm_model::Free;
use txn_run::{Body, Cause, Cells, Outcome, Stm};

/// The code where both accounts hold too much.
const TOO_MUCH: u16 = 2;

/// Adds an amount to an account. Before the commit the sum of both accounts is kept in a cell, and may not pass
/// 200.
#[derive(Clone, Copy)]
pub struct Summed {
    pub account: Ref<u64>,
    pub other: Ref<u64>,
    pub amount: u64,
    pub sum: Ref<u64>,
}

impl Body<Free> for Summed {
    type Out = ();

    ghost fits = { λ body law size. (body.account.addr.0 < size) × (body.other.addr.0 < size) × (body.sum.addr.0 < size) };

    ghost means = { λ body heap before answer after left. Unit {0} };

    ghost leaves = { λ body heap before left. Unit {0} };

    ghost late_means = { λ body token heap before answer after left. Unit {0} };

    ghost late_leaves = { λ body token heap before left. Unit {0} };

    fn run<C: Cells<Free>>(&mut self, cells: &mut C) -> Result<(), Cause> {
        cells.later(1)?;
        let balance = self.account.get(cells)?;
        self.account.set(cells, balance.wrapping_add(self.amount))?;
        Ok(())
    }

    fn late<C: Cells<Free>>(&mut self, cells: &mut C, _token: u64) -> Result<(), Cause> {
        let one = self.account.get(cells)?;
        let other = self.other.get(cells)?;
        let sum = one.wrapping_add(other);
        if sum > 200 {
            return Err(Cause::User { code: TOO_MUCH });
        }
        self.sum.set(cells, sum)?;
        Ok(())
    }
}

#[test]
fn a_before_commit_body_sees_what_was_written(rt: HostRuntime) -> Result<(), Fail> {
    let alloc = rt.alloc();
    let (mut maker, stm) = Stm::new(alloc, &[100, 20, 0], SETTINGS)?;
    let mut seat = next_seat(&rt, &mut maker, &stm);
    let mut summed = Summed {
        account: Ref::new(ZERO),
        other: Ref::new(ONE),
        amount: 50,
        sum: Ref::new(TWO),
    };
    let kept = try_once(&stm, &mut seat, &mut summed);
    assert_eq!(rt; kept, Outcome::Committed { out: (), stamp: 1 });
    let too_much = try_once(&stm, &mut seat, &mut summed);
    let cause = Cause::User { code: TOO_MUCH };
    assert_eq!(rt; too_much, Outcome::Rolled { cause, prefix: 1 });
    maker.gather(&stm, seat);
    let Ok(finished) = stm.close(maker) else {
        panic!(rt; "no memory")
    };
    assert_eq!(rt; finished.values.as_slice(), [150, 20, 170].as_slice());
    Ok(())
}
