//! A body over two cells, which may fail.
ghost use Rattle.std.specs.Prelude.{◌<◌};

use crate::guide::tables::{ONE, SETTINGS, ZERO, next_seat, try_once};
use ref_views::Ref;
use std::test::Fail;
use stm_model::Free;
use txn_run::{Body, Cause, Cells, Outcome, Stm};

/// The code where an account holds too little.
pub const TOO_LITTLE: u16 = 1;

/// Moves an amount from one account to another. Fails where there is too little.
#[derive(Clone, Copy)]
pub struct Transfer {
    pub from: Ref<u64>,
    pub to: Ref<u64>,
    pub amount: u64,
}

impl Body<Free> for Transfer {
    type Out = ();

    ghost fits = { λ body law size. (body.from.addr.0 < size) × (body.to.addr.0 < size) };

    ghost means = { λ body heap before answer after left. Unit {0} };

    ghost leaves = { λ body heap before left. Unit {0} };

    ghost late_means = { λ body token heap before answer after left. Unit {0} };

    ghost late_leaves = { λ body token heap before left. Unit {0} };

    fn run<C: Cells<Free>>(&mut self, cells: &mut C) -> Result<(), Cause> {
        let there = self.from.get(cells)?;
        let here = self.to.get(cells)?;
        self.to.set(cells, here.wrapping_add(self.amount))?;
        let Some(less) = there.checked_sub(self.amount) else {
            return Err(Cause::User { code: TOO_LITTLE });
        };
        self.from.set(cells, less)?;
        Ok(())
    }

    fn late<C: Cells<Free>>(&mut self, _cells: &mut C, _token: u64) -> Result<(), Cause> {
        Ok(())
    }
}

#[test]
fn a_transfer_takes_place_whole_or_not_at_all(rt: HostRuntime) -> Result<(), Fail> {
    let alloc = rt.alloc();
    let (mut maker, stm) = Stm::new(alloc, &[100, 0], SETTINGS)?;
    let mut seat = next_seat(&rt, &mut maker, &stm);
    let mut transfer = Transfer {
        from: Ref::new(ZERO),
        to: Ref::new(ONE),
        amount: 60,
    };
    let outcome = try_once(&stm, &mut seat, &mut transfer);
    assert_eq!(rt; outcome, Outcome::Committed { out: (), stamp: 1 });
    let outcome = try_once(&stm, &mut seat, &mut transfer);
    let cause = Cause::User { code: TOO_LITTLE };
    assert_eq!(rt; outcome, Outcome::Rolled { cause, prefix: 1 });
    maker.gather(&stm, seat);
    let Ok(finished) = stm.close(maker) else {
        panic!(rt; "no memory")
    };
    assert_eq!(rt; finished.values.as_slice(), [40, 60].as_slice());
    Ok(())
}
