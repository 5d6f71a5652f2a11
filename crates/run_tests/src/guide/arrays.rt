//! An array of cells.
ghost use Rattle.std.specs.Prelude.{◌+◌, ◌≤◌};

use crate::guide::tables::{SETTINGS, ZERO, next_seat, try_once};
use ref_views::TArray;
use std::test::Fail;
use stm_model::Free;
use txn_run::{Body, Cause, Cells, Outcome, Stm};

/// What all accounts hold together, modulo 2^64.
#[derive(Clone, Copy)]
pub struct Total {
    pub accounts: TArray<u64>,
}

impl Body<Free> for Total {
    type Out = u64;

    ghost fits = { λ body law size. body.accounts.first.0 + body.accounts.len ≤ size };

    ghost means = { λ body heap before answer after left. Unit {0} };

    ghost leaves = { λ body heap before left. Unit {0} };

    ghost late_means = { λ body token heap before answer after left. Unit {0} };

    ghost late_leaves = { λ body token heap before left. Unit {0} };

    fn run<C: Cells<Free>>(&mut self, cells: &mut C) -> Result<u64, Cause> {
        let mut total = 0u64;
        for index in 0..self.accounts.len() {
            total = total.wrapping_add(self.accounts.get(cells, index)?);
        }
        Ok(total)
    }

    fn late<C: Cells<Free>>(&mut self, _cells: &mut C, _token: u64) -> Result<(), Cause> {
        Ok(())
    }
}

#[test]
fn a_total_is_of_one_moment(rt: HostRuntime) -> Result<(), Fail> {
    let alloc = rt.alloc();
    let (mut maker, stm) = Stm::new(alloc, &[20, 50, 30], SETTINGS)?;
    let mut seat = next_seat(&rt, &mut maker, &stm);
    let mut total = Total {
        accounts: TArray::new(ZERO, 3),
    };
    let outcome = try_once(&stm, &mut seat, &mut total);
    assert_eq!(rt;
        outcome,
        Outcome::Read {
            out: 100,
            prefix: 0
        }
    );
    Ok(())
}
