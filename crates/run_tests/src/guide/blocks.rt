//! A block within a body, which may fail alone.
ghost use Rattle.std.specs.Prelude.{◌<◌};

use crate::guide::tables::{ONE, SETTINGS, TWO, ZERO, next_seat, try_once};
use crate::guide::transfers::Transfer;
use or_atomic::{Nested, nested};
use ref_views::Ref;
use std::test::Fail;
use stm_model::Free;
use txn_run::{Body, Cause, Cells, Outcome, Stm};

/// Makes a transfer, if there is enough for it, and else counts a failure. Answers whether it was made.
#[derive(Clone, Copy)]
pub struct Attempts {
    pub transfer: Transfer,
    pub failures: Ref<u64>,
}

impl Body<Free> for Attempts {
    type Out = bool;

    ghost fits = { λ body law size. (body.transfer.from.addr.0 < size) × (body.transfer.to.addr.0 < size) × (body.failures.addr.0 < size) };

    ghost means = { λ body heap before answer after left. Unit {0} };

    ghost leaves = { λ body heap before left. Unit {0} };

    ghost late_means = { λ body token heap before answer after left. Unit {0} };

    ghost late_leaves = { λ body token heap before left. Unit {0} };

    fn run<C: Cells<Free>>(&mut self, cells: &mut C) -> Result<bool, Cause> {
        let mut transfer = self.transfer;
        match nested(cells, &mut transfer)? {
            Nested::Kept(()) => Ok(true),
            Nested::Failed { code: _ } => {
                let failures = self.failures.get(cells)?;
                self.failures.set(cells, failures.wrapping_add(1))?;
                Ok(false)
            }
        }
    }

    fn late<C: Cells<Free>>(&mut self, _cells: &mut C, _token: u64) -> Result<(), Cause> {
        Ok(())
    }
}

#[test]
fn a_block_that_fails_is_undone_alone(rt: HostRuntime) -> Result<(), Fail> {
    let alloc = rt.alloc();
    let (mut maker, stm) = Stm::new(alloc, &[100, 0, 0], SETTINGS)?;
    let mut seat = next_seat(&rt, &mut maker, &stm);
    let mut attempts = Attempts {
        transfer: Transfer {
            from: Ref::new(ZERO),
            to: Ref::new(ONE),
            amount: 60,
        },
        failures: Ref::new(TWO),
    };
    let made = try_once(&stm, &mut seat, &mut attempts);
    assert_eq!(rt;
        made,
        Outcome::Committed {
            out: true,
            stamp: 1
        }
    );
    let failed = try_once(&stm, &mut seat, &mut attempts);
    assert_eq!(rt;
        failed,
        Outcome::Committed {
            out: false,
            stamp: 2
        }
    );
    maker.gather(&stm, seat);
    let Ok(finished) = stm.close(maker) else {
        panic!(rt; "no memory")
    };
    assert_eq!(rt; finished.values.as_slice(), [40, 60, 1].as_slice());
    Ok(())
}
