//! A body that fails.
ghost use Rattle.std.specs.Prelude.{◌≡◌, ◌<◌, Err, Ok};
ghost use Rattle.stm_model.specs.Heap.{put};
ghost use Rattle.stm_model.specs.declared.cause.Cause.TheVariants.{User};

use stm_model::{Addr, Body, Cause, Cells, Free};

/// Reads a cell, writes 9 to it and fails with a code.
#[derive(Clone, Copy)]
pub struct Failing {
    pub addr: Addr,
    pub code: u16,
}

impl Body<Free> for Failing {
    type Out = ();

    ghost fits = { λ body law size. body.addr.0 < size };

    ghost means = { λ body heap before answer after left.
        (left ≡ body) × (answer ≡ Err (User body.code)) × (after ≡ record before { writes = put before.writes body.addr.0 9 }) };

    ghost leaves = { λ body heap before left. left ≡ body };

    ghost late_means = { λ body token heap before answer after left. (left ≡ body) × (answer ≡ Ok tt) × (after ≡ before) };

    ghost late_leaves = { λ body token heap before left. left ≡ body };

    fn run<C: Cells<Free>>(&mut self, cells: &mut C) -> Result<(), Cause> {
        cells.get(self.addr)?;
        cells.set(self.addr, 9)?;
        Err(Cause::User { code: self.code })
    }

    fn late<C: Cells<Free>>(&mut self, _cells: &mut C, _token: u64) -> Result<(), Cause> {
        Ok(())
    }
}
