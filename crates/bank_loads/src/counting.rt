//! A body that counts.
ghost use Rattle.std.specs.Prelude.{◌≡◌, ◌<◌, MatchResult, Ok};
ghost use Rattle.stm_model.specs.Heap.{over};
ghost use Rattle.stm_model.specs.Telling.{Stopping, Writing};
ghost use Rattle.bank_loads.specs.Counting.{counted};

use stm_model::{Addr, Body, Cause, Cells, Free, Law};

/// Adds one to a cell, modulo 2^64.
#[derive(Clone, Copy, Debug, PartialEq, Eq)]
pub struct Count {
    pub cell: Addr,
}

impl Count {
    pub(crate) fn make<C: Cells<Free>>(&self, cells: &mut C) -> Result<(), Cause>
        requires { self.now.cell.0 < (C.state cells.old).size }
        ensures { MatchResult result
            (λ _. Writing ⟦<Free as Law>⟧.lawful C.law C.follows C.state cells.old cells.new
            (λ before after. after ≡ counted self.now.cell.0 before))
            (λ cause. Stopping C.law C.follows C.state cells.old cells.new cause) }
    {
        let count = cells.get(self.cell)?;
        cells.set(self.cell, count.wrapping_add(1))
    }
}

impl Body<Free> for Count {
    type Out = ();

    ghost fits = { λ body law size. body.cell.0 < size };

    ghost means = { λ body heap before answer after left.
        (left ≡ body) × (answer ≡ Ok tt)
        × (over heap after.writes ≡ counted body.cell.0 (over heap before.writes))
        × (after ≡ record before { writes = after.writes }) };

    ghost leaves = { λ body heap before left. left ≡ body };

    ghost late_means = { λ body token heap before answer after left. (left ≡ body) × (answer ≡ Ok tt) × (after ≡ before) };

    ghost late_leaves = { λ body token heap before left. left ≡ body };

    fn run<C: Cells<Free>>(&mut self, cells: &mut C) -> Result<(), Cause> {
        self.make(cells)
    }

    fn late<C: Cells<Free>>(&mut self, _cells: &mut C, _token: u64) -> Result<(), Cause> {
        Ok(())
    }
}
