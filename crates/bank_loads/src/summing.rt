//! A body that sums some cells.
ghost use Rattle.std.specs.Prelude.{◌≡◌, ◌<◌, ◌≤◌, MatchResult, Ok};
ghost use Rattle.stm_model.specs.Heap.{over};
ghost use Rattle.stm_model.specs.Telling.{Reading, Stopping, Writing};
ghost use Rattle.bank_loads.specs.Counting.{tally};

use crate::counting::Count;
use crate::sizes::TALLIED;
use stm_model::{Addr, Body, Cause, Cells, Free, Law};

/// How many cells are summed.
const SUMMED: u32 = 10;

/// Sums ten cells from a base on, each 97 behind the one before, modulo 2^64. It may add one to the base
/// as well.
#[derive(Clone, Copy, Debug, PartialEq, Eq)]
pub struct Tally {
    pub base: u32,
    pub adds: bool,
}

impl Tally {
    ghost use Rattle.bank_loads.specs.Heaps.{tallied};

    fn make<C: Cells<Free>>(&self, cells: &mut C) -> Result<u64, Cause>
        requires { (self.now.base < 1000) × (1000 ≤ (C.state cells.old).size) }
        ensures { MatchResult result
            (λ total. Writing ⟦<Free as Law>⟧.lawful C.law C.follows C.state cells.old cells.new
            (λ before after. (total ≡ tally self.now.base before) × (after ≡ tallied self.now before)))
            (λ cause. Stopping C.law C.follows C.state cells.old cells.new cause) }
    {
        let total = self.total(cells)?;
        if self.adds {
            let base = Count {
                cell: Addr(self.base),
            };
            base.make(cells)?;
        }
        Ok(total)
    }

    fn total<C: Cells<Free>>(&self, cells: &mut C) -> Result<u64, Cause>
        requires { (self.now.base < 1000) × (1000 ≤ (C.state cells.old).size) }
        ensures { MatchResult result
            (λ total. Reading ⟦<Free as Law>⟧.lawful C.law C.follows C.state cells.old cells.new
            (λ heap. total ≡ tally self.now.base heap))
            (λ cause. Stopping C.law C.follows C.state cells.old cells.new cause) }
    {
        let mut total = 0u64;
        for step in 0..SUMMED {
            let cell = (self.base + 97 * step) % TALLIED;
            total = total.wrapping_add(cells.get(Addr(cell))?);
        }
        Ok(total)
    }
}

impl Body<Free> for Tally {
    ghost use Rattle.bank_loads.specs.Heaps.{tallied};

    type Out = u64;

    ghost fits = { λ body law size. (body.base < 1000) × (1000 ≤ size) };

    ghost means = { λ body heap before answer after left.
        (left ≡ body) × (answer ≡ Ok (tally body.base (over heap before.writes)))
        × (over heap after.writes ≡ tallied body (over heap before.writes))
        × (after ≡ record before { writes = after.writes }) };

    ghost leaves = { λ body heap before left. left ≡ body };

    ghost late_means = { λ body token heap before answer after left. (left ≡ body) × (answer ≡ Ok tt) × (after ≡ before) };

    ghost late_leaves = { λ body token heap before left. left ≡ body };

    fn run<C: Cells<Free>>(&mut self, cells: &mut C) -> Result<u64, Cause> {
        self.make(cells)
    }

    fn late<C: Cells<Free>>(&mut self, _cells: &mut C, _token: u64) -> Result<(), Cause> {
        Ok(())
    }
}
