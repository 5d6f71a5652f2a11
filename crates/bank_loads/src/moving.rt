//! A body that moves an amount from one cell to another.
ghost use Rattle.std.specs.Prelude.{◌≡◌, ◌<◌, MatchResult, Ok};
ghost use Rattle.stm_model.specs.Heap.{over};
ghost use Rattle.stm_model.specs.Telling.{Stopping, Writing};

use stm_model::{Addr, Body, Cause, Cells, Free, Law};

/// Moves an amount from one cell to another. It changes nothing where there is less, where the other
/// one would pass what a cell can hold, and where both are the same.
#[derive(Clone, Copy, Debug, PartialEq, Eq)]
pub struct Transfer {
    pub from: Addr,
    pub to: Addr,
    pub amount: u64,
}

impl Transfer {
    ghost use Rattle.bank_loads.specs.Heaps.{after_transfer, transferred};

    fn make<C: Cells<Free>>(&self, cells: &mut C) -> Result<(), Cause>
        requires { (self.now.from.0 < (C.state cells.old).size) × (self.now.to.0 < (C.state cells.old).size) }
        ensures { MatchResult result
            (λ _. Writing ⟦<Free as Law>⟧.lawful C.law C.follows C.state cells.old cells.new
            (λ before after. after ≡ transferred self.now before))
            (λ cause. Stopping C.law C.follows C.state cells.old cells.new cause) }
    {
        let there = cells.get(self.from)?;
        let here = cells.get(self.to)?;
        let Some((less, more)) = self.after(there, here) else {
            return Ok(());
        };
        cells.set(self.from, less)?;
        cells.set(self.to, more)
    }

    // What the cells become, where they change.
    fn after(&self, there: u64, here: u64) -> Option<(u64, u64)>
        ensures { result ≡ after_transfer self.now there here }
    {
        if self.from == self.to {
            return None;
        }
        let less = there.checked_sub(self.amount)?;
        let more = here.checked_add(self.amount)?;
        Some((less, more))
    }
}

impl Body<Free> for Transfer {
    ghost use Rattle.bank_loads.specs.Heaps.{transferred};

    type Out = ();

    ghost fits = { λ body law size. (body.from.0 < size) × (body.to.0 < size) };

    ghost means = { λ body heap before answer after left.
        (left ≡ body) × (answer ≡ Ok tt)
        × (over heap after.writes ≡ transferred body (over heap before.writes))
        × (after ≡ record before { writes = after.writes }) };

    ghost leaves = { λ body heap before left. left ≡ body };

    ghost late_means = { λ body token heap before answer after left. (left ≡ body) × (answer ≡ Ok tt) × (after ≡ before) };

    ghost late_leaves = { λ body token heap before left. left ≡ body };

    fn run<C: Cells<Free>>(&mut self, cells: &mut C) -> Result<(), Cause> {
        self.make(cells)
    }

    fn late<C: Cells<Free>>(&mut self, _cells: &mut C, _token: u64) -> Result<(), Cause> {
        Ok(())
    }
}
