//! A body with a level of its own, which it undoes where what it wrote is too high.
ghost use Rattle.std.specs.Prelude.{◌≡◌, ◌<◌, ◌≤◌, [], ◌∷◌, ◌++◌, slice_index, slice_set, MatchResult, Ok};
ghost use Rattle.stm_model.specs.Heap.{over};
ghost use Rattle.stm_model.specs.Telling.{Stopping, Writing};
ghost use Rattle.stm_model.specs.declared.cause.HookPhase.TheVariants.{Rollback};

use stm_model::{Addr, Body, Cause, Cells, Free, HookPhase, Law};

/// Copies a cell's value to another cell in a level of its own, with a handler for the level's
/// undoing. Undoes the level where the value is above `most`. Then writes the value to a third cell.
#[derive(Clone, Copy, Debug, PartialEq, Eq)]
pub struct GuardedCopy {
    pub from: Addr,
    pub into: Addr,
    pub seen: Addr,
    pub most: u64,
    pub token: u64,
}

/// Copies a cell's value to another cell, and answers it.
fn copy<L: Law, C: Cells<L>>(cells: &mut C, from: Addr, into: Addr) -> Result<u64, Cause>
    requires from { from.0 < (C.state cells.old).size }
    requires into { into.0 < (C.state cells.old).size }
    ensures { MatchResult result
        (λ value. Writing L.lawful C.law C.follows C.state cells.old cells.new
        (λ before after. (after ≡ slice_set before into.0 value) × (slice_index before from.0 ≡ value)))
        (λ cause. Stopping C.law C.follows C.state cells.old cells.new cause) }
{
    let value = cells.get(from)?;
    cells.set(into, value)?;
    Ok(value)
}

impl Body<Free> for GuardedCopy {
    type Out = u64;

    ghost fits = { λ body law size. (body.from.0 < size) × (body.into.0 < size) × (body.seen.0 < size) };

    ghost means = { λ body heap before answer after left.
        let words = over heap before.writes in
        let value = slice_index words body.from.0 in
        (left ≡ body)
        × (answer ≡ Ok value)
        × (value ≤ body.most → (over heap after.writes ≡ slice_set (slice_set words body.into.0 value) body.seen.0 value)
        × (after ≡ record before { writes = after.writes; hooks = before.hooks ++ (Rollback, body.token) ∷ [] }))
        × (body.most < value → (over heap after.writes ≡ slice_set words body.seen.0 value)
        × (after ≡ record before { writes = after.writes; runs = before.runs ++ (Rollback, body.token) ∷ [] })) };

    ghost leaves = { λ body heap before left. left ≡ body };

    ghost late_means = { λ body token heap before answer after left. (left ≡ body) × (answer ≡ Ok tt) × (after ≡ before) };

    ghost late_leaves = { λ body token heap before left. left ≡ body };

    fn run<C: Cells<Free>>(&mut self, cells: &mut C) -> Result<u64, Cause> {
        cells.enter()?;
        cells.hook(HookPhase::Rollback, self.token)?;
        let value = copy(cells, self.from, self.into)?;
        if value > self.most {
            cells.undo();
        } else {
            cells.keep();
        }
        cells.set(self.seen, value)?;
        Ok(value)
    }

    fn late<C: Cells<Free>>(&mut self, _cells: &mut C, _token: u64) -> Result<(), Cause> {
        Ok(())
    }
}
