//! A body that counts a cell up.
ghost use Rattle.std.specs.Prelude.{◌≡◌, ◌+◌, ◌<◌, ◌≤◌, [], ◌∷◌, ◌++◌, slice_index, Err, Ok};
ghost use Rattle.stm_model.specs.Heap.{over, put};
ghost use Rattle.stm_model.specs.declared.cause.Cause.TheVariants.{User};
ghost use Rattle.stm_model.specs.declared.cause.HookPhase.TheVariants.{Commit};

use stm_model::{Addr, Body, Cause, Cells, Free, HookPhase};

/// Adds one to a cell that is below `most`, and answers what it was. Fails with code 1 where it
/// isn't. Puts off a body that registers a handler, both with the former value as their token.
#[derive(Clone, Copy, Debug, PartialEq, Eq)]
pub struct Count {
    pub addr: Addr,
    pub most: u64,
}

impl Body<Free> for Count {
    type Out = u64;

    ghost fits = { λ count law size. count.addr.0 < size };

    ghost means = { λ count heap before answer after left.
        let value = slice_index (over heap before.writes) count.addr.0 in
        (left ≡ count)
        × (value < count.most → (answer ≡ Ok value)
        × (after ≡ record before { writes = put before.writes count.addr.0 (value + 1); laters = before.laters ++ value ∷ [] }))
        × (count.most ≤ value → (answer ≡ Err (User 1)) × (after ≡ before)) };

    ghost leaves = { λ count heap before left. left ≡ count };

    ghost late_means = { λ count token heap before answer after left.
        (left ≡ count) × (answer ≡ Ok tt) × (after ≡ record before { hooks = before.hooks ++ (Commit, token) ∷ [] }) };

    ghost late_leaves = { λ count token heap before left. left ≡ count };

    fn run<C: Cells<Free>>(&mut self, cells: &mut C) -> Result<u64, Cause> {
        let value = cells.get(self.addr)?;
        if value >= self.most {
            return Err(Cause::User { code: 1 });
        }
        cells.set(self.addr, value + 1)?;
        cells.later(value)?;
        Ok(value)
    }

    fn late<C: Cells<Free>>(&mut self, cells: &mut C, token: u64) -> Result<(), Cause> {
        cells.hook(HookPhase::Commit, token)
    }
}
