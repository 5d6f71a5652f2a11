//! Parts of which the first ask for a retry.
ghost use Rattle.std.specs.Prelude.{◌≡◌, ◌<◌, ◌≤◌, Err, Ok};
ghost use Rattle.stm_model.specs.Heap.{put};
ghost use Rattle.stm_model.specs.declared.cause.Cause.TheVariants.{Retry};

use stm_model::{Addr, Cause, Cells, Choices, Free};

/// Each part reads the cell of its own number and writes 9 to it. The first ask for a retry then, and
/// the others answer their number.
#[derive(Clone, Copy)]
pub struct Parts {
    pub count: u32,
    /// How many ask for a retry.
    pub waiting: u32,
}

impl Choices<Free> for Parts {
    type Out = u32;

    ghost number = { λ parts. parts.count };

    ghost fits = { λ parts law size. parts.count ≤ size };

    ghost means = { λ parts index heap before answer after left.
        (left ≡ parts)
        × (index < parts.waiting → answer ≡ Err Retry)
        × (parts.waiting ≤ index → answer ≡ Ok index)
        × (after ≡ record before { writes = put before.writes index 9 }) };

    ghost leaves = { λ parts index heap before left. left ≡ parts };

    fn count(&self) -> u32 {
        self.count
    }

    fn run<C: Cells<Free>>(&mut self, index: u32, cells: &mut C) -> Result<u32, Cause> {
        cells.get(Addr(index))?;
        cells.set(Addr(index), 9)?;
        if index < self.waiting {
            return Err(Cause::Retry);
        }
        Ok(index)
    }
}
