//! Rings that come due where a cell is released.
ghost use Rattle.std.specs.Prelude.{◌≡◌};
ghost use Rattle.stm_model.specs.After.{ring_if};
ghost use Rattle.op_commit.specs.Buffered.{ring_for};

use stm_model::{Addr, Meta};

/// The cell, where somebody waits for it.
#[inline(always)]
pub fn cell_to_ring(found: Meta, addr: Addr) -> Option<Addr>
    ensures { ring_for result ≡ ring_if found.pending addr.0 }
{
    found.pending.then_some(addr)
}
