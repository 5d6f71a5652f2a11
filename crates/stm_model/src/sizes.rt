//! The sizes of a layout, and their limits.
ghost use Rattle.stm_model.specs.Sizes.{IsWithinLimits};

/// How many refs, maps or snapshot slots a layout may have, and how many blocks for each stripe.
pub const MOST_PARTS: u32 = 65_536;

/// How many cells a layout may have.
pub const MOST_CELLS: u32 = 33_554_432;

/// How many cells a block has.
pub const BLOCK_CELLS: u32 = 18;

/// Where maps, sets and snapshots stand in a heap: after some cells of the user's own, the refs. Each
/// stripe draws from blocks of its own, and there is at least one.
#[derive(Clone, Copy, Debug, PartialEq, Eq, Drop)]
pub struct Layout {
    pub refs: u32,
    pub maps: u32,
    /// How many snapshot slots it has.
    pub snaps: u32,
    pub stripes: u32,
    /// How many blocks a stripe has.
    pub per_stripe: u32,
    ghost limits: { IsWithinLimits refs maps snaps stripes per_stripe },
}
