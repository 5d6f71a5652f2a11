//! Layouts: how they are made, and the cells' addresses.
ghost use Rattle.std.specs.Prelude.{◌≡◌, ◌<◌, ◌↔◌, ◌^◌, ◌-◌, min, is_ok, IsTrue, IfErr, IfOk};
ghost use Rattle.stm_model.specs.Layouts.{IsBlock, block_at, block_count, cell_count, generation_at, root_at, slot_at, stripe_at};
ghost use Rattle.stm_model.specs.Sizes.{IsWithinLimits, cells_needed};

use crate::Addr;
use crate::sizes::{BLOCK_CELLS, Layout, MOST_CELLS, MOST_PARTS};
use meta_word::MAX_OWNER;

/// A layout would have more cells, or more of one kind, than there may be, or no stripe.
#[derive(Clone, Copy, Debug, PartialEq, Eq)]
pub struct TooMany {
    /// How many cells it would have, at most `u64::MAX`.
    pub cells: u64,
}

/// How many cells such a layout has, at most `u64::MAX`.
fn count_cells(refs: u32, maps: u32, snaps: u32, stripes: u32, per_stripe: u32) -> u64
    ensures { result ≡ min (cells_needed refs maps snaps stripes per_stripe) (2 ^ 64 - 1) }
{
    let before = u64::from(refs) + 2 * u64::from(maps) + u64::from(snaps) + u64::from(stripes);
    let blocks = u64::from(stripes) * u64::from(per_stripe);
    u64::from(BLOCK_CELLS)
        .saturating_mul(blocks)
        .saturating_add(before)
}

impl Layout {
    /// Such a layout, where each of these numbers and the number of cells is within its limit.
    pub fn new(
        refs: u32,
        maps: u32,
        snaps: u32,
        stripes: u32,
        per_stripe: u32,
    ) -> Result<Layout, TooMany>
        ensures exactly { IsTrue (is_ok result) ↔ IsWithinLimits refs maps snaps stripes per_stripe }
        ensures ok { IfOk result (λ layout. record {
          refs : layout.refs ≡ refs;
          maps : layout.maps ≡ maps;
          snaps : layout.snaps ≡ snaps;
          stripes : layout.stripes ≡ stripes;
          per_stripe : layout.per_stripe ≡ per_stripe;
        }) }
        ensures err { IfErr result (λ too. too.cells ≡ min (cells_needed refs maps snaps stripes per_stripe) (2 ^ 64 - 1)) }
    {
        let cells = count_cells(refs, maps, snaps, stripes, per_stripe);
        let most = refs.max(maps).max(snaps).max(per_stripe);
        if stripes == 0
            || stripes > u32::from(MAX_OWNER)
            || most > MOST_PARTS
            || cells > u64::from(MOST_CELLS)
        {
            return Err(TooMany { cells });
        }
        Ok(Layout {
            refs,
            maps,
            snaps,
            stripes,
            per_stripe,
        })
    }

    /// How many cells it has.
    pub fn cells(&self) -> u32
        ensures { result ≡ cell_count self.now }
    {
        self.refs + 2 * self.maps + self.snaps + self.stripes + BLOCK_CELLS * self.blocks()
    }

    /// How many blocks all stripes have.
    pub fn blocks(&self) -> u32
        ensures { result ≡ block_count self.now }
    {
        self.stripes * self.per_stripe
    }

    /// The cell of a map's root.
    pub fn root_of(&self, map: u32) -> Addr
        requires { map < self.now.maps }
        ensures is { result.0 ≡ root_at self.now map }
        ensures inside { result.0 < cell_count self.now }
    {
        Addr(self.refs + 2 * map)
    }

    /// The cell of a map's generation.
    pub fn generation_of(&self, map: u32) -> Addr
        requires { map < self.now.maps }
        ensures is { result.0 ≡ generation_at self.now map }
        ensures inside { result.0 < cell_count self.now }
    {
        Addr(self.refs + 2 * map + 1)
    }

    /// The cell of a snapshot slot's root.
    pub fn slot_of(&self, snap: u32) -> Addr
        requires { snap < self.now.snaps }
        ensures is { result.0 ≡ slot_at self.now snap }
        ensures inside { result.0 < cell_count self.now }
    {
        Addr(self.refs + 2 * self.maps + snap)
    }

    /// The cell that counts a stripe's drawn blocks.
    pub fn stripe_of(&self, stripe: u32) -> Addr
        requires { stripe < self.now.stripes }
        ensures is { result.0 ≡ stripe_at self.now stripe }
        ensures inside { result.0 < cell_count self.now }
    {
        Addr(self.refs + 2 * self.maps + self.snaps + stripe)
    }

    /// A cell of a block. Blocks are numbered from 1, and their cells from 0.
    pub fn block_cell(&self, block: u32, index: u32) -> Addr
        requires block { IsBlock self.now block }
        requires index { index < BLOCK_CELLS }
        ensures is { result.0 ≡ block_at self.now block index }
        ensures inside { result.0 < cell_count self.now }
    {
        let before = self.refs + 2 * self.maps + self.snaps + self.stripes;
        Addr(before + BLOCK_CELLS * (block - 1) + index)
    }
}
