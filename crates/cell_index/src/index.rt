//! A list of addresses. Those with the same low eight bits are one chain, which goes from the newest to the
//! oldest, so that a search looks at its chain alone.
ghost use Rattle.std.specs.Prelude.{◌≡◌, ◌≢◌, ◌+◌, ◌-◌, ◌%◌, ◌^◌, ◌<◌, ◌≤◌, [], ◌∷◌, ◌++◌, length, take, slice_index, max, set, vec_capacity, IsOk, MatchOption, OnOk};
ghost use Rattle.std.specs.List.{All};
ghost use Rattle.cell_index.specs.Chains.{IsChained, IsFound};
ghost use Rattle.cell_index.specs.Cells.{Cells, room_beside};

use std::alloc::{AllocError, Global};
use std::marker::Model;

/// A list of up to so many cells is searched along itself, and needs no index.
pub const SMALL: usize = 32;

// How many chains there are.
const CHAINS: usize = 256;

/// Addresses in the order in which they came.
#[derive(Debug, Drop)]
pub struct CellIndex {
    /// One more than the place of the newest entry of each chain, or 0. It is empty until room is asked for.
    heads: Vec<usize>,
    /// Each address, with one more than the place of the next older entry of its chain, or 0.
    entries: Vec<(u32, usize)>,
}

impl Model for CellIndex {
    ghost use Rattle.std.specs.Prelude.{vec_capacity};
    ghost use Rattle.std.specs.Map.{keys_of};
    ghost use Rattle.cell_index.specs.Cells.{Cells};
    ghost use Rattle.cell_index.specs.Chains.{IsChained, room_of};

    ghost Value = { Cells };

    ghost view = { λ i. record { addresses = keys_of i.entries.items; room = room_of i.heads.items (vec_capacity i.entries) } };

    ghost invariant = { λ i. IsChained i.heads.items i.entries.items };
}

impl CellIndex {
    /// The empty index, which takes no memory yet.
    pub fn new(alloc: Global) -> CellIndex
        ensures addresses { result.addresses ≡ [] }
        ensures room { result.room ≡ 0 }
    {
        CellIndex {
            heads: Vec::new(alloc),
            entries: Vec::new(alloc),
        }
    }

    /// How many addresses there are.
    pub fn len(&self) -> usize
        ensures count { result ≡ length self.now.addresses }
        ensures fits { result < 2 ^ 63 }
    {
        self.entries.len()
    }

    /// How many cells a list of this capacity can have before it or its index takes memory.
    pub fn room_beside(&self, capacity: usize) -> usize
        ensures { result ≡ room_beside capacity self.now }
    {
        capacity.min(self.room().max(SMALL))
    }

    // How many addresses it can have before it takes memory.
    fn room(&self) -> usize
        ensures { result ≡ self.now.room }
    {
        if self.heads.len() == CHAINS {
            self.entries.capacity()
        } else {
            0
        }
    }

    /// Where an address stands.
    pub fn find(&self, address: u32) -> Option<usize>
        ensures { MatchOption result
            (All (λ other. other ≢ address) self.now.addresses)
            (λ place. (place < length self.now.addresses) × (slice_index self.now.addresses place ≡ address)) }
    {
        find_along(self.heads.as_slice(), self.entries.as_slice(), address)
    }

    /// Puts an address at the end.
    pub fn push(&mut self, address: u32)
        requires { length self.old.addresses < self.old.room }
        ensures addresses { self.new.addresses ≡ self.old.addresses ++ address ∷ [] }
        ensures room { self.new.room ≡ self.old.room }
    {
        let chain = address as usize % CHAINS;
        let older = self.heads[chain];
        self.entries.push_reserved((address, older));
        self.heads[chain] = self.entries.len();
    }

    /// Keeps this many addresses from the front. It neither takes nor frees memory.
    pub fn truncate(&mut self, count: usize)
        ensures addresses { self.new.addresses ≡ take count self.old.addresses }
        ensures room { self.new.room ≡ self.old.room }
    {
        while self.entries.len() > count {
            unlink_last(&mut self.heads, &mut self.entries);
        }
    }

    /// Takes memory to be the index of a list of this many cells, where it hasn't that room already.
    pub fn reserve(&mut self, count: usize) -> Result<(), AllocError>
        ensures same { self.new.addresses ≡ self.old.addresses }
        ensures ok { OnOk result (count ≤ max 32 self.new.room) }
        ensures succeeds { count ≤ max 32 self.old.room → IsOk result }
        ensures room { self.old.room ≤ self.new.room }
    {
        if count > self.room().max(SMALL) {
            self.entries
                .reserve(count.saturating_sub(self.entries.len()))?;
            if self.heads.len() != CHAINS {
                self.heads.resize(CHAINS, 0)?;
            }
        }
        Ok(())
    }
}

// The link to a chain's newest entry. There is none before the index has its heads.
fn head_of(heads: &[usize], chain: usize) -> usize
    ensures { result ≡ slice_index heads.now chain }
{
    match heads.get(chain) {
        Some(head) => *head,
        None => 0,
    }
}

// Where an address stands, by its chain.
fn find_along(heads: &[usize], entries: &[(u32, usize)], address: u32) -> Option<usize>
    requires { IsChained heads.now entries.now }
    ensures { IsFound entries.now address result }
{
    let mut link = head_of(heads, address as usize % CHAINS);
    while link > 0 {
        let (other, older) = entries[link - 1];
        if other == address {
            return Some(link - 1);
        }
        link = older;
    }
    None
}

// Takes the last entry off, and off its chain.
fn unlink_last(heads: &mut Vec<usize>, entries: &mut Vec<(u32, usize)>)
    requires { IsChained heads.old.items entries.old.items }
    ensures chained { IsChained heads.new.items entries.new.items }
    ensures entries { entries.new.items ≡ take (length entries.old.items - 1) entries.old.items }
    ensures room { (length heads.new.items ≡ length heads.old.items) × (vec_capacity entries.new ≡ vec_capacity entries.old) }
{
    if let Some((address, older)) = entries.pop() {
        heads[address as usize % CHAINS] = older;
    }
}
