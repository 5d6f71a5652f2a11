//! A list of writes to distinct cells. It can be rolled back to a mark, since each value that is replaced
//! is kept. Among many writes, a cell is found by an index.
ghost use Rattle.std.specs.Prelude.{◌≡◌, ℕ, ◌+◌, ◌<◌, ◌≤◌, ◌^◌, [], ◌∷◌, ◌++◌, length, nat_eq, slice_get, take, vec_capacity, Some, is_some, IfSome, IsFalse, IsOk, IsTrue, OnErr, OnOk};
ghost use Rattle.std.specs.Map.{keys_of, lookup};
ghost use Rattle.cell_index.specs.Cells.{IsIndexOf};
ghost use Rattle.stm_model.specs.Heap.{put, writes_to};
ghost use Rattle.stm_model.specs.declared.marks.WriteMark.{WriteMark};
ghost use Rattle.write_buffer.specs.Indexed.{IsIndexed, IsPlace};
ghost use Rattle.write_buffer.specs.Buffer.{AreApart, IsMark, IsNoLater, Keeps, at_mark, with_value};

use cell_index::{CellIndex, SMALL};
use std::alloc::Global;
use std::marker::Model;
use stm_model::{Addr, Memory, WriteMark};

/// Writes in the order in which their cells came.
#[derive(Debug, Drop)]
pub struct WriteBuffer {
    writes: Vec<(u32, u64)>,
    /// The values that were replaced, each with the index of its write.
    replaced: Vec<(usize, u64)>,
    /// The written cells, once there are many.
    index: CellIndex,
}

impl Model for WriteBuffer {
    ghost use Rattle.std.specs.Prelude.{◌-◌, length, vec_capacity};
    ghost use Rattle.cell_index.specs.Cells.{room_beside};
    ghost use Rattle.write_buffer.specs.Indexed.{IsIndexed};
    ghost use Rattle.write_buffer.specs.Buffer.{Buffer};

    ghost Value = { Buffer };

    ghost view = { λ b. record {
      writes = b.writes.items;
      replaced = b.replaced.items;
      spare = room_beside (vec_capacity b.writes) b.index - length b.writes.items;
      spare_rewrites = vec_capacity b.replaced - length b.replaced.items;
    } };

    ghost invariant = { λ b. IsIndexed b.index b.writes.items };
}

impl WriteBuffer {
    /// The empty buffer, which takes no memory yet.
    pub fn new(alloc: Global) -> WriteBuffer
        ensures { result.writes ≡ [] }
    {
        WriteBuffer {
            writes: Vec::new(alloc),
            replaced: Vec::new(alloc),
            index: CellIndex::new(alloc),
        }
    }

    /// Writes a cell. The first write of a cell takes no memory where a first write is spare, and a rewrite, a
    /// later write of the cell, none where a rewrite is. Neither uses up room of the other. Each mark stays one.
    pub fn put(&mut self, addr: Addr, value: u64) -> Result<(), Memory>
        ensures ok { OnOk result (self.new.writes ≡ put self.old.writes addr.0 value) }
        ensures err { OnErr result (self.new.writes ≡ self.old.writes) }
        ensures marks { (mark : WriteMark) → IsMark self.old mark → Keeps self.old self.new mark }
        ensures first_succeeds { IsFalse (writes_to self.old.writes addr.0) → 0 < self.old.spare → IsOk result }
        ensures first_room { IsFalse (writes_to self.old.writes addr.0) →
            (self.old.spare ≤ self.new.spare + 1) × (self.old.spare_rewrites ≤ self.new.spare_rewrites) }
        ensures rewrite_succeeds { IsTrue (writes_to self.old.writes addr.0) → 0 < self.old.spare_rewrites → IsOk result }
        ensures rewrite_room { IsTrue (writes_to self.old.writes addr.0) →
            (self.old.spare ≤ self.new.spare) × (self.old.spare_rewrites ≤ self.new.spare_rewrites + 1) }
    {
        match self.place_of(addr) {
            Some(place) => self.keep_and_set(place, value),
            None => {
                self.reserve_first_writes(1)?;
                self.put_first(addr, value);
                Ok(())
            }
        }
    }

    /// Writes a cell that isn't written yet, where a first write is spare.
    pub fn put_first(&mut self, addr: Addr, value: u64)
        requires unwritten { IsFalse (writes_to self.old.writes addr.0) }
        requires spare { 0 < self.old.spare }
        ensures writes { self.new.writes ≡ put self.old.writes addr.0 value }
        ensures marks { (mark : WriteMark) → IsMark self.old mark → Keeps self.old self.new mark }
        ensures spare { self.old.spare ≡ self.new.spare + 1 }
        ensures rewrites { self.new.spare_rewrites ≡ self.old.spare_rewrites }
    {
        self.writes.push_reserved((addr.0, value));
        if self.writes.len() > SMALL {
            catch_up(&mut self.index, self.writes.as_slice());
        }
    }

    /// Writes a cell that is written already, for a caller who undoes to no mark that was taken after this
    /// one. A cell that was first written after it keeps no former value, and takes no memory.
    pub fn rewrite(&mut self, addr: Addr, value: u64, since: WriteMark) -> Result<(), Memory>
        requires written { IsTrue (writes_to self.old.writes addr.0) }
        requires mark { IsMark self.old since }
        ensures ok { OnOk result (self.new.writes ≡ put self.old.writes addr.0 value) }
        ensures err { OnErr result ((self.new.writes ≡ self.old.writes) × (self.new.replaced ≡ self.old.replaced)) }
        ensures marks { (mark : WriteMark) → IsNoLater mark since → Keeps self.old self.new mark }
        ensures keeps_none { IsFalse (writes_to (take since.entries self.old.writes) addr.0) →
            IsOk result × (self.new.replaced ≡ self.old.replaced) × (self.old.spare_rewrites ≤ self.new.spare_rewrites) }
        ensures succeeds { 0 < self.old.spare_rewrites → IsOk result }
        ensures spare { self.old.spare ≤ self.new.spare }
        ensures rewrites { self.old.spare_rewrites ≤ self.new.spare_rewrites + 1 }
    {
        let Some(place) = self.place_of(addr) else {
            unreachable!()
        };
        if place < since.entries {
            return self.keep_and_set(place, value);
        }
        set_value(&mut self.writes, place, value);
        Ok(())
    }

    // Gives a write another value, and keeps its former one.
    fn keep_and_set(&mut self, place: usize, value: u64) -> Result<(), Memory>
        requires { place < length self.old.writes }
        ensures ok { OnOk result (self.new.writes ≡ with_value self.old.writes place value) }
        ensures err { OnErr result ((self.new.writes ≡ self.old.writes) × (self.new.replaced ≡ self.old.replaced)) }
        ensures marks { (mark : WriteMark) → IsMark self.old mark → Keeps self.old self.new mark }
        ensures succeeds { 0 < self.old.spare_rewrites → IsOk result }
        ensures room { (self.old.spare ≤ self.new.spare) × (self.old.spare_rewrites ≤ self.new.spare_rewrites + 1) }
    {
        self.replaced.push((place, self.writes[place].1))?;
        set_value(&mut self.writes, place, value);
        Ok(())
    }

    /// The value that this cell is to have, if it is written.
    pub fn find(&self, addr: Addr) -> Option<u64>
        ensures value { result ≡ lookup (nat_eq addr.0) self.now.writes }
        ensures written { writes_to self.now.writes addr.0 ≡ is_some result }
    {
        let place = self.place_of(addr)?;
        Some(self.writes[place].1)
    }

    // Where the write of this cell stands, if there is one: along few writes, and by the index among many.
    fn place_of(&self, addr: Addr) -> Option<usize>
        ensures place { IsPlace self.now.writes addr.0 result }
        ensures written { writes_to self.now.writes addr.0 ≡ is_some result }
        ensures again { IfSome result (λ place. (value : ℕ) → put self.now.writes addr.0 value ≡ with_value self.now.writes place value) }
    {
        if self.writes.len() > SMALL {
            self.index.find(addr.0)
        } else {
            place_along(self.writes.as_slice(), addr.0)
        }
    }

    /// The write at this index.
    pub fn at(&self, index: usize) -> (Addr, u64)
        requires { index < length self.now.writes }
        ensures { slice_get self.now.writes index ≡ Some (result.0.0, result.1) }
    {
        let (address, value) = self.writes[index];
        (Addr(address), value)
    }

    /// How many cells are written. Its last clauses are what every buffer keeps: none is written twice, and
    /// twice the count still fits its type.
    pub fn len(&self) -> usize
        ensures count { result ≡ length self.now.writes }
        ensures apart { AreApart self.now.writes }
        ensures fits { result < 2 ^ 63 }
    {
        self.writes.len()
    }

    /// A mark to roll back to, after all marks taken before.
    pub fn mark(&self) -> WriteMark
        ensures mark { IsMark self.now result }
        ensures writes { at_mark self.now result ≡ self.now.writes }
        ensures entries { result.entries ≡ length self.now.writes }
        ensures last { (mark : WriteMark) → IsMark self.now mark → IsNoLater mark result }
    {
        WriteMark {
            entries: self.writes.len(),
            restores: self.replaced.len(),
        }
    }

    /// Rolls back to a mark. This mark and those taken before it stay marks, and what is dropped becomes spare.
    pub fn undo(&mut self, mark: WriteMark)
        requires { IsMark self.old mark }
        ensures writes { self.new.writes ≡ at_mark self.old mark }
        ensures marks { (older : WriteMark) → IsNoLater older mark → Keeps self.old self.new older }
        ensures spare { self.old.spare + length self.old.writes ≤ self.new.spare + length self.new.writes }
        ensures rewrites { self.old.spare_rewrites + length self.old.replaced ≤ self.new.spare_rewrites + length self.new.replaced }
    {
        self.writes.truncate(mark.entries);
        self.index.truncate(mark.entries);
        while self.replaced.len() > mark.restores {
            if let Some((place, former)) = self.replaced.pop() {
                set_value(&mut self.writes, place, former);
            }
        }
    }

    /// How many first writes more take no memory.
    pub fn spare_first_writes(&self) -> usize
        ensures { result ≡ self.now.spare }
    {
        self.index
            .room_beside(self.writes.capacity())
            .saturating_sub(self.writes.len())
    }

    /// How many rewrites more take no memory.
    pub fn spare_rewrites(&self) -> usize
        ensures { result ≡ self.now.spare_rewrites }
    {
        self.replaced.capacity().saturating_sub(self.replaced.len())
    }

    /// Takes memory for so many first writes more and for as many rewrites.
    pub fn reserve(&mut self, more: usize) -> Result<(), Memory>
        ensures same { self.new.writes ≡ self.old.writes }
        ensures marks { (mark : WriteMark) → IsMark self.old mark → Keeps self.old self.new mark }
        ensures ok { OnOk result ((more ≤ self.new.spare) × (more ≤ self.new.spare_rewrites)) }
        ensures succeeds { more ≤ self.old.spare → more ≤ self.old.spare_rewrites → IsOk result }
        ensures spare { self.old.spare ≤ self.new.spare }
        ensures rewrites { self.old.spare_rewrites ≤ self.new.spare_rewrites }
    {
        self.reserve_first_writes(more)?;
        self.replaced.reserve(more)?;
        Ok(())
    }

    /// Takes memory for so many first writes more. Rewrites that come between don't use it up, but may want
    /// memory of their own.
    pub fn reserve_first_writes(&mut self, more: usize) -> Result<(), Memory>
        ensures same { self.new.writes ≡ self.old.writes }
        ensures marks { (mark : WriteMark) → IsMark self.old mark → Keeps self.old self.new mark }
        ensures ok { OnOk result (more ≤ self.new.spare) }
        ensures succeeds { more ≤ self.old.spare → IsOk result }
        ensures spare { self.old.spare ≤ self.new.spare }
        ensures rewrites { self.old.spare_rewrites ≤ self.new.spare_rewrites }
    {
        self.writes.reserve(more)?;
        self.index.reserve(self.writes.len() + more)?;
        Ok(())
    }

    /// Drops all writes and all marks, and keeps the memory for as many.
    pub fn clear(&mut self)
        ensures writes { self.new.writes ≡ [] }
        ensures replaced { self.new.replaced ≡ [] }
        ensures spare { self.new.spare ≡ self.old.spare + length self.old.writes }
        ensures rewrites { self.new.spare_rewrites ≡ self.old.spare_rewrites + length self.old.replaced }
    {
        self.index.truncate(0);
        self.writes.clear();
        self.replaced.clear();
    }
}

// Where the write of this cell stands, by a search along the writes.
fn place_along(writes: &[(u32, u64)], address: u32) -> Option<usize>
    ensures { IsPlace writes.now address result }
{
    writes.iter().position(|write| write.0 == address)
}

// Gives a write this value, if it is there.
fn set_value(writes: &mut Vec<(u32, u64)>, place: usize, value: u64)
    ensures value { writes.new.items ≡ with_value writes.old.items place value }
    ensures room { vec_capacity writes.new ≡ vec_capacity writes.old }
{
    if place < writes.len() {
        writes[place].1 = value;
    }
}

// Puts the cells of the last writes, which the index lacks, into it.
fn catch_up(index: &mut CellIndex, writes: &[(u32, u64)])
    requires first { index.old.addresses ≡ take (length index.old.addresses) (keys_of writes.now) }
    requires room { length writes.now ≤ index.old.room }
    ensures indexed { IsIndexOf index.new (keys_of writes.now) }
    ensures room { index.new.room ≡ index.old.room }
{
    while index.len() < writes.len() {
        let write = writes[index.len()];
        index.push(write.0);
    }
}
