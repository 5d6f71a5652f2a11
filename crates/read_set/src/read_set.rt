//! A list of notes of distinct cells, with a number of additions that take no memory. Among many, a cell is
//! found by an index.
ghost use Rattle.std.specs.Prelude.{◌≡◌, ◌≢◌, ◌+◌, ◌<◌, ◌≤◌, ◌^◌, [], ◌∷◌, ◌++◌, None, length, slice_get, take, IsOk, MatchOption, OnErr, OnOk};
ghost use Rattle.std.specs.List.{All, Contains};
ghost use Rattle.cell_index.specs.Cells.{IsIndexOf};
ghost use Rattle.stm_model.specs.After.{note_of};
ghost use Rattle.read_set.specs.Indexed.{IsIndexed};
ghost use Rattle.read_set.specs.Reads.{AreApart, cells_of};

use cell_index::{CellIndex, SMALL};
use std::alloc::Global;
use std::marker::Model;
use stm_model::{Addr, Memory, Note, Notes};

/// Notes in the order in which they were added.
#[derive(Debug, Drop)]
pub struct ReadSet {
    notes: Vec<Note>,
    /// The cells of the notes, once there are many.
    index: CellIndex,
}

impl Model for ReadSet {
    ghost use Rattle.std.specs.Prelude.{◌-◌, length, vec_capacity};
    ghost use Rattle.cell_index.specs.Cells.{room_beside};
    ghost use Rattle.read_set.specs.Indexed.{IsIndexed};
    ghost use Rattle.read_set.specs.Reads.{Reads};

    ghost Value = { Reads };

    ghost view = { λ s. record { notes = s.notes.items; spare = room_beside (vec_capacity s.notes) s.index - length s.notes.items } };

    ghost invariant = { λ s. IsIndexed s.index s.notes.items };
}

impl ReadSet {
    /// The empty set, which takes no memory yet.
    pub fn new(alloc: Global) -> ReadSet
        ensures { result.notes ≡ [] }
    {
        ReadSet {
            notes: Vec::new(alloc),
            index: CellIndex::new(alloc),
        }
    }

    /// Puts a note of a cell that isn't noted at the end. Where any addition is spare, it takes no memory.
    pub fn add(&mut self, note: Note) -> Result<(), Memory>
        requires unnoted { note_of self.old.notes note.addr.0 ≡ None }
        ensures ok { OnOk result (self.new.notes ≡ self.old.notes ++ note ∷ []) }
        ensures err { OnErr result (self.new.notes ≡ self.old.notes) }
        ensures succeeds { 0 < self.old.spare → IsOk result }
        ensures spare { self.old.spare ≤ self.new.spare + 1 }
    {
        self.reserve(1)?;
        self.add_spare(note);
        Ok(())
    }

    /// Puts a note of a cell that isn't noted at the end, where an addition is spare.
    pub fn add_spare(&mut self, note: Note)
        requires unnoted { note_of self.old.notes note.addr.0 ≡ None }
        requires spare { 0 < self.old.spare }
        ensures notes { self.new.notes ≡ self.old.notes ++ note ∷ [] }
        ensures spare { self.old.spare ≡ self.new.spare + 1 }
    {
        self.notes.push_reserved(note);
        if self.notes.len() > SMALL {
            catch_up(&mut self.index, self.notes.as_slice());
        }
    }

    /// The note of this cell, if there is one.
    pub fn find(&self, addr: Addr) -> Option<Note>
        ensures value { result ≡ note_of self.now.notes addr.0 }
        ensures cases { MatchOption result
            (All (λ note. note.addr.0 ≢ addr.0) self.now.notes)
            (λ note. (note.addr ≡ addr) × Contains self.now.notes note) }
    {
        if self.notes.len() > SMALL {
            find_by_index(self.notes.as_slice(), &self.index, addr)
        } else {
            find_along(self.notes.as_slice(), addr)
        }
    }

    /// The note at this index.
    pub fn at(&self, index: usize) -> Note
        requires { index < length self.now.notes }
        ensures { slice_get self.now.notes index ≡ Some result }
    {
        self.notes[index]
    }

    /// How many notes there are. Its last clauses are what every set keeps: no cell is noted twice, and twice
    /// the count still fits its type.
    pub fn len(&self) -> usize
        ensures count { result ≡ length self.now.notes }
        ensures apart { AreApart self.now.notes }
        ensures fits { result < 2 ^ 63 }
    {
        self.notes.len()
    }

    /// How many additions more take no memory.
    pub fn spare(&self) -> usize
        ensures { result ≡ self.now.spare }
    {
        self.index
            .room_beside(self.notes.capacity())
            .saturating_sub(self.notes.len())
    }

    /// Takes memory for so many additions more, where they aren't spare already.
    pub fn reserve(&mut self, more: usize) -> Result<(), Memory>
        ensures same { self.new.notes ≡ self.old.notes }
        ensures ok { OnOk result (more ≤ self.new.spare) }
        ensures succeeds { more ≤ self.old.spare → IsOk result }
        ensures spare { self.old.spare ≤ self.new.spare }
    {
        self.notes.reserve(more)?;
        self.index.reserve(self.notes.len() + more)?;
        Ok(())
    }

    /// Drops all notes, and keeps the memory for as many.
    pub fn clear(&mut self)
        ensures notes { self.new.notes ≡ [] }
        ensures spare { self.new.spare ≡ self.old.spare + length self.old.notes }
    {
        self.notes.clear();
        self.index.truncate(0);
    }
}

impl Notes for ReadSet {
    ghost notes = { λ reads. reads.notes };

    fn len(&self) -> usize {
        ReadSet::len(self)
    }

    fn at(&self, index: usize) -> Note {
        ReadSet::at(self, index)
    }
}

// The note of this cell, by a search along the notes.
fn find_along(notes: &[Note], addr: Addr) -> Option<Note>
    ensures { result ≡ note_of notes.now addr.0 }
{
    notes.iter().find(|note| note.addr == addr).copied()
}

// The note of this cell, by the index of many notes.
fn find_by_index(notes: &[Note], index: &CellIndex, addr: Addr) -> Option<Note>
    requires many { 32 < length notes.now }
    requires indexed { IsIndexed index.now notes.now }
    ensures { result ≡ note_of notes.now addr.0 }
{
    let place = index.find(addr.0)?;
    Some(notes[place])
}

// Puts the cells of the last notes, which the index lacks, into it.
fn catch_up(index: &mut CellIndex, notes: &[Note])
    requires first { index.old.addresses ≡ take (length index.old.addresses) (cells_of notes.now) }
    requires room { length notes.now ≤ index.old.room }
    ensures indexed { IsIndexOf index.new (cells_of notes.now) }
    ensures room { index.new.room ≡ index.old.room }
{
    while index.len() < notes.len() {
        let note = notes[index.len()];
        index.push(note.addr.0);
    }
}
