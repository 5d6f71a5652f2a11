//! The rows of a listing.
ghost use Rattle.std.specs.Prelude.{◌≡◌, [], ◌∷◌, ◌++◌, ◌<◌, length, slice_get, IsPermutation, OnOk, OnErr};
ghost use Rattle.std.specs.List.Sorted.{IsSortedBy};
ghost use Rattle.ledger_model.specs.Order.{stands_before};

use crate::Row;
use std::alloc::Global;
use std::marker::Model;
use stm_model::Memory;

/// A list of rows, kept in a `Vec`.
#[derive(Drop)]
pub struct Rows {
    entries: Vec<Row>,
}

impl Model for Rows {
    ghost use Rattle.std.specs.Prelude.{List};
    ghost use Rattle.ledger_model.specs.declared.listing.Row.{Row};

    ghost Value = { List Row };

    ghost view = { λ r. r.entries.items };
}

impl Rows {
    /// The empty list, which takes no memory yet.
    pub fn new(alloc: Global) -> Rows
        ensures { result ≡ [] }
    {
        Rows {
            entries: Vec::new(alloc),
        }
    }

    pub fn len(&self) -> usize
        ensures { result ≡ length self.now }
    {
        self.entries.len()
    }

    /// Puts a row at the end.
    pub fn push(&mut self, row: Row) -> Result<(), Memory>
        ensures ok { OnOk result (self.new ≡ self.old ++ row ∷ []) }
        ensures err { OnErr result (self.new ≡ self.old) }
    {
        self.entries.push(row)?;
        Ok(())
    }

    pub fn at(&self, index: usize) -> &Row
        requires { index < length self.now }
        ensures { slice_get self.now index ≡ Some result.now }
    {
        &self.entries[index]
    }

    pub fn as_slice(&self) -> &[Row]
        ensures { result.now ≡ self.now }
    {
        self.entries.as_slice()
    }

    /// Puts the rows in order: by position, writers before others, by worker, by number.
    pub fn sort(&mut self)
        ensures rows { IsPermutation self.old self.new }
        ensures in_order { IsSortedBy stands_before self.new }
    {
        self.entries
            .sort_unstable_by_key(|row| (row.position, !row.writer, row.worker, row.number));
    }
}

/// A list made of a `Vec`, without taking memory.
impl From<Vec<Row>> for Rows {
    ghost from_gives = { λ entries rows. rows ≡ entries.items };

    fn from(entries: Vec<Row>) -> Rows {
        Rows { entries }
    }
}

/// The `Vec` of a list, without taking memory.
impl From<Rows> for Vec<Row> {
    ghost from_gives = { λ rows entries. entries.items ≡ rows };

    fn from(rows: Rows) -> Vec<Row> {
        rows.entries
    }
}
