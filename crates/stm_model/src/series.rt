//! Lists whose entries are read by reference.
ghost use Rattle.std.specs.Prelude.{◌≡◌, [], ◌∷◌, ◌++◌, ◌<◌, length, slice_get, OnOk, OnErr};

use std::alloc::{AllocError, AllocFailed, Global};
use std::marker::Model;

/// Memory is out.
#[derive(Clone, Copy, Debug, PartialEq, Eq)]
pub struct Memory;

impl From<AllocError> for Memory {
    fn from(_error: AllocError) -> Memory {
        Memory
    }
}

impl<T: Drop> From<AllocFailed<T>> for Memory {
    fn from(_error: AllocFailed<T>) -> Memory {
        Memory
    }
}

/// A list, kept in a `Vec`. Its entries may hold a list of their own kind.
#[derive(Debug, Drop)]
pub struct Series<T> {
    entries: Vec<T>,
}

impl<T> Model for Series<T> {
    ghost use Rattle.std.specs.Prelude.{List};
    ghost use Rattle.std.specs.Coded.{coded_list};

    ghost Value = { List T };

    ghost coded = { coded_list T.code };

    ghost view = { λ s. s.entries.items };
}

impl<T> Series<T> {
    /// The empty list, which takes no memory yet.
    pub fn new(alloc: Global) -> Series<T>
        ensures { result ≡ [] }
    {
        Series {
            entries: Vec::new(alloc),
        }
    }

    pub fn len(&self) -> usize
        ensures { result ≡ length self.now }
    {
        self.entries.len()
    }

    pub fn at(&self, index: usize) -> &T
        requires { index < length self.now }
        ensures { slice_get self.now index ≡ Some result.now }
    {
        &self.entries[index]
    }

    pub fn as_slice(&self) -> &[T]
        ensures { result.now ≡ self.now }
    {
        self.entries.as_slice()
    }
}

impl<T: Drop> Series<T> {
    /// Puts an entry at the end.
    pub fn push(&mut self, entry: T) -> Result<(), Memory>
        ensures ok { OnOk result (self.new ≡ self.old ++ entry ∷ []) }
        ensures err { OnErr result (self.new ≡ self.old) }
    {
        self.entries.push(entry)?;
        Ok(())
    }
}

/// A list made of a `Vec`, without taking memory.
impl<T> From<Vec<T>> for Series<T> {
    ghost from_gives = { λ entries list. list ≡ entries.items };

    fn from(entries: Vec<T>) -> Series<T> {
        Series { entries }
    }
}

/// The `Vec` of a list, without taking memory.
impl<T> From<Series<T>> for Vec<T> {
    ghost from_gives = { λ list entries. entries.items ≡ list };

    fn from(list: Series<T>) -> Vec<T> {
        list.entries
    }
}
