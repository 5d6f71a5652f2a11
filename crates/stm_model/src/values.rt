//! Lists of plain values, which are read by value and copied.
ghost use Rattle.std.specs.Prelude.{◌≡◌, [], ◌∷◌, ◌++◌, ◌<◌, length, slice_get, IfOk, OnOk, OnErr};

use crate::{HookPhase, Memory};
use std::alloc::Global;
use std::marker::Model;

/// A list of plain values, kept in a `Vec`.
#[derive(Debug, Drop)]
pub struct Values<T> {
    entries: Vec<T>,
}

impl<T> Model for Values<T> {
    ghost use Rattle.std.specs.Prelude.{List};
    ghost use Rattle.std.specs.Coded.{coded_list};

    ghost Value = { List T };

    ghost coded = { coded_list T.code };

    ghost view = { λ v. v.entries.items };
}

/// Words of 64 bits.
pub type Words = Values<u64>;

/// Handler runs, each with its phase and its token.
pub type Runs = Values<(HookPhase, u64)>;

impl<T: Copy> Values<T> {
    /// The empty list, which takes no memory yet.
    pub fn new(alloc: Global) -> Values<T>
        ensures { result ≡ [] }
    {
        Values {
            entries: Vec::new(alloc),
        }
    }

    pub fn len(&self) -> usize
        ensures { result ≡ length self.now }
    {
        self.entries.len()
    }

    /// Puts an entry at the end.
    pub fn push(&mut self, entry: T) -> Result<(), Memory>
        ensures ok { OnOk result (self.new ≡ self.old ++ entry ∷ []) }
        ensures err { OnErr result (self.new ≡ self.old) }
    {
        self.entries.push(entry)?;
        Ok(())
    }

    pub fn at(&self, index: usize) -> T
        requires { index < length self.now }
        ensures { slice_get self.now index ≡ Some result }
    {
        self.entries[index]
    }

    pub fn copy(&self) -> Result<Values<T>, Memory>
        ensures { IfOk result (λ list. list ≡ self.now) }
    {
        let alloc = *self.entries.allocator();
        Ok(Values {
            entries: Vec::from_slice(alloc, self.entries.as_slice())?,
        })
    }

    pub fn as_slice(&self) -> &[T]
        ensures { result.now ≡ self.now }
    {
        self.entries.as_slice()
    }
}

/// A list made of a `Vec`, without taking memory.
impl<T> From<Vec<T>> for Values<T> {
    ghost from_gives = { λ entries list. list ≡ entries.items };

    fn from(entries: Vec<T>) -> Values<T> {
        Values { entries }
    }
}

/// The `Vec` of a list, without taking memory.
impl<T> From<Values<T>> for Vec<T> {
    ghost from_gives = { λ list entries. entries.items ≡ list };

    fn from(list: Values<T>) -> Vec<T> {
        list.entries
    }
}
