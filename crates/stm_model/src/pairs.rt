//! Finite maps from words to words, as their pairs by ascending key.
ghost use Rattle.std.specs.Prelude.{◌≡◌, [], ◌∷◌, ◌++◌, ◌<◌, length, slice_get, IfOk, OnOk, OnErr};
ghost use Rattle.stm_model.specs.Pairs.{EndsBelow, KeysAscend};

use crate::Memory;
use std::alloc::Global;
use std::marker::Model;

/// Pairs of a key and a value, the keys ascending strictly.
#[derive(Debug, Drop)]
pub struct Pairs {
    entries: Vec<(u64, u64)>,
}

impl Model for Pairs {
    ghost use Rattle.std.specs.Prelude.{List, ℕ};
    ghost use Rattle.stm_model.specs.Pairs.{KeysAscend};

    ghost Value = { List (ℕ × ℕ) };

    ghost view = { λ p. p.entries.items };

    ghost invariant = { λ p. KeysAscend p.entries.items };
}

impl Pairs {
    /// The empty map, which takes no memory yet.
    pub fn new(alloc: Global) -> Pairs
        ensures { result ≡ [] }
    {
        Pairs {
            entries: Vec::new(alloc),
        }
    }

    /// The map of these pairs, without taking memory.
    pub fn from_vec(entries: Vec<(u64, u64)>) -> Pairs
        requires { KeysAscend entries.items }
        ensures { result ≡ entries.items }
    {
        Pairs { entries }
    }

    pub fn len(&self) -> usize
        ensures { result ≡ length self.now }
    {
        self.entries.len()
    }

    /// Puts a pair at the end.
    pub fn push(&mut self, entry: (u64, u64)) -> Result<(), Memory>
        requires { EndsBelow self.old entry.0 }
        ensures ok { OnOk result (self.new ≡ self.old ++ entry ∷ []) }
        ensures err { OnErr result (self.new ≡ self.old) }
    {
        self.entries.push(entry)?;
        Ok(())
    }

    pub fn at(&self, index: usize) -> (u64, u64)
        requires { index < length self.now }
        ensures { slice_get self.now index ≡ Some result }
    {
        self.entries[index]
    }

    pub fn copy(&self) -> Result<Pairs, Memory>
        ensures { IfOk result (λ map. map ≡ self.now) }
    {
        let alloc = *self.entries.allocator();
        Ok(Pairs {
            entries: Vec::from_slice(alloc, self.entries.as_slice())?,
        })
    }

    /// The pairs in order, with what each map keeps: its keys ascend.
    pub fn as_slice(&self) -> &[(u64, u64)]
        ensures pairs { result.now ≡ self.now }
        ensures ascending { KeysAscend self.now }
    {
        self.entries.as_slice()
    }
}

/// The pairs of a map as a `Vec`, without taking memory.
impl From<Pairs> for Vec<(u64, u64)> {
    ghost from_gives = { λ map entries. entries.items ≡ map };

    fn from(map: Pairs) -> Vec<(u64, u64)> {
        map.entries
    }
}
