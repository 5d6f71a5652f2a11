//! A stack of levels in a fixed array. Nothing here takes memory.
ghost use Rattle.std.specs.Prelude.{◌≡◌, ◌<◌, ◌≤◌, ◌↔◌, [], ◌∷◌, drop, length, slice_get, Some, IsErr, OnErr, OnOk};

use std::marker::Model;
use stm_model::{DEEPEST, Level, WriteMark};

/// As many levels as may be are open.
#[derive(Clone, Copy, Debug, PartialEq, Eq)]
pub struct TooDeep;

const PLACES: usize = DEEPEST as usize;

/// The open levels. A contract sees them as a list, the innermost first.
#[derive(Debug, Drop)]
pub struct Levels {
    /// The first `depth` of these are open, the innermost last.
    places: [Level; PLACES],
    depth: u32,
}

impl Model for Levels {
    ghost use Rattle.std.specs.Prelude.{List, reverse, take};
    ghost use Rattle.stm_model.specs.declared.marks.Level.{Level};
    ghost use Rattle.txn_level.specs.Stack.{IsStack};

    ghost Value = { List Level };

    ghost view = { λ l. reverse (take l.depth l.places) };

    ghost invariant = { λ l. IsStack l.places l.depth };
}

impl Levels {
    /// No level is open.
    pub fn new() -> Levels
        ensures { result ≡ [] }
    {
        let unused = Level {
            writes: WriteMark {
                entries: 0,
                restores: 0,
            },
            hooks: 0,
            laters: 0,
        };
        Levels {
            places: [unused; PLACES],
            depth: 0,
        }
    }

    /// How many levels are open, at most `DEEPEST`.
    pub fn depth(&self) -> u32
        ensures count { result ≡ length self.now }
        ensures within { result ≤ DEEPEST }
    {
        self.depth
    }

    /// Opens a level, which becomes the innermost. It is refused exactly where `DEEPEST` are open.
    pub fn enter(&mut self, level: Level) -> Result<(), TooDeep>
        ensures ok { OnOk result (self.new ≡ level ∷ self.old) }
        ensures err { OnErr result (self.new ≡ self.old) }
        ensures refused { IsErr result ↔ (length self.old ≡ DEEPEST) }
    {
        if self.depth >= DEEPEST {
            return Err(TooDeep);
        }
        self.places[self.depth as usize] = level;
        self.depth += 1;
        Ok(())
    }

    /// The innermost level.
    pub fn innermost(&self) -> Level
        requires { 0 < length self.now }
        ensures { slice_get self.now 0 ≡ Some result }
    {
        self.places[self.depth as usize - 1]
    }

    /// Closes the innermost level and joins it to the one around it.
    pub fn keep(&mut self)
        requires { 0 < length self.old }
        ensures { self.new ≡ drop 1 self.old }
    {
        self.depth -= 1;
    }

    /// Closes the innermost level and gives what stood where it was entered.
    pub fn undo(&mut self) -> Level
        requires { 0 < length self.old }
        ensures { self.old ≡ result ∷ self.new }
    {
        let level = self.innermost();
        self.keep();
        level
    }

    /// Closes all levels.
    pub fn clear(&mut self)
        ensures { self.new ≡ [] }
    {
        self.depth = 0;
    }
}
