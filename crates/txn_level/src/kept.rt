//! The open levels of attempts that follow one another.
ghost use Rattle.std.specs.Prelude.{◌≡◌, ◌≢◌, ◌<◌, ◌≤◌, ◌↔◌, [], ◌∷◌, drop, length, slice_get, Err, Some, OnErr, OnOk};
ghost use Rattle.txn_level.specs.declared.kept.LevelFault.TheVariants as fault;

use crate::levels::{Levels, TooDeep};
use std::alloc::Global;
use std::marker::Model;
use stm_model::{DEEPEST, Level};

/// Why no level was opened.
#[derive(Clone, Copy, Debug, PartialEq, Eq)]
pub enum LevelFault {
    /// As many levels as may be are open.
    TooDeep,
    /// There is no memory for levels.
    Memory,
}

/// The open levels of an attempt, on the heap, so that who has them moves with ease. Their memory is taken with
/// the first level, and kept for the next attempt. A contract sees them as a list, the innermost first.
#[derive(Debug, Drop)]
pub struct KeptLevels {
    levels: Option<Box<Levels>>,
    alloc: Global,
}

impl Model for KeptLevels {
    ghost use Rattle.std.specs.Prelude.{List, []};
    ghost use Rattle.std.specs.Option.{option_map_or};
    ghost use Rattle.stm_model.specs.declared.marks.Level.{Level};

    ghost Value = { List Level };

    ghost view = { λ k. option_map_or (λ b. b.value) k.levels [] };
}

impl KeptLevels {
    /// No level is open, and no memory is taken yet.
    pub fn new(alloc: Global) -> KeptLevels
        ensures { result ≡ [] }
    {
        KeptLevels {
            levels: None,
            alloc,
        }
    }

    /// How many levels are open, at most `DEEPEST`.
    pub fn depth(&self) -> u32
        ensures count { result ≡ length self.now }
        ensures within { result ≤ DEEPEST }
    {
        match &self.levels {
            Some(levels) => levels.depth(),
            None => 0,
        }
    }

    /// Opens a level, which becomes the innermost. It is too deep exactly where `DEEPEST` are open. A level inside
    /// another takes no memory.
    pub fn enter(&mut self, level: Level) -> Result<(), LevelFault>
        ensures ok { OnOk result (self.new ≡ level ∷ self.old) }
        ensures err { OnErr result (self.new ≡ self.old) }
        ensures deep { (result ≡ Err fault.TooDeep) ↔ (length self.old ≡ DEEPEST) }
        ensures takes { 0 < length self.old → result ≢ Err fault.Memory }
    {
        match &mut self.levels {
            Some(levels) => match levels.enter(level) {
                Ok(()) => Ok(()),
                Err(TooDeep) => Err(LevelFault::TooDeep),
            },
            None => self.enter_first(level),
        }
    }

    // Opens the first level of all.
    #[cold]
    #[inline(never)]
    fn enter_first(&mut self, level: Level) -> Result<(), LevelFault>
        requires { self.old ≡ [] }
        ensures ok { OnOk result (self.new ≡ level ∷ []) }
        ensures err { OnErr result (self.new ≡ []) }
        ensures deep { result ≢ Err fault.TooDeep }
    {
        let Ok(levels) = Box::new(self.alloc, Levels::new()) else {
            return Err(LevelFault::Memory);
        };
        let mut levels = levels;
        match levels.enter(level) {
            Ok(()) => self.levels = Some(levels),
            Err(TooDeep) => unreachable!(),
        }
        Ok(())
    }

    /// The innermost level.
    pub fn innermost(&self) -> Level
        requires { 0 < length self.now }
        ensures { slice_get self.now 0 ≡ Some result }
    {
        match &self.levels {
            Some(levels) => levels.innermost(),
            None => unreachable!(),
        }
    }

    /// Closes the innermost level and joins it to the one around it.
    pub fn keep(&mut self)
        requires { 0 < length self.old }
        ensures { self.new ≡ drop 1 self.old }
    {
        if let Some(levels) = &mut self.levels {
            levels.keep();
        }
    }

    /// Closes the innermost level and gives what stood where it was entered.
    pub fn undo(&mut self) -> Level
        requires { 0 < length self.old }
        ensures { self.old ≡ result ∷ self.new }
    {
        match &mut self.levels {
            Some(levels) => levels.undo(),
            None => unreachable!(),
        }
    }

    /// Closes all levels, and keeps their memory.
    pub fn clear(&mut self)
        ensures { self.new ≡ [] }
    {
        if let Some(levels) = &mut self.levels {
            levels.clear();
        }
    }
}
