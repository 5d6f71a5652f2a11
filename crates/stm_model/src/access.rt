//! The shared words of a table, the accesses to them, and what a running transaction is asked to do.
ghost use Rattle.std.specs.Prelude.{◌≡◌};
ghost use Rattle.stm_model.specs.Accesses.{word_of};

use crate::{Addr, Cause, HookPhase};

/// A shared word.
#[derive(Clone, Copy, Debug, PartialEq, Eq)]
pub enum Word {
    /// The number of committed writers.
    Clock,
    /// The status word of a caller, from 1.
    Status(u16),
    /// The metadata word of a cell.
    Meta(Addr),
    /// The value of a cell.
    Value(Addr),
}

/// One atomic access to a shared word.
#[derive(Clone, Copy, Debug, PartialEq, Eq)]
pub enum Access {
    Load(Word),
    Store(Word, u64),
    Swap(Word, u64),
    /// Puts `new` where it finds `old`, and else changes nothing.
    Exchange { word: Word, old: u64, new: u64 },
    /// Sets the bits of the mask.
    SetBits(Word, u64),
    /// Clears the bits of the mask.
    ClearBits(Word, u64),
}

impl Access {
    /// The word that the access goes to.
    #[tactic(auto, unfolding(crate::specs::Accesses::word_of))]
    pub fn word(self) -> Word
        ensures { result ≡ word_of self }
    {
        match self {
            Access::Load(word)
            | Access::Store(word, _)
            | Access::Swap(word, _)
            | Access::SetBits(word, _)
            | Access::ClearBits(word, _)
            | Access::Exchange { word, .. } => word,
        }
    }
}

/// What a transaction is asked to do next.
#[derive(Clone, Copy, Debug, PartialEq, Eq)]
pub enum Ask {
    /// To read a cell.
    Get(Addr),
    /// To write a value to a cell.
    Set(Addr, u64),
    /// To open a nested level.
    Enter,
    /// To close the innermost level and let what it did belong to the one around it.
    Keep,
    /// To undo the innermost level.
    Undo,
    /// To register a handler with its token.
    Hook(HookPhase, u64),
    /// To register a body that runs before the commit, with its token.
    Later(u64),
    /// To commit.
    Finish,
    /// To roll back.
    Abandon(Cause),
}
