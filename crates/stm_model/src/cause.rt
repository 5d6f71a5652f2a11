//! Cells' addresses, the phases of handlers, and why an attempt was rolled back.

ghost use Rattle.std.specs.Prelude.{◌≡◌, ◌↔◌, IsTrue};

use crate::{Meta, TxnStatus};

/// The number of a cell, from 0.
#[derive(Clone, Copy, Debug, PartialEq, Eq)]
pub struct Addr(pub u32);

/// When a handler runs.
#[derive(Clone, Copy, Debug, PartialEq, Eq)]
pub enum HookPhase {
    /// Before the decision, where the transaction may still be rolled back.
    Preparing,
    /// After the decision to commit, before the values are stored.
    Committing,
    /// After the commit, with no transaction active.
    Commit,
    /// After a rollback, of a nested block too.
    Rollback,
    /// After a commit or a rollback.
    Completion,
}

/// Why an attempt was rolled back, with the words that show it.
#[derive(Clone, Copy, Debug, PartialEq, Eq)]
pub enum Cause {
    /// The cell to be read was being changed by another caller.
    ReadConflict {
        addr: Addr,
        meta: Meta,
    },
    /// The cell's metadata word moved after it was loaded.
    Moved {
        addr: Addr,
        first: Meta,
        second: Meta,
    },
    /// A cell that was read at this version has another one, or is being changed by another caller.
    Stale {
        addr: Addr,
        version: u64,
        meta: Meta,
    },
    /// Another caller owned the cell to be written.
    WriteConflict {
        addr: Addr,
        meta: Meta,
    },
    /// Another caller doomed the attempt.
    Doomed {
        status: TxnStatus,
    },
    /// The clock moved each time that the commit tried for it.
    ClockMoved {
        first: u64,
        second: u64,
    },
    /// The clock was at its limit.
    ClockEnd {
        clock: u64,
    },
    /// The body asked to be run again after a cell that it read has changed.
    Retry,
    /// The body failed with a code of its own.
    User {
        code: u16,
    },
    /// All blocks of the arena were in use.
    Full {
        used: u64,
        blocks: u64,
    },
    /// Nested levels were at their limit.
    TooDeep {
        depth: u32,
    },
    /// The caller had made as many attempts as its settings allow.
    AttemptsEnd {
        serial: u64,
    },
    /// Memory was out.
    Memory,
}

impl Cause {
    /// Whether the other is the same cause, with the same words.
    pub fn is_same(self, other: Cause) -> bool
        ensures { IsTrue result ↔ (self ≡ other) }
    {
        match (self, other) {
            (Cause::ReadConflict { addr, meta }, _) => other.is_read_conflict(addr, meta),
            (
                Cause::Moved {
                    addr,
                    first,
                    second,
                },
                _,
            ) => other.is_moved(addr, first, second),
            (
                Cause::Stale {
                    addr,
                    version,
                    meta,
                },
                _,
            ) => other.is_stale(addr, version, meta),
            (Cause::WriteConflict { addr, meta }, _) => other.is_write_conflict(addr, meta),
            (Cause::ClockMoved { first, second }, _) => other.is_clock_moved(first, second),
            (Cause::Full { used, blocks }, _) => other.is_full(used, blocks),
            (Cause::Doomed { status }, Cause::Doomed { status: word }) => status == word,
            (Cause::ClockEnd { clock }, Cause::ClockEnd { clock: limit }) => clock == limit,
            (Cause::User { code }, Cause::User { code: number }) => code == number,
            (Cause::TooDeep { depth }, Cause::TooDeep { depth: number }) => depth == number,
            (Cause::AttemptsEnd { serial }, Cause::AttemptsEnd { serial: last }) => serial == last,
            (Cause::Retry, Cause::Retry) | (Cause::Memory, Cause::Memory) => true,
            _ => false,
        }
    }

    fn is_read_conflict(self, cell: Addr, word: Meta) -> bool
        ensures { IsTrue result ↔ (self ≡ Cause.ReadConflict cell word) }
    {
        match self {
            Cause::ReadConflict { addr, meta } => addr == cell && meta == word,
            _ => false,
        }
    }

    fn is_moved(self, cell: Addr, word: Meta, later: Meta) -> bool
        ensures { IsTrue result ↔ (self ≡ Cause.Moved cell word later) }
    {
        match self {
            Cause::Moved {
                addr,
                first,
                second,
            } => addr == cell && first == word && second == later,
            _ => false,
        }
    }

    fn is_stale(self, cell: Addr, noted: u64, word: Meta) -> bool
        ensures { IsTrue result ↔ (self ≡ Cause.Stale cell noted word) }
    {
        match self {
            Cause::Stale {
                addr,
                version,
                meta,
            } => addr == cell && version == noted && meta == word,
            _ => false,
        }
    }

    fn is_write_conflict(self, cell: Addr, word: Meta) -> bool
        ensures { IsTrue result ↔ (self ≡ Cause.WriteConflict cell word) }
    {
        match self {
            Cause::WriteConflict { addr, meta } => addr == cell && meta == word,
            _ => false,
        }
    }

    fn is_clock_moved(self, clock: u64, later: u64) -> bool
        ensures { IsTrue result ↔ (self ≡ Cause.ClockMoved clock later) }
    {
        match self {
            Cause::ClockMoved { first, second } => first == clock && second == later,
            _ => false,
        }
    }

    fn is_full(self, taken: u64, all: u64) -> bool
        ensures { IsTrue result ↔ (self ≡ Cause.Full taken all) }
    {
        match self {
            Cause::Full { used, blocks } => used == taken && blocks == all,
            _ => false,
        }
    }
}
