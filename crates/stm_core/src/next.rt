//! What an attempt does next, and what it replies.

use stm_model::{Access, Addr, Cause, Ending, HookPhase};

/// What an attempt replies to an ask.
#[derive(Clone, Copy, Debug, PartialEq, Eq)]
pub enum Reply {
    /// It waits to be asked.
    Ready,
    /// The value that was read, and it waits to be asked.
    Value(u64),
    /// It was refused something, and waits to be rolled back.
    Stopped(Cause),
    /// It is over.
    Ended(Ending),
}

/// How many first reads and first writes more can't be stopped by want of memory.
#[derive(Clone, Copy, Debug, PartialEq, Eq)]
pub struct Room {
    pub reads: usize,
    pub writes: usize,
}

/// What an attempt does next.
#[derive(Clone, Copy, Debug, PartialEq, Eq)]
pub enum Next {
    Access(Access),
    /// The exchange of the clock from `old` to `old + 1`, by which a commit is decided.
    Decide { old: u64 },
    /// A handler is to be run.
    Run { phase: HookPhase, token: u64 },
    /// A before-commit body is to be run: it asks, and `ran` tells its end.
    Before { token: u64 },
    /// Who waits for the cell is to be woken.
    Ring(Addr),
    Reply(Reply),
}
