//! How attempts end.

use crate::Cause;

/// How an attempt ended.
#[derive(Clone, Copy, Debug, PartialEq, Eq)]
pub enum Ending {
    /// As a writer. Its stamp is its place in the history, from 1.
    Committed { stamp: u64 },
    /// As a reader of the heap that so many writers left.
    Read { prefix: u64 },
    /// Rolled back. What it read is from the heap that so many writers left.
    Rolled { cause: Cause, prefix: u64 },
}
