//! What came of a job: the settled scripts, the attempts that were rolled back, and the contents.

use crate::{Contents, Rows};
use stm_model::{Cause, Runs, Series, Values, Words};

/// How a script was settled.
#[derive(Clone, Copy, Debug, PartialEq, Eq)]
pub enum RowResult {
    /// It took place.
    Done,
    /// It failed with its own code, and was undone.
    Fail { code: u16 },
    /// It would have written, and the clock was at its limit.
    Spent,
    /// It would have drawn more blocks than were left.
    Full { used: u64, allowance: u64 },
}

/// A settled script.
#[derive(Drop)]
pub struct Row {
    /// A committed writer's stamp, and for all others how many writers came before.
    pub position: u64,
    /// It committed a write.
    pub writer: bool,
    /// The worker, from 1.
    pub worker: u16,
    /// Which of the worker's scripts it is, from 1.
    pub number: u32,
    pub result: RowResult,
    pub prints: Words,
    pub runs: Runs,
    /// How many blocks it drew.
    pub drawn: u64,
}

/// An attempt that was rolled back.
#[derive(Drop)]
pub struct Rolled {
    pub worker: u16,
    pub number: u32,
    /// The number of writers after which it read.
    pub prefix: u64,
    pub cause: Cause,
    /// All that it printed.
    pub trail: Words,
}

pub type RolledList = Series<Rolled>;

/// Scripts, each by its worker and its number.
pub type Names = Values<(u16, u32)>;

/// What came of a job.
#[derive(Drop)]
pub struct Listing {
    pub rows: Rows,
    pub rolled: RolledList,
    /// Scripts that wait for a change that nobody is left to make.
    pub blocked: Names,
    /// Scripts whose worker has made all its attempts.
    pub worn: Names,
    pub contents: Contents,
}
