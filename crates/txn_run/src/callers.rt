//! Callers, and how their attempts end.

use ref_table::{Seat, Stm};
use stm_model::{Bell, Cause, Law};

/// A caller at a table: its seat, and the bell that is rung where an attempt releases a cell for which somebody
/// waits.
#[derive(Drop)]
pub struct Caller<'a, L: Law, R: Bell> {
    pub seat: &'a mut Seat<L>,
    pub stm: &'a Stm<L>,
    pub bell: &'a mut R,
}

/// How an attempt ended.
#[derive(Clone, Copy, Debug, PartialEq, Eq)]
pub enum Outcome<T> {
    /// As a writer. Its stamp is its place in the history, from 1.
    Committed { out: T, stamp: u64 },
    /// As a reader of the heap that so many writers left.
    Read { out: T, prefix: u64 },
    /// Rolled back. What it read is from the heap that so many writers left.
    Rolled { cause: Cause, prefix: u64 },
}
