//! What a table and the attempts on it are set to.

use crate::Policy;

/// The settings of a table.
#[derive(Clone, Copy, Debug, PartialEq, Eq)]
pub struct Settings {
    /// How many callers it has, numbered from 1.
    pub callers: u16,
    pub policy: Policy,
    /// How many times more a commit tries for the clock after it was lost.
    pub tries: u16,
    /// The last value that the clock may have: the greatest number of committed writers.
    pub clock: u64,
    /// How many attempts a caller may make.
    pub attempts: u64,
}
