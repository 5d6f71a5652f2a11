//! The notes of an attempt's reads, at most one of each cell.
#![tactic(auto)]

mod read_set;

pub use read_set::ReadSet;
pub use stm_model::{Addr, Memory, Note, Notes};

#[cfg(test)]
mod tests;
