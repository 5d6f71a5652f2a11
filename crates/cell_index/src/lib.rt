//! An index of cells' addresses, which finds a cell among many in few steps.
#![tactic(auto)]

mod index;

pub use index::{CellIndex, SMALL};

#[cfg(test)]
mod tests;
