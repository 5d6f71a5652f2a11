//! Cells over a heap that nobody else changes: the definitions' own program, on which bodies are run
//! in tests.
#![tactic(auto)]

mod book;
mod cells;

pub use book::PlainBook;
pub use cells::PlainCells;

#[cfg(test)]
mod tests;
