//! The writes of an attempt, at most one of each cell, with exact undo.
#![tactic(auto)]

mod buffer;

pub use buffer::WriteBuffer;
pub use stm_model::{Addr, Memory, WriteMark};

#[cfg(test)]
mod tests;
