//! What is lawful of maps and snapshots that share their blocks, and what keeps it.
#![tactic(auto)]

pub mod heap_steps;
pub mod key_steps;
mod law;
pub mod laws;

pub use law::TrieLaw;
