//! The command line of `bank`: which load its words ask for, how many scripts, and how many threads.
#![tactic(auto)]

pub mod laws;
mod task;
mod words;

pub use task::{Load, MOST_SCRIPTS, MOST_THREADS, Task};
pub use words::task_of;
