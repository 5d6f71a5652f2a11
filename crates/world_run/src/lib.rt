//! Attempts that run on the plain world, step by step, in whatever order their callers are named.
#![tactic(auto)]

mod causes;
pub mod laws;
mod run;
mod simulation;

pub use simulation::Simulation;
pub use stm_core::{Next, Reply};
