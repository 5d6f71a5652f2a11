//! Runs a job under its written schedule, access by access, and lists what came of it.
#![tactic(auto)]

mod answers;
mod flight;
mod listing;
mod moves;
mod opening;
mod said;
mod trace;
mod worker;

pub use trace::trace_job;
