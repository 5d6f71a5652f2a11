//! The text of a job: reading it, printing it, and what its form means.
#![tactic(auto)]

mod fault;
mod frames;
mod job_text;
mod keyword;
pub mod laws;
mod line;
mod printing;
mod reader;
mod section;
mod words;
pub mod worked;

pub use fault::ParseFault;
pub use job_text::parse;
pub use printing::print;
