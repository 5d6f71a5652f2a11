//! The whole program but for its real streams: words, a source and a sink, and an answer.
#![tactic(auto)]

mod host;
mod listing;
mod settings;
mod words;

pub use host::{HostStatus, host_plain};
