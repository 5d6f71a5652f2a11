//! Bytes in and bytes out: sources that are read to their end, sinks that are written in full, and
//! a count of the faults of each.
#![tactic(auto)]

mod ends;
mod in_memory;
mod over_std;
mod whole;

pub use ends::{Failed, Sink, Source};
pub use in_memory::{MemSink, MemSource, Memory};
pub use over_std::{StdSink, StdSource};
pub use whole::{ReadAllFault, WriteFault, read_all, write_whole};

#[cfg(test)]
mod tests;
