//! Tests of what all crates speak of, of blocks and alternatives, of the parts of an attempt over its read set,
//! of large sets of reads and writes, and of the plain world's words.
#![tactic(auto)]

#[cfg(test)]
mod blocks;
#[cfg(test)]
mod large_sets;
#[cfg(test)]
mod model;
#[cfg(test)]
mod operations;
#[cfg(test)]
mod plain_world;
