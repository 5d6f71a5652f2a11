//! Reading a cell, one access at a time.
#![tactic(auto)]

mod extend;
mod read;

pub use extend::{ExtendEnd, ExtendOp, ExtendPlace};
pub use read::{ReadEnd, ReadOp, ReadPlace};
