//! Typed references to cells and arrays of them, for use within a block: whatever a cell of words does,
//! a cell of values does by the words that stand for them. Single operations on cells of the shared table.
#![tactic(auto)]

mod array;
mod closures;
pub mod laws;
mod operations;
mod reference;
mod view;

pub use array::{OutOfRange, Refs, TArray};
pub use reference::Ref;
pub use view::View;

#[cfg(test)]
mod tests;
