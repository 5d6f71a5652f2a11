//! Texts as the rows of a file have them.
#![tactic(auto)]

mod row;

pub use row::{cut, is_row, text_of};
