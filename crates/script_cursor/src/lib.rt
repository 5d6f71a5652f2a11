//! A cursor in a script: what the script asks next. A step goes on by a statement or by an end, and
//! copies nothing of the script.
#![tactic(auto)]

mod coming;
mod cursor;
mod own;
mod place;

pub use coming::{Coming, End};
pub use cursor::Cursor;
