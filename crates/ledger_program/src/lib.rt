//! The program but for its streams: what it says on standard error, which number it ends with, and
//! one call that does all of it. A program crate is that call and nothing else.
#![tactic(auto)]

mod line;
mod number;
mod streams;

pub use line::{Line, error_line};
pub use number::exit_code;
pub use streams::{program, run};
