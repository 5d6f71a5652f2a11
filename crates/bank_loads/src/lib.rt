//! What the workers of `bank` do: the cells of a load, the scripts of each worker, the bodies that these
//! are, and the sum that the cells have at the end.
#![tactic(auto)]

mod counting;
pub mod laws;
mod moving;
mod sizes;
mod summing;
mod turns;

pub use bank_words::{Load, Task};
pub use counting::Count;
pub use moving::Transfer;
pub use sizes::{OPENING, TALLIED, cells, expected_sum};
pub use summing::Tally;
pub use turns::{Script, Scripts};
