//! Jobs of transaction scripts, what running them means, and the listing of what came of them.
#![tactic(auto)]

mod job;
pub mod laws;
mod listing;
mod reason;
mod rows;
mod script;
pub mod talks;
pub mod worked;

pub use job::{Contents, Job, Openings, PairLists, Scripts, Steps, Workers};
pub use listing::{Listing, Names, Rolled, RolledList, Row, RowResult};
pub use reason::Reason;
pub use rows::Rows;
pub use script::{Block, Operand, Parts, Script, Statement};
