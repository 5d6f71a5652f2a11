//! Transactions on the shared table: attempts of callers to run a body as one step.
#![tactic(auto)]

mod attempts;
mod bodies;
mod callers;
mod cells;
mod closures;
mod flights;
mod making;
mod runners;
mod to_end;

pub use attempts::{attempt, attempt_noting};
pub use callers::{Caller, Outcome};
pub use cells::Txn;
pub use closures::{Runs, attempt_with};
pub use read_set::ReadSet;
pub use ref_table::{Maker, Mark, Seat, Stm};
pub use runners::Runner;
pub use stm_model::{Bell, Body, Cause, Cells, Hooks, Quiet};
