//! One attempt of a transaction as a machine: it is asked for cells, and tells which access comes next.
//! It touches no shared memory.
#![tactic(auto)]

mod asks;
mod attempt;
mod due;
mod footprint;
mod levels;
mod next;
mod past;
mod running;
mod takes;

pub use attempt::Attempt;
pub use footprint::{Footprint, Written};
pub use next::{Next, Reply, Room};
pub use running::{Dues, Running, State};
pub use stm_model::{Ask, Ending};
