//! Calls of a running attempt as straight code over its operations. Each does what the driver does at the same
//! ask. What another caller disturbs goes on in the driver.
#![tactic(auto)]

mod asks;
mod commits;
mod parts;
mod reads;
mod told;
mod writes;

pub use asks::ask;
pub use commits::finish;
pub use reads::get;
pub use txn_drive::{Running, Seat, Stm};
pub use writes::set;
