//! Attempts on the shared table, driven access by access through their callers' seats.
#![tactic(auto)]

mod access;
mod due;
mod going;
mod late;
mod opening;
mod standing;

pub use going::{ask, go_on};
pub use late::end_late;
pub use opening::begin;
pub use ref_table::{Seat, Stm};
pub use stm_core::{Ask, Running};
