//! A table of shared words that callers step on by seats. Each step is one of a safe world.
#![tactic(auto)]

mod lists;
mod maker;
mod place;
mod rule;
mod seat;
mod stm;

pub use lists::Lists;
pub use maker::{Maker, SeatsEnd};
pub use seat::{Mark, Seat};
pub use stm::{Finished, MakeFault, Stm};
pub use stm_model::{Access, Free, Law, Memory, Rest, Settings, Shown, Word};
