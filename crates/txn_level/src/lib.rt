//! The open levels of an attempt, each with what stood where it was entered.
#![tactic(auto)]

mod kept;
mod levels;

pub use kept::{KeptLevels, LevelFault};
pub use levels::{Levels, TooDeep};
pub use stm_model::{DEEPEST, Level, WriteMark};

#[cfg(test)]
mod tests;
