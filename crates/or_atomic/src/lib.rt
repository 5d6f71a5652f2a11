//! Blocks within a transaction: one that may fail alone, and the first of several alternatives that
//! doesn't ask for a retry. A block that isn't kept leaves its reads, and what it wrote and registered is
//! undone. After a cause that the cells answered, its level is closed and nothing is undone with it: the
//! whole attempt is rolled back then.
#![tactic(auto)]

mod alternatives;
mod blocks;
mod kept_or_failed;

pub use alternatives::either;
pub use blocks::nested;
pub use kept_or_failed::Nested;
pub use stm_model::Choices;
