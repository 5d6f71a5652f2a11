//! The examples of the guide to transactions, each a module.

mod alternatives;
mod arrays;
mod before_commit;
mod blocks;
pub mod closures;
mod deposits;
mod handlers;
mod singles;
pub mod tables;
mod threads;
mod transfers;
