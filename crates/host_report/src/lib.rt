//! The report of a listing, as a text. `laws` says that the text fixes the listing.
#![tactic(auto)]

pub mod laws;
mod lines;
mod report;
mod rolled;
mod row;

pub use report::{order_rows, report_text};
