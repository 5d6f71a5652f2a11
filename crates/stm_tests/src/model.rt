//! What all crates speak of: lists, notes, calls that are kept, and values as words.
mod calls;
mod lists;
mod notes;
mod words;
