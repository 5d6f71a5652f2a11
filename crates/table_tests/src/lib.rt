//! Tests of the table of shared words: how it is made and closed, its limits, its seats, and attempts on it, of
//! one thread and of two. The attempts are driven by hand, access by access.
#![tactic(auto)]

#[cfg(test)]
mod driver;
#[cfg(test)]
mod making;
#[cfg(test)]
mod seats;
#[cfg(test)]
mod threads;
