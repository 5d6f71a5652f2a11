//! Tests of transactions on the shared table, by public calls alone.
#![tactic(auto)]

#[cfg(test)]
mod bodies;
#[cfg(test)]
mod conflicts;
#[cfg(test)]
mod guide;
#[cfg(test)]
mod outcomes;
#[cfg(test)]
mod waits;
