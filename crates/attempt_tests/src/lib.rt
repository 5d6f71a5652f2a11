//! Tests of attempts: by hand, whole ones on the plain world, and two transactions in every interleaving of
//! their accesses.
#![tactic(auto)]

#[cfg(test)]
mod attempts;
#[cfg(test)]
mod interleavings;
#[cfg(test)]
mod whole_attempts;
