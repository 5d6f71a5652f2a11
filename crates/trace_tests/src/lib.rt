//! Tests of traced jobs: a reader and a writer in every interleaving of their accesses, schedules at random, and
//! long jobs. What a listing tells is compared with what its scripts do alone, one after another in its order.
#![tactic(auto)]

#[cfg(test)]
mod alone;
#[cfg(test)]
mod interleavings;
#[cfg(test)]
mod jobs;
#[cfg(test)]
mod large;
#[cfg(test)]
mod plots;
#[cfg(test)]
mod schedules;
