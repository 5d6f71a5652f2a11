//! Tests of the program over memory: worked jobs, refusals, failing ends, the greatest texts, and what
//! standard error is told. And of what it stands on: texts of jobs, rows, and reports.
#![tactic(auto)]

#[cfg(test)]
mod jobs;
#[cfg(test)]
mod program;
#[cfg(test)]
mod random;
#[cfg(test)]
mod refusals;
#[cfg(test)]
mod reports;
#[cfg(test)]
mod rows;
#[cfg(test)]
mod tests;
