//! Jobs, and the contents that their scripts work on.

use crate::Script;
use stm_model::{Pairs, Series, Values, Words};

/// References with the values that they begin with.
pub type Openings = Values<(u32, u64)>;

/// Workers by number, in the order in which they make an access each.
pub type Steps = Values<u16>;

/// The scripts of one worker, in the order in which it runs them.
pub type Scripts = Series<Script>;

/// The scripts of each worker, from worker 1 on.
pub type Workers = Series<Scripts>;

/// Finite maps, by number.
pub type PairLists = Series<Pairs>;

/// A job: what there is, what it holds at the start, and what the workers run.
#[derive(Drop)]
pub struct Job {
    /// How many references there are.
    pub refs: u32,
    /// How many maps there are.
    pub maps: u32,
    /// How many snapshot slots there are.
    pub snaps: u32,
    /// How many blocks each worker's stripe of the arena has.
    pub blocks: u32,
    pub openings: Openings,
    pub workers: Workers,
    pub steps: Steps,
}

/// What the references, maps and slots hold.
#[derive(Drop)]
pub struct Contents {
    pub refs: Words,
    pub maps: PairLists,
    pub slots: PairLists,
    /// How many blocks are in use.
    pub used: u64,
}
