//! Schedules at random, the same at each run.
use crate::alone::Compared;
use crate::plots::Plot;
use std::alloc::{AllocError, Global};
use std::process::Abort;
use std::test::Fail;

// Numbers that look random: each is the last one, shifted and mixed with itself.
#[derive(Clone, Copy)]
struct Random {
    state: u64,
}

impl Random {
    fn next(&mut self) -> u64 {
        self.state ^= self.state << 13;
        self.state ^= self.state >> 7;
        self.state ^= self.state << 17;
        self.state
    }
}

// So many steps of four workers or fewer.
fn random_steps(
    alloc: Global,
    random: &mut Random,
    workers: u64,
    count: u32,
) -> Result<Vec<u16>, AllocError> {
    let mut steps = Vec::new(alloc);
    for _ in 0..count {
        let worker = random.next() % workers.max(1).min(4);
        steps.push(worker as u16 + 1)?;
    }
    Ok(steps)
}

// Twenty thousand schedules of a job with so many workers.
fn at_random(rt: &impl Abort, alloc: Global, plot: Plot, workers: u64) -> Result<(), Fail> {
    let mut compared = Compared::new(rt, alloc, plot)?;
    let mut random = Random {
        state: 0x9E37_79B9_7F4A_7C15,
    };
    for _ in 0..20_000 {
        let steps = random_steps(alloc, &mut random, workers, 60)?;
        compared.run(rt, alloc, steps)?;
    }
    Ok(())
}

#[test]
fn two_workers_with_two_scripts_each_replay(rt: HostRuntime) -> Result<(), Fail> {
    at_random(&rt, rt.alloc(), Plot::Pairs, 2)
}

#[test]
fn nested_blocks_and_alternatives_replay(rt: HostRuntime) -> Result<(), Fail> {
    at_random(&rt, rt.alloc(), Plot::Nested, 3)
}

#[test]
fn four_workers_on_one_cell_replay(rt: HostRuntime) -> Result<(), Fail> {
    at_random(&rt, rt.alloc(), Plot::Adders, 4)
}

#[test]
fn a_reader_and_a_writer_of_two_cells_replay(rt: HostRuntime) -> Result<(), Fail> {
    at_random(&rt, rt.alloc(), Plot::BothCells, 2)
}
