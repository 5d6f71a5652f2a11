//! A reader and a writer in every interleaving of their accesses.
use crate::alone::Compared;
use crate::plots::Plot;
use std::alloc::{AllocError, Global};
use std::process::Abort;
use std::test::Fail;

// So many steps, from the lowest bit of a mask on: worker 1 where it is set, else worker 2.
fn steps_of(alloc: Global, mask: u32, count: u32) -> Result<Vec<u16>, AllocError> {
    let mut steps = Vec::new(alloc);
    for index in 0..count {
        steps.push(if mask >> (index % 32) & 1 == 1 { 1 } else { 2 })?;
    }
    Ok(steps)
}

// Each schedule in which worker 1 makes so many of so many accesses. How many there are.
fn in_every_order(
    rt: &impl Abort,
    alloc: Global,
    plot: Plot,
    reads: u32,
    accesses: u32,
) -> Result<u32, Fail> {
    let mut compared = Compared::new(rt, alloc, plot)?;
    let mut schedules = 0u32;
    for mask in 0..1_u32 << (accesses % 32) {
        if mask.count_ones() == reads {
            compared.run(rt, alloc, steps_of(alloc, mask, accesses)?)?;
            schedules = schedules.wrapping_add(1);
        }
    }
    Ok(schedules)
}

#[test]
fn a_reader_of_one_cell_reads_before_or_behind_a_writer(rt: HostRuntime) -> Result<(), Fail> {
    let schedules = in_every_order(&rt, rt.alloc(), Plot::OneCell, 6, 17)?;
    assert!(rt; schedules == 12_376);
    Ok(())
}

#[test]
fn a_reader_of_two_cells_reads_before_or_behind_a_writer(rt: HostRuntime) -> Result<(), Fail> {
    let schedules = in_every_order(&rt, rt.alloc(), Plot::TwoCells, 9, 20)?;
    assert!(rt; schedules == 167_960);
    Ok(())
}
