//! Jobs whose listings are compared with what their scripts do alone.
ghost use Rattle.std.specs.Prelude.{IfOk};
ghost use Rattle.trace_tests.specs.Jobs.{IsTraceable};

use crate::jobs::{job_of, set_steps, traced};
use crate::plots::{Plot, lines_of};
use ledger_model::{Job, Listing, Rolled, Row};
use std::alloc::{AllocError, Global};
use std::process::Abort;
use std::test::Fail;
use text_rows::text_of;

// A worker and the number of one of its scripts, both from 1.
type Name = (u16, u32);

/// A job that is run under many schedules.
#[derive(Drop)]
pub(crate) struct Compared {
    pub job: Job,
    known: Known,
}

impl Compared {
    pub(crate) fn new(rt: &impl Abort, alloc: Global, plot: Plot) -> Result<Compared, Fail>
        ensures { IfOk result (λ compared. IsTraceable compared.job) }
    {
        let job = job_of(rt, alloc, &text_of_parts(alloc, lines_of(plot))?)?;
        let known = Known {
            plot,
            scripts: script_count(&job),
            entries: Vec::new(alloc),
        };
        Ok(Compared { job, known })
    }

    /// What comes of the job under these steps is what its scripts do alone.
    pub(crate) fn run(
        &mut self,
        rt: &impl Abort,
        alloc: Global,
        steps: Vec<u16>,
    ) -> Result<(), Fail>
        requires { IsTraceable self.old.job }
        ensures { IsTraceable self.new.job }
    {
        let taken = set_steps(&mut self.job, steps);
        assert!(rt; taken);
        let listing = traced(alloc, &self.job)?;
        self.known.compare(rt, alloc, &listing)
    }
}

// The text whose parts stand between ` | `.
fn text_of_parts(alloc: Global, lines: &str) -> Result<Vec<u8>, AllocError> {
    let mut text = Vec::new(alloc);
    for part in lines.split(" | ") {
        text.extend_from_slice(&text_of(alloc, part)?)?;
    }
    Ok(text)
}

fn script_count(job: &Job) -> usize {
    let mut count = 0usize;
    for scripts in job.workers.as_slice() {
        count = count.wrapping_add(scripts.len());
    }
    count
}

// What scripts of a job did alone, in each order that has come up.
#[derive(Drop)]
struct Known {
    plot: Plot,
    /// How many the job has.
    scripts: usize,
    entries: Vec<Alone>,
}

#[derive(Drop)]
struct Alone {
    order: Vec<Name>,
    listing: Listing,
}

impl Known {
    // The listing has all scripts, and says what they do alone in its order. What a rolled attempt has printed is
    // what its script prints first behind the writers before it.
    fn compare(&mut self, rt: &impl Abort, alloc: Global, listing: &Listing) -> Result<(), Fail> {
        assert!(rt; listing.rows.len() == self.scripts);
        let alone = self.alone(rt, alloc, order_of(alloc, listing)?)?;
        assert!(rt; is_alike(listing, alone));
        for rolled in listing.rolled.as_slice() {
            let alone = self.alone(rt, alloc, order_at(alloc, listing, rolled)?)?;
            assert!(rt; prints_first(alone, rolled));
        }
        Ok(())
    }

    // What the scripts do alone in this order.
    fn alone(
        &mut self,
        rt: &impl Abort,
        alloc: Global,
        order: Vec<Name>,
    ) -> Result<&Listing, Fail> {
        let index = match self.place_of(&order) {
            Some(index) => index,
            None => {
                let listing = listing_in_order(rt, alloc, self.plot, &order)?;
                self.entries.push(Alone { order, listing })?;
                self.entries.len() - 1
            }
        };
        match self.entries.get(index) {
            Some(alone) => Ok(&alone.listing),
            None => Err(AllocError.into()),
        }
    }

    fn place_of(&self, order: &[Name]) -> Option<usize> {
        self.entries
            .iter()
            .position(|alone| alone.order.as_slice() == order)
    }
}

// What comes of a job whose only worker has these scripts.
fn listing_in_order(
    rt: &impl Abort,
    alloc: Global,
    plot: Plot,
    order: &[Name],
) -> Result<Listing, Fail> {
    let text = lines_in_order(alloc, lines_of(plot), order)?;
    let job = job_of(rt, alloc, &text)?;
    Ok(traced(alloc, &job)?)
}

// The listed scripts.
fn order_of(alloc: Global, listing: &Listing) -> Result<Vec<Name>, AllocError> {
    let mut order = Vec::new(alloc);
    for row in listing.rows.as_slice() {
        order.push((row.worker, row.number))?;
    }
    Ok(order)
}

// The writers behind which a rolled attempt read, and then its script.
fn order_at(alloc: Global, listing: &Listing, rolled: &Rolled) -> Result<Vec<Name>, AllocError> {
    let mut order = Vec::new(alloc);
    for row in listing.rows.as_slice() {
        if row.writer && row.position <= rolled.prefix {
            order.push((row.worker, row.number))?;
        }
    }
    order.push((rolled.worker, rolled.number))?;
    Ok(order)
}

// Two listings of the same scripts in one order say the same of each of them, and leave the same.
fn is_alike(listing: &Listing, other: &Listing) -> bool {
    let rows = listing.rows.as_slice();
    let others = other.rows.as_slice();
    rows.len() == others.len()
        && rows
            .iter()
            .zip(others)
            .all(|(row, again)| says_the_same(row, again))
        && listing.contents.refs.as_slice() == other.contents.refs.as_slice()
}

fn says_the_same(row: &Row, again: &Row) -> bool {
    (row.position, row.writer, row.result) == (again.position, again.writer, again.result)
        && row.prints.as_slice() == again.prints.as_slice()
        && row.runs.as_slice() == again.runs.as_slice()
}

// The last of these scripts prints first what the attempt has printed.
fn prints_first(alone: &Listing, rolled: &Rolled) -> bool {
    match alone.rows.as_slice().last() {
        Some(row) => row.prints.as_slice().starts_with(rolled.trail.as_slice()),
        None => false,
    }
}

// The text of a job whose only worker has these scripts of a job.
fn lines_in_order(alloc: Global, lines: &str, order: &[Name]) -> Result<Vec<u8>, AllocError> {
    let mut text = text_of(alloc, lines.split(" | ").next().unwrap_or(""))?;
    text.extend_from_slice(b"worker\n")?;
    for name in order {
        text.extend_from_slice(&text_of(alloc, script_at(lines, *name))?)?;
    }
    Ok(text)
}

fn script_at(lines: &str, name: Name) -> &str {
    let (mut worker, mut number) = (0u16, 0u32);
    for part in lines.split(" | ").skip(1) {
        if part == "worker" {
            worker = worker.wrapping_add(1);
            number = 0;
        } else {
            number = number.wrapping_add(1);
            if (worker, number) == name {
                return part;
            }
        }
    }
    ""
}
