//! The listing of a job that has been run.
ghost use Rattle.std.specs.Prelude.{◌≡◌, ◌++◌, ◌&&◌, IfOk, OnOk, false, length, map};
ghost use Rattle.std.specs.List.{flat_map, range_with_len};
ghost use Rattle.stm_model.specs.World.{World};
ghost use Rattle.ledger_model.specs.Contents.{opening_contents};
ghost use Rattle.ledger_model.specs.Traced.{IsListed, Trace, has_left, is_flying, left_where};
ghost use Rattle.host_trace.specs.Flights.{ShowsWorld};
ghost use Rattle.host_trace.specs.Tracings.{IsOverAll, IsTracing, IsWorker, Traces, parked_so};

use crate::trace::Tracing;
use crate::worker::Worker;
use ledger_model::{Contents, Listing, Names, Rolled, RolledList};
use std::alloc::Global;
use stm_model::{Addr, Free, Memory, Word, Words};
use world_run::Simulation;

impl<'a> Tracing<'a> {
    /// What came of the job, where it is nobody's turn. The maps and slots are as at the start.
    pub(crate) fn into_listing(self, opening: Contents) -> Result<Listing, Memory>
        requires stands { IsTracing self }
        requires over { IsOverAll self }
        requires opening { opening ≡ opening_contents self.job.now }
        ensures { IfOk result (λ listing. (s : Trace) → Traces self.entry s → IsListed self.entry.job.now s listing) }
    {
        let blocked = self.names_left(true)?;
        let worn = self.names_left(false)?;
        let refs = refs_in(self.alloc, &self.simulation, self.job.refs)?;
        let rolled = rolled_in(self.alloc, self.workers)?;
        let mut rows = self.rows;
        rows.sort();
        Ok(Listing {
            rows,
            rolled,
            blocked,
            worn,
            contents: Contents { refs, ..opening },
        })
    }

    // The first script that isn't settled, of each worker that has one left and is parked, or isn't.
    fn names_left(&self, parked: bool) -> Result<Names, Memory>
        requires stands { IsTracing self.now }
        requires over { IsOverAll self.now }
        ensures { IfOk result (λ names. (s : Trace) → Traces self.now s → names ≡ left_where self.now.job.now s (parked_so s parked)) }
    {
        let mut names = Names::new(self.alloc);
        for worker in 1..self.workers.len() as u16 + 1 {
            if self.is_left(worker, parked) {
                names.push((worker, self.workers[worker as usize - 1].settled + 1))?;
            }
        }
        Ok(names)
    }

    // The worker has a script left, and is parked, or isn't.
    fn is_left(&self, worker: u16, parked: bool) -> bool
        requires worker { IsWorker self.now.job.now worker }
        requires stands { IsTracing self.now }
        requires rests { (s : Trace) → Traces self.now s → is_flying s worker ≡ false }
        ensures { (s : Trace) → Traces self.now s → result ≡ (has_left self.now.job.now s worker && parked_so s parked worker) }
    {
        self.has_left(worker) && self.is_parked(worker) == parked
    }
}

// What the references hold.
#[tactic(auto, unfolding(opacity::specs::Words::IsOfTable, stm_model::specs::World::place_of, stm_model::specs::World::world_of))]
fn refs_in(alloc: Global, simulation: &Simulation<Free>, count: u32) -> Result<Words, Memory>
    requires { count ≡ length simulation.now.opening }
    ensures { IfOk result (λ refs. (w : World) → ShowsWorld simulation.now w → refs ≡ map (λ cell. w.value cell) (range_with_len 0 count)) }
{
    let mut refs = Words::new(alloc);
    for cell in 0..count {
        match simulation.word(Word::Value(Addr(cell))) {
            Some(value) => refs.push(value)?,
            None => unreachable!(),
        }
    }
    Ok(refs)
}

// The attempts that were rolled back, by worker.
fn rolled_in(alloc: Global, workers: Vec<Worker<'_>>) -> Result<RolledList, Memory>
    ensures { IfOk result (λ rolled. rolled ≡ flat_map (λ worker. worker.rolled.items) workers.entry.items) }
{
    let mut rolled = RolledList::new(alloc);
    for worker in workers {
        append(&mut rolled, worker.rolled)?;
    }
    Ok(rolled)
}

fn append(rolled: &mut RolledList, lines: Vec<Rolled>) -> Result<(), Memory>
    ensures { OnOk result (rolled.new ≡ rolled.old ++ lines.items) }
{
    for line in lines {
        rolled.push(line)?;
    }
    Ok(())
}
