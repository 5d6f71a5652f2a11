//! The workers' turns, under the written schedule and behind it.
ghost use Rattle.std.specs.Prelude.{◌≡◌, ◌≤◌, [], IfOk, IfSome, None, OnOk, find, length, true, false};
ghost use Rattle.std.specs.List.{All};
ghost use Rattle.meta_word.specs.declared.status.TheConstants.{MAX_SERIAL};
ghost use Rattle.stm_core.specs.Machine.{SettingsFit};
ghost use Rattle.ledger_model.specs.Contents.{opening_contents};
ghost use Rattle.ledger_model.specs.Traced.{IsTraced, MayBeTraced, Trace, access, begins, has_left, is_flying, is_parked, may_begin, turn, turns, whose, workers_of};
ghost use Rattle.host_trace.specs.Tracings.{GoesOn, IsNew, IsOverAll, IsTracing, IsWorker, Starts, Traces, TracesOn};

use crate::answers::ending_in;
use crate::opening::opening_contents;
use crate::worker::Worker;
use ledger_model::{Job, Listing, Rows};
use std::alloc::Global;
use stm_model::{Cause, Ending, Free, Memory, Settings, Word};
use world_run::Simulation;

/// A job on its way.
#[derive(Drop)]
pub(crate) struct Tracing<'a> {
    pub alloc: Global,
    pub job: &'a Job,
    pub settings: Settings,
    pub simulation: Simulation<Free>,
    /// Each worker, from worker 1 on.
    pub workers: Vec<Worker<'a>>,
    pub rows: Rows,
}

/// Runs a job under its written schedule, access by access. Behind its steps each worker in turn finishes
/// its attempt and makes what further ones it may. Out of memory there is no listing, nor where the job
/// isn't done within 2^64 - 1 accesses behind its steps.
pub fn trace_job(alloc: Global, job: &Job, settings: Settings) -> Result<Listing, Memory>
    requires may { MayBeTraced job.now settings }
    requires fits { SettingsFit settings }
    requires attempts { settings.attempts ≤ MAX_SERIAL }
    ensures traced { IfOk result (λ listing. IsTraced job.now settings listing) }
{
    let opening = opening_contents(alloc, job)?;
    let mut tracing = Tracing::new(alloc, job, settings, opening.refs.as_slice())?;
    tracing.take_steps()?;
    tracing.finish()?;
    tracing.into_listing(opening)
}

fn new_workers<'a>(alloc: Global, count: usize) -> Result<Vec<Worker<'a>>, Memory>
    ensures count { IfOk result (λ workers. length workers.items ≡ count) }
    ensures new { IfOk result (λ workers. All IsNew workers.items) }
{
    let mut workers = Vec::new(alloc);
    for _ in 0..count {
        workers.push(Worker::new(alloc))?;
    }
    Ok(workers)
}

impl<'a> Tracing<'a> {
    // Nobody has begun. The references hold these values.
    fn new(
        alloc: Global,
        job: &'a Job,
        settings: Settings,
        refs: &[u64],
    ) -> Result<Tracing<'a>, Memory>
        requires may { MayBeTraced job.now settings }
        requires fits { SettingsFit settings }
        requires attempts { settings.attempts ≤ MAX_SERIAL }
        requires refs { refs.now ≡ (opening_contents job.now).refs }
        ensures { IfOk result (λ tracing. Starts job.now settings tracing) }
    {
        Ok(Tracing {
            alloc,
            job,
            settings,
            simulation: Simulation::new(alloc, Free, settings, refs)?,
            workers: new_workers(alloc, job.workers.len())?,
            rows: Rows::new(alloc),
        })
    }

    // The turns that the schedule writes.
    fn take_steps(&mut self) -> Result<(), Memory>
        requires { IsTracing self.old }
        ensures { OnOk result (TracesOn self.old self.new (turns self.old.job.now self.old.settings self.old.job.now.steps)) }
    {
        let job = self.job;
        for &worker in job.steps.as_slice() {
            self.turn(worker)?;
        }
        Ok(())
    }

    // The turns behind the schedule, until it is nobody's.
    fn finish(&mut self) -> Result<(), Memory>
        requires { IsTracing self.old }
        ensures goes { OnOk result (GoesOn self.old self.new) }
        ensures over { OnOk result (IsOverAll self.new) }
    {
        for _ in 0..u64::MAX {
            match self.whose() {
                Some(worker) => self.turn(worker)?,
                None => return Ok(()),
            }
        }
        Err(Memory)
    }

    // ---- whose turn it is

    // Whose turn it is behind the schedule.
    fn whose(&self) -> Option<u16>
        requires { IsTracing self.now }
        ensures told { (s : Trace) → Traces self.now s → result ≡ whose self.now.job.now self.now.settings s }
        ensures worker { IfSome result (IsWorker self.now.job.now) }
    {
        match self.first_flying() {
            Some(worker) => Some(worker),
            None => self.first_to_begin(),
        }
    }

    // The first worker with an attempt in flight.
    fn first_flying(&self) -> Option<u16>
        requires { IsTracing self.now }
        ensures told { (s : Trace) → Traces self.now s → result ≡ find (is_flying s) (workers_of self.now.job.now) }
        ensures worker { IfSome result (IsWorker self.now.job.now) }
    {
        for worker in 1..self.workers.len() as u16 + 1 {
            if self.is_flying(worker) {
                return Some(worker);
            }
        }
        None
    }

    // The first worker that may begin an attempt, where none is in flight.
    fn first_to_begin(&self) -> Option<u16>
        requires stands { IsTracing self.now }
        requires rests { (s : Trace) → Traces self.now s → find (is_flying s) (workers_of self.now.job.now) ≡ None }
        ensures told { (s : Trace) → Traces self.now s → result ≡ find (may_begin self.now.job.now self.now.settings s) (workers_of self.now.job.now) }
        ensures worker { IfSome result (IsWorker self.now.job.now) }
    {
        for worker in 1..self.workers.len() as u16 + 1 {
            if self.may_begin(worker) {
                return Some(worker);
            }
        }
        None
    }

    // ---- a turn

    // One access of the worker's attempt, which begins where none is in flight, if it may.
    fn turn(&mut self, worker: u16) -> Result<(), Memory>
        requires worker { IsWorker self.old.job.now worker }
        requires stands { IsTracing self.old }
        ensures { OnOk result (TracesOn self.old self.new (turn self.old.job.now self.old.settings worker)) }
    {
        if self.is_flying(worker) {
            return self.access(worker);
        }
        if !self.may_begin(worker) {
            return Ok(());
        }
        self.begin(worker)?;
        self.access(worker)
    }

    // One access of the attempt that the worker has in flight, and what follows it at once.
    fn access(&mut self, worker: u16) -> Result<(), Memory>
        requires worker { IsWorker self.old.job.now worker }
        requires stands { IsTracing self.old }
        requires flies { (s : Trace) → Traces self.old s → is_flying s worker ≡ true }
        ensures { OnOk result (TracesOn self.old self.new (access worker)) }
    {
        self.workers[worker as usize - 1].access(&mut self.simulation, &mut self.rows, worker)
    }

    // The worker's next attempt begins, of its first script that isn't settled.
    fn begin(&mut self, worker: u16) -> Result<(), Memory>
        requires worker { IsWorker self.old.job.now worker }
        requires stands { IsTracing self.old }
        requires rests { (s : Trace) → Traces self.old s → is_flying s worker ≡ false }
        requires may { (s : Trace) → Traces self.old s → may_begin self.old.job.now self.old.settings s worker ≡ true }
        ensures { OnOk result (TracesOn self.old self.new (begins self.old.job.now self.old.settings worker)) }
    {
        let index = worker as usize - 1;
        let job = self.job;
        let script = job
            .workers
            .at(index)
            .at(self.workers[index].settled as usize);
        self.workers[index].begin(self.alloc, script, &mut self.simulation, worker)
    }

    // ---- how a worker stands

    // The worker has an attempt in flight.
    fn is_flying(&self, worker: u16) -> bool
        requires worker { IsWorker self.now.job.now worker }
        requires stands { IsTracing self.now }
        ensures { (s : Trace) → Traces self.now s → result ≡ is_flying s worker }
    {
        self.workers[worker as usize - 1].flight.is_some()
    }

    /// The worker has a script that isn't settled.
    pub(crate) fn has_left(&self, worker: u16) -> bool
        requires worker { IsWorker self.now.job.now worker }
        requires stands { IsTracing self.now }
        ensures { (s : Trace) → Traces self.now s → result ≡ has_left self.now.job.now s worker }
    {
        let index = worker as usize - 1;
        (self.workers[index].settled as usize) < self.job.workers.at(index).len()
    }

    /// The worker's latest attempt asked for a retry, and no writer has committed since.
    pub(crate) fn is_parked(&self, worker: u16) -> bool
        requires worker { IsWorker self.now.job.now worker }
        requires stands { IsTracing self.now }
        requires rests { (s : Trace) → Traces self.now s → is_flying s worker ≡ false }
        ensures { (s : Trace) → Traces self.now s → result ≡ is_parked s worker }
    {
        match ending_in(self.simulation.next(worker)) {
            Some(
                Ending::Rolled {
                    cause: Cause::Retry,
                    prefix,
                },
            ) => prefix == self.clock(),
            _ => false,
        }
    }

    // How many writers have committed.
    #[tactic(auto, unfolding(opacity::specs::Words::IsOfTable, stm_model::specs::World::place_of, stm_model::specs::World::world_of))]
    fn clock(&self) -> u64
        ensures { (s : Trace) → Traces self.now s → result ≡ s.world.clock }
    {
        match self.simulation.word(Word::Clock) {
            Some(clock) => clock,
            None => unreachable!(),
        }
    }

    // The worker may make a next attempt.
    fn may_begin(&self, worker: u16) -> bool
        requires worker { IsWorker self.now.job.now worker }
        requires stands { IsTracing self.now }
        requires rests { (s : Trace) → Traces self.now s → is_flying s worker ≡ false }
        ensures { (s : Trace) → Traces self.now s → result ≡ may_begin self.now.job.now self.now.settings s worker }
    {
        self.has_left(worker)
            && !self.is_parked(worker)
            && self.workers[worker as usize - 1].attempts < self.settings.attempts
    }
}
