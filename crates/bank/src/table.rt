//! The table, the workers on it, and what they leave.
ghost use Rattle.std.specs.Prelude.{◌≡◌, ◌+◌, ◌≤◌, ◌<◌, All, IfOk, length, vec_len};
ghost use Rattle.ref_table.specs.Limits.{TableFits};
ghost use Rattle.bank_loads.specs.Sizes.{cells_of};
ghost use Rattle.bank.specs.Ready.{IsReady};
ghost use Rattle.bank.specs.Sums.{IsSumOf};

use crate::report::{Fault, Report};
use crate::worker::Worker;
use bank_loads::{OPENING, Scripts, cells};
use bank_words::Task;
use meta_word::{MAX_SERIAL, MAX_VERSION};
use ref_table::{MakeFault, Maker, Settings, Stm};
use std::alloc::{AllocError, Global};
use std::thread;
use std::thread::Threads;
use stm_model::{Free, Policy};

/// Runs a task: each worker on a thread of its own, where one can be made.
pub fn run<R: Threads + Sync>(rt: &R, alloc: Global, task: &Task) -> Result<Report, Fault>
    ensures { IfOk result (λ report. report.task ≡ task.now) }
{
    let opening = vec![in alloc; OPENING; cells(task) as usize]?;
    let (mut maker, stm) = match Stm::new(alloc, opening.as_slice(), settings(task)) {
        Ok(made) => made,
        Err(MakeFault::Memory) => return Err(Fault::Memory),
        Err(MakeFault::BadLayout) => unreachable!(),
    };
    let mut workers = hire(alloc, &stm, &mut maker, task)?;
    work_all(rt, &stm, workers.as_mut_slice());
    let work = dismiss(&stm, &mut maker, workers);
    if let Some(fault) = work.stopped {
        return Err(fault);
    }
    let Ok(finished) = stm.close(maker) else {
        return Err(Fault::Memory);
    };
    Ok(Report {
        task: *task,
        attempts: work.attempts,
        sum: sum_of(finished.values.as_slice()),
    })
}

// A seat for each worker, looks enough to wait for another's commit, and no other limit than the table's.
fn settings(task: &Task) -> Settings
    ensures fits { TableFits (cells_of task.now.load task.now.threads) result }
    ensures callers { result.callers ≡ task.now.threads }
{
    Settings {
        callers: task.threads,
        policy: Policy::Look(100),
        tries: 100,
        clock: MAX_VERSION,
        attempts: MAX_SERIAL,
    }
}

// A worker for each seat.
fn hire(
    alloc: Global,
    stm: &Stm<Free>,
    maker: &mut Maker<Free>,
    task: &Task,
) -> Result<Vec<Worker>, AllocError>
    requires own { maker.old.table ≡ stm.now.table }
    requires none { maker.old.given ≡ 0 }
    requires gathered { length maker.old.gathered ≡ 0 }
    requires callers { stm.now.settings.callers ≡ task.now.threads }
    requires cells { length stm.now.opening ≡ cells_of task.now.load task.now.threads }
    ensures own { maker.new.table ≡ stm.now.table }
    ensures given { IfOk result (λ workers. length maker.new.gathered + vec_len workers ≡ maker.new.given) }
    ensures ready { IfOk result (λ workers. (0 < vec_len workers) × All (IsReady stm.now) workers.items) }
{
    let mut workers = Vec::with_capacity(alloc, usize::from(task.threads))?;
    for number in 0..task.threads {
        let Ok(seat) = maker.caller(stm) else {
            unreachable!();
        };
        workers.push(Worker::new(seat, Scripts::new(*task, number + 1)))?;
    }
    Ok(workers)
}

fn work_all<R: Threads + Sync>(rt: &R, stm: &Stm<Free>, workers: &mut [Worker])
    requires some { 0 < length workers.old }
    requires ready { All (IsReady stm.now) workers.old }
    ensures { All (IsReady stm.now) workers.new }
{
    let threads = workers.len();
    thread::for_each_mut(
        rt,
        workers,
        threads,
        &|_, worker: &mut Worker|
            requires { IsReady stm.now worker.old }
            ensures { IsReady stm.entry.now worker.new }
        { worker.work(stm) },
    );
}

// What the workers did together.
#[derive(Clone, Copy)]
struct Work {
    attempts: u64,
    // The first of them that stopped before its last script, if one did.
    stopped: Option<Fault>,
}

// Takes each seat back.
fn dismiss(stm: &Stm<Free>, maker: &mut Maker<Free>, workers: Vec<Worker>) -> Work
    requires own { maker.old.table ≡ stm.now.table }
    requires given { length maker.old.gathered + vec_len workers ≡ maker.old.given }
    requires ready { All (IsReady stm.now) workers.items }
    ensures own { maker.new.table ≡ stm.now.table }
    ensures all { length maker.new.gathered ≡ maker.new.given }
{
    let mut work = Work {
        attempts: 0,
        stopped: None,
    };
    for worker in workers {
        work.attempts = work.attempts.saturating_add(worker.attempts);
        work.stopped = work.stopped.or(worker.fault());
        maker.gather(stm, worker.into_seat());
    }
    work
}

// The sum, or the greatest number where a word can't hold it.
fn sum_of(values: &[u64]) -> u64
    ensures { IsSumOf result values.now }
{
    let mut sum = 0u64;
    for value in values {
        sum = sum.saturating_add(*value);
    }
    sum
}
