//! Jobs: from their texts, with other steps, and what comes of them.
ghost use Rattle.std.specs.Prelude.{◌≡◌, ◌≤◌, ◌<◌, ◌^◌, IfOk, IsTrue, length};
ghost use Rattle.std.specs.List.{All};
ghost use Rattle.trace_tests.specs.Jobs.{IsTraceable, plain_settings};

use host_trace::trace_job;
use ledger_model::{Job, Listing, Steps};
use meta_word::MAX_VERSION;
use script_text::parse;
use std::alloc::Global;
use std::process::Abort;
use std::test::Fail;
use stm_model::{Memory, Policy, Settings};

// The longest text of a test.
const LONGEST: usize = 1 << 24;

/// The most steps of a job.
pub(crate) const MOST_STEPS: usize = 262_144;

/// The job that a text is.
pub(crate) fn job_of(rt: &impl Abort, alloc: Global, text: &[u8]) -> Result<Job, Fail>
    ensures { IfOk result IsTraceable }
{
    assert!(rt; text.len() <= LONGEST);
    Ok(parse(alloc, text)?)
}

/// The job gets these steps, if they are few enough and each is one of its workers. Tells whether it does.
pub(crate) fn set_steps(job: &mut Job, steps: Vec<u16>) -> bool
    requires { IsTraceable job.old }
    ensures { IsTraceable job.new }
{
    let fit = steps.len() <= MOST_STEPS && are_workers(&steps, job.workers.len());
    if fit {
        job.steps = Steps::from(steps);
    }
    fit
}

fn are_workers(steps: &[u16], workers: usize) -> bool
    ensures { IsTrue result → All (λ worker. (1 ≤ worker) × (worker ≤ workers)) steps.now }
{
    for step in steps {
        if *step == 0 || *step as usize > workers {
            return false;
        }
    }
    true
}

/// What comes of a job.
pub(crate) fn traced(alloc: Global, job: &Job) -> Result<Listing, Memory>
    requires { IsTraceable job.now }
{
    trace_job(alloc, job, plain_settings(job))
}

fn plain_settings(job: &Job) -> Settings
    requires { length job.now.workers < 2 ^ 16 }
    ensures { result ≡ plain_settings job.now }
{
    Settings {
        callers: (job.workers.len() as u16).max(1),
        policy: Policy::Look(0),
        tries: 3,
        clock: MAX_VERSION,
        attempts: 1_000_000,
    }
}
