//! The report of a job text.
ghost use Rattle.std.specs.Prelude.{◌≤◌, IfOk};
ghost use Rattle.meta_word.specs.declared.status.TheConstants.{MAX_SERIAL};
ghost use Rattle.stm_core.specs.Machine.{SettingsFit};
ghost use Rattle.ledger_model.specs.Replays.{Replays};
ghost use Rattle.ledger_model.specs.Traced.{MayBeTraced};

use crate::settings::for_job;
use host_report::report_text;
use host_trace::trace_job;
use ledger_model::{Job, Listing};
use script_text::{ParseFault, parse};
use std::alloc::{AllocError, Global};
use stm_model::{Memory, Settings};
use trace_laws::a_traced_listing_replays_its_job;

// The longest text of a row.
const LONGEST: usize = 1 << 20;

/// The report of the job under these settings, but for their callers; nothing where the text is no job.
pub(crate) fn report_of(
    alloc: Global,
    text: &[u8],
    settings: Settings,
) -> Result<Vec<u8>, AllocError>
    requires fits { SettingsFit settings }
    requires attempts { settings.attempts ≤ MAX_SERIAL }
{
    if text.len() > LONGEST {
        return Ok(Vec::new(alloc));
    }
    match parse(alloc, text) {
        Ok(job) => {
            let settings = for_job(settings, &job);
            match listing_of(alloc, &job, settings) {
                Ok(listing) => report_text(alloc, &listing).map_err(|_| AllocError),
                Err(Memory) => Err(AllocError),
            }
        }
        Err(ParseFault::Script { .. }) => Ok(Vec::new(alloc)),
        Err(ParseFault::Memory) => Err(AllocError),
    }
}

fn listing_of(alloc: Global, job: &Job, settings: Settings) -> Result<Listing, Memory>
    requires may { MayBeTraced job.now settings }
    requires fits { SettingsFit settings }
    requires attempts { settings.attempts ≤ MAX_SERIAL }
    ensures { IfOk result (λ listing. Replays job.now settings listing) }
{
    a_traced_listing_replays_its_job();
    trace_job(alloc, job, settings)
}
