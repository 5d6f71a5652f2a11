//! What comes of a job under the default settings.
ghost use Rattle.std.specs.Prelude.{IfOk};
ghost use Rattle.ledger_model.specs.Replays.{Replays};
ghost use Rattle.ledger_model.specs.Traced.{IsTraced, MayBeTraced};
ghost use Rattle.ledger_host.specs.Settings.{default_settings};

use crate::settings::default_settings;
use host_trace::trace_job;
use ledger_model::{Job, Listing};
use std::alloc::Global;
use stm_model::Memory;
use trace_laws::a_traced_listing_replays_its_job;

/// The listing to which the job's schedule leads.
pub(crate) fn listing_of(alloc: Global, job: &Job) -> Result<Listing, Memory>
    requires { MayBeTraced job.now (default_settings job.now) }
    ensures traced { IfOk result (λ listing. IsTraced job.now (default_settings job.now) listing) }
    ensures replays { IfOk result (λ listing. Replays job.now (default_settings job.now) listing) }
{
    a_traced_listing_replays_its_job();
    trace_job(alloc, job, default_settings(job))
}
