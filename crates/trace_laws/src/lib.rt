//! What a traced listing tells. Each function does nothing: its clauses are theorems.
#![tactic(auto)]

ghost use Rattle.std.specs.Prelude.{◌≡◌, ◌≤◌, ℕ, List, length};
ghost use Rattle.std.specs.List.{AllByRecursion};
ghost use Rattle.meta_word.specs.declared.meta.TheConstants.{MAX_VERSION};
ghost use Rattle.meta_word.specs.declared.status.TheConstants.{MAX_SERIAL};
ghost use Rattle.stm_model.specs.declared.settings.Settings.{Settings};
ghost use Rattle.stm_model.specs.Safe.{HasBegun, IsKept, Opaque};
ghost use Rattle.ledger_model.specs.Contents.{opening_contents};
ghost use Rattle.ledger_model.specs.Replays.{Replays};
ghost use Rattle.ledger_model.specs.Traced.{IsTraced, MayBeTraced, attempt_in, onward, opening_trace, turns};
ghost use Rattle.ledger_model.specs.declared.job.Job.{Job};
ghost use Rattle.ledger_model.specs.declared.listing.Listing.{Listing};

/// A job's schedule leads to one listing.
pub fn a_schedule_leads_to_one_listing()
    ensures { (job : Job) (settings : Settings) (a b : Listing) →
        IsTraced job settings a → IsTraced job settings b → a ≡ b }
{}

/// The listing to which a job's schedule leads replays the job, whatever the schedule is.
pub fn a_traced_listing_replays_its_job()
    ensures { (job : Job) (settings : Settings) (listing : Listing) → MayBeTraced job settings →
        settings.clock ≤ MAX_VERSION → settings.attempts ≤ MAX_SERIAL →
        IsTraced job settings listing → Replays job settings listing }
{}

/// Whatever steps the workers have made, and behind them any number of turns: what a worker's attempt has
/// read, also one that is rolled back later, is one heap of the history of what committed, no older than
/// what its worker had seen before it.
pub fn every_attempt_of_a_trace_is_opaque()
    ensures { (job : Job) (settings : Settings) (steps : List ℕ) (count p : ℕ) → MayBeTraced job settings →
        settings.clock ≤ MAX_VERSION → settings.attempts ≤ MAX_SERIAL →
        AllByRecursion (λ worker. (1 ≤ worker) × (worker ≤ length job.workers)) steps → 1 ≤ p → p ≤ length job.workers →
        let s = onward job settings count (turns job settings steps (opening_trace job settings)) in
        HasBegun (attempt_in s p).stage → IsKept (attempt_in s p).stage (attempt_in s p).ending →
        Opaque (opening_contents job).refs s.world.history (s.world.view p).since (attempt_in s p) }
{}
