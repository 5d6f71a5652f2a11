//! The settings of a run that no words change.
ghost use Rattle.std.specs.Prelude.{◌≡◌, ◌<◌, ◌^◌, length};
ghost use Rattle.ledger_host.specs.Settings.{default_settings};

use ledger_model::Job;
use meta_word::MAX_VERSION;
use stm_model::{Policy, Settings};

const TRIES: u16 = 3;

const ATTEMPTS: u64 = 1_000_000;

pub(crate) fn default_settings(job: &Job) -> Settings
    requires { length job.now.workers < 2 ^ 16 }
    ensures { result ≡ default_settings job.now }
{
    Settings {
        callers: (job.workers.len() as u16).max(1),
        policy: Policy::Look(0),
        tries: TRIES,
        clock: MAX_VERSION,
        attempts: ATTEMPTS,
    }
}
