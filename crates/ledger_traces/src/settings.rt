//! The settings that a row names.
ghost use Rattle.std.specs.Prelude.{◌≡◌, ◌≤◌, ◌<◌, ◌^◌, IfSome, length, max};
ghost use Rattle.meta_word.specs.Policy.{looks};
ghost use Rattle.meta_word.specs.declared.status.TheConstants.{MAX_SERIAL};
ghost use Rattle.stm_core.specs.Machine.{SettingsFit};

use ledger_model::Job;
use meta_word::MAX_VERSION;
use stm_model::{Policy, Settings};

const MOST_LOOKS: u16 = 1_000;

const MOST_ATTEMPTS: u64 = 1_000_000;

/// The settings of one caller, where the words name some. A `-` stands for the greatest number.
pub(crate) fn settings_of(
    policy: &str,
    looks: &str,
    clock: &str,
    attempts: &str,
) -> Option<Settings>
    ensures fits { IfSome result SettingsFit }
    ensures attempts { IfSome result (λ settings. settings.attempts ≤ MAX_SERIAL) }
{
    Some(Settings {
        callers: 1,
        policy: policy_of(policy, looks_of(looks)?)?,
        tries: 3,
        clock: number_of(clock, MAX_VERSION)?,
        attempts: number_of(attempts, MOST_ATTEMPTS)?,
    })
}

fn policy_of(word: &str, more: u16) -> Option<Policy>
    requires { more ≤ 1000 }
    ensures { IfSome result (λ policy. looks policy ≤ 1000) }
{
    if word == "look" {
        Some(Policy::Look(more))
    } else if word == "doom" {
        Some(Policy::Doom(more))
    } else if word == "giveway" && more == 0 {
        Some(Policy::GiveWay)
    } else {
        None
    }
}

fn looks_of(word: &str) -> Option<u16>
    ensures { IfSome result (λ looks. looks ≤ 1000) }
{
    let looks = number_of(word, u64::from(MOST_LOOKS))?;
    Some(looks as u16)
}

// The number that a word is, where it is no greater than this one.
fn number_of(word: &str, most: u64) -> Option<u64>
    ensures { IfSome result (λ number. number ≤ most) }
{
    if word == "-" {
        return Some(most);
    }
    match word.parse::<u64>() {
        Ok(number) if number <= most => Some(number),
        _ => None,
    }
}

/// The same settings for a job's callers: one for each worker, or one where there is none.
pub(crate) fn for_job(settings: Settings, job: &Job) -> Settings
    requires few { length job.now.workers < 2 ^ 16 }
    requires fits { SettingsFit settings }
    requires attempts { settings.attempts ≤ MAX_SERIAL }
    ensures callers { result.callers ≡ max (length job.now.workers) 1 }
    ensures fits { SettingsFit result }
    ensures attempts { result.attempts ≤ MAX_SERIAL }
{
    Settings {
        callers: (job.workers.len() as u16).max(1),
        ..settings
    }
}
