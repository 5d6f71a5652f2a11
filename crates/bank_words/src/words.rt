//! The task that the words of a command line ask for.
ghost use Rattle.std.specs.Prelude.{◌≡◌, codes, map, option_and_then, option_map, string_bytes, IfOk};
ghost use Rattle.clap.specs.Words.{app_of, first_value, found_of};
ghost use Rattle.bank_words.specs.Asking.{asked_for, bank, load_of, task_by, task_in};
ghost use Rattle.bank_words.specs.Parts.{parts};

use crate::task::{Load, MOST_SCRIPTS, MOST_THREADS, Task};
use clap::error::ErrorKind;
use clap::{Arg, ArgMatches, Command};
use std::alloc::{AllocError, Global};
use text_lines::number_of;

/// The task that the words ask for, the first of which is the program's name. None where they ask for
/// none.
pub fn task_of<'a>(alloc: Global, words: &'a [String]) -> Result<Option<Task>, AllocError>
    ensures { IfOk result (λ task. option_map parts task ≡ asked_for (map string_bytes words.now)) }
{
    match command(alloc)?.try_get_matches_from(words) {
        Ok(matches) => Ok(task_by(&matches)),
        Err(error) if error.kind() == ErrorKind::OutOfMemory => Err(AllocError),
        Err(_) => Ok(None),
    }
}

// `bank LOAD SCRIPTS [--threads THREADS]`.
fn command<'a>(alloc: Global) -> Result<Command<'a>, AllocError>
    ensures { IfOk result (λ command. app_of command ≡ bank) }
{
    let load = Arg::new(alloc, "load").required(true);
    let scripts = Arg::new(alloc, "scripts").required(true);
    let threads = Arg::new(alloc, "threads")
        .long("threads")
        .default_value("1");
    Command::new(alloc, "bank")
        .arg(load)?
        .arg(scripts)?
        .arg(threads)
}

fn task_by(matches: &ArgMatches<'_>) -> Option<Task>
    ensures { option_map parts result ≡ task_by
        (first_value (found_of matches.now) (codes "load"))
        (first_value (found_of matches.now) (codes "scripts"))
        (first_value (found_of matches.now) (codes "threads")) }
{
    let load = load_of(matches.get_str("load")?)?;
    let scripts = number_of(matches.get_str("scripts")?.as_bytes())?;
    let threads = number_of(matches.get_str("threads")?.as_bytes())?;
    task_in(load, scripts, threads)
}

fn load_of(name: &str) -> Option<Load>
    ensures { result ≡ load_of name.now }
{
    match name {
        "transfers" => Some(Load::Transfers),
        "hot" => Some(Load::Hot),
        "disjoint" => Some(Load::Disjoint),
        "reads" => Some(Load::Reads),
        "one" => Some(Load::One),
        _ => None,
    }
}

// None where a number isn't within its limits. The load of one worker takes one thread, whatever is asked.
fn task_in(load: Load, scripts: u64, threads: u64) -> Option<Task>
    ensures { option_map parts result ≡ task_in load scripts threads }
{
    let most = u64::from(MOST_THREADS);
    if scripts > MOST_SCRIPTS || threads < 1 || threads > most {
        return None;
    }
    let threads = match load {
        Load::One => 1,
        _ => threads as u16,
    };
    Some(Task {
        load,
        scripts,
        threads,
    })
}
