//! The program over streams, and on its real ones.
ghost use Rattle.std.specs.Prelude.{◌≡◌, ◌⊎◌, ◌↔◌, ℕ, map, string_bytes};
ghost use Rattle.std.specs.Process.{exit_status};
ghost use Rattle.stm_io.specs.Faults.{Rose};
ghost use Rattle.ledger_model.specs.declared.reason.Reason.{Reason};
ghost use Rattle.ledger_host.specs.Words.{AskForSome};
ghost use Rattle.ledger_host.specs.Settings.{default_settings};
ghost use Rattle.ledger_host.specs.Answers.{Answers, TellsJob, TellsNoJob};
ghost use Rattle.ledger_host.specs.declared.host.HostStatus.{HostStatus};
ghost use Rattle.ledger_program.specs.Status.{error_line, exit_number, refusal_line};
ghost use Rattle.ledger_program.specs.Ends.{Ends, IsTold};

use crate::line::error_line;
use crate::number::exit_code;
use ledger_host::{HostStatus, host_plain};
use std::alloc::Global;
use std::process::ExitCode;
use std::{env, io};
use stm_io::{Sink, Source, StdSink, StdSource, write_whole};

/// Does what the words behind the program's name ask for, and says on `errors` how it ended. The
/// answer is the exit status.
pub fn program<S: Source, K: Sink, E: Sink>(
    alloc: Global,
    words: &[String],
    source: &mut S,
    sink: &mut K,
    errors: &mut E,
) -> ExitCode
    ensures ends { Ends
        (Answers S.left S.faults K.held K.faults (map string_bytes words.now) default_settings source.old source.new sink.old sink.new)
        (IsTold (E.held errors.old) (E.held errors.new) (E.faults errors.old) (E.faults errors.new))
        (exit_status result) }

    ensures usage { (exit_status result ≡ 2) ↔ (¬ AskForSome (map string_bytes words.now)) }
    ensures refused { (line : ℕ) (reason : Reason) → AskForSome (map string_bytes words.now) → TellsNoJob (S.left source.old) line reason
        → ¬ Rose (S.faults source.old) (S.faults source.new)
        → (exit_status result ≡ 3) × IsTold (E.held errors.old) (E.held errors.new) (E.faults errors.old) (E.faults errors.new) (refusal_line line reason)
        ⊎ (exit_status result ≡ 6) }
    ensures complete { AskForSome (map string_bytes words.now) → TellsJob (S.left source.old)
        → ¬ Rose (S.faults source.old) (S.faults source.new) → ¬ Rose (K.faults sink.old) (K.faults sink.new)
        → (exit_status result ≡ 0) ⊎ (exit_status result ≡ 6) }
{
    let status = host_plain(alloc, words, source, sink);
    tell(errors, status);
    exit_code(status)
}

// Where standard error fails too, nothing is left to say.
fn tell<E: Sink>(errors: &mut E, status: HostStatus)
    ensures { IsTold (E.held errors.old) (E.held errors.new) (E.faults errors.old) (E.faults errors.new) (error_line status) }
{
    let _ = write_whole(errors, error_line(status).as_bytes());
}

// The words after the program's name. Those that can't be had are an answer of their own.
fn words_after_name(rt: &HostRuntime) -> Result<Vec<String>, HostStatus> {
    match collected_words(rt) {
        Ok(words) => Ok(words),
        Err(error) if error.kind() == io::ErrorKind::OutOfMemory => Err(HostStatus::Memory),
        Err(_) => Err(HostStatus::Usage),
    }
}

// One that isn't UTF-8 is an error.
fn collected_words(rt: &HostRuntime) -> io::Result<Vec<String>> {
    let words: Vec<String> = env::args(rt)?.skip(1).collect(rt.alloc())?;
    Ok(words)
}

/// The program on its real streams. All that a program crate's `main` does.
pub fn run(rt: HostRuntime) -> ExitCode
    ensures { (status : HostStatus) × (exit_status result ≡ exit_number status) }
{
    let mut source = StdSource::new(rt.reader());
    let mut sink = StdSink::new(io::writer(&rt));
    let mut errors = StdSink::new(rt.stderr());
    match words_after_name(&rt) {
        Ok(words) => program(rt.alloc(), &words, &mut source, &mut sink, &mut errors),
        Err(status) => {
            tell(&mut errors, status);
            exit_code(status)
        }
    }
}
