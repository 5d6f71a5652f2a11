//! The top call.
ghost use Rattle.std.specs.Prelude.{◌≡◌, ◌≢◌, ◌≤◌, ◌⊎◌, Some, List, ℕ, IfErr, IfOk, length, map, string_bytes};
ghost use Rattle.ledger_model.specs.declared.reason.Reason.{Reason};
ghost use Rattle.stm_io.specs.Faults.{Rose};
ghost use Rattle.stm_io.specs.Whole.{most_bytes};
ghost use Rattle.host_report.specs.OneText.{TextFixesListing};
ghost use Rattle.ledger_host.specs.Words.{AskForSome, Trace};
ghost use Rattle.ledger_host.specs.Settings.{default_settings};
ghost use Rattle.ledger_host.specs.Refusals.{IsRefusalOf, IsRefusalFrom};
ghost use Rattle.ledger_host.specs.Answers.{Answers, HasReport, IsReportOf, TellsJob, TellsNoJob};

use crate::listing::listing_of;
use crate::words::asks_trace;
use host_report::report_text;
use ledger_model::Reason;
use script_text::{ParseFault, parse};
use std::alloc::Global;
use stm_io::{ReadAllFault, Sink, Source, read_all, write_whole};
use stm_model::Memory;

/// How a call ended.
#[derive(Clone, Copy, Debug, PartialEq, Eq)]
pub enum HostStatus {
    /// The report was written.
    Done,
    /// The words ask for nothing that the program does.
    Usage,
    /// The text is refused: its first refused line, from 1, and why. Line 0 is the text as a whole.
    Script { line: u64, reason: Reason },
    /// The source failed.
    ReadFault,
    /// The sink failed.
    WriteFault,
    /// Out of memory.
    Memory,
}

// Why there is no report.
#[derive(Clone, Copy, Debug, PartialEq, Eq)]
enum Refusal {
    Script { line: u64, reason: Reason },
    ReadFault,
    Memory,
}

impl From<Memory> for Refusal {
    ghost use Rattle.std.specs.Prelude.{◌≡◌};
    ghost use Rattle.ledger_host.specs.declared.host.Refusal.TheVariants as refusal;

    ghost from_gives = { λ _ e. e ≡ refusal.Memory };

    fn from(_memory: Memory) -> Refusal {
        Refusal::Memory
    }
}

impl From<ParseFault> for Refusal {
    ghost use Rattle.std.specs.Prelude.{◌≡◌};
    ghost use Rattle.ledger_host.specs.Refusals.{refusal_of};

    ghost from_gives = { λ fault refusal. refusal ≡ refusal_of fault };

    fn from(fault: ParseFault) -> Refusal {
        match fault {
            ParseFault::Script { line, reason } => Refusal::Script { line, reason },
            ParseFault::Memory => Refusal::Memory,
        }
    }
}

// The report of a job text.
fn report_of(alloc: Global, text: &[u8]) -> Result<Vec<u8>, Refusal>
    requires { length text.now ≤ most_bytes }
    ensures report { IfOk result (λ report. IsReportOf Trace default_settings text.now report.items) }
    ensures refused { IfErr result (λ refusal. IsRefusalOf text.now refusal) }
{
    match parse(alloc, text) {
        Ok(job) => {
            let listing = listing_of(alloc, &job)?;
            Ok(report_text(alloc, &listing)?)
        }
        Err(fault) => Err(Refusal::from(fault)),
    }
}

// The report of the job that the source has.
fn report_from<S: Source>(alloc: Global, source: &mut S) -> Result<Vec<u8>, Refusal>
    ensures report { IfOk result (λ report. HasReport Trace default_settings (S.left source.old) (S.left source.new) report.items) }
    ensures refused { IfErr result (λ refusal. IsRefusalFrom (S.left source.old) (S.left source.new) (S.faults source.old) (S.faults source.new) refusal) }
    ensures never_falls { S.faults source.old ≤ S.faults source.new }
{
    match read_all(alloc, source) {
        Ok(text) => report_of(alloc, &text),
        Err(ReadAllFault::ReadFault) => Err(Refusal::ReadFault),
        Err(ReadAllFault::TooLong) => Err(Refusal::Script {
            line: 0,
            reason: Reason::Long,
        }),
        Err(ReadAllFault::Memory) => Err(Refusal::Memory),
    }
}

// The clauses of the top call, by its answer.
fn answer<S: Source, K: Sink>(
    alloc: Global,
    words: &[String],
    source: &mut S,
    sink: &mut K,
) -> HostStatus
    ensures { Answers S.left S.faults K.held K.faults (map string_bytes words.now) default_settings source.old source.new sink.old sink.new result }
{
    if !asks_trace(words) {
        return HostStatus::Usage;
    }
    match report_from(alloc, source) {
        Ok(report) => match write_whole(sink, &report) {
            Ok(()) => HostStatus::Done,
            Err(_) => HostStatus::WriteFault,
        },
        Err(Refusal::Script { line, reason }) => HostStatus::Script { line, reason },
        Err(Refusal::ReadFault) => HostStatus::ReadFault,
        Err(Refusal::Memory) => HostStatus::Memory,
    }
}

/// Does what the words behind the program's name ask for: reads a job from the source, runs its
/// scripts under its written schedule, and writes the report to the sink. The report is made whole
/// before its first byte is written, and writing it takes no memory.
pub fn host_plain<S: Source, K: Sink>(
    alloc: Global,
    words: &[String],
    source: &mut S,
    sink: &mut K,
) -> HostStatus
    ensures answers { Answers S.left S.faults K.held K.faults (map string_bytes words.now) default_settings source.old source.new sink.old sink.new result }

    ensures usage { ¬ AskForSome (map string_bytes words.now) → result ≡ HostStatus.Usage }
    ensures refused { (line : ℕ) (reason : Reason) → AskForSome (map string_bytes words.now) → TellsNoJob (S.left source.old) line reason
        → ¬ Rose (S.faults source.old) (S.faults source.new) → (result ≡ HostStatus.Script line reason) ⊎ (result ≡ HostStatus.Memory) }
    ensures complete { AskForSome (map string_bytes words.now) → TellsJob (S.left source.old)
        → ¬ Rose (S.faults source.old) (S.faults source.new) → ¬ Rose (K.faults sink.old) (K.faults sink.new)
        → (result ≡ HostStatus.Done) ⊎ (result ≡ HostStatus.Memory) }

    ensures report_fixes_listing { TextFixesListing }
{
    answer(alloc, words, source, sink)
}
