//! From a job text to a job.

ghost use Rattle.std.specs.Prelude.{◌≡◌, ℕ, Ok, Err, IfOk};
ghost use Rattle.ledger_model.specs.declared.reason.Reason.{Reason};
ghost use Rattle.script_text.specs.JobText.{job_of};
ghost use Rattle.script_text.specs.Reading.{fault_at};

use crate::fault::{Fault, ParseFault};
use crate::reader::Reader;
use ledger_model::Job;
use std::alloc::Global;
use text_lines::cut_line;

/// The job that a text is. It is refused at its first line that may not stand where it does.
pub fn parse(alloc: Global, text: &[u8]) -> Result<Job, ParseFault>
    ensures parsed { IfOk result (λ job. job_of text.now ≡ Ok job) }
    ensures refused { (line : ℕ) (reason : Reason) →
        result ≡ Err (ParseFault.Script line reason) → job_of text.now ≡ Err (line, reason) }
{
    let mut reader = Reader::new(alloc);
    let mut rest = text;
    let mut number: u64 = 1;
    while !rest.is_empty() {
        let (line, after) = cut_line(rest);
        match reader.line(alloc, line) {
            Ok(()) => {
                number += 1;
                rest = after;
            }
            Err(fault) => return Err(at_line(number, fault)),
        }
    }
    match reader.finish(alloc) {
        Ok(job) => Ok(job),
        Err(fault) => Err(at_line(number, fault)),
    }
}

fn at_line(line: u64, fault: Fault) -> ParseFault
    ensures { result ≡ fault_at line fault }
{
    match fault {
        Fault::Memory => ParseFault::Memory,
        Fault::Refused(reason) => ParseFault::Script { line, reason },
    }
}
