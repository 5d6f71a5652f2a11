//! What a text gives: the line that its refusal is told as, what the program tells, and the canonical text of its job.

use ledger_host::HostStatus;
use ledger_program::{error_line, program};
use script_text::{ParseFault, parse, print};
use std::alloc::{AllocError, Global};
use std::process::ExitCode;
use stm_io::{MemSink, MemSource};

// Room for what is written, and the most bytes that a call moves.
const ROOM: usize = 4096;

/// The reader's answer is told as this line; nothing where the text is a job.
pub(crate) fn reader_tells(alloc: Global, text: &[u8], told: &str) -> Result<bool, AllocError> {
    let status = match parse(alloc, text) {
        Ok(_) => HostStatus::Done,
        Err(ParseFault::Script { line, reason }) => HostStatus::Script { line, reason },
        Err(ParseFault::Memory) => return Err(AllocError),
    };
    Ok(error_line(status).as_str() == told)
}

/// The program refuses the text with this line on standard error, and reports nothing.
pub(crate) fn program_tells(alloc: Global, text: Vec<u8>, told: &str) -> Result<bool, AllocError> {
    let words = vec![in alloc; String::from_str(alloc, "trace")?]?;
    let mut source = MemSource::new(text, ROOM, Vec::new(alloc));
    let mut sink = empty_sink(alloc)?;
    let mut errors = empty_sink(alloc)?;
    let code = program(alloc, &words, &mut source, &mut sink, &mut errors);
    Ok(code == ExitCode::from(3) && sink.bytes().is_empty() && errors.bytes() == told.as_bytes())
}

fn empty_sink(alloc: Global) -> Result<MemSink, AllocError> {
    MemSink::new(alloc, ROOM, ROOM, Vec::new(alloc)).map_err(|_| AllocError)
}

/// The canonical text of the job that a text is; nothing where it is none.
pub(crate) fn printed(alloc: Global, text: &[u8]) -> Result<Vec<u8>, AllocError> {
    match parse(alloc, text) {
        Ok(job) => print(alloc, &job).map_err(|_| AllocError),
        Err(ParseFault::Script { .. }) => Ok(Vec::new(alloc)),
        Err(ParseFault::Memory) => Err(AllocError),
    }
}
