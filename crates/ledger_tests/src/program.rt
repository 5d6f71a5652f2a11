//! What the program says on standard error.

use ledger_host::HostStatus;
use ledger_model::Reason;
use ledger_program::{error_line, program};
use std::alloc::{AllocError, Global};
use std::process::ExitCode;
use std::test::Fail;
use stm_io::{MemSink, MemSource};

#[test]
fn each_status_has_its_line(rt: HostRuntime) {
    let refused = HostStatus::Script {
        line: u64::MAX,
        reason: Reason::Unclosed,
    };
    for (status, line) in [
        (HostStatus::Done, ""),
        (
            HostStatus::Usage,
            "usage: ledger trace or run or gen N [--policy P] [--looks N] [--attempts N] [--clock N]\n",
        ),
        (refused, "ledger: line 18446744073709551615: unclosed\n"),
        (HostStatus::ReadFault, "ledger: read fault\n"),
        (HostStatus::WriteFault, "ledger: write fault\n"),
        (HostStatus::Memory, "ledger: no memory\n"),
    ] {
        assert_eq!(rt; error_line(status).as_str(), line);
    }
}

// What a call of the program ended with, and what was written.
#[derive(Drop)]
struct Ended {
    code: ExitCode,
    sink: MemSink,
    errors: MemSink,
}

fn end_of(alloc: Global, text: &[u8]) -> Result<Ended, AllocError> {
    let words = vec![in alloc; String::from_str(alloc, "trace")?]?;
    let mut source = MemSource::new(Vec::from_slice(alloc, text)?, 3, Vec::new(alloc));
    let mut sink = empty_sink(alloc)?;
    let mut errors = empty_sink(alloc)?;
    let code = program(alloc, &words, &mut source, &mut sink, &mut errors);
    Ok(Ended { code, sink, errors })
}

fn empty_sink(alloc: Global) -> Result<MemSink, AllocError> {
    MemSink::new(alloc, 100, 8, Vec::new(alloc)).map_err(|_| AllocError)
}

#[test]
fn a_refused_job_is_told_on_standard_error_alone(rt: HostRuntime) -> Result<(), Fail> {
    let ended = end_of(rt.alloc(), b"stm 1\njump\n")?;
    assert_eq!(rt; ended.code, ExitCode::from(3));
    assert_eq!(rt; ended.sink.bytes(), [].as_slice());
    assert_eq!(rt; ended.errors.bytes(), b"ledger: line 2: word\n".as_slice());
    Ok(())
}
