//! Runs each example of the folder that it is run in, over memory, and compares what the program writes
//! with the example's files: NAME.job is the job, NAME.report its report, NAME.error its line on standard
//! error. Of what there is no file, nothing is to be written.
#![tactic(auto)]

use ledger_program::program;
use std::alloc::{AllocError, Global};
use std::{fs, io};
use stm_io::{MemSink, MemSource};

// Room for what an example writes, and the most bytes that a call moves.
const ROOM: usize = 1 << 20;

const PIECE: usize = 4096;

fn main(rt: HostRuntime) -> io::Result<()> {
    let names = names_of_jobs(&rt)?;
    for name in &names {
        if !is_as_told(&rt, name)? {
            println!(rt; "{name}: not as its files say")?;
        }
    }
    let count = names.len();
    println!(rt; "{count} examples")
}

fn names_of_jobs(rt: &HostRuntime) -> io::Result<Vec<String>> {
    let mut names = Vec::new(rt.alloc());
    for entry in fs::read_dir(rt, ".")? {
        let entry = entry?;
        if let Some(name) = entry.file_name().strip_suffix(".job") {
            names.push(String::from_str(rt.alloc(), name)?)?;
        }
    }
    Ok(names)
}

fn is_as_told(rt: &HostRuntime, name: &str) -> io::Result<bool> {
    let alloc = rt.alloc();
    let words = vec![in alloc; String::from_str(alloc, "trace")?]?;
    let mut source = MemSource::new(file(rt, name, "job")?, PIECE, Vec::new(alloc));
    let mut sink = empty_sink(alloc)?;
    let mut errors = empty_sink(alloc)?;
    let _ = program(alloc, &words, &mut source, &mut sink, &mut errors);
    let report = file(rt, name, "report")?;
    let error = file(rt, name, "error")?;
    Ok(sink.bytes() == report.as_slice() && errors.bytes() == error.as_slice())
}

fn empty_sink(alloc: Global) -> Result<MemSink, AllocError> {
    MemSink::new(alloc, ROOM, PIECE, Vec::new(alloc)).map_err(|_| AllocError)
}

// The bytes of a file of the example; none where there is no such file.
fn file(rt: &HostRuntime, name: &str, kind: &str) -> io::Result<Vec<u8>> {
    let path = format!(in rt.alloc(); "{name}.{kind}")?;
    match fs::read(rt, path.as_str()) {
        Err(error) if error.kind() == io::ErrorKind::NotFound => Ok(Vec::new(rt.alloc())),
        bytes => Ok(bytes?),
    }
}
