//! Tries the text of each row of the files that it is run beside, tells each row that isn't so, and counts them.
//! `refused` has texts that the reader and the program refuse, as LINE REASON TEXT; `jobs` texts of jobs, as TEXT =>
//! CANONICAL, or TEXT alone where that is canonical.
#![tactic(auto)]

mod told;

use std::alloc::{AllocError, Global};
use std::{fs, io};
use text_rows::{cut, is_row, text_of};
use told::{printed, program_tells, reader_tells};

fn main(rt: HostRuntime) -> io::Result<()> {
    for kind in [Kind::Refused, Kind::Job] {
        try_rows(&rt, kind)?;
    }
    Ok(())
}

#[derive(Clone, Copy)]
enum Kind {
    Refused,
    Job,
}

fn try_rows(rt: &HostRuntime, kind: Kind) -> io::Result<()> {
    let file = file_of(kind);
    let text = fs::read_to_string(rt, file)?;
    let mut count = 0_u64;
    for row in text.as_str().lines() {
        if !is_row(row) {
            continue;
        }
        count = count.saturating_add(1);
        if !is_so(rt.alloc(), kind, row)? {
            println!(rt; "{file}: not so: {row}")?;
        }
    }
    println!(rt; "{file}: {count} rows")
}

fn file_of(kind: Kind) -> &'static str {
    match kind {
        Kind::Refused => "refused",
        Kind::Job => "jobs",
    }
}

fn is_so(alloc: Global, kind: Kind, row: &str) -> Result<bool, AllocError> {
    match kind {
        Kind::Refused => is_refused(alloc, row),
        Kind::Job => is_job(alloc, row),
    }
}

fn is_refused(alloc: Global, row: &str) -> Result<bool, AllocError> {
    let (line, told) = cut(row);
    let (reason, lines) = cut(told);
    let text = text_of(alloc, lines)?;
    let told = format!(in alloc; "ledger: line {line}: {reason}\n")?;
    let by_reader = reader_tells(alloc, &text, told.as_str())?;
    Ok(by_reader && program_tells(alloc, text, told.as_str())?)
}

fn is_job(alloc: Global, row: &str) -> Result<bool, AllocError> {
    let (given, canonical) = row.split_once(" => ").unwrap_or((row, row));
    let text = text_of(alloc, given)?;
    let expected = text_of(alloc, canonical)?;
    Ok(printed(alloc, &text)?.as_slice() == expected.as_slice())
}
