//! Traces the job of each row of the file `traces` that it is run beside, tells each row whose report isn't so, and
//! counts them. A row is POLICY LOOKS CLOCK ATTEMPTS JOB => REPORT.
#![tactic(auto)]

mod report;
mod settings;

use report::report_of;
use settings::settings_of;
use std::alloc::{AllocError, Global};
use std::{fs, io};
use text_rows::{cut, is_row, text_of};

fn main(rt: HostRuntime) -> io::Result<()> {
    let text = fs::read_to_string(&rt, "traces")?;
    let mut count = 0_u64;
    for row in text.as_str().lines() {
        if !is_row(row) {
            continue;
        }
        count = count.saturating_add(1);
        if !is_so(rt.alloc(), row)? {
            println!(rt; "not so: {row}")?;
        }
    }
    println!(rt; "{count} rows")
}

fn is_so(alloc: Global, row: &str) -> Result<bool, AllocError> {
    let (given, told) = row.split_once(" => ").unwrap_or((row, ""));
    let (policy, rest) = cut(given);
    let (looks, rest) = cut(rest);
    let (clock, rest) = cut(rest);
    let (attempts, lines) = cut(rest);
    let Some(settings) = settings_of(policy, looks, clock, attempts) else {
        return Ok(false);
    };
    let text = text_of(alloc, lines)?;
    let report = report_of(alloc, &text, settings)?;
    Ok(report.as_slice() == text_of(alloc, told)?.as_slice())
}
