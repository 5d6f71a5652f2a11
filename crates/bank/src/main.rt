//! Workers on threads, who move among, sum and count in the cells of one memory. In the end it is told
//! whether the cells have the sum that they are to have.
#![tactic(auto)]

mod report;
mod table;
#[cfg(test)]
mod tests;
mod worker;

use bank_words::{Task, task_of};
use report::Fault;
use std::process::ExitCode;
use std::{env, io};
use table::run;

fn main(rt: HostRuntime) -> io::Result<ExitCode> {
    let told = match asked(&rt) {
        Ok(task) => run(&rt, rt.alloc(), &task),
        Err(fault) => Err(fault),
    };
    match told {
        Ok(report) => {
            println!(rt; "{report}")?;
            Ok(ExitCode::from(report.status()))
        }
        Err(fault) => {
            eprintln!(rt; "{fault}")?;
            Ok(ExitCode::from(fault.status()))
        }
    }
}

// The task that the program's words ask for.
fn asked(rt: &HostRuntime) -> Result<Task, Fault> {
    match words(rt) {
        Ok(words) => task_of(rt.alloc(), &words)?.ok_or(Fault::Usage),
        Err(error) if error.kind() == io::ErrorKind::OutOfMemory => Err(Fault::Memory),
        Err(_) => Err(Fault::Usage),
    }
}

// One that isn't UTF-8 is an error.
fn words(rt: &HostRuntime) -> io::Result<Vec<String>> {
    let words: Vec<String> = env::args(rt)?.collect(rt.alloc())?;
    Ok(words)
}
