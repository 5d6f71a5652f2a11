//! The program again, so that the gate runs it on words that ask for nothing.
#![tactic(auto)]

use ledger_program::run;
use std::process::ExitCode;

fn main(rt: HostRuntime) -> ExitCode {
    run(rt)
}
