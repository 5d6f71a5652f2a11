//! The program again, so that the gate runs it on a job that is refused.
#![tactic(auto)]

use ledger_program::run;
use std::process::ExitCode;

fn main(rt: HostRuntime) -> ExitCode {
    run(rt)
}
