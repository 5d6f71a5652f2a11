//! The program. The gate runs it on the example of the README.
#![tactic(auto)]

use ledger_program::run;
use std::process::ExitCode;

fn main(rt: HostRuntime) -> ExitCode {
    run(rt)
}
