//! The number that the program ends with.
ghost use Rattle.std.specs.Prelude.{◌≡◌};
ghost use Rattle.std.specs.Process.{exit_status};
ghost use Rattle.ledger_program.specs.Status.{exit_number};

use ledger_host::HostStatus;
use std::process::ExitCode;

/// The exit status by how the call ended. 1 is none of them: it is left to what ends a program
/// from outside.
pub fn exit_code(status: HostStatus) -> ExitCode
    ensures { exit_status result ≡ exit_number status }
{
    ExitCode::from(match status {
        HostStatus::Done => 0,
        HostStatus::Usage => 2,
        HostStatus::Script { .. } => 3,
        HostStatus::ReadFault => 4,
        HostStatus::WriteFault => 5,
        HostStatus::Memory => 6,
    })
}
