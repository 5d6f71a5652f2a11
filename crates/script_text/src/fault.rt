//! Why a text is not taken.

ghost use Rattle.std.specs.Prelude.{◌≡◌};

use ledger_model::Reason;
use stm_model::Memory;

/// Why a text is not taken.
#[derive(Clone, Copy, Debug, PartialEq, Eq)]
pub enum ParseFault {
    /// The line is refused, and no earlier one. Lines count from 1, and one more than the number of
    /// lines stands for the end of the text.
    Script { line: u64, reason: Reason },
    /// Out of memory.
    Memory,
}

impl From<Memory> for ParseFault {
    ghost use Rattle.script_text.specs.declared.fault.ParseFault.TheVariants as fault;

    ghost from_gives = { λ _ e. e ≡ fault.Memory };

    fn from(_memory: Memory) -> ParseFault {
        ParseFault::Memory
    }
}

/// Why a line is not taken.
#[derive(Clone, Copy)]
pub enum Fault {
    Memory,
    Refused(Reason),
}

impl From<Memory> for Fault {
    ghost use Rattle.script_text.specs.declared.fault.Fault.TheVariants as fault;

    ghost from_gives = { λ _ e. e ≡ fault.Memory };

    fn from(_memory: Memory) -> Fault {
        Fault::Memory
    }
}

impl From<Reason> for Fault {
    ghost use Rattle.script_text.specs.declared.fault.Fault.TheVariants as fault;

    ghost from_gives = { λ reason e. e ≡ fault.Refused reason };

    fn from(reason: Reason) -> Fault {
        Fault::Refused(reason)
    }
}
