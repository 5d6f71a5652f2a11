//! A caller's status word. It begins as 0 and says how many attempts the caller has begun and where
//! the latest of them stands.
//!
//! | bits | field | changed |
//! |---|---|---|
//! | 2 to 63 | serial | by the caller alone, to the next number, where it begins an attempt |
//! | 0 and 1 | phase | by the caller, and by others from Active to Doomed alone |
//!
//! The caller stores the word where it begins an attempt, as Active, and where the attempt ends, as
//! Idle. To commit a write it exchanges Active for Preparing. Others doom the attempt by exchanging
//! Active for Doomed. Whichever exchange comes first is the one that holds.

ghost use Rattle.std.specs.Prelude.{◌≡◌};
ghost use Rattle.meta_word.specs.Status.{StatusFits, phase_number, phase_of, status_of, status_word};

const SERIAL_AT: u32 = 2;

const PHASE_BITS: u64 = (1 << SERIAL_AT) - 1;

/// The greatest serial, and so the greatest number of attempts of a caller.
pub const MAX_SERIAL: u64 = u64::MAX >> SERIAL_AT;

/// Where a caller's latest attempt stands.
#[derive(Clone, Copy, Debug, PartialEq, Eq)]
pub enum Phase {
    /// It is over, or there was none.
    Idle,
    /// Its body runs, and another caller may doom it.
    Active,
    /// It is about to commit what it wrote, and can't be doomed any more.
    Preparing,
    /// Another caller wants a cell that it owns. It won't commit a write.
    Doomed,
}

/// A caller's status word, unpacked.
#[derive(Clone, Copy, Debug, PartialEq, Eq)]
pub struct TxnStatus {
    /// The number of the latest attempt, from 1, or 0 before the first. It only rises, so whoever dooms
    /// by exchange dooms the attempt that it saw, and no later one.
    pub serial: u64,
    pub phase: Phase,
}

/// The word of these fields.
pub fn pack_status(status: TxnStatus) -> u64
    requires { StatusFits status }
    ensures word { result ≡ status_word status }
    ensures comes_back { status_of result ≡ status }
{
    (status.serial << SERIAL_AT) | number_of_phase(status.phase)
}

/// The fields of this word. Every word has some.
pub fn unpack_status(word: u64) -> TxnStatus
    ensures fields { result ≡ status_of word }
    ensures fits { StatusFits result }
    ensures comes_back { status_word result ≡ word }
{
    TxnStatus {
        serial: word >> SERIAL_AT,
        phase: phase_of_number(word & PHASE_BITS),
    }
}

fn number_of_phase(phase: Phase) -> u64
    ensures { result ≡ phase_number phase }
{
    match phase {
        Phase::Idle => 0,
        Phase::Active => 1,
        Phase::Preparing => 2,
        Phase::Doomed => 3,
    }
}

fn phase_of_number(number: u64) -> Phase
    ensures { result ≡ phase_of number }
{
    match number {
        0 => Phase::Idle,
        1 => Phase::Active,
        2 => Phase::Preparing,
        _ => Phase::Doomed,
    }
}
