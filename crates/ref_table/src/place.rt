//! Where a word stands in the table, and what an access says of what a seat keeps.
ghost use Rattle.std.specs.Prelude.{◌≡◌};
ghost use Rattle.opacity.specs.Words.{BringsWords};
ghost use Rattle.ref_table.specs.Keyed.{clock_kept, serial_then};
ghost use Rattle.stm_model.specs.World.{place_of};

use stm_model::{Access, Word};

/// Where a word stands in a table of so many callers.
#[inline(always)]
#[tactic(auto, unfolding(stm_model::specs::World::place_of))]
pub fn place_of(callers: u16, word: Word) -> usize
    ensures { result ≡ place_of callers word }
{
    match word {
        Word::Clock => 0,
        Word::Status(caller) => caller as usize,
        Word::Meta(addr) => callers as usize + 1 + 2 * addr.0 as usize,
        Word::Value(addr) => callers as usize + 2 + 2 * addr.0 as usize,
    }
}

/// The serial of the latest attempt after an access, where it was this before: a store of a status word
/// has it above two bits for the phase.
#[inline(always)]
#[tactic(auto, unfolding(crate::specs::Keyed::serial_then))]
pub fn serial_after(access: Access, serial: u64) -> u64
    ensures { result ≡ serial_then access serial }
{
    match access {
        Access::Store(Word::Status(_), new) => new / 4,
        _ => serial,
    }
}

/// The clock as it was loaded last, after an access that found this, where it was that before.
#[inline(always)]
#[tactic(auto, unfolding(crate::specs::Keyed::clock_kept))]
pub fn clock_after(access: Access, found: u64, clock: u64) -> u64
    ensures { result ≡ clock_kept access found clock }
{
    match access {
        Access::Load(Word::Clock) => found,
        _ => clock,
    }
}

/// The numbers that an access brings are words.
#[inline(always)]
#[tactic(auto, unfolding(opacity::specs::Words::BringsWords))]
pub fn brings(access: Access)
    ensures { BringsWords access }
{
    match access {
        Access::Load(_) => {}
        Access::Store(_, _) => {}
        Access::Swap(_, _) => {}
        Access::Exchange { .. } => {}
        Access::SetBits(_, _) => {}
        Access::ClearBits(_, _) => {}
    }
}
