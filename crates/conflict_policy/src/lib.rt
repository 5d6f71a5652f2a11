//! What an attempt does at the end of a round in which it got no hold of a cell.
#![tactic(auto)]

ghost use Rattle.std.specs.Prelude.{◌≡◌};
ghost use Rattle.conflict_policy.specs.Move.{move_for};

use meta_word::{Meta, Policy};

#[cfg(test)]
mod tests;

/// What comes next.
#[derive(Clone, Copy, Debug, PartialEq, Eq)]
pub enum Move {
    /// To see whether the owner can be doomed, once for the write.
    TryDoom { owner: u16 },
    /// One more round.
    Again,
    GiveWay,
}

/// The move after so many rounds, this one among them, which found this word last.
pub fn next_move(policy: Policy, rounds_done: u16, doom_tried: bool, meta: Meta, own: u16) -> Move
    ensures { result ≡ move_for policy rounds_done doom_tried meta own }
{
    if policy.dooms() && !doom_tried && meta.is_owned_by_another(own) {
        Move::TryDoom { owner: meta.owner }
    } else if rounds_done <= policy.looks() {
        Move::Again
    } else {
        Move::GiveWay
    }
}
