//! A law under which cells hold values of several types.
ghost use Rattle.std.specs.Prelude.{IsSome, slice_index};
ghost use Rattle.stm_model.specs.WordValue.{bool_value, char_value};

use stm_model::Law;

/// Cell 1 holds a bool, and cell 2 a character.
#[derive(Clone, Copy)]
pub struct Kinds;

impl Law for Kinds {
    ghost lawful = { λ _ heap. IsSome (bool_value (slice_index heap 1)) × IsSome (char_value (slice_index heap 2)) };

    ghost may = { λ _ _ _. Unit {0} };

    ghost may_refl = { λ _ _ _. tt };

    ghost may_trans = { λ _ _ _ _ _ _ _ _ _. tt };
}
