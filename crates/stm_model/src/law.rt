//! What all committed heaps keep.
ghost use Rattle.std.specs.Prelude.{ℕ, List};

/// Which heaps may be committed, and which of them may follow which. Both relations are plain data,
/// and neither has to be a proposition: who keeps one in a ghost field truncates it there. What may
/// follow what matters between lawful heaps alone.
pub trait Law {
    /// The heap may be committed.
    ghost lawful: { Self → List ℕ → Type 0 };

    /// The second heap may follow the first.
    ghost may: { Self → List ℕ → List ℕ → Type 0 };

    /// Each lawful heap may stay as it is.
    ghost may_refl: { (law : Self) (heap : List ℕ) → lawful law heap → may law heap heap };

    /// What may be done in two steps through lawful heaps may be done in one.
    ghost may_trans: { (law : Self) (first second third : List ℕ) →
        lawful law first → lawful law second → lawful law third →
        may law first second → may law second third → may law first third };
}

/// The law under which each heap may be committed, and follow any other.
#[derive(Clone, Copy, Debug, PartialEq, Eq)]
pub struct Free;

impl Law for Free {
    ghost lawful = { λ _ _. Unit {0} };

    ghost may = { λ _ _ _. Unit {0} };

    ghost may_refl = { λ _ _ _. tt };

    ghost may_trans = { λ _ _ _ _ _ _ _ _ _. tt };
}
