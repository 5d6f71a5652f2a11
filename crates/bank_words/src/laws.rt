//! Command lines, and what they ask for. The function does nothing: its clauses are theorems.
ghost use Rattle.std.specs.Prelude.{◌≡◌, [], ◌∷◌, Some, None, codes};
ghost use Rattle.bank_words.specs.Asking.{asked_for};
ghost use Rattle.bank_words.specs.declared.task.Load.TheVariants.{Hot, One};

/// Some command lines, word by word.
pub fn some_command_lines()
    ensures plain { asked_for (codes "bank" ∷ codes "hot" ∷ codes "50" ∷ []) ≡ Some (Hot, 50, 1) }
    ensures threads { asked_for (codes "bank" ∷ codes "hot" ∷ codes "5" ∷ codes "--threads" ∷ codes "16" ∷ []) ≡ Some (Hot, 5, 16) }
    ensures joined { asked_for (codes "bank" ∷ codes "--threads=2" ∷ codes "hot" ∷ codes "5" ∷ []) ≡ Some (Hot, 5, 2) }
    ensures one { asked_for (codes "bank" ∷ codes "one" ∷ codes "5" ∷ codes "--threads" ∷ codes "4" ∷ []) ≡ Some (One, 5, 1) }
    ensures many { asked_for (codes "bank" ∷ codes "hot" ∷ codes "5" ∷ codes "--threads" ∷ codes "17" ∷ []) ≡ None }
    ensures unknown { asked_for (codes "bank" ∷ codes "cold" ∷ codes "5" ∷ []) ≡ None }
    ensures short { asked_for (codes "bank" ∷ codes "hot" ∷ []) ≡ None }
{}
