//! Scripts that are worked out, with all kinds of statements, and what each comes to by the definitions.
//! Each function does nothing: its clauses are theorems.
ghost use Rattle.std.specs.Prelude.{◌≡◌, [], ◌∷◌};
ghost use Rattle.stm_model.specs.declared.cause.HookPhase.TheVariants.{Preparing, Committing, Commit, Rollback, Completion};
ghost use Rattle.ledger_model.specs.declared.script.Operand.TheVariants.{Number};
ghost use Rattle.ledger_model.specs.Run.{Failed, Kept, Retried};
ghost use Rattle.ledger_model.specs.Settle.{Commits, Fails, OnlyReads, Retries, Spends};
ghost use Rattle.ledger_model.specs.Worked.{all_retry, bounds, check, failed_block, failed_twice, far_keys, first_part, handlers, handlers_of_a_writer, late_count, late_failure, late_in_blocks, late_in_late, late_parts, late_retry, left_through, moved, need, no_writes, on_maps, on_refs, one_hash, print, retry_of_a_block, retry_of_parts, runs_after, same_value, second_part, settled, share, shares, snap, sums, to_itself, undone_maps, undone_write};

/// Below 0 a register goes on from 2^64 - 1, and past that from 0. A sum may take the register
/// itself.
pub fn sums_are_modulo_two_to_the_64()
    ensures prints { (on_refs (18446744073709551615 ∷ []) sums).after.prints ≡
        18446744073709551614 ∷ 3 ∷ 6 ∷ 6 ∷ 0 ∷ [] }
    ensures refs { (on_refs (18446744073709551615 ∷ []) sums).after.contents.refs ≡ 0 ∷ [] }
{}

/// `check` and `need` ask for at least as much, and stop the script where there is less.
pub fn tests_pass_at_equality()
    ensures passed { (on_refs [] (bounds (print (Number 3)))).after.prints ≡ 1 ∷ 3 ∷ 2 ∷ [] }
    ensures failed { let o = on_refs [] (bounds (check (Number 3) (Number 4) 6)) in
        (o.end ≡ Failed 6) × (o.after.prints ≡ 1 ∷ []) }
    ensures retried { let o = on_refs [] (bounds (need (Number 3) (Number 4))) in
        (o.end ≡ Retried) × (o.after.prints ≡ 1 ∷ []) }
{}

/// A move takes as much as there is, but no more, and gives as much as fits. Where it gives too
/// much, what it took comes back with its block. A move of a reference to itself takes first.
pub fn a_move_is_whole_or_fails()
    ensures all { (on_refs (10 ∷ 0 ∷ []) (moved 10)).after.contents.refs ≡ 0 ∷ 10 ∷ [] }
    ensures overdraft { settled 0 (on_refs (10 ∷ 0 ∷ []) (moved 11)) ≡ Fails 1 }
    ensures fits { (on_refs (10 ∷ 18446744073709551610 ∷ []) (moved 5)).after.contents.refs ≡
        5 ∷ 18446744073709551615 ∷ [] }
    ensures overflow { settled 0 (on_refs (10 ∷ 18446744073709551610 ∷ []) (moved 6)) ≡ Fails 2 }
    ensures itself { let o = on_refs (10 ∷ 18446744073709551615 ∷ []) to_itself in
        (o.after.prints ≡ 1 ∷ 2 ∷ 10 ∷ []) × (o.after.contents.refs ≡ 10 ∷ 18446744073709551615 ∷ []) }
{}

/// A nested block that fails leaves references, registers and prints as they were before it, and
/// its code in its register. The trail keeps what it printed. A block that is kept leaves 0 there.
pub fn a_failed_block_is_undone()
    ensures kept { (on_refs (0 ∷ 0 ∷ []) failed_block).end ≡ Kept }
    ensures prints { (on_refs (0 ∷ 0 ∷ []) failed_block).after.prints ≡ 5 ∷ 0 ∷ 2 ∷ 0 ∷ 1 ∷ [] }
    ensures trail { (on_refs (0 ∷ 0 ∷ []) failed_block).after.trail ≡ 9 ∷ 5 ∷ 0 ∷ 2 ∷ 0 ∷ 1 ∷ [] }
    ensures refs { (on_refs (0 ∷ 0 ∷ []) failed_block).after.contents.refs ≡ 1 ∷ 4 ∷ [] }
{}

/// The block around a failed one goes on, and may fail itself. Then the inner register is as before
/// it too.
pub fn a_failure_goes_to_the_nearest_block()
    ensures prints { (on_refs (0 ∷ 0 ∷ []) failed_twice).after.prints ≡ 8 ∷ 0 ∷ [] }
    ensures trail { (on_refs (0 ∷ 0 ∷ []) failed_twice).after.trail ≡ 6 ∷ 8 ∷ 0 ∷ [] }
    ensures reads { settled 0 (on_refs (0 ∷ 0 ∷ []) failed_twice) ≡ OnlyReads }
{}

/// A part that retries is undone. Where all parts do, what is around them retries.
pub fn the_first_part_that_does_not_retry_is_taken()
    ensures first { (on_refs (0 ∷ 0 ∷ []) first_part).after.contents.refs ≡ 7 ∷ 0 ∷ [] }
    ensures second { (on_refs (0 ∷ 0 ∷ []) second_part).after.contents.refs ≡ 0 ∷ 8 ∷ [] }
    ensures other { (on_refs (1 ∷ 0 ∷ []) second_part).after.contents.refs ≡ 7 ∷ 0 ∷ [] }
    ensures outer { (on_refs (0 ∷ 0 ∷ []) retry_of_parts).after.contents.refs ≡ 0 ∷ 8 ∷ [] }
    ensures none { settled 0 (on_refs (0 ∷ 0 ∷ []) all_retry) ≡ Retries }
{}

/// A retry goes through a nested block to the part around it, and a failure through a part to the
/// block around it, where no later part is tried. Each block that is left is undone, the innermost
/// first, and its handlers run.
pub fn retries_leave_blocks_and_failures_leave_parts()
    ensures prints { (on_refs [] left_through).after.prints ≡ 9 ∷ 0 ∷ [] }
    ensures trail { (on_refs [] left_through).after.trail ≡ 5 ∷ 6 ∷ 9 ∷ 0 ∷ [] }
    ensures runs { (on_refs [] left_through).after.runs ≡ (Completion, 2) ∷ (Rollback, 1) ∷ (Rollback, 3) ∷ [] }
    ensures hooks { (on_refs [] left_through).after.hooks ≡ [] }
    ensures script { let o = on_refs (0 ∷ []) retry_of_a_block in
        (settled 0 o ≡ Retries) × (o.after.contents.refs ≡ 0 ∷ []) × (o.after.runs ≡ (Rollback, 1) ∷ []) }
{}

/// The handlers of a failed block run first, the last first, and only those for a rollback and for
/// completion; the others are gone. Then come those that a commit, a read, a spent clock or a
/// failure asks for. Of a script that retries none is told.
pub fn handlers_run_by_how_the_script_is_settled()
    ensures commits { let o = on_refs (0 ∷ []) handlers_of_a_writer in
        (settled 8 o ≡ Commits) ×
        (runs_after 8 o ≡ (Rollback, 14) ∷ (Completion, 12) ∷ (Rollback, 11) ∷
        (Preparing, 5) ∷ (Preparing, 7) ∷ (Committing, 4) ∷
        (Completion, 2) ∷ (Commit, 3) ∷ (Completion, 6) ∷ (Commit, 15) ∷ []) }
    ensures reads { let o = on_refs (0 ∷ []) (handlers []) in
        (settled 8 o ≡ OnlyReads) ×
        (runs_after 8 o ≡ (Rollback, 14) ∷ (Completion, 12) ∷ (Rollback, 11) ∷
        (Preparing, 5) ∷ (Preparing, 7) ∷ (Committing, 4) ∷
        (Completion, 2) ∷ (Commit, 3) ∷ (Completion, 6) ∷ (Commit, 15) ∷ []) }
    ensures spends { let o = on_refs (0 ∷ []) handlers_of_a_writer in
        (settled 9 o ≡ Spends) ×
        (runs_after 9 o ≡ (Rollback, 14) ∷ (Completion, 12) ∷ (Rollback, 11) ∷
        (Preparing, 5) ∷ (Preparing, 7) ∷ (Completion, 6) ∷ (Completion, 2) ∷ (Rollback, 1) ∷ []) }
    ensures fails { let o = on_refs (0 ∷ []) (handlers (check (Number 0) (Number 1) 4 ∷ [])) in
        (settled 9 o ≡ Fails 4) ×
        (runs_after 9 o ≡ (Rollback, 14) ∷ (Completion, 12) ∷ (Rollback, 11) ∷
        (Completion, 6) ∷ (Completion, 2) ∷ (Rollback, 1) ∷ []) }
    ensures retries { let o = on_refs (0 ∷ []) (handlers (need (Number 0) (Number 1) ∷ [])) in
        (settled 9 o ≡ Retries) × (runs_after 9 o ≡ []) }
{}

/// Before-commit bodies run in order of registration, with the registers as they are then; one that
/// a body registers comes last. Those of a failed block are gone.
pub fn late_bodies_run_behind_the_script()
    ensures counted { (on_refs (0 ∷ []) late_count).after.contents.refs ≡ 6 ∷ [] }
    ensures nested { (on_refs [] late_in_late).after.prints ≡ 9 ∷ 1 ∷ 4 ∷ 2 ∷ 3 ∷ [] }
    ensures blocks { (on_refs [] late_in_blocks).after.prints ≡ 7 ∷ 5 ∷ [] }
    ensures parts { (on_refs [] late_parts).after.prints ≡ 2 ∷ [] }
{}

/// A failure or a retry in a before-commit body is the script's own, also where a block or a part
/// registered it. Bodies behind it don't run, and handlers that it registered do.
pub fn a_late_body_ends_the_script()
    ensures fails { let o = on_refs (0 ∷ []) late_failure in
        (settled 0 o ≡ Fails 6) × (runs_after 0 o ≡ (Rollback, 1) ∷ []) × (o.after.trail ≡ []) }
    ensures retries { let o = on_refs (0 ∷ []) late_retry in
        (settled 0 o ≡ Retries) × (o.after.contents.refs ≡ 0 ∷ []) }
{}

/// Nine keys have one hash, so that each new one may draw a block more. A key is set and removed
/// without the others.
pub fn keys_of_one_hash_are_apart()
    ensures prints { (on_maps 1 0 one_hash).after.prints ≡ 50 ∷ 99 ∷ [] }
    ensures pairs { (on_maps 1 0 one_hash).after.contents.maps ≡
        ((1, 50) ∷ (8589934595, 12) ∷ (12884901890, 13) ∷ (17179869189, 14) ∷
        (21474836484, 15) ∷ (25769803783, 16) ∷ (30064771078, 17) ∷ (34359738377, 18) ∷ []) ∷ [] }
    ensures totals { (on_maps 1 0 one_hash).after.totals ≡
        18 ∷ 37 ∷ 57 ∷ 78 ∷ 100 ∷ 123 ∷ 147 ∷ 172 ∷ 198 ∷ 225 ∷ 252 ∷ [] }
{}

/// Keys that differ in their upper halves alone are two keys, and pairs stand by the whole key. The
/// least and the greatest key have one hash.
pub fn keys_are_whole_words()
    ensures prints { (on_maps 1 0 far_keys).after.prints ≡ 12 ∷ 10 ∷ 7 ∷ 18446744073709551615 ∷ [] }
    ensures pairs { (on_maps 1 0 far_keys).after.contents.maps ≡
        ((0, 9) ∷ (4294967301, 10) ∷ (9223372036854775808, 8) ∷ (18446744073709551615, 7) ∷ []) ∷ [] }
    ensures totals { (on_maps 1 0 far_keys).after.totals ≡ 18 ∷ 36 ∷ 55 ∷ 73 ∷ 91 ∷ 110 ∷ [] }
{}

/// A shared map and a snapshot have the pairs of that moment. What is written to one of them later
/// is not in the others.
pub fn shares_and_snapshots_stay_apart()
    ensures prints { (on_maps 2 1 shares).after.prints ≡ 76 ∷ 1 ∷ 1 ∷ 1 ∷ [] }
    ensures pairs { (on_maps 2 1 shares).after.contents.maps ≡ ((2, 2) ∷ (9, 1) ∷ []) ∷ ((2, 2) ∷ (5, 3) ∷ []) ∷ [] }
    ensures slots { (on_maps 2 1 shares).after.contents.slots ≡ ((2, 2) ∷ (5, 3) ∷ (9, 1) ∷ []) ∷ [] }
    ensures totals { (on_maps 2 1 shares).after.totals ≡ 18 ∷ 36 ∷ 38 ∷ 56 ∷ 57 ∷ 76 ∷ [] }
{}

/// A failed block leaves maps and slots as before it, and the totals of its operations stay.
pub fn undone_operations_keep_their_totals()
    ensures prints { (on_maps 2 1 undone_maps).after.prints ≡ 1 ∷ [] }
    ensures pairs { (on_maps 2 1 undone_maps).after.contents.maps ≡ ((4, 3) ∷ []) ∷ [] ∷ [] }
    ensures slots { (on_maps 2 1 undone_maps).after.contents.slots ≡ [] ∷ [] }
    ensures totals { (on_maps 2 1 undone_maps).after.totals ≡ 18 ∷ 37 ∷ 56 ∷ 57 ∷ 59 ∷ 78 ∷ [] }
{}

/// A write of the same value counts, and so do a snapshot and a share of an empty map. What is
/// undone doesn't count, nor does the removal of a key that isn't there, nor a map that is shared
/// with itself. The last two note their totals all the same.
pub fn what_counts_as_a_write()
    ensures same { let o = on_refs (4 ∷ []) same_value in (settled 0 o ≡ Commits) × (o.after.contents.refs ≡ 4 ∷ []) }
    ensures snap { settled 0 (on_maps 1 1 (snap 0 0 ∷ [])) ≡ Commits }
    ensures share { settled 0 (on_maps 2 0 (share 0 1 ∷ [])) ≡ Commits }
    ensures undone { let o = on_refs (0 ∷ []) undone_write in
        (settled 9 o ≡ OnlyReads) × (o.after.contents.refs ≡ 0 ∷ []) }
    ensures nothing { let o = on_maps 1 0 no_writes in
        (settled 9 o ≡ OnlyReads) × (o.after.totals ≡ 18 ∷ 20 ∷ []) × (o.after.prints ≡ 5 ∷ []) }
{}
