//! Schedules of two callers, and what comes of them by the definitions, access by access. Each function
//! does nothing: its clauses are theorems. The last two say that no attempt is left in flight, and that
//! each event of the schedule may happen.
ghost use Rattle.std.specs.Prelude.{◌≡◌, ◌∷◌, [], Some, true, false};
ghost use Rattle.meta_word.specs.declared.policy.Policy.TheVariants.{Doom, Look};
ghost use Rattle.stm_model.specs.declared.ending.Ending.TheVariants.{Committed, Read, Rolled};
ghost use Rattle.stm_model.specs.Accesses.{active, doomed, owned, released};
ghost use Rattle.stm_model.specs.Attempt.{Ready, Stopped, Validate};
ghost use Rattle.stm_model.specs.Rows.{AreOver, IsRun, between, between_read, between_rolled, by_another, counter, doom, doom_found, doom_rolled, doom_written, dooming, entry, held, in_change, lost_update, lost_update_counted, lost_update_rolled, noted, overtaken, overtaken_found, overtaken_read, overtaken_rolled, pair, passed, passed_extended, passed_read, skew, skew_found, skew_summed, skew_undone, stale, in_store, storing, storing_found, storing_read, storing_rolled};
ghost use Rattle.stm_model.specs.World.{attempt_of, unwritten};

/// Two callers read a counter, and each is to write one more than it read. The second finds, when it
/// takes the cell, that what it read is stale. So it rolls back, and its next attempt counts on.
pub fn no_update_is_lost()
    ensures stale { (attempt_of (counter lost_update) 2).stage ≡ Stopped stale }
    ensures rolled { (attempt_of (counter lost_update_rolled) 2).ending ≡ Some (Rolled stale 0) }
    ensures history { (counter lost_update_counted).history ≡
        entry 1 1 (noted 0 0 0 ∷ []) ((0, 1) ∷ []) ∷ entry 2 2 (noted 0 1 1 ∷ []) ((0, 2) ∷ []) ∷ [] }
    ensures value { (counter lost_update_counted).value 0 ≡ 2 }
    ensures over { AreOver (counter lost_update_counted) }
    ensures may { IsRun (0 ∷ []) (Look 0) lost_update_counted }
{}

/// Two callers read the same two cells, and each is to write their sum to one of them, not the same.
/// Neither finds its cell owned. But once the first has committed, the second finds that what it read is
/// stale. So it rolls back, and its next attempt adds up what the first left.
pub fn no_sum_is_skewed()
    ensures owners { ((pair skew).meta 0 ≡ owned 1 unwritten) × ((pair skew).meta 1 ≡ owned 2 unwritten) }
    ensures stale { (attempt_of (pair skew_found) 2).ending ≡ Some (Rolled stale 0) }
    ensures marked { (pair skew_found).meta 1 ≡ record (owned 2 unwritten) { changing = true } }
    ensures rolled_back { ((pair skew_undone).meta 1 ≡ unwritten) × ((pair skew_undone).value 1 ≡ 1) }
    ensures summed { (attempt_of (pair skew_summed) 2).ending ≡ Some (Committed 2) }
    ensures values { ((pair skew_summed).value 0 ≡ 2) × ((pair skew_summed).value 1 ≡ 3) }
    ensures over { AreOver (pair skew_summed) }
    ensures may { IsRun (1 ∷ 1 ∷ []) (Look 0) skew_summed }
{}

/// A caller has read one cell, and is to read another, when both are written. The other is newer than its
/// prefix, and the extension finds the first one stale. So it was told of no heap but the opening one,
/// and its next attempt reads both as the writer left them.
pub fn an_overtaken_reader_sees_one_prefix()
    ensures committed { ((pair overtaken).clock ≡ 1) × ((pair overtaken).meta 0 ≡ released 1) × ((pair overtaken).meta 1 ≡ released 1) }
    ensures stale { (attempt_of (pair overtaken_found) 1).stage ≡ Stopped stale }
    ensures told { (attempt_of (pair overtaken_found) 1).notes ≡ noted 0 0 1 ∷ [] }
    ensures rolled { (attempt_of (pair overtaken_rolled) 1).ending ≡ Some (Rolled stale 0) }
    ensures read { (attempt_of (pair overtaken_read) 1).notes ≡ noted 0 1 5 ∷ noted 1 1 5 ∷ [] }
    ensures ended { (attempt_of (pair overtaken_read) 1).ending ≡ Some (Read 1) }
    ensures over { AreOver (pair overtaken_read) }
    ensures may { IsRun (1 ∷ 1 ∷ []) (Look 0) overtaken_read }
{}

/// A caller has read one cell, and is to read another, when that other one is written. The extension finds
/// the first one as it was, so the attempt goes on, and reads both from the heap that the writer left.
pub fn an_extension_goes_on()
    ensures before { (attempt_of (pair passed) 1).prefix ≡ 0 }
    ensures after { (attempt_of (pair passed_extended) 1).prefix ≡ 1 }
    ensures answered { (attempt_of (pair passed_extended) 1).stage ≡ Ready (Some 9) }
    ensures read { (attempt_of (pair passed_read) 1).notes ≡ noted 0 0 1 ∷ noted 1 1 9 ∷ [] }
    ensures ended { (attempt_of (pair passed_read) 1).ending ≡ Some (Read 1) }
    ensures over { AreOver (pair passed_read) }
    ensures may { IsRun (1 ∷ 1 ∷ []) (Look 0) passed_read }
{}

/// A writer is decided and has stored one of its two values. The clock counts it already. Who reads one of
/// its cells then finds the cell changing and is refused, and reads both values once they are released.
pub fn no_half_stored_heap_is_read()
    ensures decided { ((attempt_of (pair between) 2).ending ≡ Some (Committed 1)) × ((pair between).clock ≡ 1) }
    ensures values { ((pair between).value 0 ≡ 5) × ((pair between).value 1 ≡ 1) }
    ensures refused { (attempt_of (pair between) 1).stage ≡ Stopped in_change }
    ensures rolled { (attempt_of (pair between_rolled) 1).ending ≡ Some (Rolled in_change 1) }
    ensures read { (attempt_of (pair between_read) 1).notes ≡ noted 0 1 5 ∷ noted 1 1 5 ∷ [] }
    ensures ended { (attempt_of (pair between_read) 1).ending ≡ Some (Read 1) }
    ensures over { AreOver (pair between_read) }
    ensures may { IsRun (1 ∷ 1 ∷ []) (Look 0) between_read }
{}

/// A caller has loaded a cell's metadata when a writer is decided and stores its value there. The caller
/// loads that value, which is of no heap that it may read from. But the metadata, loaded again, shows the
/// cell changing, so nothing is noted, and the next attempt reads the value once it is released.
pub fn no_value_is_read_while_it_is_stored()
    ensures stored { ((pair storing).value 0 ≡ 5) × ((pair storing).meta 0 ≡ record (owned 2 unwritten) { changing = true }) }
    ensures loaded { (attempt_of (pair storing) 1).stage ≡ Validate 0 0 unwritten 5 }
    ensures refused { (attempt_of (pair storing_found) 1).stage ≡ Stopped in_store }
    ensures told { (attempt_of (pair storing_found) 1).notes ≡ [] }
    ensures rolled { (attempt_of (pair storing_rolled) 1).ending ≡ Some (Rolled in_store 0) }
    ensures read { (attempt_of (pair storing_read) 1).notes ≡ noted 0 1 5 ∷ [] }
    ensures ended { (attempt_of (pair storing_read) 1).ending ≡ Some (Read 1) }
    ensures over { AreOver (pair storing_read) }
    ensures may { IsRun (1 ∷ 1 ∷ []) (Look 0) storing_read }
{}

/// A caller owns a cell that another is to write. The other dooms it, and is refused the cell all the
/// same. The owner finds that it is doomed when it is to prepare, and rolls back. Each writes
/// the cell in its next attempt.
pub fn a_doomed_owner_rolls_back()
    ensures doomed { (dooming doom).status 1 ≡ doomed (active 1) }
    ensures refused { (attempt_of (dooming doom) 2).stage ≡ Stopped held }
    ensures found { (attempt_of (dooming doom_found) 1).ending ≡ Some (Rolled by_another 0) }
    ensures told { (attempt_of (dooming doom_found) 1).notes ≡ noted 1 0 3 ∷ [] }
    ensures rolled_back { (dooming doom_rolled).meta 0 ≡ unwritten }
    ensures rolled { (attempt_of (dooming doom_rolled) 2).ending ≡ Some (Rolled held 0) }
    ensures history { (dooming doom_written).history ≡
        entry 1 2 (noted 1 0 3 ∷ []) ((0, 1) ∷ []) ∷ entry 2 2 [] ((0, 2) ∷ []) ∷ [] }
    ensures values { ((dooming doom_written).value 0 ≡ 2) × ((dooming doom_written).value 1 ≡ 3) }
    ensures over { AreOver (dooming doom_written) }
    ensures may { IsRun (0 ∷ 3 ∷ []) (Doom 0) doom_written }
{}
