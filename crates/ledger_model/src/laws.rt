//! The laws of running, and worked hashes. Each function does nothing: its clauses are theorems.
ghost use Rattle.std.specs.Prelude.{◌≡◌, ◌≢◌, ◌≤◌, ◌/◌, ◌%◌, ◌^◌, ℕ, false, List, [], ◌∷◌, ◌++◌, length, map, Some, None};
ghost use Rattle.stm_model.specs.declared.cause.HookPhase.{HookPhase};
ghost use Rattle.stm_model.specs.Handlers.{undoing};
ghost use Rattle.stm_model.specs.Pairs.{KeysAscend};
ghost use Rattle.stm_model.specs.Telling.{Extends};
ghost use Rattle.ledger_model.specs.Fits.{JobFits, Places, ScriptFits};
ghost use Rattle.ledger_model.specs.Growth.{Grows, LeavesMaps, MapsAscend, Rises, SameSizes, SameUnlessWritten, recorded};
ghost use Rattle.ledger_model.specs.Heard.{Hearing, hear, heard_run, hearing_start};
ghost use Rattle.ledger_model.specs.Maps.{delete_pair, hash, put_pair, value_at};
ghost use Rattle.ledger_model.specs.declared.job.Contents.{Contents};
ghost use Rattle.ledger_model.specs.Replays.{contents_after};
ghost use Rattle.ledger_model.specs.declared.job.Job.{Job};
ghost use Rattle.ledger_model.specs.declared.listing.Row.{Row};
ghost use Rattle.ledger_model.specs.declared.script.Statement.{Statement};
ghost use Rattle.ledger_model.specs.declared.script.Statement.TheOpen.{Statement-F};
ghost use Rattle.ledger_model.specs.declared.script.Statement.TheViews.{roll-Statement};
ghost use Rattle.ledger_model.specs.declared.script.Statement.TheFolds.{map-Statement};
ghost use Rattle.ledger_model.specs.Words.{HoldsWords, RunsOnWords};
ghost use Rattle.ledger_model.specs.declared.script.Script.{Script};
ghost use Rattle.ledger_model.specs.Run.{Kept, Known, State, and_then, known, late_bodies, meaning, run, run_block, start, statement_count, step, undone};
ghost use Rattle.ledger_model.specs.Talk.{Talk, talk};

/// A statement does what its step says, with what each statement inside it does in that one's
/// place; and a statement inside a before-commit body is kept as it is.
pub fn statements_do_their_steps()
    ensures steps { (layer : Statement-F Statement) (s : State) → meaning (roll-Statement layer) s ≡ step (map-Statement Statement Known known layer) s }
    ensures itself { (statement : Statement) → (known statement).itself ≡ statement }
{}

/// Before-commit bodies are registered with the script's own statements and run behind them, and each
/// may register more. Where the script is kept, none is left over. The queue never runs out of turns:
/// as many as there are statements, or any more of them, make the same run.
pub fn every_late_body_runs()
    ensures none_left { (block : List Statement) (contents : Contents) →
        (run block contents).end ≡ Kept → (run block contents).after.lates ≡ [] }
    ensures turns { (block : List Statement) (contents : Contents) (turns : ℕ) → statement_count block ≤ turns →
        and_then (run_block block (start contents)) (late_bodies turns) ≡ run block contents }
{}

/// All that a run ever prints, the totals that it notes, the handlers that it has registered and those
/// that ran at undone blocks are together no more than the script has statements.
pub fn a_run_records_at_most_its_statements()
    ensures { (block : List Statement) (contents : Contents) →
        recorded (run block contents).after ≤ statement_count block }
{}

/// What was printed, registered, run or added up stays in front of what comes later, and totals only
/// rise. So a block that is undone runs its own handlers, and none from before it.
pub fn what_is_recorded_stays_in_front()
    ensures statement { (statement : Statement) (s : State) →
        Grows s (meaning statement s).after × Extends s.lates (meaning statement s).after.lates }
    ensures block { (block : List Statement) (s : State) →
        Grows s (run_block block s).after × Extends s.lates (run_block block s).after.lates }
    ensures late_bodies { (block : List Statement) (contents : Contents) →
        Grows (run_block block (start contents)).after (run block contents).after }
    ensures totals { (block : List Statement) (contents : Contents) →
        Rises 0 (run block contents).after.totals }
    ensures undone { (before after : State) (own : List (HookPhase × ℕ)) → after.hooks ≡ before.hooks ++ own →
        (undone before after).runs ≡ after.runs ++ undoing own }
{}

/// Where nothing is written at the end of a block or a script, the contents are as it found them.
pub fn who_writes_nothing_changes_nothing()
    ensures block { (block : List Statement) (s : State) → SameUnlessWritten s (run_block block s).after }
    ensures run { (block : List Statement) (contents : Contents) →
        (run block contents).after.wrote ≡ false → (run block contents).after.contents ≡ contents }
{}

/// No run changes how many registers, references, maps and slots there are, or how many blocks are in
/// use. So the writers of a listing leave as many as the job has.
pub fn no_run_changes_a_size()
    ensures block { (block : List Statement) (s : State) → SameSizes s (run_block block s).after }
    ensures run { (block : List Statement) (contents : Contents) →
        SameSizes (start contents) (run block contents).after }
    ensures listed { (job : Job) (rows : List Row) (n : ℕ) → let left = contents_after job rows n in
        (length left.refs ≡ job.refs) × (length left.maps ≡ job.maps) × (length left.slots ≡ job.snaps) }
{}

/// A map's pairs stand by ascending keys, each key once. Setting and removing a key, blocks and whole
/// runs keep them so, and so they stand in what the writers of a listing leave.
pub fn maps_ascend_by_their_keys()
    ensures put { (key value : ℕ) (pairs : List (ℕ × ℕ)) → KeysAscend pairs → KeysAscend (put_pair key value pairs) }
    ensures delete { (key : ℕ) (pairs : List (ℕ × ℕ)) → KeysAscend pairs → KeysAscend (delete_pair key pairs) }
    ensures block { (block : List Statement) (s : State) →
        MapsAscend s.contents → MapsAscend (run_block block s).after.contents }
    ensures run { (block : List Statement) (contents : Contents) →
        MapsAscend contents → MapsAscend (run block contents).after.contents }
    ensures listed { (job : Job) (rows : List Row) (n : ℕ) → MapsAscend (contents_after job rows n) }
{}

/// A script that is within the limits runs on words: its registers, what it leaves in references, maps
/// and slots, what it prints, and the tokens of its handlers. So are the contents that the writers of a
/// listing leave, for a job within the limits.
pub fn all_numbers_are_words()
    ensures run { (there : Places) (script : Script) (contents : Contents) →
        ScriptFits there script → HoldsWords contents → RunsOnWords (run script.block contents).after }
    ensures listed { (job : Job) (rows : List Row) (n : ℕ) →
        JobFits job → HoldsWords (contents_after job rows n) }
{}

/// Without maps and slots, what a script of at most 2^32 statements asks is its run: heard on plain
/// contents it ends as the run does and leaves what the run leaves, and no block stays open. Such a run
/// draws nothing.
pub fn what_a_script_asks_is_its_run()
    ensures heard { (there : Places) (script : Script) (contents : Contents) →
        there.maps ≡ 0 → there.snaps ≡ 0 → ScriptFits there script → statement_count script.block ≤ 2 ^ 32 →
        hear (talk script.block) (hearing_start contents) ≡ heard_run [] (run script.block contents) }
    ensures maps { (there : Places) (script : Script) (contents : Contents) →
        there.maps ≡ 0 → there.snaps ≡ 0 → ScriptFits there script →
        LeavesMaps (start contents) (run script.block contents).after }
{}

/// From any moment of any talk, what was printed and which handlers ran at undone blocks stays in front
/// of what comes later.
pub fn what_is_heard_stays_in_front()
    ensures trail { (talk : Talk) (h : Hearing) → Extends h.trail (hear talk h).after.trail }
    ensures runs { (talk : Talk) (h : Hearing) → Extends h.runs (hear talk h).after.runs }
{}

/// A key has the value that it was given, and none once it was removed. All other keys have what they
/// had.
pub fn a_key_has_what_it_was_given()
    ensures put { (key value : ℕ) (pairs : List (ℕ × ℕ)) → value_at key (put_pair key value pairs) ≡ Some value }
    ensures put_others { (key value other : ℕ) (pairs : List (ℕ × ℕ)) → other ≢ key →
        value_at other (put_pair key value pairs) ≡ value_at other pairs }
    ensures delete { (key : ℕ) (pairs : List (ℕ × ℕ)) → KeysAscend pairs →
        value_at key (delete_pair key pairs) ≡ None }
    ensures delete_others { (key other : ℕ) (pairs : List (ℕ × ℕ)) → other ≢ key →
        value_at other (delete_pair key pairs) ≡ value_at other pairs }
{}

/// The low four bits of the hashes of 1 to 9 are all set, and what stands next to them differs.
pub fn hashes_spread_upwards()
    ensures low { map (λ key. hash key % 16) (1 ∷ 2 ∷ 3 ∷ 4 ∷ 5 ∷ 6 ∷ 7 ∷ 8 ∷ 9 ∷ []) ≡ 15 ∷ 15 ∷ 15 ∷ 15 ∷ 15 ∷ 15 ∷ 15 ∷ 15 ∷ 15 ∷ [] }
    ensures next { map (λ key. hash key / 16 % 16) (1 ∷ 2 ∷ 3 ∷ 4 ∷ 5 ∷ 6 ∷ 7 ∷ 8 ∷ 9 ∷ []) ≡ 13 ∷ 11 ∷ 5 ∷ 7 ∷ 5 ∷ 11 ∷ 13 ∷ 15 ∷ 13 ∷ [] }
{}
