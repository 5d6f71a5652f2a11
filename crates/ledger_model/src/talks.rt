//! The laws of what scripts ask. Each function does nothing: its clauses are theorems.
ghost use Rattle.std.specs.Prelude.{◌≤◌, ◌^◌};
ghost use Rattle.ledger_model.specs.Allowed.{IsAllowed, first_footing};
ghost use Rattle.ledger_model.specs.Fits.{Places, ScriptFits};
ghost use Rattle.ledger_model.specs.Run.{statement_count};
ghost use Rattle.ledger_model.specs.Talk.{talk};
ghost use Rattle.ledger_model.specs.declared.script.Script.{Script};

/// A script within the limits, of at most 2^32 statements, asks for nothing that may not be asked: only
/// cells that are there, words, levels within the deepest, closed where one is open, before-commit
/// bodies by how many were registered before, and causes of its own. Behind its finish it has one turn
/// for each of those bodies, unless it gives up.
pub fn what_a_script_asks_may_be_asked()
    ensures { (there : Places) (script : Script) → ScriptFits there script → statement_count script.block ≤ 2 ^ 32 →
        IsAllowed there.refs first_footing (talk script.block) }
{}
