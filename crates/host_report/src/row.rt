//! The line of a row: its first word, and then word by word the others, each behind a space.

ghost use Rattle.std.specs.Prelude.{◌≡◌, ◌++◌, ◌∷◌, [], codes, decimal, map, OnOk};
ghost use Rattle.std.specs.List.{AllByRecursion};
ghost use Rattle.text_lines.specs.Lines.{line_of, spaced};
ghost use Rattle.ledger_model.specs.Report.{drawn_words, kind_word, name_word, phase_word, print_words, result_words, row_line, run_word};
ghost use Rattle.host_report.specs.WithinTypes.{IsNameWithinTypes, IsResultWithinTypes, IsRowWithinTypes, IsRunWithinTypes, IsWord};

use ledger_model::{Row, RowResult};
use std::alloc::AllocError;
use stm_model::{HookPhase, Runs, Words};
use text_lines::{end_line, put, put_number, put_number_word, put_word};

fn put_kind(text: &mut Vec<u8>, writer: bool) -> Result<(), AllocError>
    ensures { OnOk result (text.new.items ≡ text.old.items ++ 32 ∷ kind_word writer) }
{
    if writer {
        put_word(text, b"w")
    } else {
        put_word(text, b"r")
    }
}

fn phase_word(phase: HookPhase) -> &'static [u8]
    ensures { result.now ≡ phase_word phase }
{
    match phase {
        HookPhase::Preparing => b"preparing",
        HookPhase::Committing => b"committing",
        HookPhase::Commit => b"commit",
        HookPhase::Rollback => b"rollback",
        HookPhase::Completion => b"completion",
    }
}

/// Appends a space and the name of a script.
pub fn put_name(text: &mut Vec<u8>, worker: u16, number: u32) -> Result<(), AllocError>
    ensures text { OnOk result (text.new.items ≡ text.old.items ++ 32 ∷ name_word worker number) }
    ensures within { IsNameWithinTypes (worker, number) }
{
    put_number_word(text, u64::from(worker))?;
    put(text, b".")?;
    put_number(text, u64::from(number))
}

fn put_result(text: &mut Vec<u8>, outcome: RowResult) -> Result<(), AllocError>
    ensures text { OnOk result (text.new.items ≡ text.old.items ++ spaced (result_words outcome)) }
    ensures within { OnOk result (IsResultWithinTypes outcome) }
{
    match outcome {
        RowResult::Done => put_word(text, b"ok"),
        RowResult::Fail { code } => {
            put_word(text, b"fail")?;
            put_number_word(text, u64::from(code))
        }
        RowResult::Spent => put_word(text, b"spent"),
        RowResult::Full { used, allowance } => {
            put_word(text, b"full")?;
            put_number_word(text, used)?;
            put_number_word(text, allowance)
        }
    }
}

/// Appends numbers, each behind a space.
pub fn put_numbers(text: &mut Vec<u8>, numbers: &Words) -> Result<(), AllocError>
    ensures text { OnOk result (text.new.items ≡ text.old.items ++ spaced (map decimal numbers.now)) }
    ensures within { OnOk result (AllByRecursion IsWord numbers.now) }
{
    for number in numbers.as_slice() {
        put_number_word(text, *number)?;
    }
    Ok(())
}

fn put_prints(text: &mut Vec<u8>, outcome: RowResult, prints: &Words) -> Result<(), AllocError>
    ensures text { OnOk result (text.new.items ≡ text.old.items ++ spaced (print_words outcome prints.now)) }
    ensures within { OnOk result (outcome ≡ RowResult.Done → AllByRecursion IsWord prints.now) }
{
    match outcome {
        RowResult::Done => put_numbers(text, prints),
        _ => Ok(()),
    }
}

fn put_run(text: &mut Vec<u8>, phase: HookPhase, token: u64) -> Result<(), AllocError>
    ensures { OnOk result (text.new.items ≡ text.old.items ++ 32 ∷ run_word (phase, token)) }
{
    put_word(text, phase_word(phase))?;
    put(text, b":")?;
    put_number(text, token)
}

fn put_runs(text: &mut Vec<u8>, runs: &Runs) -> Result<(), AllocError>
    ensures text { OnOk result (text.new.items ≡ text.old.items ++ spaced (map run_word runs.now)) }
    ensures within { OnOk result (AllByRecursion IsRunWithinTypes runs.now) }
{
    for (phase, token) in runs.as_slice() {
        put_run(text, *phase, *token)?;
    }
    Ok(())
}

fn put_drawn(text: &mut Vec<u8>, drawn: u64) -> Result<(), AllocError>
    ensures { OnOk result (text.new.items ≡ text.old.items ++ spaced (drawn_words drawn)) }
{
    if drawn == 0 {
        return Ok(());
    }
    put_word(text, b"+")?;
    put_number(text, drawn)
}

/// Appends the line of a row.
pub fn put_row(text: &mut Vec<u8>, row: &Row) -> Result<(), AllocError>
    ensures text { OnOk result (text.new.items ≡ text.old.items ++ line_of (row_line row.now)) }
    ensures within { OnOk result (IsRowWithinTypes row.now) }
{
    put_number(text, row.position)?;
    put_kind(text, row.writer)?;
    put_name(text, row.worker, row.number)?;
    put_result(text, row.result)?;
    put_prints(text, row.result, &row.prints)?;
    put_runs(text, &row.runs)?;
    put_drawn(text, row.drawn)?;
    end_line(text)
}
