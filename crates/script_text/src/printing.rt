//! Printing the canonical text of a job. Each line is a keyword and the words behind it, and the
//! lines of a block stand between that of its statement and an `end`.

ghost use Rattle.std.specs.Prelude.{◌≡◌, ◌++◌, ◌∷◌, [], codes, decimal, flat_map, map, IfOk, IsTrue, OnOk};
ghost use Rattle.text_lines.specs.Lines.{line_of, spaced, text_of};
ghost use Rattle.ledger_model.specs.Report.{phase_word};
ghost use Rattle.ledger_model.specs.declared.script.Operand.TheVariants.{Number};
ghost use Rattle.script_text.specs.Printing.{block_lines, canonical, end_line, header_lines, opening_line, operand_word, parts_lines, script_lines, statement_lines, steps_line, steps_lines, worker_lines};
ghost use Rattle.script_text.specs.OfMaps.{is_of_maps};

use ledger_model::{Block, Job, Operand, Script, Scripts, Statement};
use std::alloc::{AllocError, Global};
use stm_model::{HookPhase, Memory};
use text_lines::{end_line, put, put_number, put_number_word, put_word};

pub(crate) fn phase_word(phase: HookPhase) -> &'static [u8]
    ensures { result.now ≡ phase_word phase }
{
    match phase {
        HookPhase::Preparing => b"preparing",
        HookPhase::Committing => b"committing",
        HookPhase::Commit => b"commit",
        HookPhase::Rollback => b"rollback",
        HookPhase::Completion => b"completion",
    }
}

/// The operand that is written as the number.
fn numeral(number: u32) -> Operand
    ensures { result ≡ Number number }
{
    Operand::Number(u64::from(number))
}

fn put_operand(text: &mut Vec<u8>, operand: Operand) -> Result<(), AllocError>
    ensures { OnOk result (text.new.items ≡ text.old.items ++ 32 ∷ operand_word operand) }
{
    match operand {
        Operand::Reg(reg) => {
            put_word(text, b"r")?;
            put_number(text, u64::from(reg))
        }
        Operand::Number(number) => put_number_word(text, number),
    }
}

fn put_operands(text: &mut Vec<u8>, operands: &[Operand]) -> Result<(), AllocError>
    ensures { OnOk result (text.new.items
        ≡ text.old.items ++ spaced (map operand_word operands.now)) }
{
    for operand in operands {
        put_operand(text, *operand)?;
    }
    Ok(())
}

/// Appends a line of a keyword and operands.
fn put_row(text: &mut Vec<u8>, keyword: &[u8], operands: &[Operand]) -> Result<(), AllocError>
    ensures { OnOk result (text.new.items
        ≡ text.old.items ++ line_of (keyword.now ∷ map operand_word operands.now)) }
{
    put(text, keyword)?;
    put_operands(text, operands)?;
    end_line(text)
}

fn put_hook(text: &mut Vec<u8>, phase: HookPhase, token: u64) -> Result<(), AllocError>
    ensures { OnOk result (text.new.items
        ≡ text.old.items ++ line_of (codes "hook" ∷ phase_word phase ∷ decimal token ∷ [])) }
{
    put(text, b"hook")?;
    put_word(text, phase_word(phase))?;
    put_number_word(text, token)?;
    end_line(text)
}

fn put_of_maps(text: &mut Vec<u8>, statement: &Statement) -> Result<(), AllocError>
    requires { IsTrue (is_of_maps statement.now) }
    ensures { OnOk result (text.new.items
        ≡ text.old.items ++ text_of (statement_lines statement.now)) }
{
    match statement {
        Statement::Put { map, key, value } => put_row(text, b"put", &[numeral(*map), *key, *value]),
        Statement::Del { map, key } => put_row(text, b"del", &[numeral(*map), *key]),
        Statement::Look {
            reg,
            map,
            key,
            other,
        } => put_row(
            text,
            b"look",
            &[Operand::Reg(*reg), numeral(*map), *key, *other],
        ),
        Statement::LookSlot {
            reg,
            slot,
            key,
            other,
        } => put_row(
            text,
            b"from",
            &[Operand::Reg(*reg), numeral(*slot), *key, *other],
        ),
        Statement::Snap { slot, map } => put_row(text, b"snap", &[numeral(*slot), numeral(*map)]),
        Statement::Share { from, into } => put_row(
            text,
            b"share",
            &[numeral(*from), numeral(*into)],
        ),
        _ => unreachable!(),
    }
}

#[cycle(print)]
fn put_statement(text: &mut Vec<u8>, statement: &Statement) -> Result<(), AllocError>
    ensures { OnOk result (text.new.items
        ≡ text.old.items ++ text_of (statement_lines statement.now)) }
{
    match statement {
        Statement::Const { reg, number } => {
            let operands = [Operand::Reg(*reg), Operand::Number(*number)];
            put_row(text, b"const", &operands)
        }
        Statement::Read { reg, cell } => {
            put_row(text, b"read", &[Operand::Reg(*reg), numeral(*cell)])
        }
        Statement::Write { cell, value } => put_row(text, b"write", &[numeral(*cell), *value]),
        Statement::Add { reg, value } => put_row(text, b"add", &[Operand::Reg(*reg), *value]),
        Statement::Sub { reg, value } => put_row(text, b"sub", &[Operand::Reg(*reg), *value]),
        Statement::Print { value } => put_row(text, b"print", &[*value]),
        Statement::Check { left, right, code } => {
            put_row(text, b"check", &[*left, *right, numeral(u32::from(*code))])
        }
        Statement::Need { left, right } => put_row(text, b"need", &[*left, *right]),
        Statement::Move { from, into, value } => {
            put_row(text, b"move", &[numeral(*from), numeral(*into), *value])
        }
        Statement::Inner { reg, block } => {
            put_row(text, b"inner", &[Operand::Reg(*reg)])?;
            put_ended(text, block.as_slice())
        }
        Statement::Either { parts } => {
            put_row(text, b"either", &[])?;
            put_parts(text, parts.as_slice())
        }
        Statement::Late { block } => put_late(text, block.as_slice()),
        Statement::Hook { phase, token } => put_hook(text, *phase, *token),
        _ => put_of_maps(text, statement),
    }
}

#[cycle(print)]
fn put_block(text: &mut Vec<u8>, block: &[Statement]) -> Result<(), AllocError>
    ensures { OnOk result (text.new.items ≡ text.old.items ++ text_of (block_lines block.now)) }
{
    for statement in block {
        put_statement(text, statement)?;
    }
    Ok(())
}

#[cycle(print)]
fn put_late(text: &mut Vec<u8>, block: &[Statement]) -> Result<(), AllocError>
    ensures { OnOk result (text.new.items ≡ text.old.items
        ++ text_of ((codes "late" ∷ []) ∷ (block_lines block.now ++ end_line ∷ []))) }
{
    put_row(text, b"late", &[])?;
    put_ended(text, block)
}

/// Appends the lines of a block and the `end` behind them.
#[cycle(print)]
fn put_ended(text: &mut Vec<u8>, block: &[Statement]) -> Result<(), AllocError>
    ensures { OnOk result (text.new.items
        ≡ text.old.items ++ text_of (block_lines block.now ++ end_line ∷ [])) }
{
    put_block(text, block)?;
    put_row(text, b"end", &[])
}

/// Appends the lines of parts apart by `or`, and the `end` behind them.
#[cycle(print)]
fn put_parts(text: &mut Vec<u8>, parts: &[Block]) -> Result<(), AllocError>
    ensures { OnOk result (text.new.items ≡ text.old.items
        ++ text_of (parts_lines (map (map statement_lines) parts.now) ++ end_line ∷ [])) }
{
    let mut first = true;
    for part in parts {
        if !first {
            put_row(text, b"or", &[])?;
        }
        put_block(text, part.as_slice())?;
        first = false;
    }
    put_row(text, b"end", &[])
}

fn put_scripts(text: &mut Vec<u8>, scripts: &[Script]) -> Result<(), AllocError>
    ensures { OnOk result (text.new.items
        ≡ text.old.items ++ text_of (flat_map script_lines scripts.now)) }
{
    for script in scripts {
        put_row(text, b"script", &[])?;
        put_ended(text, script.block.as_slice())?;
    }
    Ok(())
}

fn put_workers(text: &mut Vec<u8>, workers: &[Scripts]) -> Result<(), AllocError>
    ensures { OnOk result (text.new.items
        ≡ text.old.items ++ text_of (flat_map worker_lines workers.now)) }
{
    for scripts in workers {
        put_row(text, b"worker", &[])?;
        put_scripts(text, scripts.as_slice())?;
    }
    Ok(())
}

fn put_header(text: &mut Vec<u8>, keyword: &[u8], count: u32) -> Result<(), AllocError>
    ensures { OnOk result (text.new.items
        ≡ text.old.items ++ text_of (header_lines keyword.now count)) }
{
    if count == 0 {
        return Ok(());
    }
    put_row(text, keyword, &[numeral(count)])
}

fn put_openings(text: &mut Vec<u8>, openings: &[(u32, u64)]) -> Result<(), AllocError>
    ensures { OnOk result (text.new.items
        ≡ text.old.items ++ text_of (map opening_line openings.now)) }
{
    for (cell, value) in openings {
        put_row(text, b"ref", &[numeral(*cell), Operand::Number(*value)])?;
    }
    Ok(())
}

fn put_steps_line(text: &mut Vec<u8>, steps: &[u16]) -> Result<(), AllocError>
    ensures { OnOk result (text.new.items ≡ text.old.items ++ line_of (steps_line steps.now)) }
{
    put(text, b"steps")?;
    for worker in steps {
        put_number_word(text, u64::from(*worker))?;
    }
    end_line(text)
}

fn put_steps(text: &mut Vec<u8>, steps: &[u16]) -> Result<(), AllocError>
    ensures { OnOk result (text.new.items ≡ text.old.items ++ text_of (steps_lines steps.now)) }
{
    let mut rest = steps;
    while !rest.is_empty() {
        let (line, more) = rest.split_at(rest.len().min(32));
        put_steps_line(text, line)?;
        rest = more;
    }
    Ok(())
}

/// The canonical text of a job.
pub fn print(alloc: Global, job: &Job) -> Result<Vec<u8>, Memory>
    ensures { IfOk result (λ text. text.items ≡ canonical job.now) }
{
    let mut text = Vec::new(alloc);
    put(&mut text, b"stm 1\n")?;
    put_header(&mut text, b"refs", job.refs)?;
    put_header(&mut text, b"maps", job.maps)?;
    put_header(&mut text, b"snaps", job.snaps)?;
    put_header(&mut text, b"blocks", job.blocks)?;
    put_openings(&mut text, job.openings.as_slice())?;
    put_workers(&mut text, job.workers.as_slice())?;
    put_steps(&mut text, job.steps.as_slice())?;
    Ok(text)
}
