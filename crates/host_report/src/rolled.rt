//! The line of an attempt that was rolled back: the script's name, where it read, why it was rolled
//! back and what it had printed.

ghost use Rattle.std.specs.Prelude.{◌≡◌, ◌++◌, ◌∷◌, [], ◌<◌, ◌^◌, decimal, OnOk};
ghost use Rattle.std.specs.List.{AllByRecursion};
ghost use Rattle.text_lines.specs.Lines.{line_of, spaced};
ghost use Rattle.ledger_model.specs.Report.{cause_words, flag, meta_text, rolled_line, trail_words};
ghost use Rattle.host_report.specs.WithinTypes.{IsCauseWithinTypes, IsMetaWithinTypes, IsRolledWithinTypes, IsWord};

use crate::row::{put_name, put_numbers};
use ledger_model::Rolled;
use std::alloc::AllocError;
use stm_model::{Addr, Cause, Meta, Words};
use text_lines::{end_line, put, put_number, put_number_word, put_word};

fn put_flag(text: &mut Vec<u8>, letter: &[u8], bit: bool) -> Result<(), AllocError>
    ensures { OnOk result (text.new.items ≡ text.old.items ++ flag letter.now bit) }
{
    if bit { put(text, letter) } else { Ok(()) }
}

fn put_meta(text: &mut Vec<u8>, meta: Meta) -> Result<(), AllocError>
    ensures text { OnOk result (text.new.items ≡ text.old.items ++ 32 ∷ meta_text meta) }
    ensures within { IsMetaWithinTypes meta }
{
    put_word(text, b"v")?;
    put_number(text, meta.version)?;
    put(text, b"o")?;
    put_number(text, u64::from(meta.owner))?;
    put_flag(text, b"c", meta.changing)?;
    put_flag(text, b"p", meta.pending)
}

/// Appends the kind of a cause and the address of its cell.
fn put_cell(text: &mut Vec<u8>, kind: &[u8], addr: Addr) -> Result<(), AllocError>
    ensures text { OnOk result (text.new.items ≡ text.old.items ++ spaced (kind.now ∷ decimal addr.0 ∷ [])) }
    ensures within { addr.0 < 2 ^ 32 }
{
    put_word(text, kind)?;
    put_number_word(text, u64::from(addr.0))
}

fn put_cause(text: &mut Vec<u8>, cause: Cause) -> Result<(), AllocError>
    ensures text { OnOk result (text.new.items ≡ text.old.items ++ spaced (cause_words cause)) }
    ensures within { OnOk result (IsCauseWithinTypes cause) }
{
    match cause {
        Cause::ReadConflict { addr, meta } => {
            put_cell(text, b"readconflict", addr)?;
            put_meta(text, meta)
        }
        Cause::Moved {
            addr,
            first,
            second,
        } => {
            put_cell(text, b"moved", addr)?;
            put_meta(text, first)?;
            put_meta(text, second)
        }
        Cause::Stale {
            addr,
            version,
            meta,
        } => {
            put_cell(text, b"stale", addr)?;
            put_number_word(text, version)?;
            put_meta(text, meta)
        }
        Cause::WriteConflict { addr, meta } => {
            put_cell(text, b"writeconflict", addr)?;
            put_meta(text, meta)
        }
        Cause::Doomed { status } => {
            put_word(text, b"doomed")?;
            put_number_word(text, status.serial)
        }
        Cause::ClockMoved { first, second } => {
            put_word(text, b"clockmoved")?;
            put_number_word(text, first)?;
            put_number_word(text, second)
        }
        Cause::Retry => put_word(text, b"retry"),
        _ => Ok(()),
    }
}

fn put_trail(text: &mut Vec<u8>, trail: &Words) -> Result<(), AllocError>
    ensures text { OnOk result (text.new.items ≡ text.old.items ++ spaced (trail_words trail.now)) }
    ensures within { OnOk result (AllByRecursion IsWord trail.now) }
{
    if trail.len() == 0 {
        return Ok(());
    }
    put_word(text, b":")?;
    put_numbers(text, trail)
}

/// Appends the line of an attempt that was rolled back.
pub fn put_rolled(text: &mut Vec<u8>, rolled: &Rolled) -> Result<(), AllocError>
    ensures text { OnOk result (text.new.items ≡ text.old.items ++ line_of (rolled_line rolled.now)) }
    ensures within { OnOk result (IsRolledWithinTypes rolled.now) }
{
    put(text, b"rolled")?;
    put_name(text, rolled.worker, rolled.number)?;
    put_word(text, b"at")?;
    put_number_word(text, rolled.prefix)?;
    put_cause(text, rolled.cause)?;
    put_trail(text, &rolled.trail)?;
    end_line(text)
}
