//! The lines of a report, one kind after the other.

ghost use Rattle.std.specs.Prelude.{◌≡◌, ◌++◌, ◌∷◌, [], codes, map, OnOk};
ghost use Rattle.std.specs.List.{AllByRecursion, enumerate_from};
ghost use Rattle.text_lines.specs.Lines.{line_of, text_of};
ghost use Rattle.ledger_model.specs.Report.{contents_lines, closing_lines, count_line, left_line, pair_line, pair_lines, ref_line, ref_lines, report, rolled_line, row_line, rolled_and_left_lines};
ghost use Rattle.host_report.specs.WithinTypes.{AreContentsWithinTypes, EachWithin, IsMapWithinTypes, IsNameWithinTypes, IsPairWithinTypes, IsRolledWithinTypes, IsRowWithinTypes, IsWithinTypes, IsWord};

use crate::rolled::put_rolled;
use crate::row::{put_name, put_row};
use ledger_model::{Contents, Listing, Names, PairLists, RolledList, Rows};
use std::alloc::AllocError;
use stm_model::{Pairs, Words};
use text_lines::{end_line, put, put_number_word};

fn put_head(text: &mut Vec<u8>) -> Result<(), AllocError>
    ensures { OnOk result (text.new.items ≡ text.old.items ++ line_of (codes "ledger" ∷ codes "1" ∷ [])) }
{
    put(text, b"ledger 1\n")
}

fn put_rows(text: &mut Vec<u8>, rows: &Rows) -> Result<(), AllocError>
    ensures text { OnOk result (text.new.items ≡ text.old.items ++ text_of (map row_line rows.now)) }
    ensures within { OnOk result (EachWithin IsRowWithinTypes rows.now) }
{
    for row in rows.as_slice() {
        put_row(text, row)?;
    }
    Ok(())
}

fn put_all_rolled(text: &mut Vec<u8>, rolled: &RolledList) -> Result<(), AllocError>
    ensures text { OnOk result (text.new.items ≡ text.old.items ++ text_of (map rolled_line rolled.now)) }
    ensures within { OnOk result (AllByRecursion IsRolledWithinTypes rolled.now) }
{
    for attempt in rolled.as_slice() {
        put_rolled(text, attempt)?;
    }
    Ok(())
}

fn put_left(text: &mut Vec<u8>, word: &[u8], worker: u16, number: u32) -> Result<(), AllocError>
    ensures text { OnOk result (text.new.items ≡ text.old.items ++ line_of (left_line word.now (worker, number))) }
    ensures within { IsNameWithinTypes (worker, number) }
{
    put(text, word)?;
    put_name(text, worker, number)?;
    end_line(text)
}

fn put_all_left(text: &mut Vec<u8>, word: &[u8], names: &Names) -> Result<(), AllocError>
    ensures text { OnOk result (text.new.items ≡ text.old.items ++ text_of (map (left_line word.now) names.now)) }
    ensures within { OnOk result (AllByRecursion IsNameWithinTypes names.now) }
{
    for (worker, number) in names.as_slice() {
        put_left(text, word, *worker, *number)?;
    }
    Ok(())
}

/// Appends what was rolled back, and what is left.
fn put_rolled_and_left(text: &mut Vec<u8>, listing: &Listing) -> Result<(), AllocError>
    ensures text { OnOk result (text.new.items ≡ text.old.items ++ text_of (rolled_and_left_lines listing.now)) }
    ensures rolled { OnOk result (AllByRecursion IsRolledWithinTypes listing.now.rolled) }
    ensures blocked { OnOk result (AllByRecursion IsNameWithinTypes listing.now.blocked) }
    ensures worn { OnOk result (AllByRecursion IsNameWithinTypes listing.now.worn) }
{
    put_all_rolled(text, &listing.rolled)?;
    put_all_left(text, b"blocked", &listing.blocked)?;
    put_all_left(text, b"worn", &listing.worn)
}

fn put_ref(text: &mut Vec<u8>, index: usize, value: u64) -> Result<(), AllocError>
    ensures { OnOk result (text.new.items ≡ text.old.items ++ line_of (ref_line (index, value))) }
{
    put(text, b"ref")?;
    put_number_word(text, index as u64)?;
    put_number_word(text, value)?;
    end_line(text)
}

fn put_refs(text: &mut Vec<u8>, refs: &Words) -> Result<(), AllocError>
    ensures text { OnOk result (text.new.items ≡ text.old.items ++ text_of (ref_lines refs.now)) }
    ensures within { OnOk result (EachWithin IsWord refs.now) }
{
    for (index, value) in refs.as_slice().iter().enumerate() {
        put_ref(text, index, *value)?;
    }
    Ok(())
}

fn put_pair(
    text: &mut Vec<u8>,
    word: &[u8],
    number: usize,
    pair: (u64, u64),
) -> Result<(), AllocError>
    ensures text { OnOk result (text.new.items ≡ text.old.items ++ line_of (pair_line word.now number pair)) }
    ensures within { IsPairWithinTypes pair }
{
    put(text, word)?;
    put_number_word(text, number as u64)?;
    put_number_word(text, pair.0)?;
    put_number_word(text, pair.1)?;
    end_line(text)
}

fn put_map(text: &mut Vec<u8>, word: &[u8], number: usize, pairs: &Pairs) -> Result<(), AllocError>
    ensures text { OnOk result (text.new.items ≡ text.old.items ++ text_of (map (pair_line word.now number) pairs.now)) }
    ensures within { OnOk result (IsMapWithinTypes pairs.now) }
{
    for pair in pairs.as_slice() {
        put_pair(text, word, number, *pair)?;
    }
    Ok(())
}

/// Appends the pairs of all maps, or of all slots.
fn put_maps(text: &mut Vec<u8>, word: &[u8], maps: &PairLists) -> Result<(), AllocError>
    ensures text { OnOk result (text.new.items ≡ text.old.items ++ text_of (pair_lines word.now maps.now)) }
    ensures within { OnOk result (EachWithin IsMapWithinTypes maps.now) }
{
    for (index, pairs) in maps.as_slice().iter().enumerate() {
        put_map(text, word, index, pairs)?;
    }
    Ok(())
}

fn put_contents(text: &mut Vec<u8>, contents: &Contents) -> Result<(), AllocError>
    ensures text { OnOk result (text.new.items ≡ text.old.items ++ text_of (contents_lines contents.now)) }
    ensures within { OnOk result (AreContentsWithinTypes contents.now) }
{
    let _used = contents.used;
    put_refs(text, &contents.refs)?;
    put_maps(text, b"map", &contents.maps)?;
    put_maps(text, b"snap", &contents.slots)
}

fn put_count(text: &mut Vec<u8>, word: &[u8], count: u64) -> Result<(), AllocError>
    ensures { OnOk result (text.new.items ≡ text.old.items ++ line_of (count_line word.now count)) }
{
    put(text, word)?;
    put_number_word(text, count)?;
    end_line(text)
}

/// Appends the contents and the counts.
fn put_closing(text: &mut Vec<u8>, listing: &Listing) -> Result<(), AllocError>
    ensures text { OnOk result (text.new.items ≡ text.old.items ++ text_of (closing_lines listing.now)) }
    ensures within { OnOk result (AreContentsWithinTypes listing.now.contents) }
{
    put_contents(text, &listing.contents)?;
    put_count(text, b"used", listing.contents.used)?;
    put_count(text, b"done", listing.rows.len() as u64)
}

/// Appends the whole report.
pub fn put_report(text: &mut Vec<u8>, listing: &Listing) -> Result<(), AllocError>
    ensures text { OnOk result (text.new.items ≡ text.old.items ++ report listing.now) }
    ensures within { OnOk result (IsWithinTypes listing.now) }
{
    put_head(text)?;
    put_rows(text, &listing.rows)?;
    put_rolled_and_left(text, listing)?;
    put_closing(text, listing)
}
