//! Long jobs.
use crate::jobs::{MOST_STEPS, job_of, traced};
use ledger_model::Listing;
use std::alloc::{AllocError, Global};
use std::process::Abort;
use std::test::Fail;

// The most bytes of a job text that the program takes.
const MOST_BYTES: usize = 1 << 20;

// What comes of a text.
fn listing_of(rt: &impl Abort, alloc: Global, text: &[u8]) -> Result<Listing, Fail> {
    let job = job_of(rt, alloc, text)?;
    Ok(traced(alloc, &job)?)
}

// So many workers add 1 to one reference in so many scripts each, of four statements.
fn many_adds(alloc: Global, workers: u32, scripts: u32) -> Result<Vec<u8>, AllocError> {
    let mut text = Vec::from_slice(alloc, b"stm 1\nrefs 16\n")?;
    for _ in 0..workers {
        text.extend_from_slice(b"worker\n")?;
        for _ in 0..scripts {
            text.extend_from_slice(b"script\nread r0 3\nadd r0 1\nwrite 3 r0\nprint r0\nend\n")?;
        }
    }
    Ok(text)
}

// So many scripts have added 1, one after another.
fn has_added(listing: &Listing, scripts: u64) -> bool {
    let rows = listing.rows.as_slice();
    let last = rows.last().map(|row| row.position);
    rows.len() as u64 == scripts
        && last == Some(scripts)
        && listing.contents.refs.as_slice().get(3).copied() == Some(scripts)
}

// So many lines of 64 steps each, of worker 1 and worker 2 by turns.
fn put_turns(text: &mut Vec<u8>, alloc: Global, lines: usize) -> Result<(), AllocError> {
    let turns = " 1 2".repeat(alloc, 32)?;
    for _ in 0..lines {
        text.extend_from_slice(b"steps")?;
        text.extend_from_slice(turns.as_bytes())?;
        text.push(b'\n')?;
    }
    Ok(())
}

// A comment fills the text up to so many bytes.
fn put_comment(text: &mut Vec<u8>, bytes: usize) -> Result<(), AllocError> {
    text.push(b'#')?;
    for _ in text.len()..bytes {
        text.push(b'-')?;
    }
    Ok(())
}

// Two workers with the most scripts each, the most steps, and the most bytes.
fn longest_text(alloc: Global) -> Result<Vec<u8>, AllocError> {
    let mut text = many_adds(alloc, 2, 4_096)?;
    put_turns(&mut text, alloc, MOST_STEPS / 64)?;
    put_comment(&mut text, MOST_BYTES)?;
    Ok(text)
}

#[test]
fn the_most_scripts_are_run(rt: HostRuntime) -> Result<(), Fail> {
    let text = many_adds(rt.alloc(), 16, 4_096)?;
    let listing = listing_of(&rt, rt.alloc(), &text)?;
    assert!(rt; has_added(&listing, 65_536));
    Ok(())
}

#[test]
fn the_longest_text_takes_the_most_steps(rt: HostRuntime) -> Result<(), Fail> {
    let text = longest_text(rt.alloc())?;
    let listing = listing_of(&rt, rt.alloc(), &text)?;
    assert!(rt; has_added(&listing, 8_192));
    Ok(())
}

// A script that reads each of the most references, the last of which holds 7, and prints that.
fn many_reads(alloc: Global) -> Result<Vec<u8>, AllocError> {
    let mut text = Vec::from_slice(alloc, b"stm 1\nrefs 65536\nref 65535 7\nworker\nscript\n")?;
    for cell in 0..65_536_u32 {
        put_read(&mut text, alloc, cell)?;
    }
    text.extend_from_slice(b"print r0\nend\n")?;
    Ok(text)
}

fn put_read(text: &mut Vec<u8>, alloc: Global, cell: u32) -> Result<(), AllocError> {
    let line = format!(in alloc; "read r0 {cell}\n")?;
    text.extend_from_slice(line.as_bytes())
}

fn prints_seven(listing: &Listing) -> bool {
    match listing.rows.as_slice() {
        [row] => matches!(row.prints.as_slice(), [7]),
        _ => false,
    }
}

#[test]
fn a_script_reads_each_of_the_most_references(rt: HostRuntime) -> Result<(), Fail> {
    let text = many_reads(rt.alloc())?;
    let listing = listing_of(&rt, rt.alloc(), &text)?;
    assert!(rt; prints_seven(&listing));
    Ok(())
}
