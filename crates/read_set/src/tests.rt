//! Each call once, and many notes.
use crate::{Addr, Memory, Note, Notes, ReadSet};
use std::test::Fail;

// Notes a cell, unless it is noted. It tells whether it did.
fn note_once(reads: &mut ReadSet, cell: u32, value: u64) -> Result<bool, Memory> {
    let addr = Addr(cell);
    if reads.find(addr).is_some() {
        return Ok(false);
    }
    reads.add(Note {
        addr,
        version: 0,
        value,
    })?;
    Ok(true)
}

// The value noted of a cell.
fn value_of(reads: &ReadSet, cell: u32) -> Option<u64> {
    reads.find(Addr(cell)).map(|note| note.value)
}

// The value of the last note, whatever keeps the notes.
fn last_value<N: Notes>(notes: &N) -> Option<u64> {
    let count = notes.len();
    if count == 0 {
        None
    } else {
        Some(notes.at(count - 1).value)
    }
}

#[test]
fn a_note_is_found_by_its_cell(rt: HostRuntime) -> Result<(), Fail> {
    let mut reads = ReadSet::new(rt.alloc());
    assert_eq!(rt; last_value(&reads), None);
    reads.reserve(1)?;
    assert!(rt; note_once(&mut reads, 0, 5)?);
    let note = Note {
        addr: Addr(0),
        version: 0,
        value: 5,
    };
    assert_eq!(rt; reads.find(Addr(0)), Some(note));
    assert_eq!(rt; reads.find(Addr(1)), None);
    assert_eq!(rt; reads.len(), 1);
    if reads.len() > 0 {
        assert_eq!(rt; reads.at(0), note);
    }
    assert!(rt; !note_once(&mut reads, 0, 6)?);
    assert_eq!(rt; last_value(&reads), Some(5));
    Ok(())
}

#[test]
fn a_cleared_set_takes_notes_again(rt: HostRuntime) -> Result<(), Fail> {
    let mut reads = ReadSet::new(rt.alloc());
    assert!(rt; note_once(&mut reads, 4, 5)?);
    reads.clear();
    assert_eq!(rt; reads.len(), 0);
    let unnoted = reads.find(Addr(4)).is_none();
    assert!(rt; unnoted && reads.spare() > 0);
    reads.add_spare(Note {
        addr: Addr(4),
        version: 0,
        value: 6,
    });
    assert_eq!(rt; value_of(&reads, 4), Some(6));
    Ok(())
}

#[test]
fn many_notes_are_found(rt: HostRuntime) -> Result<(), Fail> {
    let mut reads = ReadSet::new(rt.alloc());
    for number in 0..10_000 {
        assert!(rt; note_once(&mut reads, number * 3, number as u64)?);
    }
    assert_eq!(rt; reads.len(), 10_000);
    for number in 0..10_000 {
        assert_eq!(rt; value_of(&reads, number * 3), Some(number as u64));
    }
    assert_eq!(rt; value_of(&reads, 1), None);
    assert_eq!(rt; last_value(&reads), Some(9_999));
    Ok(())
}
