//! A hundred thousand notes and as many writes: put in, found, undone and cleared.
ghost use Rattle.stm_model.specs.declared.marks.WriteMark.{WriteMark};
ghost use Rattle.write_buffer.specs.Buffer.{IsMark};

use read_set::ReadSet;
use std::test::Fail;
use stm_model::{Addr, Memory, Note};
use write_buffer::WriteBuffer;

const MANY: u32 = 100_000;

// Notes so many cells, each with its number.
fn note_all(reads: &mut ReadSet, count: u32) -> Result<(), Memory> {
    for number in 0..count {
        let addr = Addr(number);
        if reads.find(addr).is_none() {
            reads.add(Note {
                addr,
                version: 0,
                value: u64::from(number),
            })?;
        }
    }
    Ok(())
}

// The number that is noted of a cell.
fn noted(reads: &ReadSet, number: u32) -> Option<u64> {
    reads.find(Addr(number)).map(|note| note.value)
}

#[test]
fn many_notes_are_found_and_cleared(rt: HostRuntime) -> Result<(), Fail> {
    let mut reads = ReadSet::new(rt.alloc());
    note_all(&mut reads, MANY)?;
    for number in 0..MANY {
        assert_eq!(rt; noted(&reads, number), Some(u64::from(number)));
    }
    assert_eq!(rt; noted(&reads, MANY), None);
    reads.clear();
    for number in 0..MANY {
        assert_eq!(rt; noted(&reads, number), None);
    }
    note_all(&mut reads, MANY)?;
    assert_eq!(rt; noted(&reads, MANY - 1), Some(99_999));
    Ok(())
}

// Writes so many cells, each with its number and this much more.
fn write_all(buffer: &mut WriteBuffer, count: u32, more: u64) -> Result<(), Memory>
    ensures { (mark : WriteMark) → IsMark buffer.old mark → IsMark buffer.new mark }
{
    for number in 0..count {
        buffer.put(Addr(number), u64::from(number).wrapping_add(more))?;
    }
    Ok(())
}

#[test]
fn many_writes_are_found_undone_and_cleared(rt: HostRuntime) -> Result<(), Fail> {
    let mut buffer = WriteBuffer::new(rt.alloc());
    write_all(&mut buffer, 1_000, 0)?;
    let mark = buffer.mark();
    write_all(&mut buffer, MANY, 1)?;
    for number in 0..MANY {
        assert_eq!(rt; buffer.find(Addr(number)), Some(u64::from(number) + 1));
    }
    buffer.undo(mark);
    assert_eq!(rt; buffer.find(Addr(999)), Some(999));
    assert_eq!(rt; buffer.find(Addr(1_000)), None);
    buffer.clear();
    assert_eq!(rt; buffer.find(Addr(0)), None);
    write_all(&mut buffer, MANY, 2)?;
    assert_eq!(rt; buffer.find(Addr(MANY - 1)), Some(100_001));
    Ok(())
}
