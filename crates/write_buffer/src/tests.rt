//! Each call once, undo over levels, room for first writes, rewrites, and many writes.
ghost use Rattle.std.specs.Prelude.{◌<◌, ◌≤◌, IsOk};
ghost use Rattle.stm_model.specs.declared.marks.WriteMark.{WriteMark};
ghost use Rattle.write_buffer.specs.Buffer.{IsMark};

use crate::{Addr, Memory, WriteBuffer, WriteMark};
use std::alloc::Global;
use std::test::Fail;

// The writes as a vector.
fn writes_of(alloc: Global, buffer: &WriteBuffer) -> Result<Vec<(u32, u64)>, Fail> {
    let mut writes = Vec::new(alloc);
    for index in 0..buffer.len() {
        let (addr, value) = buffer.at(index);
        writes.push((addr.0, value))?;
    }
    Ok(writes)
}

#[test]
fn an_undo_gives_the_writes_at_the_mark(rt: HostRuntime) -> Result<(), Fail> {
    let mut buffer = WriteBuffer::new(rt.alloc());
    buffer.reserve(2)?;
    buffer.put(Addr(0), 1)?;
    let mark = buffer.mark();
    buffer.put(Addr(0), 2)?;
    buffer.put(Addr(1), 3)?;
    assert_eq!(rt; buffer.find(Addr(0)), Some(2));
    assert_eq!(rt; buffer.find(Addr(1)), Some(3));
    assert_eq!(rt; buffer.find(Addr(2)), None);
    buffer.undo(mark);
    assert_eq!(rt;
        writes_of(rt.alloc(), &buffer)?.as_slice(),
        [(0, 1)].as_slice()
    );
    Ok(())
}

#[test]
fn levels_are_undone_one_by_one(rt: HostRuntime) -> Result<(), Fail> {
    let mut buffer = WriteBuffer::new(rt.alloc());
    let outer = buffer.mark();
    buffer.put(Addr(5), 1)?;
    buffer.put(Addr(6), 1)?;
    let inner = buffer.mark();
    buffer.put(Addr(6), 2)?;
    buffer.put(Addr(7), 2)?;
    buffer.put(Addr(7), 3)?;
    buffer.put(Addr(6), 3)?;
    buffer.undo(inner);
    assert_eq!(rt;
        writes_of(rt.alloc(), &buffer)?.as_slice(),
        [(5, 1), (6, 1)].as_slice()
    );
    buffer.put(Addr(5), 4)?;
    buffer.undo(inner);
    assert_eq!(rt;
        writes_of(rt.alloc(), &buffer)?.as_slice(),
        [(5, 1), (6, 1)].as_slice()
    );
    buffer.undo(outer);
    assert_eq!(rt; buffer.len(), 0);
    Ok(())
}

// Writes a cell if it isn't written yet. It tells whether it did.
fn write_once(buffer: &mut WriteBuffer, addr: Addr, value: u64) -> Result<bool, Memory>
    ensures succeeds { 0 < buffer.old.spare → IsOk result }
    ensures rewrites { buffer.old.spare_rewrites ≤ buffer.new.spare_rewrites }
{
    if buffer.find(addr).is_some() {
        return Ok(false);
    }
    buffer.reserve_first_writes(1)?;
    buffer.put_first(addr, value);
    Ok(true)
}

#[test]
fn rewrites_come_between_first_writes(rt: HostRuntime) -> Result<(), Fail> {
    let mut buffer = WriteBuffer::new(rt.alloc());
    buffer.reserve_first_writes(2)?;
    assert!(rt; write_once(&mut buffer, Addr(3), 1)?);
    for value in 2..100 {
        buffer.put(Addr(3), value)?;
        assert!(rt; !write_once(&mut buffer, Addr(3), 0)?);
    }
    assert!(rt; write_once(&mut buffer, Addr(4), 1)?);
    assert_eq!(rt;
        writes_of(rt.alloc(), &buffer)?.as_slice(),
        [(3, 99), (4, 1)].as_slice()
    );
    Ok(())
}

// Writes a cell again, if it is written. It tells whether it did.
fn rewrite_since(
    buffer: &mut WriteBuffer,
    addr: Addr,
    value: u64,
    since: WriteMark,
) -> Result<bool, Memory>
    requires { IsMark buffer.old since }
    ensures { IsMark buffer.new since }
{
    if buffer.find(addr).is_none() {
        return Ok(false);
    }
    buffer.rewrite(addr, value, since)?;
    Ok(true)
}

#[test]
fn a_rewrite_is_undone(rt: HostRuntime) -> Result<(), Fail> {
    let mut buffer = WriteBuffer::new(rt.alloc());
    assert!(rt; write_once(&mut buffer, Addr(1), 1)?);
    let since = buffer.mark();
    assert!(rt; rewrite_since(&mut buffer, Addr(1), 2, since)?);
    assert_eq!(rt; buffer.find(Addr(1)), Some(2));
    buffer.undo(since);
    assert_eq!(rt; buffer.find(Addr(1)), Some(1));
    buffer.clear();
    assert_eq!(rt; buffer.len(), 0);
    Ok(())
}

// Writes so many cells, each with its number and this much more.
fn fill(buffer: &mut WriteBuffer, count: u32, more: u64) -> Result<(), Memory>
    ensures { (mark : WriteMark) → IsMark buffer.old mark → IsMark buffer.new mark }
{
    for number in 0..count {
        buffer.put(Addr(number), u64::from(number).wrapping_add(more))?;
    }
    Ok(())
}

#[test]
fn many_writes_are_found_and_undone(rt: HostRuntime) -> Result<(), Fail> {
    let mut buffer = WriteBuffer::new(rt.alloc());
    fill(&mut buffer, 5_000, 0)?;
    let mark = buffer.mark();
    fill(&mut buffer, 10_000, 1)?;
    assert_eq!(rt; buffer.len(), 10_000);
    assert_eq!(rt; buffer.find(Addr(9_999)), Some(10_000));
    buffer.undo(mark);
    assert_eq!(rt; buffer.len(), 5_000);
    for number in 0..5_000 {
        assert_eq!(rt; buffer.find(Addr(number)), Some(u64::from(number)));
    }
    assert_eq!(rt; buffer.find(Addr(5_000)), None);
    Ok(())
}
