//! References and arrays at work on plain cells.
ghost use Rattle.std.specs.Prelude.{◌≡◌, length, IfOk};

mod kinds;
mod replacing;

use crate::{OutOfRange, Ref, TArray};
use kinds::Kinds;
use plain_cells::PlainCells;
use replacing::Replacing;
use std::test::Fail;
use stm_model::{Addr, Body, Cause, Cells, Free};

/// Three cells with 5, 7 and 0.
fn three(rt: &HostRuntime) -> Result<PlainCells<Free>, Fail>
    ensures { IfOk result (λ cells. length cells.heap.items ≡ 3) }
{
    let alloc = rt.alloc();
    Ok(PlainCells::new(alloc, Free, [5, 7, 0].to_vec(alloc)?))
}

#[test]
fn a_number_is_read_and_replaced(rt: HostRuntime) -> Result<(), Fail> {
    let mut cells = three(&rt)?;
    let cell = Ref::<u64>::new(Addr(1));
    assert_eq!(rt; cell.get(&mut cells), Ok(7));
    assert_eq!(rt; cell.set(&mut cells, 8), Ok(()));
    assert_eq!(rt; cell.swap(&mut cells, 9), Ok(8));
    assert_eq!(rt; cell.transform(&mut cells, &mut |value| value / 2), Ok(()));
    assert_eq!(rt;
        cell.get_with(&mut cells, &mut |value| value == 4),
        Ok(true)
    );
    assert_eq!(rt; cells.value(Addr(1)), 4);
    assert_eq!(rt; cells.value(Addr(0)), 5);
    Ok(())
}

#[test]
fn a_value_is_replaced_where_there_is_another(rt: HostRuntime) -> Result<(), Fail> {
    let mut cells = three(&rt)?;
    let cell = Ref::<u64>::new(Addr(0));
    let mut halve = |value: u64| {
        if value % 2 == 0 {
            Some(value / 2)
        } else {
            None
        }
    };
    assert_eq!(rt;
        cell.transform_if_defined(&mut cells, &mut halve),
        Ok(false)
    );
    assert_eq!(rt; cells.book.writes.len(), 0);
    assert_eq!(rt; cell.set(&mut cells, 6), Ok(()));
    assert_eq!(rt; cell.transform_if_defined(&mut cells, &mut halve), Ok(true));
    assert_eq!(rt; cells.value(Addr(0)), 3);
    Ok(())
}

#[test]
fn cells_hold_bools_and_characters(rt: HostRuntime) -> Result<(), Fail> {
    let alloc = rt.alloc();
    let mut cells = PlainCells::new(alloc, Kinds, [5, 1, 65].to_vec(alloc)?);
    let flag = Ref::<bool>::new(Addr(1));
    let letter = Ref::<char>::new(Addr(2));
    assert_eq!(rt; flag.get(&mut cells), Ok(true));
    assert_eq!(rt; letter.swap(&mut cells, 'é'), Ok('A'));
    assert_eq!(rt; flag.transform(&mut cells, &mut |flag: bool| !flag), Ok(()));
    assert_eq!(rt; letter.get(&mut cells), Ok('é'));
    assert_eq!(rt; flag.get(&mut cells), Ok(false));
    assert_eq!(rt; cells.value(Addr(2)), 233);
    Ok(())
}

#[test]
fn an_array_has_its_cells_in_order(rt: HostRuntime) -> Result<(), Fail> {
    let mut cells = three(&rt)?;
    let array = TArray::<u64>::new(Addr(1), 2);
    assert_eq!(rt; array.len(), 2);
    assert_eq!(rt; array.get(&mut cells, 0), Ok(7));
    assert_eq!(rt; array.set(&mut cells, 1, 9), Ok(()));
    assert_eq!(rt; cells.value(Addr(2)), 9);
    assert_eq!(rt; array.at(1).map(|cell| cell.addr), Ok(Addr(2)));
    assert_eq!(rt; array.at(2).map(|cell| cell.addr), Err(OutOfRange));
    let mut refs = array.refs();
    assert_eq!(rt; refs.next().map(|cell| cell.addr), Some(Addr(1)));
    assert_eq!(rt; refs.next().map(|cell| cell.addr), Some(Addr(2)));
    assert!(rt; refs.next().is_none());
    Ok(())
}

#[test]
fn no_function_is_called_after_a_cause(rt: HostRuntime) -> Result<(), Fail> {
    let mut cells = three(&rt)?;
    let deep = Cause::TooDeep { depth: 64 };
    cells.cause = Some(deep);
    let cell = Ref::<u64>::new(Addr(0));
    let mut called = false;
    let answer = cell.transform(
        &mut cells,
        &mut |value| {
            called = true;
            value
        },
    );
    assert_eq!(rt; answer, Err(deep));
    assert!(rt; !called);
    assert_eq!(rt; cell.get(&mut cells), Err(deep));
    assert_eq!(rt; cell.set(&mut cells, 1), Err(deep));
    Ok(())
}

#[test]
fn a_body_replaces_a_value(rt: HostRuntime) -> Result<(), Fail> {
    let mut cells = three(&rt)?;
    let mut body = Replacing {
        cell: Ref::<u64>::new(Addr(1)),
        f: |value: u64| value / 2,
    };
    assert_eq!(rt; body.run(&mut cells), Ok(()));
    assert_eq!(rt; cells.value(Addr(1)), 3);
    assert_eq!(rt; body.late(&mut cells, 1), Ok(()));
    Ok(())
}
