//! Rows and their order.
use ledger_model::{Row, RowResult, Rows};
use std::alloc::Global;
use std::test::Fail;
use stm_model::{Runs, Words};

fn row(alloc: Global, position: u64, writer: bool, worker: u16, number: u32) -> Row {
    Row {
        position,
        writer,
        worker,
        number,
        result: RowResult::Done,
        prints: Words::new(alloc),
        runs: Runs::new(alloc),
        drawn: 0,
    }
}

#[test]
fn rows_sort_by_position_then_writers_then_worker_then_number(rt: HostRuntime) -> Result<(), Fail> {
    let alloc = rt.alloc();
    let in_order = [
        (0, false, 1, 1),
        (0, false, 1, 2),
        (0, false, 2, 1),
        (1, true, 2, 2),
        (1, false, 1, 3),
        (2, true, 1, 4),
    ];
    let mut rows = Rows::new(alloc);
    for (position, writer, worker, number) in in_order.iter().rev() {
        rows.push(row(alloc, *position, *writer, *worker, *number))?;
    }
    assert_eq!(rt; rows.len(), 6);
    rows.sort();
    for (index, (position, writer, worker, number)) in in_order.iter().enumerate() {
        assert!(rt; index < rows.len());
        let row = rows.at(index);
        assert_eq!(rt;
            (row.position, row.writer, row.worker, row.number),
            (*position, *writer, *worker, *number)
        );
    }
    let entries: Vec<Row> = rows.into();
    assert_eq!(rt; Rows::from(entries).as_slice().len(), 6);
    Ok(())
}
