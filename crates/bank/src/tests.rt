//! Tasks on four threads.
use crate::table::run;
use bank_words::{Load, Task};
use std::alloc::Global;
use std::thread::Threads;

// Whether the cells have the sum that they are to have.
fn is_right<R: Threads + Sync>(rt: &R, alloc: Global, load: Load) -> bool {
    let threads = match load {
        Load::One => 1,
        _ => 4,
    };
    let task = Task {
        load,
        scripts: 100,
        threads,
    };
    match run(rt, alloc, &task) {
        Ok(report) => report.status() == 0,
        Err(_) => false,
    }
}

#[test]
fn four_workers_leave_the_sum_that_is_expected(rt: HostRuntime) {
    let alloc = rt.alloc();
    assert!(rt; is_right(&rt, alloc, Load::Transfers));
    assert!(rt; is_right(&rt, alloc, Load::Hot));
    assert!(rt; is_right(&rt, alloc, Load::Disjoint));
    assert!(rt; is_right(&rt, alloc, Load::Reads));
    assert!(rt; is_right(&rt, alloc, Load::One));
}
