//! What the program tells, and its status.
ghost use Rattle.std.specs.Prelude.{◌≡◌};
ghost use Rattle.bank.specs.Statuses.{fault_status, is_right, report_status};

use bank_loads::expected_sum;
use bank_words::Task;
use std::alloc::AllocError;
use std::fmt;
use stm_model::Cause;

/// What came of a task.
#[derive(Clone, Copy)]
pub struct Report {
    pub task: Task,
    /// How many attempts all workers made.
    pub attempts: u64,
    /// The sum of all cells in the end.
    pub sum: u64,
}

impl Report {
    /// 0 where the cells have the sum that they are to have, and else 1.
    pub fn status(&self) -> u8
        ensures { result ≡ report_status self.now }
    {
        if self.is_right() { 0 } else { 1 }
    }

    fn is_right(&self) -> bool
        ensures { result ≡ is_right self.now }
    {
        self.sum == expected_sum(&self.task)
    }
}

impl fmt::Display for Report {
    fn fmt<W: fmt::Write>(&self, f: &mut fmt::Formatter<W>) -> fmt::Result {
        let task = &self.task;
        let verdict = if self.is_right() { "ok" } else { "wrong" };
        write!(
            f,
            "{} threads {} scripts {} attempts {} sum {} {verdict}",
            task.load.name(),
            task.threads,
            task.scripts,
            self.attempts,
            self.sum
        )
    }
}

/// Why a task came to no end.
#[derive(Clone, Copy)]
pub enum Fault {
    /// The words ask for nothing.
    Usage,
    /// Out of memory.
    Memory,
    /// An attempt of this worker was rolled back with a cause that no further attempt mends.
    Stopped { worker: u16, cause: Cause },
}

impl Fault {
    /// 2 where the words ask for nothing, and else 1.
    pub fn status(&self) -> u8
        ensures { result ≡ fault_status self.now }
    {
        match self {
            Fault::Usage => 2,
            Fault::Memory | Fault::Stopped { .. } => 1,
        }
    }
}

impl fmt::Display for Fault {
    fn fmt<W: fmt::Write>(&self, f: &mut fmt::Formatter<W>) -> fmt::Result {
        match self {
            Fault::Usage => f.write_str(
                "usage: bank transfers or hot or disjoint or reads or one N [--threads T]",
            ),
            Fault::Memory => f.write_str("bank: no memory"),
            Fault::Stopped { worker, cause } => {
                write!(f, "bank: worker {worker} stopped: {cause:?}")
            }
        }
    }
}

impl From<AllocError> for Fault {
    fn from(_error: AllocError) -> Fault {
        Fault::Memory
    }
}
