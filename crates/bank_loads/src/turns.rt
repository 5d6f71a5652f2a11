//! The scripts of a worker, one after another.
ghost use Rattle.std.specs.Prelude.{◌≡◌, ◌+◌, ◌<◌, ◌≤◌};
ghost use Rattle.bank_loads.specs.Turns.{FitsIn, base_of, back_and_forth, mixed, script_of, state_after, state_of};
ghost use Rattle.bank_loads.specs.Sizes.{cells_of};

use crate::counting::Count;
use crate::moving::Transfer;
use crate::sizes::{FEW, MANY, TALLIED};
use crate::summing::Tally;
use bank_words::{Load, Task};
use stm_model::Addr;

/// What a worker does in one transaction.
#[derive(Clone, Copy, Debug, PartialEq, Eq)]
pub enum Script {
    Transfer(Transfer),
    Tally(Tally),
    Count(Count),
}

/// The scripts of a worker, one after another.
#[derive(Drop)]
pub struct Scripts {
    pub task: Task,
    /// The worker's number, from 1.
    pub worker: u16,
    /// The number of the script that comes next, from 0.
    pub number: u64,
    state: u64,
    ghost works: { (1 ≤ worker) × (worker ≤ task.threads) },
    ghost within: { number ≤ task.scripts },
    ghost drawn: { state ≡ state_of worker number },
}

impl Scripts {
    /// Before the first one.
    pub fn new(task: Task, worker: u16) -> Scripts
        requires { (1 ≤ worker) × (worker ≤ task.threads) }
        ensures { (result.task ≡ task) × (result.worker ≡ worker) × (result.number ≡ 0) }
    {
        Scripts {
            task,
            worker,
            number: 0,
            state: u64::from(worker),
        }
    }

    /// The next script.
    pub fn next_script(&mut self) -> Script
        requires more { self.old.number < self.old.task.scripts }
        ensures script { result ≡ script_of self.old.task.load self.old.worker self.old.number }
        ensures fits { FitsIn (cells_of self.old.task.load self.old.task.threads) result }
        ensures turned { (self.new.task ≡ self.old.task) × (self.new.worker ≡ self.old.worker) × (self.new.number ≡ self.old.number + 1) }
    {
        let number = self.number;
        self.number = number + 1;
        self.state = state_after(self.state);
        let worker = u64::from(self.worker);
        match self.task.load {
            Load::Transfers => Script::Transfer(mixed(MANY, worker, number)),
            Load::Hot => Script::Transfer(mixed(FEW, worker, number)),
            Load::Disjoint => Script::Transfer(back_and_forth(self.worker, number)),
            Load::Reads => Script::Tally(Tally {
                base: base_of(self.state),
                adds: number % 10 == 9,
            }),
            Load::One => Script::Count(Count { cell: Addr(0) }),
        }
    }
}

// A transfer between two of so many cells.
fn mixed(cells: u32, worker: u64, number: u64) -> Transfer
    requires cells { (1 ≤ cells) × (cells ≤ 100) }
    requires numbers { (worker ≤ 16) × (number < 4294967295) }
    ensures { result ≡ mixed cells worker number }
{
    let cells = u64::from(cells);
    Transfer {
        from: Addr(((31 * worker + 17 * number) % cells) as u32),
        to: Addr(((13 * worker + 29 * number + 1) % cells) as u32),
        amount: 1 + (7 * worker + number) % 9,
    }
}

// A transfer of one between the worker's own two cells, to the second and back in turn.
fn back_and_forth(worker: u16, number: u64) -> Transfer
    requires { (1 ≤ worker) × (worker ≤ 16) }
    ensures { result ≡ back_and_forth worker number }
{
    let first = Addr(2 * u32::from(worker) - 2);
    let second = Addr(2 * u32::from(worker) - 1);
    let (from, to) = if number % 2 == 0 {
        (first, second)
    } else {
        (second, first)
    };
    Transfer {
        from,
        to,
        amount: 1,
    }
}

// The next state of a worker's draws.
fn state_after(state: u64) -> u64
    ensures { result ≡ state_after state }
{
    state
        .wrapping_mul(6_364_136_223_846_793_005)
        .wrapping_add(1_442_695_040_888_963_407)
}

// The cell that is drawn.
fn base_of(state: u64) -> u32
    ensures { result ≡ base_of state }
{
    ((state >> 33) % u64::from(TALLIED)) as u32
}
