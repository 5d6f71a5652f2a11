//! How many cells a load has, and what they are in sum.
ghost use Rattle.std.specs.Prelude.{◌≡◌, ◌*◌, ◌≤◌};
ghost use Rattle.bank_loads.specs.Sizes.{additions, cells_of, expected_sum};

use bank_words::{Load, Task};

/// What each cell holds at first.
pub const OPENING: u64 = 1000;

/// The cells that are moved among, where there are many.
pub(crate) const MANY: u32 = 100;

/// The cells that are moved among, where there are few.
pub(crate) const FEW: u32 = 16;

/// The cells from which tallies are taken.
pub const TALLIED: u32 = 1000;

/// The number of cells.
pub fn cells(task: &Task) -> u32
    ensures is { result ≡ cells_of task.now.load task.now.threads }
    ensures most { result ≤ 1000 }
{
    match task.load {
        Load::Transfers => MANY,
        Load::Hot => FEW,
        Load::Disjoint => 2 * u32::from(task.threads),
        Load::Reads => TALLIED,
        Load::One => 1,
    }
}

/// The sum of all cells once every script has been committed.
pub fn expected_sum(task: &Task) -> u64
    ensures { result ≡ expected_sum task.now.load task.now.scripts task.now.threads }
{
    u64::from(cells(task)) * OPENING + additions(task)
}

// How many scripts add one to a cell. The others leave the sum as it is.
fn additions(task: &Task) -> u64
    ensures is { result ≡ additions task.now.load task.now.scripts task.now.threads }
    ensures most { result ≤ 16 * 4294967295 }
{
    match task.load {
        Load::Reads => u64::from(task.threads) * (task.scripts / 10),
        Load::One => task.scripts,
        _ => 0,
    }
}
