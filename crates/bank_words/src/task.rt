//! What the program is asked to do.
ghost use Rattle.std.specs.Prelude.{◌≡◌};
ghost use Rattle.bank_words.specs.Limits.{IsWithin};

/// How many scripts a worker may run.
pub const MOST_SCRIPTS: u64 = 4_294_967_295;

/// How many workers there may be, each on a thread of its own.
pub const MOST_THREADS: u16 = 16;

/// What the scripts of the workers do.
#[derive(Clone, Copy, Debug, PartialEq, Eq)]
pub enum Load {
    /// Moves among a hundred cells.
    Transfers,
    /// Moves among sixteen cells.
    Hot,
    /// Moves between two cells of each worker's own.
    Disjoint,
    /// Sums of ten out of a thousand cells, a tenth of which also write.
    Reads,
    /// One worker, which counts in one cell.
    One,
}

impl Load {
    ghost use Rattle.bank_words.specs.Asking.{load_of};

    /// The word that asks for it.
    pub fn name(self) -> &'static str
        ensures { load_of result.now ≡ Some self }
    {
        match self {
            Load::Transfers => "transfers",
            Load::Hot => "hot",
            Load::Disjoint => "disjoint",
            Load::Reads => "reads",
            Load::One => "one",
        }
    }
}

/// A load, how many scripts each worker runs, and how many workers there are.
#[derive(Clone, Copy, Debug, PartialEq, Eq)]
pub struct Task {
    pub load: Load,
    pub scripts: u64,
    pub threads: u16,
    ghost within: { IsWithin load scripts threads },
}
