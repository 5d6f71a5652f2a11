//! The parts of a commit, each with accesses of one kind. A loop over one part alone knows at each turn which
//! access comes next, so the compiler leaves nothing of it but that access.
use op_commit::{CommitOp, CommitPlace};

/// One part.
pub trait Part {
    /// Whether an access of this part comes next.
    fn is_next(op: &CommitOp) -> bool;
}

/// The exchange of the status.
pub struct Prepare;

impl Part for Prepare {
    #[inline(always)]
    fn is_next(op: &CommitOp) -> bool {
        matches!(op.place, CommitPlace::Prepare)
    }
}

/// The marks of the cells that were written.
pub struct Marks;

impl Part for Marks {
    #[inline(always)]
    fn is_next(op: &CommitOp) -> bool {
        matches!(op.place, CommitPlace::Mark { .. })
    }
}

/// The load of the clock.
pub struct ClockLoad;

impl Part for ClockLoad {
    #[inline(always)]
    fn is_next(op: &CommitOp) -> bool {
        matches!(op.place, CommitPlace::CommitClock { .. })
    }
}

/// The validation of what was read.
pub struct Validation;

impl Part for Validation {
    #[inline(always)]
    fn is_next(op: &CommitOp) -> bool {
        matches!(op.place, CommitPlace::CommitNote { .. })
    }
}

/// The exchange of the clock.
pub struct Decision;

impl Part for Decision {
    #[inline(always)]
    fn is_next(op: &CommitOp) -> bool {
        matches!(op.place, CommitPlace::Decide { .. })
    }
}

/// The stores of the values.
pub struct Stores;

impl Part for Stores {
    #[inline(always)]
    fn is_next(op: &CommitOp) -> bool {
        matches!(op.place, CommitPlace::StoreValues { .. })
    }
}

/// The releases of the cells.
pub struct Releases;

impl Part for Releases {
    #[inline(always)]
    fn is_next(op: &CommitOp) -> bool {
        matches!(op.place, CommitPlace::Release { .. })
    }
}

/// The last store of the status.
pub struct Close;

impl Part for Close {
    #[inline(always)]
    fn is_next(op: &CommitOp) -> bool {
        matches!(op.place, CommitPlace::Close { .. })
    }
}
