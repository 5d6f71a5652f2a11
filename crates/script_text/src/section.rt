//! The sections of a job, in their order.

/// The section of a job that the lines so far have come to.
#[derive(Clone, Copy, Debug, PartialEq, Eq)]
pub enum Section {
    /// There were skipped lines at most.
    Start,
    Head,
    Refs,
    Openings,
    Workers,
    Steps,
}
