//! Why a job text is refused.

/// Why a line of a job text is refused. Where several hold of one line, the earlier one is given.
#[derive(Clone, Copy, Debug, PartialEq, Eq)]
pub enum Reason {
    /// It has a byte that may not occur.
    Byte,
    /// It is the first line that isn't skipped, and isn't the head of a job.
    Head,
    /// Its first word is unknown.
    Word,
    /// It is of a form that isn't built yet.
    Unbuilt,
    /// Its first word may not stand here.
    Order,
    /// It nests too deep.
    Depth,
    /// It brings workers, scripts or steps past their limit.
    Many,
    /// It has a wrong number of words.
    Count,
    /// A word that should be a number, a register or a phase is none.
    Number,
    /// A number is past its limit, or names what isn't there.
    Range,
    /// The text ends inside a script.
    Unclosed,
    /// The text is longer than a job text may be.
    Long,
}
