//! What comes next of a script.
use stm_model::Ask;

/// How a script, or a part of one, ends.
#[derive(Clone, Copy, Debug, PartialEq, Eq)]
pub enum End {
    Kept,
    /// It failed with its own code.
    Failed { code: u16 },
    /// It asked for a retry.
    Retried,
}

/// What comes next of a script.
#[derive(Clone, Copy, Debug, PartialEq, Eq)]
pub enum Coming {
    /// Nothing: it has ended so.
    Over(End),
    /// It prints a number.
    Says(u64),
    /// It makes a request.
    Asks(Ask),
    /// A before-commit body of it ends.
    Ends,
}
