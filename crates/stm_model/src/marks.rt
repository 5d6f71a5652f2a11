//! Nested levels: how deep they nest, and marks of where one began, for its undo.

/// How many levels may be open at once.
pub const DEEPEST: u32 = 64;

/// How far a buffer of writes had come.
#[derive(Clone, Copy, Debug, PartialEq, Eq)]
pub struct WriteMark {
    /// How many cells had a write.
    pub entries: usize,
    /// How many values had been replaced.
    pub restores: usize,
}

/// What stood where a level was entered.
#[derive(Clone, Copy, Debug, PartialEq, Eq)]
pub struct Level {
    pub writes: WriteMark,
    /// How many handlers were registered.
    pub hooks: usize,
    /// How many before-commit bodies were registered.
    pub laters: usize,
}
