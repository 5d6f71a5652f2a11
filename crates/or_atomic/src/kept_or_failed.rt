//! How a nested block ended.

/// How a nested block ended. What is said here of its writes and registrations holds as long as the
/// cells have answered no cause. After one, its level is closed and nothing is undone with it: the whole
/// attempt is rolled back then.
#[derive(Debug, Drop, PartialEq, Eq)]
pub enum Nested<T> {
    /// Its body ended well. What it wrote and registered stays.
    Kept(T),
    /// Its body failed with this code. What it wrote and registered is undone.
    Failed { code: u16 },
}
