//! What a reader noted of a cell.
ghost use Rattle.std.specs.Prelude.{◌≡◌};
ghost use Rattle.stm_model.specs.After.{stale};

use crate::{Addr, Cause, Meta};

/// A read: the cell, the version that it had, and the value.
#[derive(Clone, Copy, Debug, PartialEq, Eq)]
pub struct Note {
    pub addr: Addr,
    pub version: u64,
    pub value: u64,
}

impl Note {
    /// The cause of who finds that the cell no longer stands as it was noted, with the word that shows it.
    pub fn stale(self, found: Meta) -> Cause
        ensures { result ≡ stale self found }
    {
        Cause::Stale {
            addr: self.addr,
            version: self.version,
            meta: found,
        }
    }
}
