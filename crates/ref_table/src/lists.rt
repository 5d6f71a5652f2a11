//! The lists that a caller's attempts use, one attempt after another.
ghost use Rattle.ref_table.specs.Calls.{AreEmpty, KeepsRoom};

use lifecycle::Handlers;
use read_set::ReadSet;
use std::alloc::Global;
use txn_level::KeptLevels;
use write_buffer::WriteBuffer;

/// Room for the notes, the writes, the handlers and the levels of an attempt.
#[derive(Debug, Drop)]
pub struct Lists {
    pub reads: ReadSet,
    pub writes: WriteBuffer,
    pub handlers: Handlers,
    pub levels: KeptLevels,
}

impl Lists {
    /// Empty lists, which take no memory yet.
    pub fn new(alloc: Global) -> Lists
        ensures { AreEmpty result }
    {
        Lists {
            reads: ReadSet::new(alloc),
            writes: WriteBuffer::new(alloc),
            handlers: Handlers::new(alloc),
            levels: KeptLevels::new(alloc),
        }
    }

    /// Empties the lists, and keeps their memory.
    pub fn clear(&mut self)
        ensures { KeepsRoom self.old self.new }
    {
        self.reads.clear();
        self.writes.clear();
        self.handlers.clear();
        self.levels.clear();
    }
}
