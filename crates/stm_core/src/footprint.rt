//! What an attempt has read and written, as notes.
ghost use Rattle.std.specs.Prelude.{◌≡◌, ◌+◌, ◌<◌, [], length};

use read_set::ReadSet;
use stm_model::{Note, Notes};
use write_buffer::WriteBuffer;

/// What an attempt has read and written. As notes it is the buffered cells, and then what was read.
#[derive(Drop)]
pub struct Footprint {
    pub reads: ReadSet,
    pub writes: WriteBuffer,
}

impl Footprint {
    /// Drops what was read and written, and keeps the memory.
    pub fn clear(&mut self)
        ensures reads { (self.new.reads.notes ≡ []) × (self.new.reads.spare ≡ self.old.reads.spare + length self.old.reads.notes) }
        ensures writes { (self.new.writes.writes ≡ []) × (self.new.writes.spare ≡ self.old.writes.spare + length self.old.writes.writes) }
    {
        self.reads.clear();
        self.writes.clear();
    }
}

/// The buffered cells as notes: each has the version 0 and its new value.
#[derive(Clone, Copy)]
pub struct Written<'a> {
    pub buffer: &'a WriteBuffer,
}

impl<'a> Notes for Written<'a> {
    ghost use Rattle.op_commit.specs.Buffered.{buffered};

    ghost notes = { λ written. buffered written.buffer.now.writes };

    fn len(&self) -> usize {
        self.buffer.len()
    }

    fn at(&self, index: usize) -> Note {
        let (addr, value) = self.buffer.at(index);
        Note {
            addr,
            version: 0,
            value,
        }
    }
}

impl Notes for Footprint {
    ghost use Rattle.std.specs.Prelude.{◌++◌};
    ghost use Rattle.op_commit.specs.Buffered.{buffered};

    ghost notes = { λ footprint. buffered footprint.writes.writes ++ footprint.reads.notes };

    fn len(&self) -> usize {
        self.writes.len() + self.reads.len()
    }

    fn at(&self, index: usize) -> Note {
        let written = Written {
            buffer: &self.writes,
        };
        let count = written.len();
        if index < count {
            written.at(index)
        } else {
            self.reads.at(index - count)
        }
    }
}
