//! The operations of an attempt over the set of its reads, driven by hand through their good ends and
//! their bad ones. Caller 7 makes its third attempt, and words are written out by their bits.
ghost use Rattle.std.specs.Prelude.{◌≡◌, IfOk, length};

use read_set::ReadSet;
use std::test::Fail;
use stm_model::{Access, Addr, Meta, Note, Word};

mod commits;
mod first_writes;
mod reads;
mod rollbacks;
mod waits;

// The lowest bit of the owner, and the bits above it.
const OWNER: u64 = 2_251_799_813_685_248;

const PENDING: u64 = 4_611_686_018_427_387_904;

const CHANGING: u64 = 9_223_372_036_854_775_808;

// A cell of this version and owner that is neither changing nor waited for.
fn owned(owner: u16, version: u64) -> Meta {
    Meta {
        changing: false,
        pending: false,
        owner,
        version,
    }
}

// A cell of this version that nobody owns.
fn free(version: u64) -> Meta {
    owned(0, version)
}

fn load(cell: u32) -> Access {
    Access::Load(Word::Meta(Addr(cell)))
}

// Two notes: of cell 2 at version 0, with 20, and of cell 3 at version 1, with 30.
fn two_notes(rt: &HostRuntime) -> Result<ReadSet, Fail>
    ensures { IfOk result (λ reads. length reads.notes ≡ 2) }
{
    let mut reads = ReadSet::new(rt.alloc());
    reads.add(Note {
        addr: Addr(2),
        version: 0,
        value: 20,
    })?;
    reads.add(Note {
        addr: Addr(3),
        version: 1,
        value: 30,
    })?;
    Ok(reads)
}
