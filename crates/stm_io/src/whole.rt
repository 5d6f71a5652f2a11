//! Reading a source to its end, and writing a sink in full.
ghost use Rattle.std.specs.Prelude.{◌≡◌, ◌≢◌, ◌+◌, ◌≤◌, ◌++◌, ℕ, List, IfOk, OnOk, OnErr, IsErrOf, vec_len};
ghost use Rattle.std.specs.Io.KnownBytes.{Appends, Consumes, IsAtEnd, Keeps};
ghost use Rattle.stm_io.specs.Faults.{Rose};
ghost use Rattle.stm_io.specs.Whole.{most_bytes, TookAll, TookCount, TookAtMost, AppendedProperFront};
ghost use Rattle.stm_io.specs.declared.whole.ReadAllFault.TheVariants.{ReadFault, Memory};

use crate::{Failed, Sink, Source};
use std::alloc::{AllocError, Global};

// The most bytes that a text may have.
const MOST_BYTES: usize = 1_048_576;

// How many bytes a read asks for.
const PIECE: usize = 4096;

/// Why a source wasn't read to its end.
#[derive(Clone, Copy, Debug, PartialEq, Eq)]
pub enum ReadAllFault {
    ReadFault,
    TooLong,
    Memory,
}

impl From<Failed> for ReadAllFault {
    ghost from_gives = { λ _ fault. fault ≡ ReadFault };

    fn from(_failed: Failed) -> ReadAllFault {
        ReadAllFault::ReadFault
    }
}

impl From<AllocError> for ReadAllFault {
    ghost from_gives = { λ _ fault. fault ≡ Memory };

    fn from(_error: AllocError) -> ReadAllFault {
        ReadAllFault::Memory
    }
}

/// A sink failed before all the bytes were written.
#[derive(Clone, Copy, Debug, PartialEq, Eq)]
pub struct WriteFault;

impl From<Failed> for WriteFault {
    fn from(_failed: Failed) -> WriteFault {
        WriteFault
    }
}

/// All the bytes that the source has left, at most 1,048,576. The first byte past these ends the
/// reading.
pub fn read_all<S: Source>(alloc: Global, source: &mut S) -> Result<Vec<u8>, ReadAllFault>
    ensures all { IfOk result (λ bytes.
        TookAll (S.left source.old) (S.left source.new) bytes.items) }
    ensures within { IfOk result (λ bytes. vec_len bytes ≤ most_bytes) }

    // How much of it was taken where that isn't all.
    ensures too_long { IsErrOf result ReadAllFault.TooLong
        → TookCount (S.left source.old) (S.left source.new) (most_bytes + 1) }
    ensures read_fault { IsErrOf result ReadAllFault.ReadFault
        → TookAtMost (S.left source.old) (S.left source.new) most_bytes }
    ensures memory { IsErrOf result ReadAllFault.Memory
        → TookAtMost (S.left source.old) (S.left source.new) most_bytes }

    ensures cause { IsErrOf result ReadAllFault.ReadFault
        → Rose (S.faults source.old) (S.faults source.new) }
    ensures never_falls { S.faults source.old ≤ S.faults source.new }
{
    let mut piece = [0; PIECE];
    let mut bytes = Vec::new(alloc);
    while bytes.len() <= MOST_BYTES {
        if read_more(source, &mut piece, &mut bytes)? == 0 {
            return Ok(bytes);
        }
    }
    Err(ReadAllFault::TooLong)
}

// One read, appended to the bytes. Memory is taken before it, so that no byte is read and lost.
fn read_more<S: Source>(
    source: &mut S,
    piece: &mut [u8; PIECE],
    bytes: &mut Vec<u8>,
) -> Result<usize, ReadAllFault>
    requires { vec_len bytes.old ≤ most_bytes }
    ensures count { IfOk result (λ n. vec_len bytes.new ≡ vec_len bytes.old + n) }
    ensures within { OnOk result (vec_len bytes.new ≤ most_bytes + 1) }
    ensures more { OnOk result ((more : List ℕ)
        × (bytes.new.items ≡ bytes.old.items ++ more)
        × Consumes (S.left source.old) (S.left source.new) more) }
    ensures end { IfOk result (λ n. n ≡ 0 → IsAtEnd (S.left source.new)) }

    ensures kept { OnErr result (Keeps (S.left source.old) (S.left source.new)) }
    ensures not_too_long { result ≢ Err ReadAllFault.TooLong }
    ensures cause { IsErrOf result ReadAllFault.ReadFault
        → Rose (S.faults source.old) (S.faults source.new) }
    ensures never_falls { S.faults source.old ≤ S.faults source.new }
{
    let room = PIECE.min(MOST_BYTES + 1 - bytes.len());
    bytes.reserve(room)?;
    let count = source.read(&mut piece[..room])?;
    bytes.extend_from_slice(&piece[..count]).unwrap();
    Ok(count)
}

/// Writes all the bytes, and takes no memory.
pub fn write_whole<K: Sink>(sink: &mut K, bytes: &[u8]) -> Result<(), WriteFault>
    ensures all { OnOk result (Appends (K.held sink.old) (K.held sink.new) bytes.now) }
    ensures front { OnErr result
        (AppendedProperFront (K.held sink.old) (K.held sink.new) bytes.now) }
    ensures cause { OnErr result (Rose (K.faults sink.old) (K.faults sink.new)) }
    ensures never_falls { K.faults sink.old ≤ K.faults sink.new }
{
    let mut at = 0;
    while at < bytes.len() {
        at += sink.write(&bytes[at..])?;
    }
    Ok(())
}
