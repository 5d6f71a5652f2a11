//! Sources and sinks over the readers and writers of std.
ghost use Rattle.std.specs.Prelude.{◌≡◌, ◌<◌, ◌≤◌, length, IfOk};
ghost use Rattle.std.specs.Io.{ReadsAtMost, WritesAtMost};
ghost use Rattle.std.specs.Io.KnownBytes.{ReadConsumes, WriteAppends};
ghost use Rattle.stm_io.specs.Faults.{CountsByOne, CountsFaults};
ghost use Rattle.stm_io.specs.StdSource.{reader_of, read_faults};
ghost use Rattle.stm_io.specs.StdSink.{writer_of, write_faults};

use crate::{Failed, Sink, Source};
use std::io::{Read, Write};

/// A reader with a count of its errors. It tells its bytes where the reader does.
#[derive(Drop)]
pub struct StdSource<R> {
    reader: R,
    faults: u64,
}

impl<R: Read> StdSource<R> {
    pub fn new(reader: R) -> StdSource<R>
        ensures reader { reader_of result ≡ reader }
        ensures faults { read_faults result ≡ 0 }
    {
        StdSource { reader, faults: 0 }
    }
}

impl<R: Read> Source for StdSource<R> {
    ghost left = { λ s. R.remaining (reader_of s) };

    ghost faults = { read_faults };

    fn read(&mut self, into: &mut [u8]) -> Result<usize, Failed>
        ensures bound { ReadsAtMost result into.new }
        ensures bytes { ReadConsumes
            (R.remaining (reader_of self.old)) (R.remaining (reader_of self.new)) result into.new }
        ensures cause { CountsFaults (read_faults self.old) (read_faults self.new) result }
        ensures by_one { CountsByOne (read_faults self.old) (read_faults self.new) result }
    {
        match self.reader.read(into) {
            Ok(count) => Ok(count),
            Err(_) => {
                self.faults = self.faults.saturating_add(1);
                Err(Failed)
            }
        }
    }
}

/// A writer with a count of its errors and of the pieces of which it took nothing. It tells its bytes
/// where the writer does. Nothing is flushed, so the writer is one that keeps nothing back.
#[derive(Drop)]
pub struct StdSink<W> {
    writer: W,
    faults: u64,
}

impl<W: Write> StdSink<W> {
    pub fn new(writer: W) -> StdSink<W>
        ensures writer { writer_of result ≡ writer }
        ensures faults { write_faults result ≡ 0 }
    {
        StdSink { writer, faults: 0 }
    }
}

impl<W: Write> Sink for StdSink<W> {
    ghost held = { λ s. W.contents (writer_of s) };

    ghost faults = { write_faults };

    fn write(&mut self, bytes: &[u8]) -> Result<usize, Failed>
        ensures bound { WritesAtMost result bytes.now }
        ensures some { 0 < length bytes.now → IfOk result (λ n. 1 ≤ n) }
        ensures bytes { WriteAppends
            (W.contents (writer_of self.old)) (W.contents (writer_of self.new)) result bytes.now }
        ensures cause { CountsFaults (write_faults self.old) (write_faults self.new) result }
        ensures by_one { CountsByOne (write_faults self.old) (write_faults self.new) result }
    {
        match self.writer.write(bytes) {
            Ok(count) if count > 0 || bytes.is_empty() => Ok(count),
            _ => {
                self.faults = self.faults.saturating_add(1);
                Err(Failed)
            }
        }
    }
}
