//! A source and a sink over memory, which give and take in pieces and fail at listed calls.
ghost use Rattle.std.specs.Prelude.{◌≡◌, ◌++◌, ◌<◌, ◌≤◌, ◌↔◌, length, drop, take, IfOk, IsErr, OnErr, Some};
ghost use Rattle.std.specs.Io.{ReadsAtMost, WritesAtMost};
ghost use Rattle.std.specs.Io.KnownBytes.{ReadConsumes, WriteAppends};
ghost use Rattle.stm_io.specs.Faults.{CountsFaults};

use crate::{Failed, Sink, Source};
use std::alloc::{AllocError, Global};
use std::marker::Model;

/// Memory has run out.
#[derive(Clone, Copy, Debug, PartialEq, Eq)]
pub struct Memory;

impl From<AllocError> for Memory {
    fn from(_error: AllocError) -> Memory {
        Memory
    }
}

/// Gives its bytes in pieces, and fails at the listed calls alone. Calls are numbered from 1.
#[derive(Drop)]
pub struct MemSource {
    bytes: Vec<u8>,
    at: usize,
    at_most: usize,
    failing: Vec<u64>,
    calls: u64,
    faults: u64,
}

impl Model for MemSource {
    ghost use Rattle.std.specs.Prelude.{◌≤◌, drop, length};
    ghost use Rattle.stm_io.specs.MemSource.{SourceState};

    ghost Value = { SourceState };

    ghost view = { λ s. record {
      left = drop s.at s.bytes.items;
      at_most = s.at_most;
      failing = s.failing.items;
      calls = s.calls;
      faults = s.faults;
    } };

    ghost invariant = { λ s. (s.at ≤ length s.bytes.items) × (1 ≤ s.at_most) };
}

impl MemSource {
    ghost use Rattle.stm_io.specs.MemSource.{first_state};

    /// A source of these bytes that gives at most `at_most` at a call.
    pub fn new(bytes: Vec<u8>, at_most: usize, failing: Vec<u64>) -> MemSource
        requires { 1 ≤ at_most }
        ensures { result ≡ first_state bytes.items at_most failing.items }
    {
        MemSource {
            bytes,
            at: 0,
            at_most,
            failing,
            calls: 0,
            faults: 0,
        }
    }
}

impl Source for MemSource {
    ghost use Rattle.stm_io.specs.MemSource.{FailsNext, moved_count, after_read, after_fault};

    ghost left = { λ s. Some s.left };

    ghost faults = { λ s. s.faults };

    fn read(&mut self, into: &mut [u8]) -> Result<usize, Failed>
        ensures bound { ReadsAtMost result into.new }
        ensures bytes { ReadConsumes (Some self.old.left) (Some self.new.left) result into.new }
        ensures cause { CountsFaults self.old.faults self.new.faults result }

        ensures fails { IsErr result ↔ FailsNext self.old }
        ensures err { OnErr result (self.new ≡ after_fault self.old) }
        ensures untouched { OnErr result (into.new ≡ into.old) }

        ensures moves { IfOk result (λ n. n ≡ moved_count self.old (length into.old)) }
        ensures ok { IfOk result (λ n. self.new ≡ after_read self.old n) }
        ensures moved { IfOk result (λ n. into.new ≡ take n self.old.left ++ drop n into.old) }
    {
        self.calls = self.calls.saturating_add(1);
        if self.failing.contains(&self.calls) {
            self.faults = self.faults.saturating_add(1);
            return Err(Failed);
        }
        let left = &self.bytes[self.at..];
        let count = into.len().min(self.at_most).min(left.len());
        into[..count].copy_from_slice(&left[..count]);
        self.at += count;
        Ok(count)
    }
}

/// Takes pieces and holds their bytes. It fails at the listed calls, and where a piece finds its
/// room used up. Calls are numbered from 1.
#[derive(Drop)]
pub struct MemSink {
    bytes: Vec<u8>,
    room: usize,
    at_most: usize,
    failing: Vec<u64>,
    calls: u64,
    faults: u64,
}

impl Model for MemSink {
    ghost use Rattle.std.specs.Prelude.{◌≤◌, length, vec_capacity};
    ghost use Rattle.stm_io.specs.MemSink.{SinkState};

    ghost Value = { SinkState };

    ghost view = { λ s. record {
      held = s.bytes.items;
      room = s.room;
      at_most = s.at_most;
      failing = s.failing.items;
      calls = s.calls;
      faults = s.faults;
    } };

    ghost invariant = { λ s.
        (length s.bytes.items ≤ s.room) × (s.room ≤ vec_capacity s.bytes) × (1 ≤ s.at_most) };
}

impl MemSink {
    ghost use Rattle.stm_io.specs.MemSink.{first_state};

    /// A sink that holds at most `room` bytes, for which memory is taken here, and takes at most
    /// `at_most` at a call.
    pub fn new(
        alloc: Global,
        room: usize,
        at_most: usize,
        failing: Vec<u64>,
    ) -> Result<MemSink, Memory>
        requires { 1 ≤ at_most }
        ensures { IfOk result (λ sink. sink ≡ first_state room at_most failing.items) }
    {
        let bytes = Vec::with_capacity(alloc, room)?;
        Ok(MemSink {
            bytes,
            room,
            at_most,
            failing,
            calls: 0,
            faults: 0,
        })
    }

    pub fn bytes(&self) -> &[u8]
        ensures held { result.now ≡ self.now.held }
        ensures within { length result.now ≤ self.now.room }
    {
        &self.bytes
    }
}

impl Sink for MemSink {
    ghost use Rattle.stm_io.specs.MemSink.{FailsNext, taken_count, after_write, after_fault};

    ghost held = { λ s. Some s.held };

    ghost faults = { λ s. s.faults };

    /// Takes no memory.
    fn write(&mut self, bytes: &[u8]) -> Result<usize, Failed>
        ensures bound { WritesAtMost result bytes.now }
        ensures some { 0 < length bytes.now → IfOk result (λ n. 1 ≤ n) }
        ensures bytes { WriteAppends (Some self.old.held) (Some self.new.held) result bytes.now }
        ensures cause { CountsFaults self.old.faults self.new.faults result }

        ensures fails { IsErr result ↔ FailsNext self.old bytes.now }
        ensures err { OnErr result (self.new ≡ after_fault self.old) }

        ensures takes { IfOk result (λ n. n ≡ taken_count self.old (length bytes.now)) }
        ensures ok { IfOk result (λ n. self.new ≡ after_write self.old (take n bytes.now)) }
        ensures within { length self.new.held ≤ self.new.room }
    {
        self.calls = self.calls.saturating_add(1);
        let left = self.room - self.bytes.len();
        let is_full = left == 0 && !bytes.is_empty();
        if is_full || self.failing.contains(&self.calls) {
            self.faults = self.faults.saturating_add(1);
            return Err(Failed);
        }
        let count = bytes.len().min(self.at_most).min(left);
        self.bytes.extend_from_slice(&bytes[..count]).unwrap();
        Ok(count)
    }
}
