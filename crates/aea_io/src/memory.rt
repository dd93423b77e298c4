//! A source and a sink in memory that also fail at listed calls.

ghost use Rattle.std.specs.Prelude.{◌≡◌, ◌↔◌, ◌⊎◌, ◌+◌, ◌-◌, ◌^◌, ◌<◌, ◌≤◌, [], length, drop, min, Some, IfOk, IsErr, OnOk, OnErr, vec_len};
ghost use Rattle.std.specs.Io.{ReadsAtMost, WritesAtMost};
ghost use Rattle.std.specs.Io.KnownBytes.{Keeps, ReadConsumes, WriteAppends};
ghost use Rattle.aea_faults.specs.Faults.{HasCause};
ghost use Rattle.aea_io.specs.Written.{IsFlushed, StaysFlushed, WritesInRoom, FlushesInRoom};
ghost use Rattle.aea_io.specs.Fails.{IsNextListed, CountsCall};
ghost use Rattle.aea_io.specs.Sure.{IsRefused, fitting};

use crate::fails::Fails;
use crate::sure::{SureSink, copy_front};
use crate::traits::{ReadFault, Sink, Source, WriteFault};
use aea_faults::risen;
use std::alloc::{AllocError, Global};

/// A source over bytes in memory that fails at the listed calls alone.
#[derive(Drop)]
pub struct MemSource {
    /// All the bytes, also those that were taken.
    pub bytes: Vec<u8>,
    /// How many bytes were taken.
    pub taken: usize,
    /// The calls that are to fail.
    pub fails: Fails,
    /// How often it has failed.
    pub faults: u64,
    ghost within: { taken ≤ vec_len bytes },
}

impl MemSource {
    /// The source that gives these bytes and fails at these calls, counted from 1.
    pub fn new(alloc: Global, bytes: &[u8], fails: &[u32]) -> Result<MemSource, AllocError>
        ensures bytes { IfOk result (λ s. s.bytes.items ≡ bytes.now) }
        ensures taken { IfOk result (λ s. s.taken ≡ 0) }
        ensures fails { IfOk result (λ s. s.fails.listed.items ≡ fails.now) }
        ensures calls { IfOk result (λ s. s.fails.calls ≡ 0) }
        ensures faults { IfOk result (λ s. s.faults ≡ 0) }
    {
        let bytes = bytes.to_vec(alloc)?;
        let fails = Fails::new(alloc, fails)?;
        Ok(MemSource {
            bytes,
            taken: 0,
            fails,
            faults: 0,
        })
    }
}

impl Source for MemSource {
    ghost state = { λ s. record { left = Some (drop s.taken s.bytes.items); faults = s.faults } };

    fn read(&mut self, buf: &mut [u8]) -> Result<usize, ReadFault>
        ensures bound { ReadsAtMost result buf.new }
        ensures bytes { ReadConsumes (Some (drop self.old.taken self.old.bytes.items)) (Some (drop self.new.taken self.new.bytes.items)) result buf.new }
        ensures cause { HasCause self.old.faults self.new.faults result }

        // It fails exactly at the listed calls, and counts that.
        ensures fails { IsErr result ↔ IsNextListed self.old.fails }
        ensures counted { OnErr result (self.new.faults ≡ min (self.old.faults + 1) (2 ^ 64 - 1)) }
        ensures calls { CountsCall self.old.fails self.new.fails }

        // It gives as much as there is and fits, and nothing else changes.
        ensures count { IfOk result (λ k. k ≡ min (length buf.new) (vec_len self.old.bytes - self.old.taken)) }
        ensures steady { OnOk result (self.new.faults ≡ self.old.faults) }
        ensures same_bytes { self.new.bytes.items ≡ self.old.bytes.items }
    {
        if self.fails.count_call() {
            self.faults = risen(self.faults);
            return Err(ReadFault);
        }
        let count = copy_front(&self.bytes[self.taken..], buf);
        self.taken += count;
        Ok(count)
    }
}

/// A sink in memory whose space is reserved once. It fails where a `SureSink` does, and at the listed calls.
#[derive(Drop)]
pub struct MemSink {
    /// What was written.
    pub sink: SureSink,
    /// The calls that are to fail. Writes and flushes are counted alike.
    pub fails: Fails,
}

impl MemSink {
    /// An empty sink with space for that many bytes, which fails at these calls, counted from 1.
    pub fn new(alloc: Global, room: usize, fails: &[u32]) -> Result<MemSink, AllocError>
        ensures bytes { IfOk result (λ s. s.sink.bytes.items ≡ []) }
        ensures room { IfOk result (λ s. s.sink.room ≡ room) }
        ensures flushed { IfOk result (λ s. s.sink.flushed ≡ 0) }
        ensures faults { IfOk result (λ s. s.sink.faults ≡ 0) }
        ensures fails { IfOk result (λ s. s.fails.listed.items ≡ fails.now) }
        ensures calls { IfOk result (λ s. s.fails.calls ≡ 0) }
    {
        let sink = SureSink::new(alloc, room)?;
        let fails = Fails::new(alloc, fails)?;
        Ok(MemSink { sink, fails })
    }

    /// The bytes written.
    pub fn bytes(&self) -> &[u8]
        ensures { result.now ≡ self.now.sink.bytes.items }
    {
        self.sink.bytes()
    }
}

impl Sink for MemSink {
    ghost use Rattle.aea_io.specs.Listed.{listed_state};

    ghost state = { listed_state };

    fn write(&mut self, bytes: &[u8]) -> Result<usize, WriteFault>
        ensures bound { WritesAtMost result bytes.now }
        ensures progress { IfOk result (λ k. 0 < length bytes.now → 0 < k) }
        ensures bytes { WriteAppends (Some self.old.sink.bytes.items) (Some self.new.sink.bytes.items) result bytes.now }
        ensures flushed { StaysFlushed (listed_state self.old) (listed_state self.new) }
        ensures in_room { WritesInRoom (listed_state self.old) (listed_state self.new) result bytes.now }
        ensures cause { HasCause self.old.sink.faults self.new.sink.faults result }

        // It fails exactly at the listed calls and where no space is left for a piece that is not empty, and counts that.
        ensures fails { IsErr result ↔ (IsNextListed self.old.fails ⊎ IsRefused self.old.sink bytes.now) }
        ensures counted { OnErr result (self.new.sink.faults ≡ min (self.old.sink.faults + 1) (2 ^ 64 - 1)) }
        ensures calls { CountsCall self.old.fails self.new.fails }

        // The part that fits is appended, and nothing else changes.
        ensures fitting { IfOk result (λ k. k ≡ fitting self.old.sink bytes.now) }
        ensures steady { OnOk result (self.new.sink.faults ≡ self.old.sink.faults) }
        ensures same_room { self.new.sink.room ≡ self.old.sink.room }
        ensures same_flushed { self.new.sink.flushed ≡ self.old.sink.flushed }
    {
        if self.fails.count_call() {
            self.sink.count_fault();
            return Err(WriteFault);
        }
        self.sink.write(bytes)
    }

    fn flush(&mut self) -> Result<(), WriteFault>
        ensures all { OnOk result (IsFlushed (listed_state self.new)) }
        ensures flushed { StaysFlushed (listed_state self.old) (listed_state self.new) }
        ensures bytes { Keeps (Some self.old.sink.bytes.items) (Some self.new.sink.bytes.items) }
        ensures in_room { FlushesInRoom (listed_state self.old) (listed_state self.new) result }
        ensures cause { HasCause self.old.sink.faults self.new.sink.faults result }

        // It fails exactly at the listed calls, and counts that.
        ensures fails { IsErr result ↔ IsNextListed self.old.fails }
        ensures counted { OnErr result (self.new.sink.faults ≡ min (self.old.sink.faults + 1) (2 ^ 64 - 1)) }
        ensures calls { CountsCall self.old.fails self.new.fails }

        // Nothing else changes.
        ensures steady { OnOk result (self.new.sink.faults ≡ self.old.sink.faults) }
        ensures same_room { self.new.sink.room ≡ self.old.sink.room }
        ensures same_flushed { OnErr result (self.new.sink.flushed ≡ self.old.sink.flushed) }
    {
        if self.fails.count_call() {
            self.sink.count_fault();
            return Err(WriteFault);
        }
        self.sink.flush()
    }
}
