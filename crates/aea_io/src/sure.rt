//! A source and a sink in memory that fail only where they must.

ghost use Rattle.std.specs.Prelude.{◌≡◌, ◌↔◌, ◌+◌, ◌-◌, ◌^◌, ◌<◌, ◌≤◌, [], length, take, min, Some, IfOk, IsOk, IsErr, OnOk, OnErr, vec_capacity, vec_len};
ghost use Rattle.std.specs.Io.{ReadsAtMost, WritesAtMost};
ghost use Rattle.std.specs.Io.KnownBytes.{Keeps, ReadConsumes, WriteAppends};
ghost use Rattle.aea_faults.specs.Faults.{HasCause};
ghost use Rattle.aea_io.specs.Written.{IsFlushed, StaysFlushed, WritesInRoom, FlushesInRoom};

use crate::traits::{ReadFault, Sink, Source, WriteFault};
use aea_faults::risen;
use std::alloc::{AllocError, Global};

/// A source over bytes in memory, which never fails.
#[derive(Drop)]
pub struct SureSource<'a> {
    /// The bytes that are left.
    pub rest: &'a [u8],
}

/// Copies the first bytes into the buffer, and returns how many.
pub(crate) fn copy_front(bytes: &[u8], buf: &mut [u8]) -> usize
    ensures count { result ≡ min (length buf.new) (length bytes.now) }
    ensures copied { take result buf.new ≡ take result bytes.now }
{
    let count = buf.len().min(bytes.len());
    buf[..count].copy_from_slice(&bytes[..count]);
    count
}

impl<'a> SureSource<'a> {
    /// The source that gives these bytes.
    pub fn new(bytes: &'a [u8]) -> SureSource<'a>
        ensures { result.rest.now ≡ bytes.now }
    {
        SureSource { rest: bytes }
    }
}

impl Source for SureSource<'_> {
    ghost state = { λ s. record { left = Some s.rest.now; faults = 0 } };

    fn read(&mut self, buf: &mut [u8]) -> Result<usize, ReadFault>
        ensures bound { ReadsAtMost result buf.new }
        ensures bytes { ReadConsumes (Some self.old.rest.now) (Some self.new.rest.now) result buf.new }
        ensures cause { HasCause 0 0 result }

        // It never fails, and gives as much as there is and fits.
        ensures sure { IsOk result }
        ensures count { IfOk result (λ k. k ≡ min (length buf.new) (length self.old.rest.now)) }
    {
        let count = copy_front(self.rest, buf);
        self.rest = &self.rest[count..];
        Ok(count)
    }
}

/// A sink in memory whose space is reserved once. Its only fault is a write where no space is left.
#[derive(Drop)]
pub struct SureSink {
    /// The bytes written.
    pub bytes: Vec<u8>,
    /// For how many bytes it has space in all.
    pub room: usize,
    /// How many bytes are flushed.
    pub flushed: usize,
    /// How often it has failed.
    pub faults: u64,
    ghost within: { vec_len bytes ≤ room },
    ghost reserved: { room ≤ vec_capacity bytes },
    ghost written: { flushed ≤ vec_len bytes },
}

impl SureSink {
    /// An empty sink with space for that many bytes.
    pub fn new(alloc: Global, room: usize) -> Result<SureSink, AllocError>
        ensures bytes { IfOk result (λ s. s.bytes.items ≡ []) }
        ensures room { IfOk result (λ s. s.room ≡ room) }
        ensures flushed { IfOk result (λ s. s.flushed ≡ 0) }
        ensures faults { IfOk result (λ s. s.faults ≡ 0) }
    {
        let bytes = Vec::with_capacity(alloc, room)?;
        Ok(SureSink {
            bytes,
            room,
            flushed: 0,
            faults: 0,
        })
    }

    /// The bytes written.
    pub fn bytes(&self) -> &[u8]
        ensures { result.now ≡ self.now.bytes.items }
    {
        self.bytes.as_slice()
    }

    /// Counts one more fault, and changes nothing else.
    pub(crate) fn count_fault(&mut self)
        ensures faults { self.new.faults ≡ min (self.old.faults + 1) (2 ^ 64 - 1) }
        ensures kept { self.old.faults ≤ self.new.faults }
        ensures bytes { self.new.bytes.items ≡ self.old.bytes.items }
        ensures room { self.new.room ≡ self.old.room }
        ensures flushed { self.new.flushed ≡ self.old.flushed }
    {
        self.faults = risen(self.faults);
    }
}

impl Sink for SureSink {
    ghost use Rattle.aea_io.specs.Sure.{sure_sink_state, IsRefused, fitting};

    ghost state = { sure_sink_state };

    fn write(&mut self, bytes: &[u8]) -> Result<usize, WriteFault>
        ensures bound { WritesAtMost result bytes.now }
        ensures progress { IfOk result (λ k. 0 < length bytes.now → 0 < k) }
        ensures bytes { WriteAppends (Some self.old.bytes.items) (Some self.new.bytes.items) result bytes.now }
        ensures flushed { StaysFlushed (sure_sink_state self.old) (sure_sink_state self.new) }
        ensures in_room { WritesInRoom (sure_sink_state self.old) (sure_sink_state self.new) result bytes.now }
        ensures cause { HasCause self.old.faults self.new.faults result }

        // It fails exactly where no space is left for a piece that is not empty, and counts that.
        ensures fails { IsErr result ↔ IsRefused self.old bytes.now }
        ensures counted { OnErr result (self.new.faults ≡ min (self.old.faults + 1) (2 ^ 64 - 1)) }

        // The part that fits is appended, and nothing else changes.
        ensures fitting { IfOk result (λ k. k ≡ fitting self.old bytes.now) }
        ensures steady { OnOk result (self.new.faults ≡ self.old.faults) }
        ensures same_room { self.new.room ≡ self.old.room }
        ensures same_flushed { self.new.flushed ≡ self.old.flushed }
    {
        let taken = bytes.len().min(self.room - self.bytes.len());
        if taken == 0 && !bytes.is_empty() {
            self.count_fault();
            return Err(WriteFault);
        }
        match self.bytes.extend_from_slice(&bytes[..taken]) {
            Ok(()) => Ok(taken),
            Err(_) => unreachable!(),
        }
    }

    fn flush(&mut self) -> Result<(), WriteFault>
        ensures all { OnOk result (IsFlushed (sure_sink_state self.new)) }
        ensures flushed { StaysFlushed (sure_sink_state self.old) (sure_sink_state self.new) }
        ensures bytes { Keeps (Some self.old.bytes.items) (Some self.new.bytes.items) }
        ensures in_room { FlushesInRoom (sure_sink_state self.old) (sure_sink_state self.new) result }
        ensures cause { HasCause self.old.faults self.new.faults result }

        // It never fails.
        ensures sure { IsOk result }
        ensures steady { self.new.faults ≡ self.old.faults }
        ensures same_room { self.new.room ≡ self.old.room }
    {
        self.flushed = self.bytes.len();
        Ok(())
    }
}
