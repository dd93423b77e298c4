//! Sources and sinks over std's readers and writers.

ghost use Rattle.std.specs.Prelude.{◌≡◌, ◌+◌, ◌-◌, ◌^◌, ◌<◌, ◌≤◌, length, min, IfOk, OnOk, OnErr, None};
ghost use Rattle.std.specs.Io.{ReadsAtMost, WritesAtMost};
ghost use Rattle.std.specs.Io.KnownBytes.{Keeps, ReadConsumes, WriteAppends};
ghost use Rattle.aea_faults.specs.Faults.{HasCause};

use crate::traits::{ReadFault, Sink, Source, WriteFault};
use aea_faults::risen;
use std::io::{ErrorKind, Read, Write};

// How often a call that was interrupted is made again.
const RETRIES: u32 = 100;

/// A source over a reader of std. What is known of it is what the reader reveals; it counts each read that returns a fault.
/// A read that was interrupted is made again, 100 times at most, and is a fault only where it is interrupted once more.
#[derive(Drop)]
pub struct StdSource<R> {
    /// The reader.
    pub reader: R,
    /// How often a read returned a fault. The count stops at the greatest u64.
    pub faults: u64,
}

impl<R: Read> StdSource<R> {
    /// The source over this reader.
    pub fn new(reader: R) -> StdSource<R>
        ensures reader { result.reader ≡ reader }
        ensures faults { result.faults ≡ 0 }
    {
        StdSource { reader, faults: 0 }
    }

    // One read of the reader.
    fn read_once(&mut self, buf: &mut [u8]) -> Result<usize, ErrorKind>
        ensures bound { ReadsAtMost result buf.new }
        ensures bytes { ReadConsumes (R.remaining self.old.reader) (R.remaining self.new.reader) result buf.new }
        ensures steady { self.new.faults ≡ self.old.faults }
    {
        match self.reader.read(buf) {
            Ok(taken) => Ok(taken),
            Err(error) => Err(error.kind()),
        }
    }

    // Counts a fault, and gives it.
    fn fault(&mut self) -> ReadFault
        ensures counted { self.new.faults ≡ min (self.old.faults + 1) (2 ^ 64 - 1) }
        ensures kept { self.old.faults ≤ self.new.faults }
        ensures reader { self.new.reader ≡ self.old.reader }
    {
        self.faults = risen(self.faults);
        ReadFault
    }
}

impl<R: Read> Source for StdSource<R> {
    ghost state = { λ s. record { left = R.remaining s.reader; faults = s.faults } };

    fn read(&mut self, buf: &mut [u8]) -> Result<usize, ReadFault> {
        for _ in 0..RETRIES {
            match self.read_once(buf) {
                Ok(count) => return Ok(count),
                Err(ErrorKind::Interrupted) => {}
                Err(_) => return Err(self.fault()),
            }
        }
        match self.read_once(buf) {
            Ok(count) => Ok(count),
            Err(_) => Err(self.fault()),
        }
    }
}

/// A sink over a writer of std. It reveals what the writer reveals, holds no bytes of its own, and counts each write and flush
/// that returns a fault. A write in which the writer takes nothing of a piece that is not empty is a fault. One that was
/// interrupted is made again, 100 times at most, and is a fault only where it is interrupted once more; an interrupted
/// flush is a fault.
#[derive(Drop)]
pub struct StdSink<W> {
    /// The writer.
    pub writer: W,
    /// How often a write or a flush returned a fault. The count stops at the greatest u64.
    pub faults: u64,
}

impl<W: Write> StdSink<W> {
    /// The sink over this writer.
    pub fn new(writer: W) -> StdSink<W>
        ensures writer { result.writer ≡ writer }
        ensures faults { result.faults ≡ 0 }
    {
        StdSink { writer, faults: 0 }
    }

    // One write of the writer.
    fn write_once(&mut self, bytes: &[u8]) -> Result<usize, ErrorKind>
        ensures bound { WritesAtMost result bytes.now }
        ensures progress { IfOk result (λ k. 0 < length bytes.now → 0 < k) }
        ensures bytes { WriteAppends (W.contents self.old.writer) (W.contents self.new.writer) result bytes.now }
        ensures steady { self.new.faults ≡ self.old.faults }
    {
        match self.writer.write(bytes) {
            Ok(count) if count > 0 || bytes.is_empty() => Ok(count),
            Ok(_) => Err(ErrorKind::WriteZero),
            Err(error) => Err(error.kind()),
        }
    }

    // Counts a fault, and gives it.
    fn fault(&mut self) -> WriteFault
        ensures counted { self.new.faults ≡ min (self.old.faults + 1) (2 ^ 64 - 1) }
        ensures kept { self.old.faults ≤ self.new.faults }
        ensures writer { self.new.writer ≡ self.old.writer }
    {
        self.faults = risen(self.faults);
        WriteFault
    }

    // One flush of the writer.
    fn flush_once(&mut self) -> Result<(), WriteFault>
        ensures bytes { Keeps (W.contents self.old.writer) (W.contents self.new.writer) }
        ensures steady { OnOk result (self.new.faults ≡ self.old.faults) }
        ensures counted { OnErr result (self.new.faults ≡ min (self.old.faults + 1) (2 ^ 64 - 1)) }
        ensures cause { HasCause self.old.faults self.new.faults result }
    {
        match self.writer.flush() {
            Ok(()) => Ok(()),
            Err(_) => Err(self.fault()),
        }
    }
}

impl<W: Write> Sink for StdSink<W> {
    ghost state = { λ s. record { written = W.contents s.writer; flushed = None; room = None; faults = s.faults } };

    fn write(&mut self, bytes: &[u8]) -> Result<usize, WriteFault> {
        for _ in 0..RETRIES {
            match self.write_once(bytes) {
                Ok(count) => return Ok(count),
                Err(ErrorKind::Interrupted) => {}
                Err(_) => return Err(self.fault()),
            }
        }
        match self.write_once(bytes) {
            Ok(count) => Ok(count),
            Err(_) => Err(self.fault()),
        }
    }

    fn flush(&mut self) -> Result<(), WriteFault> {
        self.flush_once()
    }
}
