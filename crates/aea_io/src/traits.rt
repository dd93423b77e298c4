//! Where bytes come from and where they go.

ghost use Rattle.std.specs.Prelude.{◌<◌, length, IfOk, OnOk};
ghost use Rattle.std.specs.Io.{ReadsAtMost, WritesAtMost};
ghost use Rattle.std.specs.Io.KnownBytes.{Keeps, ReadConsumes, WriteAppends};
ghost use Rattle.aea_faults.specs.Faults.{HasCause};
ghost use Rattle.aea_io.specs.Streams.{SourceState, SinkState};
ghost use Rattle.aea_io.specs.Written.{IsFlushed, StaysFlushed, WritesInRoom, FlushesInRoom};

/// A read that failed.
#[derive(Clone, Copy, Debug, PartialEq, Eq)]
pub struct ReadFault;

/// A write or a flush that failed.
#[derive(Clone, Copy, Debug, PartialEq, Eq)]
pub struct WriteFault;

/// Where bytes come from.
pub trait Source {
    /// What is known of the source. The count of faults stops at the greatest u64.
    ghost state: { Self → SourceState };

    /// Takes the next bytes, and returns how many. Ok(0) into a buffer that is not empty is the end of the input.
    fn read(&mut self, buf: &mut [u8]) -> Result<usize, ReadFault>
        ensures bound { ReadsAtMost result buf.new }
        ensures bytes { ReadConsumes (state self.old).left (state self.new).left result buf.new }
        ensures cause { HasCause (state self.old).faults (state self.new).faults result };
}

/// Where bytes go.
pub trait Sink {
    /// What is known of the sink. The count of faults stops at the greatest u64.
    ghost state: { Self → SinkState };

    /// Appends the first bytes of the piece, and returns how many: at least one, where the piece is not empty.
    fn write(&mut self, bytes: &[u8]) -> Result<usize, WriteFault>
        ensures bound { WritesAtMost result bytes.now }
        ensures progress { IfOk result (λ k. 0 < length bytes.now → 0 < k) }
        ensures bytes { WriteAppends (state self.old).written (state self.new).written result bytes.now }
        ensures flushed { StaysFlushed (state self.old) (state self.new) }
        ensures in_room { WritesInRoom (state self.old) (state self.new) result bytes.now }
        ensures cause { HasCause (state self.old).faults (state self.new).faults result };

    /// Flushes all bytes written.
    fn flush(&mut self) -> Result<(), WriteFault>
        ensures all { OnOk result (IsFlushed (state self.new)) }
        ensures flushed { StaysFlushed (state self.old) (state self.new) }
        ensures bytes { Keeps (state self.old).written (state self.new).written }
        ensures in_room { FlushesInRoom (state self.old) (state self.new) result }
        ensures cause { HasCause (state self.old).faults (state self.new).faults result };
}
