//! Writes of whole pieces.

ghost use Rattle.aea_faults.specs.Faults.{HasCause};
ghost use Rattle.aea_io.specs.Written.{StaysFlushed, PutsAll, PutsInRoom};

use crate::traits::{Sink, WriteFault};

/// Appends all the bytes in order, or a first part of them where a write fails.
pub fn put_all<O: Sink>(sink: &mut O, bytes: &[u8]) -> Result<(), WriteFault>
    ensures bytes { PutsAll (O.state sink.old).written (O.state sink.new).written result bytes.now }
    ensures flushed { StaysFlushed (O.state sink.old) (O.state sink.new) }
    ensures in_room { PutsInRoom (O.state sink.old) (O.state sink.new) result bytes.now }
    ensures cause { HasCause (O.state sink.old).faults (O.state sink.new).faults result }
{
    let mut done = 0;
    while done < bytes.len() {
        done += sink.write(&bytes[done..])?;
    }
    Ok(())
}
