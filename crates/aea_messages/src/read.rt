//! A message that is read of a stream.

ghost use Rattle.std.specs.Prelude.{◌≡◌, ◌≢◌, ◌≤◌, ◌^◌, Err};
ghost use Rattle.aea_faults.specs.Faults.{Rose};
ghost use Rattle.aea_messages.specs.Reading.{ReadsMessage};

use crate::fault::MessageFault;
use crate::fields::take_byte;
use crate::kinds::read_kind;
use crate::message::Message;
use aea_io::Source;
use std::alloc::Global;

/// Reads the next message of the stream, or nothing where it is at its end. A message is its kind, a byte from 1 to 6, and its
/// fields: a slot in 1 byte, a name behind its length in 2, a chunk's bytes behind their number in 4, numbers of blocks in 4,
/// high bytes first. `at` counts the bytes that were taken, whatever the answer, and none past the message is. It takes memory
/// for the name or the bytes alone.
pub fn read_message<S: Source>(
    alloc: Global,
    source: &mut S,
    at: &mut u64,
) -> Result<Option<Message>, MessageFault>
    requires count { at.old ≤ 2 ^ 63 }
    ensures reads { ReadsMessage (S.state source.old).left (S.state source.new).left at.old at.new result }
    ensures kept { (S.state source.old).faults ≤ (S.state source.new).faults }
    ensures cause { result ≡ Err MessageFault.ReadFault → Rose (S.state source.old).faults (S.state source.new).faults }
    ensures still { result ≢ Err MessageFault.ReadFault → (S.state source.new).faults ≡ (S.state source.old).faults }
{
    let kind = match take_byte(source, at) {
        Ok(kind) => kind,
        Err(MessageFault::BadStream { .. }) => return Ok(None),
        Err(MessageFault::ReadFault) => return Err(MessageFault::ReadFault),
        Err(_) => unreachable!(),
    };
    match read_kind(alloc, source, kind, at) {
        Ok(message) => Ok(Some(message)),
        Err(fault) => Err(fault),
    }
}
