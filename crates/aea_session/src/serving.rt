//! The messages of a stream, one after the other.

ghost use Rattle.std.specs.Prelude.{◌≡◌, ◌≢◌, ◌≤◌, ◌^◌, true, false, Err, IsErr, OnOk};
ghost use Rattle.aea_faults.specs.Faults.{Rose};
ghost use Rattle.aea_disk.specs.State.{IsFixed};
ghost use Rattle.aea_session.specs.Serving.{ReadsNext, ServesAll};
ghost use Rattle.aea_session.specs.Stands.{IsTheSessions};
ghost use Rattle.aea_session.specs.Takes.{Takes};

use crate::fault::TakeFault;
use crate::session::Session;
use aea_disk::Disk;
use aea_io::{Sink, Source};
use aea_messages::{Message, MessageFault, read_message};
use std::alloc::Global;

/// Why a run ends before the end of its input.
#[derive(Clone, Copy, Debug, PartialEq, Eq)]
pub enum Stop {
    /// The bytes begin no message, at this place.
    BadMessage { at: u64 },
    /// The stream ends inside a message, after so many bytes.
    BadStream { at: u64 },
    /// A message comes after as many as are taken.
    TooManyMessages,
    /// A read of the source failed. The source has counted it.
    Input,
    /// There was no memory for a message.
    Memory,
    /// A message was not taken.
    Taken { fault: TakeFault },
}

// The most messages that are taken.
const GREATEST_MESSAGES: u32 = 16_777_216;

// Reads the next message; where so many were taken, none may come.
fn next_message<S: Source>(
    alloc: Global,
    input: &mut S,
    count: u32,
    at: &mut u64,
) -> Result<Option<Message>, Stop>
    requires count { at.old ≤ 2 ^ 63 }
    ensures reads { ReadsNext (S.state input.old).left (S.state input.new).left at.old at.new count result }
    ensures kept { (S.state input.old).faults ≤ (S.state input.new).faults }
    ensures cause { result ≡ Err Stop.Input → Rose (S.state input.old).faults (S.state input.new).faults }
    ensures still { result ≢ Err Stop.Input → (S.state input.new).faults ≡ (S.state input.old).faults }
{
    match read_message(alloc, input, at) {
        Ok(None) => Ok(None),
        Ok(Some(message)) => {
            if count < GREATEST_MESSAGES {
                Ok(Some(message))
            } else {
                Err(Stop::TooManyMessages)
            }
        }
        Err(MessageFault::BadMessage { at }) => Err(Stop::BadMessage { at }),
        Err(MessageFault::BadStream { at }) => Err(Stop::BadStream { at }),
        Err(MessageFault::ReadFault) => Err(Stop::Input),
        Err(MessageFault::NoMemory) => Err(Stop::Memory),
    }
}

// Takes a message that is of no use afterwards.
fn take_next<D: Disk, O: Sink>(
    session: &mut Session,
    disk: &mut D,
    message: Message,
    out: &mut O,
) -> Result<u8, TakeFault>
    requires live { session.old.live ≡ true }
    requires this { D.reveals → IsTheSessions session.old.work (D.state disk.old).files }
    requires fixed { D.reveals → IsFixed (D.state disk.old) 0 }
    ensures takes { Takes D.reveals session.old.work session.new.work message (D.state disk.old) (D.state disk.new) (O.state out.old) (O.state out.new) result }
    ensures live { OnOk result (session.new.live ≡ true) }
    ensures dead { IsErr result → session.new.live ≡ false }
{
    session.take(disk, &message, out)
}

/// Takes the messages of the input, one after the other, up to its end, and gives the reply to each before it reads the next one.
/// At most 16,777,216 messages are taken, and one more is read. The session may be used on, for another stream, unless a message
/// was not taken. It takes memory for the name or the bytes of one message at a time, and what the session takes for it.
pub fn serve<D: Disk, S: Source, O: Sink>(
    alloc: Global,
    session: &mut Session,
    disk: &mut D,
    input: &mut S,
    out: &mut O,
) -> Result<(), Stop>
    requires live { session.old.live ≡ true }
    requires this { D.reveals → IsTheSessions session.old.work (D.state disk.old).files }
    requires fixed { D.reveals → IsFixed (D.state disk.old) 0 }
    ensures serves { ServesAll D.reveals D.state session.old.work session.new.work disk.old disk.new (S.state input.old).left (S.state input.new).left (O.state out.old) (O.state out.new) result }
    ensures live { ((fault : TakeFault) → result ≢ Err (Stop.Taken fault)) → session.new.live ≡ true }
    ensures dead { (fault : TakeFault) → result ≡ Err (Stop.Taken fault) → session.new.live ≡ false }
    ensures this { ((fault : TakeFault) → result ≢ Err (Stop.Taken fault)) → D.reveals → IsTheSessions session.new.work (D.state disk.new).files }
    ensures fixed { ((fault : TakeFault) → result ≢ Err (Stop.Taken fault)) → D.reveals → IsFixed (D.state disk.new) 0 }
    ensures input_kept { (S.state input.old).faults ≤ (S.state input.new).faults }
    ensures input_cause { result ≡ Err Stop.Input → Rose (S.state input.old).faults (S.state input.new).faults }
    ensures input_still { result ≢ Err Stop.Input → (S.state input.new).faults ≡ (S.state input.old).faults }
    ensures out_kept { (O.state out.old).faults ≤ (O.state out.new).faults }
    ensures out_cause { result ≡ Err (Stop.Taken TakeFault.WriteFault) → Rose (O.state out.old).faults (O.state out.new).faults }
    ensures out_still { result ≢ Err (Stop.Taken TakeFault.WriteFault) → (O.state out.new).faults ≡ (O.state out.old).faults }
{
    let mut at: u64 = 0;
    let mut count: u32 = 0;
    loop {
        let message = match next_message(alloc, input, count, &mut at) {
            Ok(Some(message)) => message,
            Ok(None) => return Ok(()),
            Err(stop) => return Err(stop),
        };
        match take_next(session, disk, message, out) {
            Ok(_) => (),
            Err(fault) => return Err(Stop::Taken { fault }),
        }
        count += 1;
    }
}
