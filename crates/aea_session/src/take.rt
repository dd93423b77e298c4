//! Each message to what it asks for.

ghost use Rattle.std.specs.Prelude.{◌≡◌, true};
ghost use Rattle.aea_disk.specs.State.{IsFixed};
ghost use Rattle.aea_session.specs.Stands.{KeepsSomeMachine, IsTheSessions};
ghost use Rattle.aea_session.specs.Takes.{Takes};

use crate::aborting::take_abort;
use crate::chunking::take_chunk;
use crate::closing::take_close;
use crate::fault::TakeFault;
use crate::looking::{take_patrol, take_read};
use crate::opening::take_open;
use crate::work::Work;
use aea_disk::Disk;
use aea_io::Sink;
use aea_messages::Message;
use std::alloc::Global;

/// Takes a message: makes the step of the machine, gives the reply, flushes it, and returns its code.
pub(crate) fn take_message<D: Disk, O: Sink>(
    alloc: Global,
    work: &mut Work,
    disk: &mut D,
    message: &Message,
    out: &mut O,
) -> Result<u8, TakeFault>
    requires keeps { KeepsSomeMachine work.old }
    requires live { work.old.ledger.live ≡ true }
    requires this { D.reveals → IsTheSessions work.old (D.state disk.old).files }
    requires fixed { D.reveals → IsFixed (D.state disk.old) 0 }
    ensures takes { Takes D.reveals work.old work.new message.now (D.state disk.old) (D.state disk.new) (O.state out.old) (O.state out.new) result }
{
    match message {
        Message::Open { slot, name } => {
            take_open(alloc, work, disk, message, *slot, name.bytes(), out)
        }
        Message::Chunk { slot, bytes } => {
            take_chunk(work, disk, message, *slot, bytes.bytes(), out)
        }
        Message::Close { slot } => take_close(work, disk, message, *slot, out),
        Message::Abort { slot } => take_abort(work, disk, message, *slot, out),
        Message::Read { name } => take_read(alloc, work, disk, message, name.bytes(), out),
        Message::Patrol { first, count } => {
            take_patrol(alloc, work, disk, message, *first, *count, out)
        }
    }
}
