//! The message that adds bytes to an upload.

ghost use Rattle.std.specs.Prelude.{◌≡◌, true};
ghost use Rattle.aea_disk.specs.State.{IsFixed};
ghost use Rattle.aea_messages.specs.declared.message.Message.TheVariants.{Chunk};
ghost use Rattle.aea_session.specs.Stands.{KeepsSomeMachine, IsTheSessions};
ghost use Rattle.aea_session.specs.Takes.{Takes};

use crate::answer::put_made;
use crate::chunk::add_chunk;
use crate::fault::{TakeFault, take_fault};
use crate::work::Work;
use aea_disk::Disk;
use aea_io::Sink;
use aea_messages::Message;
use aea_records::ledgers_have_one_reading;

/// Takes a chunk: lets the bytes join the upload in the slot, weaves the blocks that they fill, and gives the reply, whose code it
/// returns. Nothing is synced. It takes the memory that these blocks take.
pub(crate) fn take_chunk<D: Disk, O: Sink>(
    work: &mut Work,
    disk: &mut D,
    message: &Message,
    slot: u8,
    bytes: &[u8],
    out: &mut O,
) -> Result<u8, TakeFault>
    requires keeps { KeepsSomeMachine work.old }
    requires live { work.old.ledger.live ≡ true }
    requires this { D.reveals → IsTheSessions work.old (D.state disk.old).files }
    requires fixed { D.reveals → IsFixed (D.state disk.old) 0 }
    requires kind { message.now ≡ Chunk slot bytes.now }
    ensures takes { Takes D.reveals work.old work.new message.now (D.state disk.old) (D.state disk.new) (O.state out.old) (O.state out.new) result }
{
    ledgers_have_one_reading();
    let made = match add_chunk(disk, work, slot, bytes) {
        Ok(made) => made,
        Err(fault) => return Err(take_fault(fault)),
    };
    match put_made(out, message, made) {
        Ok(code) => Ok(code),
        Err(_) => Err(TakeFault::WriteFault),
    }
}
