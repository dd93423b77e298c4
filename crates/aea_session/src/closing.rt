//! The message that closes an upload.

ghost use Rattle.std.specs.Prelude.{◌≡◌, true};
ghost use Rattle.aea_disk.specs.State.{IsFixed};
ghost use Rattle.aea_messages.specs.declared.message.Message.TheVariants.{Close};
ghost use Rattle.aea_session.specs.Stands.{KeepsSomeMachine, IsTheSessions};
ghost use Rattle.aea_session.specs.Takes.{Takes};

use crate::answer::put_closed;
use crate::close::close_upload;
use crate::fault::{TakeFault, take_fault};
use crate::work::Work;
use aea_disk::Disk;
use aea_io::Sink;
use aea_messages::Message;
use aea_records::ledgers_have_one_reading;

/// Takes a close: weaves the rest of the upload in the slot, records it with W in one commit, and gives the reply, whose code it
/// returns. Everything is synced before the first byte of a reply that tells of a close. It takes the memory that the close takes.
pub(crate) fn take_close<D: Disk, O: Sink>(
    work: &mut Work,
    disk: &mut D,
    message: &Message,
    slot: u8,
    out: &mut O,
) -> Result<u8, TakeFault>
    requires keeps { KeepsSomeMachine work.old }
    requires live { work.old.ledger.live ≡ true }
    requires this { D.reveals → IsTheSessions work.old (D.state disk.old).files }
    requires fixed { D.reveals → IsFixed (D.state disk.old) 0 }
    requires kind { message.now ≡ Close slot }
    ensures takes { Takes D.reveals work.old work.new message.now (D.state disk.old) (D.state disk.new) (O.state out.old) (O.state out.new) result }
{
    ledgers_have_one_reading();
    let closed = match close_upload(disk, work, slot) {
        Ok(closed) => closed,
        Err(fault) => return Err(take_fault(fault)),
    };
    match put_closed(out, message, closed) {
        Ok(code) => Ok(code),
        Err(_) => Err(TakeFault::WriteFault),
    }
}
