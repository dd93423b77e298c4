//! The message that opens an upload.

ghost use Rattle.std.specs.Prelude.{◌≡◌, true};
ghost use Rattle.aea_disk.specs.State.{IsFixed};
ghost use Rattle.aea_messages.specs.declared.message.Message.TheVariants.{Open};
ghost use Rattle.aea_session.specs.Stands.{KeepsSomeMachine, IsTheSessions};
ghost use Rattle.aea_session.specs.Takes.{Takes};

use crate::answer::put_made;
use crate::fault::TakeFault;
use crate::open::open_upload;
use crate::work::Work;
use aea_disk::Disk;
use aea_io::Sink;
use aea_messages::Message;
use aea_records::ledgers_have_one_reading;
use std::alloc::Global;

/// Takes an open: opens an upload under this name in the slot, and gives the reply, whose code it returns. The disk is not used.
/// It takes the memory of the upload: its name, some 120 bytes and one block.
pub(crate) fn take_open<D: Disk, O: Sink>(
    alloc: Global,
    work: &mut Work,
    disk: &mut D,
    message: &Message,
    slot: u8,
    name: &[u8],
    out: &mut O,
) -> Result<u8, TakeFault>
    requires keeps { KeepsSomeMachine work.old }
    requires live { work.old.ledger.live ≡ true }
    requires this { D.reveals → IsTheSessions work.old (D.state disk.old).files }
    requires fixed { D.reveals → IsFixed (D.state disk.old) 0 }
    requires kind { message.now ≡ Open slot name.now }
    ensures takes { Takes D.reveals work.old work.new message.now (D.state disk.old) (D.state disk.new) (O.state out.old) (O.state out.new) result }
{
    ledgers_have_one_reading();
    let made = match open_upload(alloc, work, slot, name) {
        Ok(made) => made,
        Err(_) => return Err(TakeFault::NoMemory),
    };
    match put_made(out, message, made) {
        Ok(code) => Ok(code),
        Err(_) => Err(TakeFault::WriteFault),
    }
}
