//! The message that gives an upload up.

ghost use Rattle.std.specs.Prelude.{◌≡◌, true};
ghost use Rattle.aea_disk.specs.State.{IsFixed};
ghost use Rattle.aea_messages.specs.declared.message.Message.TheVariants.{Abort};
ghost use Rattle.aea_session.specs.Stands.{KeepsSomeMachine, IsTheSessions};
ghost use Rattle.aea_session.specs.Takes.{Takes};

use crate::abort::abort_upload;
use crate::answer::put_made;
use crate::fault::TakeFault;
use crate::work::Work;
use aea_disk::Disk;
use aea_io::Sink;
use aea_messages::Message;
use aea_records::ledgers_have_one_reading;

/// Takes an abort: gives up the upload in the slot, and gives the reply, whose code it returns. The disk is not used.
pub(crate) fn take_abort<D: Disk, O: Sink>(
    work: &mut Work,
    disk: &mut D,
    message: &Message,
    slot: u8,
    out: &mut O,
) -> Result<u8, TakeFault>
    requires keeps { KeepsSomeMachine work.old }
    requires live { work.old.ledger.live ≡ true }
    requires this { D.reveals → IsTheSessions work.old (D.state disk.old).files }
    requires fixed { D.reveals → IsFixed (D.state disk.old) 0 }
    requires kind { message.now ≡ Abort slot }
    ensures takes { Takes D.reveals work.old work.new message.now (D.state disk.old) (D.state disk.new) (O.state out.old) (O.state out.new) result }
{
    ledgers_have_one_reading();
    let made = abort_upload(work, slot);
    match put_made(out, message, made) {
        Ok(code) => Ok(code),
        Err(_) => Err(TakeFault::WriteFault),
    }
}
