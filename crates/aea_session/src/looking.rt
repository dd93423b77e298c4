//! The messages that only look: a read and a patrol.

ghost use Rattle.std.specs.Prelude.{◌≡◌, true};
ghost use Rattle.aea_disk.specs.State.{IsFixed};
ghost use Rattle.aea_messages.specs.declared.message.Message.TheVariants.{Read, Patrol};
ghost use Rattle.aea_session.specs.Stands.{KeepsSomeMachine, IsTheSessions};
ghost use Rattle.aea_session.specs.Takes.{Takes};

use crate::fault::TakeFault;
use crate::patrol::patrol;
use crate::read::{looks_keep, read};
use crate::work::Work;
use aea_disk::Disk;
use aea_io::Sink;
use aea_messages::Message;
use aea_records::ledgers_have_one_reading;
use aea_shelf::homes_are_on_its_sites;
use std::alloc::Global;

/// Takes a read: gives the reply, with the bytes of the object under the name, and returns its code. The disk is only read. It
/// takes the memory of a piece of 64 KiB.
pub(crate) fn take_read<D: Disk, O: Sink>(
    alloc: Global,
    work: &mut Work,
    disk: &mut D,
    message: &Message,
    name: &[u8],
    out: &mut O,
) -> Result<u8, TakeFault>
    requires keeps { KeepsSomeMachine work.old }
    requires live { work.old.ledger.live ≡ true }
    requires this { D.reveals → IsTheSessions work.old (D.state disk.old).files }
    requires fixed { D.reveals → IsFixed (D.state disk.old) 0 }
    requires kind { message.now ≡ Read name.now }
    ensures takes { Takes D.reveals work.old work.new message.now (D.state disk.old) (D.state disk.new) (O.state out.old) (O.state out.new) result }
{
    ledgers_have_one_reading();
    homes_are_on_its_sites();
    looks_keep();
    read(alloc, disk, work, message, name, out)
}

/// Takes a patrol: gives the reply, with the numbers of the blocks of the range that are not intact, and returns its code. The
/// disk is only read. It takes 4 bytes of memory for each block of the range.
pub(crate) fn take_patrol<D: Disk, O: Sink>(
    alloc: Global,
    work: &mut Work,
    disk: &mut D,
    message: &Message,
    first: u32,
    count: u32,
    out: &mut O,
) -> Result<u8, TakeFault>
    requires keeps { KeepsSomeMachine work.old }
    requires live { work.old.ledger.live ≡ true }
    requires this { D.reveals → IsTheSessions work.old (D.state disk.old).files }
    requires fixed { D.reveals → IsFixed (D.state disk.old) 0 }
    requires kind { message.now ≡ Patrol first count }
    ensures takes { Takes D.reveals work.old work.new message.now (D.state disk.old) (D.state disk.new) (O.state out.old) (O.state out.new) result }
{
    ledgers_have_one_reading();
    homes_are_on_its_sites();
    looks_keep();
    patrol(alloc, disk, work, message, first, count, out)
}
