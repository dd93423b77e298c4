//! `get`: an object that is got back.

ghost use Rattle.std.specs.Prelude.{◌≡◌, ◌≢◌, ◌≤◌, IfOk, OnOk};
ghost use Rattle.aea_faults.specs.Faults.{Rose};
ghost use Rattle.aea_io.specs.Written.{IsFlushed};
ghost use Rattle.aea_disk.specs.Frames.{OnlyReads};
ghost use Rattle.aea_command.specs.Causes.{Refuses};
ghost use Rattle.aea_command.specs.Failures.{NeverClashes};
ghost use Rattle.aea_command_read.specs.Get.{Gets, GetCauses};

use aea_command::{Failure, Status, open};
use aea_disk::Disk;
use aea_fetch::get;
use aea_io::Sink;
use aea_records::{ledgers_have_one_reading, new_names_are_free};
use std::alloc::Global;

/// Opens the archive, and writes the bytes of the object under the name, and nothing else. The cells of its data blocks are
/// read twice: nothing is written before all were found intact. It takes memory for a cell and for 64 KiB beside the opened
/// ledger; none after the first read of a cell.
pub fn get_object<D: Disk, O: Sink>(
    alloc: Global,
    name: &[u8],
    disk: &mut D,
    out: &mut O,
) -> Result<Status, Failure>
    ensures gets { Gets name.now D.reveals (D.state disk.old) (D.state disk.new) (O.state out.old) (O.state out.new) result }
    ensures refuses { Refuses D.reveals (GetCauses name.now (D.state disk.old).files) result }
    ensures words { result ≢ Err Failure.Words }
    ensures clash { NeverClashes result }
    ensures input { result ≢ Err Failure.Input }
    ensures done { IfOk result (λ status. status ≡ Status.Done) }
    ensures flushed { OnOk result (IsFlushed (O.state out.new)) }

    // The disk and the output in any case.
    ensures reads { OnlyReads D.reveals (result ≡ Err Failure.Disk) (D.state disk.old) (D.state disk.new) }
    ensures out_kept { (O.state out.old).faults ≤ (O.state out.new).faults }
    ensures out_cause { result ≡ Err Failure.Output → Rose (O.state out.old).faults (O.state out.new).faults }
    ensures out_still { result ≢ Err Failure.Output → (O.state out.new).faults ≡ (O.state out.old).faults }
{
    ledgers_have_one_reading();
    new_names_are_free();
    let ledger = open(alloc, disk)?;
    get(alloc, &ledger, disk, name, out)?;
    Ok(Status::Done)
}
