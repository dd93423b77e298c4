//! `fetch`: an object that is read without repair.

ghost use Rattle.std.specs.Prelude.{◌≡◌, ◌≢◌, ◌≤◌, IfOk, OnOk};
ghost use Rattle.aea_faults.specs.Faults.{Rose};
ghost use Rattle.aea_io.specs.Written.{IsFlushed};
ghost use Rattle.aea_disk.specs.Frames.{OnlyReads};
ghost use Rattle.aea_command.specs.Causes.{Refuses};
ghost use Rattle.aea_command_read.specs.Fetch.{FetchesObject, FetchCauses};

use aea_archive::survivors_are_revealed;
use aea_command::{Failure, Status, open};
use aea_degraded::fetch;
use aea_disk::Disk;
use aea_io::Sink;
use aea_records::{ledgers_have_one_reading, new_names_are_free};
use std::alloc::Global;

/// Opens the archive, and writes the bytes of the object under the name, and nothing else; a data block that is damaged is
/// computed from the intact blocks that determine it. Nothing is written to the disk. Beside the opened ledger it takes what
/// `aea_degraded` says; none from the first byte that is written on.
pub fn fetch_object<D: Disk, O: Sink>(
    alloc: Global,
    name: &[u8],
    disk: &mut D,
    out: &mut O,
) -> Result<Status, Failure>
    ensures fetches { FetchesObject name.now D.reveals (D.state disk.old) (D.state disk.new) (O.state out.old) (O.state out.new) result }
    ensures refuses { Refuses D.reveals (FetchCauses name.now (D.state disk.old).files) result }
    ensures words { result ≢ Err Failure.Words }
    ensures input { result ≢ Err Failure.Input }
    ensures done { IfOk result (λ status. status ≡ Status.Done) }
    ensures flushed { OnOk result (IsFlushed (O.state out.new)) }

    // The disk and the output in any case.
    ensures reads { OnlyReads D.reveals (result ≡ Err Failure.Disk) (D.state disk.old) (D.state disk.new) }
    ensures out_kept { (O.state out.old).faults ≤ (O.state out.new).faults }
    ensures out_cause { result ≡ Err Failure.Output → Rose (O.state out.old).faults (O.state out.new).faults }
    ensures out_still { result ≢ Err Failure.Output → (O.state out.new).faults ≡ (O.state out.old).faults }
{
    ledgers_have_one_reading();
    new_names_are_free();
    survivors_are_revealed();
    let ledger = open(alloc, disk)?;
    fetch(alloc, &ledger, disk, name, out)?;
    Ok(Status::Done)
}
