//! `repair`: the damaged blocks that the others determine are restored.

ghost use Rattle.std.specs.Prelude.{◌≡◌, ◌≢◌, ◌≤◌, ℕ, List, IfOk, OnOk};
ghost use Rattle.aea_faults.specs.Faults.{Rose};
ghost use Rattle.aea_io.specs.Written.{IsFlushed};
ghost use Rattle.aea_command.specs.Causes.{Refuses};
ghost use Rattle.aea_command.specs.Failures.{IsWell};
ghost use Rattle.aea_command.specs.Openings.{OpeningCauses, KeepsAllBut};
ghost use Rattle.aea_command_loss.specs.Repair.{IsSiteFile, RepairsArchive};

use aea_command::{Failure, Status, open};
use aea_disk::Disk;
use aea_io::Sink;
use aea_records::ledgers_have_one_reading;
use aea_repair::repair;
use std::alloc::Global;

/// Opens the archive, writes each damaged block that the others determine to its home, syncs all of it, and prints the loss
/// report. The status says whether a block is lost. Beside the opened ledger it takes what `aea_repair` says, none of it
/// from the first cell that is written on.
pub fn repair_archive<D: Disk, O: Sink>(
    alloc: Global,
    disk: &mut D,
    out: &mut O,
) -> Result<Status, Failure>
    ensures repairs { RepairsArchive D.reveals (D.state disk.old) (D.state disk.new) (O.state out.old) (O.state out.new) result }
    ensures refuses { Refuses D.reveals (OpeningCauses ((D.state disk.old).files 0)) result }
    ensures words { result ≢ Err Failure.Words }
    ensures input { result ≢ Err Failure.Input }
    ensures kinds { IfOk result IsWell }
    ensures flushed { OnOk result (IsFlushed (O.state out.new)) }

    // The disk and the output in any case.
    ensures rest { KeepsAllBut IsSiteFile D.reveals (result ≡ Err Failure.Disk) (D.state disk.old) (D.state disk.new) }
    ensures out_kept { (O.state out.old).faults ≤ (O.state out.new).faults }
    ensures out_cause { result ≡ Err Failure.Output → Rose (O.state out.old).faults (O.state out.new).faults }
    ensures out_still { result ≢ Err Failure.Output → (O.state out.new).faults ≡ (O.state out.old).faults }
{
    ledgers_have_one_reading();
    let ledger = open(alloc, disk)?;
    let outcome = repair(alloc, &ledger, disk, out)?;
    Ok(Status::by_damage(outcome.lost))
}
