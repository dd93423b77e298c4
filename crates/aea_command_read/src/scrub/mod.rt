//! `scrub`: which blocks of the archive are damaged.

ghost use Rattle.std.specs.Prelude.{◌≡◌, ◌≢◌, ◌≤◌, ◌⊎◌, ◌↔◌, not, IsTrue, IfOk, IfErr, OnOk};
ghost use Rattle.aea_faults.specs.Faults.{Rose};
ghost use Rattle.aea_io.specs.Written.{IsFlushed};
ghost use Rattle.aea_lattice.specs.declared.blocks.BlockId.{BlockId};
ghost use Rattle.aea_lattice.specs.Blocks.{HasBlock};
ghost use Rattle.aea_view.specs.Marked.{is_marked};
ghost use Rattle.aea_disk.specs.Frames.{OnlyReads};
ghost use Rattle.aea_archive.specs.Blocks.{IsIntactBy};
ghost use Rattle.aea_command.specs.Causes.{Refuses};
ghost use Rattle.aea_command.specs.Failures.{IsWell, NeverClashes};
ghost use Rattle.aea_command.specs.Openings.{OpeningCauses};
ghost use Rattle.aea_command_read.specs.Scrub.{Scrubs};

mod lines;

use aea_command::{Failure, Status, open};
use aea_disk::Disk;
use aea_io::Sink;
use aea_ledger::Ledger;
use aea_records::ledgers_have_one_reading;
use aea_scrub::{ScanFault, scan};
use aea_view::Marks;
use lines::put_damage;
use std::alloc::Global;

// Reads every cell of the archive, and marks the damaged blocks.
fn damaged_marks<D: Disk>(alloc: Global, ledger: &Ledger, disk: &mut D) -> Result<Marks, Failure>
    ensures lattice { IfOk result (λ m. m.lattice ≡ ledger.now.lattice) }
    ensures damaged { IfOk result (λ m. D.reveals → (b : BlockId) → HasBlock ledger.now.lattice b → IsTrue (not (is_marked m b)) ↔ IsIntactBy ledger.now.shape ledger.now.digests (D.state disk.old).files b) }
    ensures faults { IfErr result (λ f. (f ≡ Failure.Disk) ⊎ (f ≡ Failure.Memory)) }
    ensures reads { OnlyReads D.reveals (result ≡ Err Failure.Disk) (D.state disk.old) (D.state disk.new) }
{
    match scan(alloc, ledger, disk) {
        Ok(intact) => match intact.complement(alloc) {
            Ok(damaged) => Ok(damaged),
            Err(_) => Err(Failure::Memory),
        },
        Err(ScanFault::DiskFault) => Err(Failure::Disk),
        Err(ScanFault::NoMemory) => Err(Failure::Memory),
    }
}

/// Opens the archive, reads the cell of each block once, and prints the damaged blocks: `damaged B` for each in number
/// order, and at the end `total BLOCKS damaged K`. The status says whether there are any. The disk is only read.
pub fn scrub<D: Disk, O: Sink>(alloc: Global, disk: &mut D, out: &mut O) -> Result<Status, Failure>
    ensures scrubs { Scrubs D.reveals (D.state disk.old) (D.state disk.new) (O.state out.old) (O.state out.new) result }
    ensures refuses { Refuses D.reveals (OpeningCauses ((D.state disk.old).files 0)) result }
    ensures words { result ≢ Err Failure.Words }
    ensures clash { NeverClashes result }
    ensures input { result ≢ Err Failure.Input }
    ensures kinds { IfOk result IsWell }
    ensures flushed { OnOk result (IsFlushed (O.state out.new)) }

    // The disk and the output in any case.
    ensures reads { OnlyReads D.reveals (result ≡ Err Failure.Disk) (D.state disk.old) (D.state disk.new) }
    ensures out_kept { (O.state out.old).faults ≤ (O.state out.new).faults }
    ensures out_cause { result ≡ Err Failure.Output → Rose (O.state out.old).faults (O.state out.new).faults }
    ensures out_still { result ≢ Err Failure.Output → (O.state out.new).faults ≡ (O.state out.old).faults }
{
    ledgers_have_one_reading();
    let ledger = open(alloc, disk)?;
    let damaged = damaged_marks(alloc, &ledger, disk)?;
    Ok(put_damage(out, &ledger.lattice(), &damaged)?)
}
