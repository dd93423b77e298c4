//! A site that is lost, and the repair after it.

ghost use Rattle.std.specs.Prelude.{◌≡◌, ◌≤◌, List, length, IfOk};
ghost use Rattle.aea_disk.specs.State.{Passes, HasRoomTo};
ghost use Rattle.aea_archive.specs.Next.{NewObject};
ghost use Rattle.aea_rehearse.specs.Rooms.{HasCellsRoom, report_room};
ghost use Rattle.aea_witness.specs.Objects.{HasPuts};
ghost use Rattle.aea_witness.specs.Rooms.{IsEmptySink};
ghost use Rattle.aea_witness.specs.Losses.{LosesSite, IsLostAndMended};

use aea_archive::survivors_are_revealed;
use aea_disk::Disk;
use aea_envelope::{cells_have_lengths, cells_have_parts};
use aea_io::SureSink;
use aea_ledger::Ledger;
use aea_rehearse::mend;
use aea_repair::Outcome;
use std::alloc::{AllocError, Global};

// Loses the first site: empties its file.
fn lose<D: Disk>(disk: &mut D)
    requires reveals { D.reveals }
    requires free { (D.state disk.old).free }
    requires room { HasRoomTo (D.state disk.old) 1 0 }
    ensures lost { LosesSite 1 (D.state disk.old).files (D.state disk.new).files }
    ensures time { Passes (D.state disk.old) (D.state disk.new) }
    ensures steady { (D.state disk.new).faults ≡ (D.state disk.old).faults }
{
    match disk.cut(1, 0) {
        Ok(()) => (),
        Err(_) => unreachable!(),
    }
}

/// Loses the first site of the archive, and repairs it.
pub(crate) fn lose_and_mend<D: Disk>(
    alloc: Global,
    ledger: &Ledger,
    disk: &mut D,
    report: &mut SureSink,
) -> Result<Outcome, AllocError>
    requires reveals { D.reveals }
    requires room { HasCellsRoom (D.state disk.old) }
    requires puts { (puts : List NewObject) × HasPuts ledger.now puts (D.state disk.old).files × (1 ≤ length puts) × (length puts ≤ 3) }
    requires report { IsEmptySink (report_room ledger.now.lattice.n) report.old }
    ensures mended { IfOk result (λ outcome. (puts : List NewObject) → HasPuts ledger.now puts (D.state disk.old).files → IsLostAndMended ledger.now puts report.new.bytes.items (D.state disk.old).files (D.state disk.new).files outcome) }
    ensures time { Passes (D.state disk.old) (D.state disk.new) }
    ensures steady { (D.state disk.new).faults ≡ (D.state disk.old).faults }
{
    cells_have_lengths();
    cells_have_parts();
    survivors_are_revealed();
    lose(disk);
    let outcome = mend(alloc, ledger, disk, report)?;
    Ok(outcome)
}
