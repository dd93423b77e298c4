//! A repair, from the scan to the report.

ghost use Rattle.std.specs.Prelude.{◌≡◌, ◌≢◌, ◌⊎◌, ◌≤◌, ℕ, Bool, List, [], length, vec_capacity, Some, Err, IsOk, IsErr, OnOk};
ghost use Rattle.aea_faults.specs.Faults.{Rose};
ghost use Rattle.aea_io.specs.Written.{IsFlushed};
ghost use Rattle.aea_io.specs.Pages.{Prints};
ghost use Rattle.aea_lattice.specs.declared.blocks.BlockId.{BlockId};
ghost use Rattle.aea_lattice.specs.Blocks.{HasBlock};
ghost use Rattle.aea_disk.specs.State.{During, AtEachMoment, IsFixed, IsSynced};
ghost use Rattle.aea_disk.specs.Frames.{OnlyReads};
ghost use Rattle.aea_shelf.specs.Intact.{IsHeldIn};
ghost use Rattle.aea_records.specs.Format.{Record};
ghost use Rattle.aea_ledger.specs.Recorded.{AreRecordsOf};
ghost use Rattle.aea_ledger.specs.Values.{HasRecords};
ghost use Rattle.aea_archive.specs.Blocks.{recorded_in, IsHeldBy, RevealsSurvivors};
ghost use Rattle.aea_archive.specs.Data.{AreSurvivorsHonest};
ghost use Rattle.aea_report.specs.declared.head.Head.{Head};
ghost use Rattle.aea_report.specs.declared.line.Line.{Line};
ghost use Rattle.aea_report.specs.Format.{report_bytes};
ghost use Rattle.aea_report.specs.Printed.{IsPrinted};
ghost use Rattle.aea_plan.specs.Plans.{IsSound, HasRoom, head_by};
ghost use Rattle.aea_plan.specs.Verdicts.{lines_by};
ghost use Rattle.aea_restore.specs.Drawn.{IsOtherDigest};
ghost use Rattle.aea_restore.specs.Repairs.{IsLeft, WritesBlocks};
ghost use Rattle.aea_repair.specs.Repairs.{IsWritten, Repairs};
ghost use Rattle.aea_repair.specs.Reports.{HasReported};

use crate::fault::RepairFault;
use crate::outcome::Outcome;
use crate::restoring::{Done, restore_archive};
use aea_disk::Disk;
use aea_io::{Page, Sink, WriteFault, finish};
use aea_ledger::Ledger;
use aea_plan::{Counts, Plan, print_report};
use aea_report::{printed_are_one, printed_reports_fit};
use std::alloc::Global;

// The numbers of a plan.
fn outcome_of(counts: Counts) -> Outcome
    ensures peeled { result.peeled ≡ counts.peeled }
    ensures solved { result.solved ≡ counts.solved }
    ensures lost { result.lost ≡ counts.lost }
{
    Outcome {
        peeled: counts.peeled,
        solved: counts.solved,
        lost: counts.lost,
    }
}

// Prints the report of a plan with the ledger's seal through a page, and flushes it.
fn print_plan<O: Sink>(
    out: &mut O,
    ledger: &Ledger,
    plan: &Plan,
    text: &mut Vec<u8>,
) -> Result<(), WriteFault>
    requires sound { IsSound plan.now }
    requires room { HasRoom plan.now (vec_capacity text.old) }
    ensures flushed { OnOk result (IsFlushed (O.state out.new)) }
    ensures prints { Prints (O.state out.old) [] (O.state out.new) [] result (report_bytes (head_by (Some ledger.now.seal) plan.now) (lines_by plan.now.verdicts)) }
{
    let mut page = Page::new();
    print_report(out, &mut page, plan, text, &Some(ledger.seal()))?;
    finish(out, &mut page)?;
    Ok(())
}

/// Writes each damaged block that the intact ones determine to its home, syncs all, and appends the report: which blocks
/// were damaged, and of each whether it is restored or by which nodes it is lost. The archive is scanned first. A payload is
/// judged by the digest that the ledger keeps, whether it was read or computed, and a block that is restored is read back
/// where another one needs it. It takes memory for the marks, the plan, two cells, a payload, and the text of the nodes of one
/// lost block; none from the first cell that is written on.
pub fn repair<D: Disk, O: Sink>(
    alloc: Global,
    ledger: &Ledger,
    disk: &mut D,
    out: &mut O,
) -> Result<Outcome, RepairFault>
    // What holds after each result, and what was restored.
    ensures repairs { D.reveals → (known : BlockId → Bool) → RevealsSurvivors ledger.now.shape ledger.now.lattice.n ledger.now.digests (D.state disk.old).files known
        → Repairs D.reveals ledger.now known (D.state disk.old) (D.state disk.new) result }
    ensures durable { IsWritten result → D.reveals → IsSynced (D.state disk.new) }

    // At every moment, in every image: the ledger, and the blocks that were held.
    ensures ledger { IsFixed (D.state disk.old) 0 → During (D.state disk.old) (D.state disk.new) (λ c. c 0 ≡ (D.state disk.old).files 0) }
    ensures held { D.reveals → (b : BlockId) → HasBlock ledger.now.lattice b → IsHeldBy ledger.now.shape ledger.now.digests (D.state disk.old) b
        → AtEachMoment (D.state disk.old) (D.state disk.new) (IsHeldIn ledger.now.shape b (recorded_in ledger.now.shape ledger.now.digests b)) × IsHeldBy ledger.now.shape ledger.now.digests (D.state disk.new) b }

    // What was printed.
    ensures reports { IsWritten result → HasReported D.reveals ledger.now (D.state disk.old).files (D.state disk.new).files (O.state out.old) (O.state out.new) result }
    ensures flushed { OnOk result (IsFlushed (O.state out.new)) }
    ensures unused { IsErr result → result ≢ Err RepairFault.WriteFault → out.new ≡ out.old }

    // A clash is one of two digests that differ, the first of them the ledger's, the other that of a payload; and where the
    // intact blocks are honest for a data list that the ledger records, there is none.
    ensures clash { (b : BlockId) (revealed computed : List ℕ) → result ≡ Err (RepairFault.Clash b revealed computed) → IsOtherDigest ledger.now b revealed computed }
    ensures no_clash { D.reveals → (records : List Record) (datas : List (List ℕ)) → HasRecords ledger.now records → AreRecordsOf ledger.now.shape records datas
        → AreSurvivorsHonest ledger.now.shape ledger.now.lattice ledger.now.digests datas (D.state disk.old).files → (b : BlockId) (revealed computed : List ℕ) → result ≢ Err (RepairFault.Clash b revealed computed) }

    // Where the intact blocks are honest and no count of faults rises, it is done, unless memory runs out.
    ensures complete { D.reveals → (records : List Record) (datas : List (List ℕ)) → HasRecords ledger.now records → AreRecordsOf ledger.now.shape records datas
        → AreSurvivorsHonest ledger.now.shape ledger.now.lattice ledger.now.digests datas (D.state disk.old).files
        → (Rose (D.state disk.old).faults (D.state disk.new).faults → ⊥) → (Rose (O.state out.old).faults (O.state out.new).faults → ⊥)
        → IsOk result ⊎ (result ≡ Err RepairFault.NoMemory) }

    // Memory runs out only before the first write.
    ensures memory { result ≡ Err RepairFault.NoMemory → OnlyReads D.reveals ⊥ (D.state disk.old) (D.state disk.new) }

    // Over any disk only cells of the archive are written; when the disk is at fault.
    ensures writes { WritesBlocks D.reveals ledger.now (IsLeft (HasBlock ledger.now.lattice)) (result ≡ Err RepairFault.DiskFault) (D.state disk.old) (D.state disk.new) }

    // When the output is at fault.
    ensures out_kept { (O.state out.old).faults ≤ (O.state out.new).faults }
    ensures out_cause { result ≡ Err RepairFault.WriteFault → Rose (O.state out.old).faults (O.state out.new).faults }
    ensures out_still { result ≢ Err RepairFault.WriteFault → (O.state out.new).faults ≡ (O.state out.old).faults }
    ensures in_room { D.reveals → (room : ℕ) (known : BlockId → Bool) (h : Head) (lines : List Line) → (O.state out.old).room ≡ Some room
        → RevealsSurvivors ledger.now.shape ledger.now.lattice.n ledger.now.digests (D.state disk.old).files known → IsPrinted ledger.now.lattice known (Some ledger.now.seal) h lines → length (report_bytes h lines) ≤ room
        → (result ≢ Err RepairFault.WriteFault) × ((O.state out.new).faults ≡ (O.state out.old).faults) }
{
    printed_are_one();
    printed_reports_fit();
    let _lattice = ledger.lattice();
    let done = match restore_archive(alloc, ledger, disk) {
        Ok(done) => done,
        Err(fault) => return Err(fault),
    };
    let Done { plan, mut text } = done;
    let outcome = outcome_of(plan.counts);
    match print_plan(out, ledger, &plan, &mut text) {
        Ok(()) => Ok(outcome),
        Err(_) => Err(RepairFault::WriteFault),
    }
}
