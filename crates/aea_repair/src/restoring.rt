//! The part of a repair that reads and writes the disk.

ghost use Rattle.std.specs.Prelude.{◌≡◌, ◌≢◌, ◌↔◌, ℕ, Bool, List, Some, length, vec_capacity, Err, IfOk, IfErr, OnOk};
ghost use Rattle.aea_lattice.specs.declared.blocks.BlockId.{BlockId};
ghost use Rattle.aea_lattice.specs.Blocks.{HasBlock};
ghost use Rattle.aea_disk.specs.State.{AtEachMoment, IsSynced};
ghost use Rattle.aea_disk.specs.Frames.{OnlyReads};
ghost use Rattle.aea_shelf.specs.Places.{cell_size};
ghost use Rattle.aea_shelf.specs.Intact.{IsHeldIn};
ghost use Rattle.aea_view.specs.Marked.{AreMarks, is_marked};
ghost use Rattle.aea_records.specs.Format.{Record};
ghost use Rattle.aea_ledger.specs.Recorded.{AreRecordsOf};
ghost use Rattle.aea_ledger.specs.Values.{HasRecords};
ghost use Rattle.aea_archive.specs.Blocks.{recorded_in, IsHeldBy, RevealsSurvivors};
ghost use Rattle.aea_archive.specs.Data.{AreSurvivorsHonest};
ghost use Rattle.aea_plan.specs.Plans.{IsSound, HasRoom, head_by};
ghost use Rattle.aea_plan.specs.Verdicts.{lines_by};
ghost use Rattle.aea_restore.specs.Given.{IsGiven, CanBeRestored};
ghost use Rattle.aea_restore.specs.Drawn.{IsOtherDigest};
ghost use Rattle.aea_restore.specs.Repairs.{IsLeft, WritesBlocks};
ghost use Rattle.aea_restore.specs.Laws.{IsRestorable};
ghost use Rattle.aea_repair.specs.Repairs.{fault_of, Repairs};
ghost use Rattle.aea_repair.specs.Reports.{IsReportOf};

use crate::fault::RepairFault;
use crate::prepare::{Buffers, Prepared, prepare};
use aea_disk::Disk;
use aea_gauss::FateList;
use aea_ledger::Ledger;
use aea_plan::Plan;
use aea_restore::{RestoreFault, restore};
use aea_scrub::{ScanFault, scan};
use aea_shelf::{homes_are_on_its_sites, plain_damage_stays};
use aea_view::Marks;
use std::alloc::Global;

/// A plan that was carried out, and space for the text of the nodes of one lost block.
#[derive(Drop)]
pub(crate) struct Done {
    pub plan: Plan,
    pub text: Vec<u8>,
}

// The fault of a repair whose writing stage has this one.
fn repair_fault(fault: RestoreFault) -> RepairFault
    ensures { result ≡ fault_of fault }
{
    match fault {
        RestoreFault::Clash {
            block,
            recorded,
            computed,
        } => RepairFault::Clash {
            block,
            recorded,
            computed,
        },
        RestoreFault::DiskFault => RepairFault::DiskFault,
    }
}

// Carries out the plan for the marked blocks, and syncs all.
fn restore_planned<D: Disk>(
    ledger: &Ledger,
    disk: &mut D,
    marks: &mut Marks,
    plan: &Plan,
    fates: &FateList,
    buffers: &mut Buffers,
) -> Result<(), RepairFault>
    requires lattice { marks.old.lattice ≡ ledger.now.lattice }
    requires can { CanBeRestored ledger.now.lattice (is_marked marks.old) plan.now.steps fates.now }
    requires mends { (test : BlockId → Bool) → AreMarks marks.old test → (b : BlockId) → IsGiven plan.now.steps fates.now b ↔ IsRestorable ledger.now.lattice test b }
    requires sum { length buffers.old.sum.items ≡ ledger.now.shape.block }
    requires read { length buffers.old.read.items ≡ cell_size ledger.now.shape }
    requires write { length buffers.old.write.items ≡ cell_size ledger.now.shape }
    ensures repairs { D.reveals → RevealsSurvivors ledger.now.shape ledger.now.lattice.n ledger.now.digests (D.state disk.old).files (is_marked marks.old)
        → (known : BlockId → Bool) → RevealsSurvivors ledger.now.shape ledger.now.lattice.n ledger.now.digests (D.state disk.old).files known
        → Repairs D.reveals ledger.now known (D.state disk.old) (D.state disk.new) result }
    ensures durable { OnOk result (D.reveals → IsSynced (D.state disk.new)) }
    ensures clash { (b : BlockId) (revealed computed : List ℕ) → result ≡ Err (RepairFault.Clash b revealed computed) → IsOtherDigest ledger.now b revealed computed }
    ensures no_clash { D.reveals → RevealsSurvivors ledger.now.shape ledger.now.lattice.n ledger.now.digests (D.state disk.old).files (is_marked marks.old)
        → (records : List Record) (datas : List (List ℕ)) → HasRecords ledger.now records → AreRecordsOf ledger.now.shape records datas
        → AreSurvivorsHonest ledger.now.shape ledger.now.lattice ledger.now.digests datas (D.state disk.old).files → (b : BlockId) (revealed computed : List ℕ) → result ≢ Err (RepairFault.Clash b revealed computed) }
    ensures faults { IfErr result (λ f. (f ≢ RepairFault.NoMemory) × (f ≢ RepairFault.WriteFault)) }
    ensures writes { WritesBlocks D.reveals ledger.now (IsLeft (HasBlock ledger.now.lattice)) (result ≡ Err RepairFault.DiskFault) (D.state disk.old) (D.state disk.new) }
{
    plain_damage_stays();
    let _lattice = ledger.lattice();
    match restore(
        ledger,
        disk,
        marks,
        &plan.steps,
        fates,
        buffers.sum.as_mut_slice(),
        buffers.read.as_mut_slice(),
        buffers.write.as_mut_slice(),
    ) {
        Ok(()) => Ok(()),
        Err(fault) => Err(repair_fault(fault)),
    }
}

/// Scans the archive, plans its repair, and carries the plan out.
pub(crate) fn restore_archive<D: Disk>(
    alloc: Global,
    ledger: &Ledger,
    disk: &mut D,
) -> Result<Done, RepairFault>
    ensures repairs { D.reveals → (known : BlockId → Bool) → RevealsSurvivors ledger.now.shape ledger.now.lattice.n ledger.now.digests (D.state disk.old).files known
        → Repairs D.reveals ledger.now known (D.state disk.old) (D.state disk.new) result }
    ensures durable { OnOk result (D.reveals → IsSynced (D.state disk.new)) }
    ensures held { D.reveals → (b : BlockId) → HasBlock ledger.now.lattice b → IsHeldBy ledger.now.shape ledger.now.digests (D.state disk.old) b
        → AtEachMoment (D.state disk.old) (D.state disk.new) (IsHeldIn ledger.now.shape b (recorded_in ledger.now.shape ledger.now.digests b)) × IsHeldBy ledger.now.shape ledger.now.digests (D.state disk.new) b }
    ensures clash { (b : BlockId) (revealed computed : List ℕ) → result ≡ Err (RepairFault.Clash b revealed computed) → IsOtherDigest ledger.now b revealed computed }
    ensures no_clash { D.reveals → (records : List Record) (datas : List (List ℕ)) → HasRecords ledger.now records → AreRecordsOf ledger.now.shape records datas
        → AreSurvivorsHonest ledger.now.shape ledger.now.lattice ledger.now.digests datas (D.state disk.old).files → (b : BlockId) (revealed computed : List ℕ) → result ≢ Err (RepairFault.Clash b revealed computed) }
    ensures faults { IfErr result (λ f. f ≢ RepairFault.WriteFault) }
    ensures memory { result ≡ Err RepairFault.NoMemory → OnlyReads D.reveals ⊥ (D.state disk.old) (D.state disk.new) }
    ensures writes { WritesBlocks D.reveals ledger.now (IsLeft (HasBlock ledger.now.lattice)) (result ≡ Err RepairFault.DiskFault) (D.state disk.old) (D.state disk.new) }

    // What is to be printed.
    ensures sound { IfOk result (λ d. IsSound d.plan) }
    ensures room { IfOk result (λ d. HasRoom d.plan (vec_capacity d.text)) }
    ensures report { IfOk result (λ d. IsReportOf D.reveals ledger.now (D.state disk.old).files (head_by (Some ledger.now.seal) d.plan) (lines_by d.plan.verdicts)) }
{
    homes_are_on_its_sites();
    let _lattice = ledger.lattice();
    let mut marks = match scan(alloc, ledger, disk) {
        Ok(marks) => marks,
        Err(ScanFault::DiskFault) => return Err(RepairFault::DiskFault),
        Err(ScanFault::NoMemory) => return Err(RepairFault::NoMemory),
    };
    let Ok(prepared) = prepare(alloc, ledger, &marks) else {
        return Err(RepairFault::NoMemory);
    };
    let Prepared {
        plan,
        fates,
        text,
        mut buffers,
    } = prepared;
    match restore_planned(ledger, disk, &mut marks, &plan, &fates, &mut buffers) {
        Ok(()) => Ok(Done { plan, text }),
        Err(fault) => Err(fault),
    }
}
