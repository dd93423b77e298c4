//! Steps that are carried out one after the other.

ghost use Rattle.std.specs.Prelude.{◌≡◌, ◌≢◌, ℕ, List, Bool, length, map, IsTrue, OnOk, Err};
ghost use Rattle.aea_lattice.specs.declared.blocks.BlockId.{BlockId};
ghost use Rattle.aea_lattice.specs.Blocks.{HasBlock};
ghost use Rattle.aea_lattice.specs.Closure.{is_among};
ghost use Rattle.aea_disk.specs.Files.{Files};
ghost use Rattle.aea_shelf.specs.Places.{cell_size};
ghost use Rattle.aea_view.specs.Marked.{is_marked};
ghost use Rattle.aea_peel.specs.Plans.{blocks_given, is_had};
ghost use Rattle.aea_restore.specs.Plans.{AreStepsOn};
ghost use Rattle.aea_restore.specs.Drawn.{IsOtherDigest, IsClash};
ghost use Rattle.aea_restore.specs.InOrder.{sum_of, GoInOrder};
ghost use Rattle.aea_restore.specs.Repairs.{IsLeft, WritesBlocks, MarksSome};
ghost use Rattle.aea_restore.specs.UnderWay.{IsUnderWay, AreDrawn, GoesOn, IsTornAfter, StaysDrawn};

use crate::block::restore_step;
use crate::fault::RestoreFault;
use aea_disk::Disk;
use aea_ledger::Ledger;
use aea_peel::StepList;
use aea_view::Marks;

/// Restores the blocks of the steps, one after the other.
pub(crate) fn restore_steps<D: Disk>(
    ledger: &Ledger,
    disk: &mut D,
    marks: &mut Marks,
    steps: &StepList,
    sum: &mut [u8],
    read: &mut [u8],
    write: &mut [u8],
) -> Result<(), RestoreFault>
    requires lattice { marks.old.lattice ≡ ledger.now.lattice }
    requires plan { AreStepsOn ledger.now.lattice (is_marked marks.old) steps.now }
    requires sum { length sum.old ≡ ledger.now.shape.block }
    requires read { length read.old ≡ cell_size ledger.now.shape }
    requires write { length write.old ≡ cell_size ledger.now.shape }
    ensures lattice { marks.new.lattice ≡ ledger.now.lattice }
    ensures done { OnOk result ((d : BlockId) → HasBlock ledger.now.lattice d → is_marked marks.new d ≡ is_had (is_marked marks.old) steps.now d) }
    ensures some { MarksSome ledger.now.lattice (λ d. IsTrue (is_among (blocks_given steps.now) d)) marks.old marks.new }
    ensures way { result ≢ Err RestoreFault.DiskFault → D.reveals → GoesOn ledger.now (is_marked marks.old) (is_marked marks.new) (D.state disk.old).files (D.state disk.new).files }
    ensures torn { result ≡ Err RestoreFault.DiskFault → D.reveals → IsTornAfter ledger.now (λ d. IsTrue (is_among (blocks_given steps.now) d)) (is_marked marks.old) (is_marked marks.new) (D.state disk.old).files (D.state disk.new).files }
    ensures drawn { D.reveals → StaysDrawn ledger.now (is_marked marks.old) (is_marked marks.new) (D.state disk.old).files (D.state disk.new).files }
    ensures order { (known : BlockId → Bool) (first : Files) → (D.reveals → IsUnderWay ledger.now known (is_marked marks.old) first (D.state disk.old).files) → GoInOrder D.reveals ledger.now known (is_marked marks.old) (is_marked marks.new) first (map sum_of steps.now) result }
    ensures other { (d : BlockId) (revealed computed : List ℕ) → result ≡ Err (RestoreFault.Clash d revealed computed) → IsOtherDigest ledger.now d revealed computed }
    ensures clash { (d : BlockId) (revealed computed : List ℕ) → result ≡ Err (RestoreFault.Clash d revealed computed) → D.reveals → (known : BlockId → Bool) (first : Files) → AreDrawn ledger.now known (is_marked marks.old) first (D.state disk.old).files → IsTrue (is_among (blocks_given steps.now) d) × IsClash ledger.now known first d revealed computed }
    ensures writes { WritesBlocks D.reveals ledger.now (IsLeft (λ d. IsTrue (is_among (blocks_given steps.now) d))) (result ≡ Err RestoreFault.DiskFault) (D.state disk.old) (D.state disk.new) }
{
    for k in 0..steps.len() {
        let Some(step) = steps.get(k) else {
            unreachable!()
        };
        match restore_step(ledger, disk, marks, step, sum, read, write) {
            Ok(()) => (),
            Err(fault) => return Err(fault),
        }
    }
    Ok(())
}
