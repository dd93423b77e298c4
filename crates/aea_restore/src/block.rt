//! One block: computed, judged, written, and marked.

ghost use Rattle.std.specs.Prelude.{◌≡◌, ◌≢◌, ◌∷◌, [], ℕ, List, Bool, false, length, replicate, IsErr, OnOk, Err};
ghost use Rattle.aea_lattice.specs.declared.blocks.BlockId.{BlockId};
ghost use Rattle.aea_lattice.specs.Blocks.{HasBlock};
ghost use Rattle.aea_disk.specs.Files.{Files};
ghost use Rattle.aea_envelope.specs.Cells.{block_digest};
ghost use Rattle.aea_shelf.specs.Places.{cell_size};
ghost use Rattle.aea_view.specs.Marked.{is_marked};
ghost use Rattle.aea_restore.specs.Plans.{Give};
ghost use Rattle.aea_restore.specs.Drawn.{IsDrawn, IsOtherDigest, IsClash};
ghost use Rattle.aea_archive.specs.Blocks.{recorded_in};
ghost use Rattle.aea_restore.specs.Judged.{IsComputed, IsFound};
ghost use Rattle.aea_restore.specs.Repairs.{WritesBlocks};
ghost use Rattle.aea_restore.specs.UnderWay.{AreDrawn, GoesOn, IsTornAfter, StaysDrawn, AddsBlock};

use crate::fault::RestoreFault;
use crate::payload::write_payload;
use crate::sum::{add_equation, add_equations};
use aea_disk::Disk;
use aea_lattice::{BlockId, EqList};
use aea_ledger::Ledger;
use aea_peel::Step;
use aea_shelf::homes_are_on_its_sites;
use aea_view::Marks;

// Makes all bytes of a sum zeros.
fn clear(sum: &mut [u8])
    ensures { sum.new ≡ replicate (length sum.old) 0 }
{
    sum.fill(0);
}

// Writes the cell of a block that is not marked, with a computed payload, and marks it. The payload is judged before.
fn write_block<D: Disk>(
    ledger: &Ledger,
    disk: &mut D,
    marks: &mut Marks,
    b: BlockId,
    sum: &[u8],
    write: &mut [u8],
) -> Result<(), RestoreFault>
    requires lattice { marks.old.lattice ≡ ledger.now.lattice }
    requires block { HasBlock ledger.now.lattice b }
    requires unmarked { is_marked marks.old b ≡ false }
    requires sum { length sum.now ≡ ledger.now.shape.block }
    requires write { length write.old ≡ cell_size ledger.now.shape }
    ensures lattice { marks.new.lattice ≡ ledger.now.lattice }
    ensures done { OnOk result (AddsBlock ledger.now.lattice b (is_marked marks.old) (is_marked marks.new)) }
    ensures same { IsErr result → marks.new ≡ marks.old }
    ensures way { result ≢ Err RestoreFault.DiskFault → D.reveals → GoesOn ledger.now (is_marked marks.old) (is_marked marks.new) (D.state disk.old).files (D.state disk.new).files }
    ensures torn { result ≡ Err RestoreFault.DiskFault → D.reveals → IsTornAfter ledger.now (λ a. a ≡ b) (is_marked marks.old) (is_marked marks.new) (D.state disk.old).files (D.state disk.new).files }
    ensures drawn { D.reveals → (known : BlockId → Bool) (first : Files) → IsDrawn ledger.now known first b sum.now → AreDrawn ledger.now known (is_marked marks.old) first (D.state disk.old).files → AreDrawn ledger.now known (is_marked marks.new) first (D.state disk.new).files }
    ensures digest { OnOk result (block_digest b sum.now ≡ recorded_in ledger.now.shape ledger.now.digests b) }
    ensures clash { (d : BlockId) (revealed computed : List ℕ) → result ≡ Err (RestoreFault.Clash d revealed computed) → (d ≡ b) × (IsOtherDigest ledger.now b revealed computed × (computed ≡ block_digest b sum.now)) }
    ensures writes { WritesBlocks D.reveals ledger.now (λ a. a ≢ b) (result ≡ Err RestoreFault.DiskFault) (D.state disk.old) (D.state disk.new) }
{
    let lattice = ledger.lattice();
    match write_payload(ledger, disk, b, sum, write) {
        Ok(()) => {
            marks.set(b, true);
            Ok(())
        }
        Err(fault) => Err(fault),
    }
}

/// Restores the block of a step from the marked blocks of its equation, and marks it. A block that is marked is passed
/// over.
pub(crate) fn restore_step<D: Disk>(
    ledger: &Ledger,
    disk: &mut D,
    marks: &mut Marks,
    step: Step,
    sum: &mut [u8],
    read: &mut [u8],
    write: &mut [u8],
) -> Result<(), RestoreFault>
    requires lattice { marks.old.lattice ≡ ledger.now.lattice }
    requires block { HasBlock ledger.now.lattice step.block }
    requires gives { Give ledger.now.lattice (is_marked marks.old) step.block (step.by ∷ []) }
    requires sum { length sum.old ≡ ledger.now.shape.block }
    requires read { length read.old ≡ cell_size ledger.now.shape }
    requires write { length write.old ≡ cell_size ledger.now.shape }
    ensures lattice { marks.new.lattice ≡ ledger.now.lattice }
    ensures done { OnOk result (AddsBlock ledger.now.lattice step.block (is_marked marks.old) (is_marked marks.new)) }
    ensures same { IsErr result → marks.new ≡ marks.old }
    ensures way { result ≢ Err RestoreFault.DiskFault → D.reveals → GoesOn ledger.now (is_marked marks.old) (is_marked marks.new) (D.state disk.old).files (D.state disk.new).files }
    ensures torn { result ≡ Err RestoreFault.DiskFault → D.reveals → IsTornAfter ledger.now (λ a. a ≡ step.block) (is_marked marks.old) (is_marked marks.new) (D.state disk.old).files (D.state disk.new).files }
    ensures drawn { D.reveals → StaysDrawn ledger.now (is_marked marks.old) (is_marked marks.new) (D.state disk.old).files (D.state disk.new).files }
    ensures judged { OnOk result (is_marked marks.old step.block ≡ false → IsComputed D.reveals ledger.now (D.state disk.old).files (is_marked marks.old) step.block (step.by ∷ [])) }
    ensures found { (d : BlockId) (revealed computed : List ℕ) → result ≡ Err (RestoreFault.Clash d revealed computed) → (is_marked marks.old step.block ≡ false) × IsFound D.reveals ledger.now (D.state disk.old).files (is_marked marks.old) step.block (step.by ∷ []) d revealed computed }
    ensures other { (d : BlockId) (revealed computed : List ℕ) → result ≡ Err (RestoreFault.Clash d revealed computed) → IsOtherDigest ledger.now d revealed computed }
    ensures clash { (d : BlockId) (revealed computed : List ℕ) → result ≡ Err (RestoreFault.Clash d revealed computed) → D.reveals → (known : BlockId → Bool) (first : Files) → AreDrawn ledger.now known (is_marked marks.old) first (D.state disk.old).files → (d ≡ step.block) × IsClash ledger.now known first d revealed computed }
    ensures writes { WritesBlocks D.reveals ledger.now (λ a. a ≢ step.block) (result ≡ Err RestoreFault.DiskFault) (D.state disk.old) (D.state disk.new) }
{
    homes_are_on_its_sites();
    let _lattice = ledger.lattice();
    if marks.get(step.block) {
        return Ok(());
    }
    clear(sum);
    match add_equation(ledger, disk, marks, step.block, step.by, read, sum) {
        Ok(()) => (),
        Err(fault) => return Err(fault),
    }
    write_block(ledger, disk, marks, step.block, sum, write)
}

/// Restores a block from the marked blocks of equations that add up to it and to these, and marks it. A block that is
/// marked is passed over.
pub(crate) fn restore_sum<D: Disk>(
    ledger: &Ledger,
    disk: &mut D,
    marks: &mut Marks,
    b: BlockId,
    equations: &EqList,
    sum: &mut [u8],
    read: &mut [u8],
    write: &mut [u8],
) -> Result<(), RestoreFault>
    requires lattice { marks.old.lattice ≡ ledger.now.lattice }
    requires block { HasBlock ledger.now.lattice b }
    requires gives { Give ledger.now.lattice (is_marked marks.old) b equations.now }
    requires sum { length sum.old ≡ ledger.now.shape.block }
    requires read { length read.old ≡ cell_size ledger.now.shape }
    requires write { length write.old ≡ cell_size ledger.now.shape }
    ensures lattice { marks.new.lattice ≡ ledger.now.lattice }
    ensures done { OnOk result (AddsBlock ledger.now.lattice b (is_marked marks.old) (is_marked marks.new)) }
    ensures same { IsErr result → marks.new ≡ marks.old }
    ensures way { result ≢ Err RestoreFault.DiskFault → D.reveals → GoesOn ledger.now (is_marked marks.old) (is_marked marks.new) (D.state disk.old).files (D.state disk.new).files }
    ensures torn { result ≡ Err RestoreFault.DiskFault → D.reveals → IsTornAfter ledger.now (λ a. a ≡ b) (is_marked marks.old) (is_marked marks.new) (D.state disk.old).files (D.state disk.new).files }
    ensures drawn { D.reveals → StaysDrawn ledger.now (is_marked marks.old) (is_marked marks.new) (D.state disk.old).files (D.state disk.new).files }
    ensures judged { OnOk result (is_marked marks.old b ≡ false → IsComputed D.reveals ledger.now (D.state disk.old).files (is_marked marks.old) b (equations.now)) }
    ensures found { (d : BlockId) (revealed computed : List ℕ) → result ≡ Err (RestoreFault.Clash d revealed computed) → (is_marked marks.old b ≡ false) × IsFound D.reveals ledger.now (D.state disk.old).files (is_marked marks.old) b (equations.now) d revealed computed }
    ensures other { (d : BlockId) (revealed computed : List ℕ) → result ≡ Err (RestoreFault.Clash d revealed computed) → IsOtherDigest ledger.now d revealed computed }
    ensures clash { (d : BlockId) (revealed computed : List ℕ) → result ≡ Err (RestoreFault.Clash d revealed computed) → D.reveals → (known : BlockId → Bool) (first : Files) → AreDrawn ledger.now known (is_marked marks.old) first (D.state disk.old).files → (d ≡ b) × IsClash ledger.now known first d revealed computed }
    ensures writes { WritesBlocks D.reveals ledger.now (λ a. a ≢ b) (result ≡ Err RestoreFault.DiskFault) (D.state disk.old) (D.state disk.new) }
{
    homes_are_on_its_sites();
    let _lattice = ledger.lattice();
    if marks.get(b) {
        return Ok(());
    }
    clear(sum);
    match add_equations(ledger, disk, marks, b, equations, read, sum) {
        Ok(()) => (),
        Err(fault) => return Err(fault),
    }
    write_block(ledger, disk, marks, b, sum, write)
}
