//! The writing stage of a repair.

ghost use Rattle.std.specs.Prelude.{◌≡◌, ◌≢◌, ◌||◌, ℕ, List, Bool, false, length, All, IsTrue, IsErr, OnOk, Err};
ghost use Rattle.aea_lattice.specs.declared.blocks.BlockId.{BlockId};
ghost use Rattle.aea_lattice.specs.declared.blocks.EqId.{EqId};
ghost use Rattle.aea_lattice.specs.Blocks.{HasBlock};
ghost use Rattle.aea_lattice.specs.Closure.{is_among};
ghost use Rattle.aea_disk.specs.Files.{Files};
ghost use Rattle.aea_disk.specs.State.{During, AtEachMoment, IsFixed, IsSynced};
ghost use Rattle.aea_shelf.specs.Places.{cell_size};
ghost use Rattle.aea_shelf.specs.Intact.{IsHeldIn};
ghost use Rattle.aea_view.specs.Marked.{is_marked};
ghost use Rattle.aea_gauss.specs.declared.fates.Fate.TheVariants.{Sum};
ghost use Rattle.aea_records.specs.Format.{Record};
ghost use Rattle.aea_ledger.specs.Recorded.{AreRecordsOf};
ghost use Rattle.aea_ledger.specs.Values.{HasRecords};
ghost use Rattle.aea_archive.specs.Blocks.{recorded_in, IsIntactBy, IsHeldBy, RevealsSurvivors};
ghost use Rattle.aea_archive.specs.Data.{AreSurvivorsHonest, AreSomeHonest};
ghost use Rattle.aea_restore.specs.Given.{block_summed, blocks_summed, is_given, IsGiven, CanSum, CanBeRestored};
ghost use Rattle.aea_restore.specs.Drawn.{IsOtherDigest, IsClash};
ghost use Rattle.aea_restore.specs.Judged.{IsComputed, IsFound};
ghost use Rattle.aea_restore.specs.InOrder.{all_sums, GoInOrder, AreReadJudged};
ghost use Rattle.aea_restore.specs.Repairs.{IsLeft, WritesBlocks, Leaves, MarksSome, MarksMore};
ghost use Rattle.aea_restore.specs.UnderWay.{IsUnderWay, AreDrawn, GoesOn, IsTornAfter, StaysDrawn};

use crate::block::restore_sum;
use crate::fault::RestoreFault;
use crate::steps::restore_steps;
use aea_disk::Disk;
use aea_gauss::{Fate, FateList};
use aea_ledger::Ledger;
use aea_peel::StepList;
use aea_shelf::homes_are_on_its_sites;
use aea_view::Marks;

// Restores the block of a Sum; passes over a Word.
fn restore_fate<D: Disk>(
    ledger: &Ledger,
    disk: &mut D,
    marks: &mut Marks,
    fate: &Fate,
    sum: &mut [u8],
    read: &mut [u8],
    write: &mut [u8],
) -> Result<(), RestoreFault>
    requires lattice { marks.old.lattice ≡ ledger.now.lattice }
    requires can { CanSum ledger.now.lattice (is_marked marks.old) fate.now }
    requires sum { length sum.old ≡ ledger.now.shape.block }
    requires read { length read.old ≡ cell_size ledger.now.shape }
    requires write { length write.old ≡ cell_size ledger.now.shape }
    ensures lattice { marks.new.lattice ≡ ledger.now.lattice }
    ensures done { OnOk result ((d : BlockId) → HasBlock ledger.now.lattice d → is_marked marks.new d ≡ (is_marked marks.old d || is_among (block_summed fate.now) d)) }
    ensures same { IsErr result → marks.new ≡ marks.old }
    ensures way { result ≢ Err RestoreFault.DiskFault → D.reveals → GoesOn ledger.now (is_marked marks.old) (is_marked marks.new) (D.state disk.old).files (D.state disk.new).files }
    ensures torn { result ≡ Err RestoreFault.DiskFault → D.reveals → IsTornAfter ledger.now (λ d. IsTrue (is_among (block_summed fate.now) d)) (is_marked marks.old) (is_marked marks.new) (D.state disk.old).files (D.state disk.new).files }
    ensures drawn { D.reveals → StaysDrawn ledger.now (is_marked marks.old) (is_marked marks.new) (D.state disk.old).files (D.state disk.new).files }
    ensures judged { OnOk result ((b : BlockId) (equations : List EqId) → fate.now ≡ Sum b equations → is_marked marks.old b ≡ false → IsComputed D.reveals ledger.now (D.state disk.old).files (is_marked marks.old) b equations) }
    ensures found { (d : BlockId) (revealed computed : List ℕ) → result ≡ Err (RestoreFault.Clash d revealed computed) → (b : BlockId) × (equations : List EqId) × (fate.now ≡ Sum b equations) × (is_marked marks.old b ≡ false) × IsFound D.reveals ledger.now (D.state disk.old).files (is_marked marks.old) b equations d revealed computed }
    ensures other { (d : BlockId) (revealed computed : List ℕ) → result ≡ Err (RestoreFault.Clash d revealed computed) → IsOtherDigest ledger.now d revealed computed }
    ensures clash { (d : BlockId) (revealed computed : List ℕ) → result ≡ Err (RestoreFault.Clash d revealed computed) → D.reveals → (known : BlockId → Bool) (first : Files) → AreDrawn ledger.now known (is_marked marks.old) first (D.state disk.old).files → IsTrue (is_among (block_summed fate.now) d) × IsClash ledger.now known first d revealed computed }
    ensures writes { WritesBlocks D.reveals ledger.now (IsLeft (λ d. IsTrue (is_among (block_summed fate.now) d))) (result ≡ Err RestoreFault.DiskFault) (D.state disk.old) (D.state disk.new) }
{
    homes_are_on_its_sites();
    match fate {
        Fate::Sum { block, eqs } => {
            restore_sum(ledger, disk, marks, *block, eqs, sum, read, write)
        }
        Fate::Word { block: _, nodes: _ } => Ok(()),
    }
}

// Restores the blocks of the Sums, one after the other.
fn restore_sums<D: Disk>(
    ledger: &Ledger,
    disk: &mut D,
    marks: &mut Marks,
    fates: &FateList,
    sum: &mut [u8],
    read: &mut [u8],
    write: &mut [u8],
) -> Result<(), RestoreFault>
    requires lattice { marks.old.lattice ≡ ledger.now.lattice }
    requires can { All (CanSum ledger.now.lattice (is_marked marks.old)) fates.now }
    requires sum { length sum.old ≡ ledger.now.shape.block }
    requires read { length read.old ≡ cell_size ledger.now.shape }
    requires write { length write.old ≡ cell_size ledger.now.shape }
    ensures lattice { marks.new.lattice ≡ ledger.now.lattice }
    ensures done { OnOk result ((d : BlockId) → HasBlock ledger.now.lattice d → is_marked marks.new d ≡ (is_marked marks.old d || is_among (blocks_summed fates.now) d)) }
    ensures some { MarksSome ledger.now.lattice (λ d. IsTrue (is_among (blocks_summed fates.now) d)) marks.old marks.new }
    ensures way { result ≢ Err RestoreFault.DiskFault → D.reveals → GoesOn ledger.now (is_marked marks.old) (is_marked marks.new) (D.state disk.old).files (D.state disk.new).files }
    ensures torn { result ≡ Err RestoreFault.DiskFault → D.reveals → IsTornAfter ledger.now (λ d. IsTrue (is_among (blocks_summed fates.now) d)) (is_marked marks.old) (is_marked marks.new) (D.state disk.old).files (D.state disk.new).files }
    ensures drawn { D.reveals → StaysDrawn ledger.now (is_marked marks.old) (is_marked marks.new) (D.state disk.old).files (D.state disk.new).files }
    ensures order { (known : BlockId → Bool) (first : Files) → (D.reveals → IsUnderWay ledger.now known (is_marked marks.old) first (D.state disk.old).files) → GoInOrder D.reveals ledger.now known (is_marked marks.old) (is_marked marks.new) first fates.now result }
    ensures other { (d : BlockId) (revealed computed : List ℕ) → result ≡ Err (RestoreFault.Clash d revealed computed) → IsOtherDigest ledger.now d revealed computed }
    ensures clash { (d : BlockId) (revealed computed : List ℕ) → result ≡ Err (RestoreFault.Clash d revealed computed) → D.reveals → (known : BlockId → Bool) (first : Files) → AreDrawn ledger.now known (is_marked marks.old) first (D.state disk.old).files → IsTrue (is_among (blocks_summed fates.now) d) × IsClash ledger.now known first d revealed computed }
    ensures writes { WritesBlocks D.reveals ledger.now (IsLeft (λ d. IsTrue (is_among (blocks_summed fates.now) d))) (result ≡ Err RestoreFault.DiskFault) (D.state disk.old) (D.state disk.new) }
{
    homes_are_on_its_sites();
    for k in 0..fates.len() {
        let Some(fate) = fates.get(k) else {
            unreachable!()
        };
        match restore_fate(ledger, disk, marks, fate, sum, read, write) {
            Ok(()) => (),
            Err(fault) => return Err(fault),
        }
    }
    Ok(())
}

// Restores the blocks of the steps and then those of the Sums. What was written may not be synced.
fn restore_all<D: Disk>(
    ledger: &Ledger,
    disk: &mut D,
    marks: &mut Marks,
    steps: &StepList,
    fates: &FateList,
    sum: &mut [u8],
    read: &mut [u8],
    write: &mut [u8],
) -> Result<(), RestoreFault>
    requires lattice { marks.old.lattice ≡ ledger.now.lattice }
    requires plan { CanBeRestored ledger.now.lattice (is_marked marks.old) steps.now fates.now }
    requires sum { length sum.old ≡ ledger.now.shape.block }
    requires read { length read.old ≡ cell_size ledger.now.shape }
    requires write { length write.old ≡ cell_size ledger.now.shape }
    ensures lattice { marks.new.lattice ≡ ledger.now.lattice }
    ensures done { OnOk result ((d : BlockId) → HasBlock ledger.now.lattice d → is_marked marks.new d ≡ (is_marked marks.old d || is_given steps.now fates.now d)) }
    ensures some { MarksSome ledger.now.lattice (IsGiven steps.now fates.now) marks.old marks.new }
    ensures way { result ≢ Err RestoreFault.DiskFault → D.reveals → GoesOn ledger.now (is_marked marks.old) (is_marked marks.new) (D.state disk.old).files (D.state disk.new).files }
    ensures torn { result ≡ Err RestoreFault.DiskFault → D.reveals → IsTornAfter ledger.now (IsGiven steps.now fates.now) (is_marked marks.old) (is_marked marks.new) (D.state disk.old).files (D.state disk.new).files }
    ensures drawn { D.reveals → StaysDrawn ledger.now (is_marked marks.old) (is_marked marks.new) (D.state disk.old).files (D.state disk.new).files }
    ensures order { (known : BlockId → Bool) (first : Files) → (D.reveals → IsUnderWay ledger.now known (is_marked marks.old) first (D.state disk.old).files) → GoInOrder D.reveals ledger.now known (is_marked marks.old) (is_marked marks.new) first (all_sums steps.now fates.now) result }
    ensures other { (d : BlockId) (revealed computed : List ℕ) → result ≡ Err (RestoreFault.Clash d revealed computed) → IsOtherDigest ledger.now d revealed computed }
    ensures clash { (d : BlockId) (revealed computed : List ℕ) → result ≡ Err (RestoreFault.Clash d revealed computed) → D.reveals → (known : BlockId → Bool) (first : Files) → AreDrawn ledger.now known (is_marked marks.old) first (D.state disk.old).files → IsGiven steps.now fates.now d × IsClash ledger.now known first d revealed computed }
    ensures writes { WritesBlocks D.reveals ledger.now (IsLeft (IsGiven steps.now fates.now)) (result ≡ Err RestoreFault.DiskFault) (D.state disk.old) (D.state disk.new) }
{
    match restore_steps(ledger, disk, marks, steps, sum, read, write) {
        Ok(()) => (),
        Err(fault) => return Err(fault),
    }
    restore_sums(ledger, disk, marks, fates, sum, read, write)
}

/// Restores the blocks of the steps and then those of the Sums, each in the order of its list, and syncs all. A Word
/// is passed over, and so is a block that is marked already. Each payload that is read is judged by the digest that the
/// ledger keeps before it is used, and each computed one before its cell is written. The marks are set as the blocks are
/// restored. `sum` has the bytes of a block, B, and `read` and `write` those of a cell, B + 48; it takes no memory.
pub fn restore<D: Disk>(
    ledger: &Ledger,
    disk: &mut D,
    marks: &mut Marks,
    steps: &StepList,
    fates: &FateList,
    sum: &mut [u8],
    read: &mut [u8],
    write: &mut [u8],
) -> Result<(), RestoreFault>
    requires lattice { marks.old.lattice ≡ ledger.now.lattice }
    requires plan { CanBeRestored ledger.now.lattice (is_marked marks.old) steps.now fates.now }
    requires sum { length sum.old ≡ ledger.now.shape.block }
    requires read { length read.old ≡ cell_size ledger.now.shape }
    requires write { length write.old ≡ cell_size ledger.now.shape }

    // What holds after each result: of the blocks that are given, and of those that are left alone.
    ensures left { D.reveals → Leaves ledger.now (IsGiven steps.now fates.now) (D.state disk.old).files (D.state disk.new).files result }
    ensures durable { OnOk result (D.reveals → IsSynced (D.state disk.new)) }

    // At every moment, in every image: the homes of all blocks that are left alone, and each file but those of the sites.
    // When the disk is at fault.
    ensures writes { WritesBlocks D.reveals ledger.now (IsLeft (IsGiven steps.now fates.now)) (result ≡ Err RestoreFault.DiskFault) (D.state disk.old) (D.state disk.new) }
    ensures ledger { IsFixed (D.state disk.old) 0 → During (D.state disk.old) (D.state disk.new) (λ c. c 0 ≡ (D.state disk.old).files 0) }

    ensures marks { MarksMore ledger.now.lattice (IsGiven steps.now fates.now) marks.old marks.new result }
    ensures lattice { marks.new.lattice ≡ ledger.now.lattice }

    // In the order of the lists, over any disk and whatever is marked: the first of the steps and then the Sums were carried
    // out, all where it is Ok. Each of their blocks was computed from payloads that were read and judged, those at their homes
    // in the files as they were then, where the contents are known; and a clash came at the next of them, of a block that was
    // read for it or of its own block. So each block that was marked at first and was read had its payload at first.
    ensures order { GoInOrder D.reveals ledger.now (is_marked marks.old) (is_marked marks.old) (is_marked marks.new) (D.state disk.old).files (all_sums steps.now fates.now) result }
    ensures judged { OnOk result (D.reveals → AreReadJudged D.reveals ledger.now (is_marked marks.old) (D.state disk.old).files (all_sums steps.now fates.now)) }
    ensures way { result ≢ Err RestoreFault.DiskFault → D.reveals → IsUnderWay ledger.now (is_marked marks.old) (is_marked marks.new) (D.state disk.old).files (D.state disk.new).files }

    // Over any disk, a clash is one of two digests that differ, the first of them the ledger's, the other that of a payload.
    ensures clash { (d : BlockId) (revealed computed : List ℕ) → result ≡ Err (RestoreFault.Clash d revealed computed) → IsOtherDigest ledger.now d revealed computed }

    // Where the blocks that are marked at first are exactly the intact ones: a clash is one of a block that is given, of which
    // the survivors' sum has another digest; each block that is then marked is intact; and one that was held is so at each
    // moment and afterwards.
    ensures computed { D.reveals → RevealsSurvivors ledger.now.shape ledger.now.lattice.n ledger.now.digests (D.state disk.old).files (is_marked marks.old) → (d : BlockId) (revealed computed : List ℕ) → result ≡ Err (RestoreFault.Clash d revealed computed) → IsGiven steps.now fates.now d × IsClash ledger.now (is_marked marks.old) (D.state disk.old).files d revealed computed }
    ensures marked { D.reveals → RevealsSurvivors ledger.now.shape ledger.now.lattice.n ledger.now.digests (D.state disk.old).files (is_marked marks.old) → (b : BlockId) → HasBlock ledger.now.lattice b → IsTrue (is_marked marks.new b) → IsIntactBy ledger.now.shape ledger.now.digests (D.state disk.new).files b }
    ensures held { D.reveals → RevealsSurvivors ledger.now.shape ledger.now.lattice.n ledger.now.digests (D.state disk.old).files (is_marked marks.old) → (b : BlockId) → HasBlock ledger.now.lattice b → IsHeldBy ledger.now.shape ledger.now.digests (D.state disk.old) b
        → AtEachMoment (D.state disk.old) (D.state disk.new) (IsHeldIn ledger.now.shape b (recorded_in ledger.now.shape ledger.now.digests b)) × IsHeldBy ledger.now.shape ledger.now.digests (D.state disk.new) b }

    // Where these survivors are honest for a data list that the ledger records, there is no clash, and each block that is
    // then marked has the payload of that list's lattice.
    ensures honest { D.reveals → RevealsSurvivors ledger.now.shape ledger.now.lattice.n ledger.now.digests (D.state disk.old).files (is_marked marks.old) → (records : List Record) (datas : List (List ℕ)) → HasRecords ledger.now records → AreRecordsOf ledger.now.shape records datas
        → AreSurvivorsHonest ledger.now.shape ledger.now.lattice ledger.now.digests datas (D.state disk.old).files → AreSomeHonest (is_marked marks.new) ledger.now.shape ledger.now.lattice ledger.now.digests datas (D.state disk.new).files }
    ensures no_clash { D.reveals → RevealsSurvivors ledger.now.shape ledger.now.lattice.n ledger.now.digests (D.state disk.old).files (is_marked marks.old) → (records : List Record) (datas : List (List ℕ)) → HasRecords ledger.now records → AreRecordsOf ledger.now.shape records datas
        → AreSurvivorsHonest ledger.now.shape ledger.now.lattice ledger.now.digests datas (D.state disk.old).files → (d : BlockId) (revealed computed : List ℕ) → result ≢ Err (RestoreFault.Clash d revealed computed) }
{
    homes_are_on_its_sites();
    let _lattice = ledger.lattice();
    match restore_all(ledger, disk, marks, steps, fates, sum, read, write) {
        Ok(()) => (),
        Err(fault) => return Err(fault),
    }
    match disk.sync() {
        Ok(()) => Ok(()),
        Err(_) => Err(RestoreFault::DiskFault),
    }
}
