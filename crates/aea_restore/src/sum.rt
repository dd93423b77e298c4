//! Payloads that are read back and added up.

ghost use Rattle.std.specs.Prelude.{◌≡◌, [], ◌∷◌, ℕ, List, length, filter, All, IfSome, IsErr, OnOk, Err, option_to_list};
ghost use Rattle.aea_lattice.specs.declared.blocks.BlockId.{BlockId};
ghost use Rattle.aea_lattice.specs.Blocks.{HasBlock};
ghost use Rattle.aea_lattice.specs.Equations.{HasEquation};
ghost use Rattle.aea_lattice.specs.Data.{xor_bytes};
ghost use Rattle.aea_view.specs.Marked.{is_marked};
ghost use Rattle.aea_disk.specs.Frames.{OnlyReads};
ghost use Rattle.aea_shelf.specs.Places.{cell_size};
ghost use Rattle.aea_archive.specs.Blocks.{IsIntactBy};
ghost use Rattle.aea_shelf.specs.Intact.{payload_at};
ghost use Rattle.aea_restore.specs.Drawn.{is_other, other_blocks, IsOtherDigest};
ghost use Rattle.aea_restore.specs.Judged.{IsJudgedSum, IsReadClashIn};

use crate::fault::RestoreFault;
use crate::payload::read_payload;
use aea_disk::Disk;
use aea_lattice::{BlockId, EqId, EqList};
use aea_ledger::Ledger;
use aea_view::Marks;
use aea_weave::xor_into;

/// Reads the payload of a block as `read_payload` does, and adds it to the sum by XOR, once it is judged. The buffer has the
/// bytes of a cell, B + 48, and the sum those of a block, B; after an error the sum is as it was. It takes no memory. An error
/// is a Clash of this block, which is then not intact, or a fault of the disk.
pub fn add_payload<D: Disk>(
    ledger: &Ledger,
    disk: &mut D,
    b: BlockId,
    read: &mut [u8],
    sum: &mut [u8],
) -> Result<(), RestoreFault>
    requires block { HasBlock ledger.now.lattice b }
    requires buffer { length read.old ≡ cell_size ledger.now.shape }
    requires sum { length sum.old ≡ ledger.now.shape.block }
    ensures judged { OnOk result (IsJudgedSum D.reveals ledger.now (D.state disk.old).files sum.old (b ∷ []) sum.new) }
    ensures same { IsErr result → sum.new ≡ sum.old }
    ensures clash { (d : BlockId) (revealed computed : List ℕ) → result ≡ Err (RestoreFault.Clash d revealed computed) → IsOtherDigest ledger.now d revealed computed }
    ensures found { (d : BlockId) (revealed computed : List ℕ) → result ≡ Err (RestoreFault.Clash d revealed computed) → IsReadClashIn D.reveals ledger.now (D.state disk.old).files (b ∷ []) d revealed computed }
    ensures reads { OnlyReads D.reveals (result ≡ Err RestoreFault.DiskFault) (D.state disk.old) (D.state disk.new) }
{
    match read_payload(ledger, disk, b, read) {
        Ok(()) => {
            let size = sum.len();
            xor_into(sum, &read[16..16 + size]);
            Ok(())
        }
        Err(fault) => Err(fault),
    }
}

// Whether a block is marked and another one than b.
fn is_another(marks: &Marks, b: BlockId, other: BlockId) -> bool
    requires { HasBlock marks.now.lattice other }
    ensures { result ≡ is_other (is_marked marks.now) b other }
{
    if other == b {
        return false;
    }
    marks.get(other)
}

// Adds the payload of a block to the sum, if it is marked and another one than b.
fn add_other<D: Disk>(
    ledger: &Ledger,
    disk: &mut D,
    marks: &Marks,
    b: BlockId,
    other: BlockId,
    read: &mut [u8],
    sum: &mut [u8],
) -> Result<(), RestoreFault>
    requires lattice { marks.now.lattice ≡ ledger.now.lattice }
    requires block { HasBlock ledger.now.lattice other }
    requires buffer { length read.old ≡ cell_size ledger.now.shape }
    requires sum { length sum.old ≡ ledger.now.shape.block }
    ensures judged { OnOk result (IsJudgedSum D.reveals ledger.now (D.state disk.old).files sum.old (filter (is_other (is_marked marks.now) b) (other ∷ [])) sum.new) }
    ensures clash { (d : BlockId) (revealed computed : List ℕ) → result ≡ Err (RestoreFault.Clash d revealed computed) → IsOtherDigest ledger.now d revealed computed }
    ensures found { (d : BlockId) (revealed computed : List ℕ) → result ≡ Err (RestoreFault.Clash d revealed computed) → IsReadClashIn D.reveals ledger.now (D.state disk.old).files (filter (is_other (is_marked marks.now) b) (other ∷ [])) d revealed computed }
    ensures reads { OnlyReads D.reveals (result ≡ Err RestoreFault.DiskFault) (D.state disk.old) (D.state disk.new) }
{
    if !is_another(marks, b, other) {
        return Ok(());
    }
    add_payload(ledger, disk, other, read, sum)
}

// The same of the input of an equation, if it has one.
fn add_input<D: Disk>(
    ledger: &Ledger,
    disk: &mut D,
    marks: &Marks,
    b: BlockId,
    input: Option<BlockId>,
    read: &mut [u8],
    sum: &mut [u8],
) -> Result<(), RestoreFault>
    requires lattice { marks.now.lattice ≡ ledger.now.lattice }
    requires block { IfSome input (HasBlock ledger.now.lattice) }
    requires buffer { length read.old ≡ cell_size ledger.now.shape }
    requires sum { length sum.old ≡ ledger.now.shape.block }
    ensures judged { OnOk result (IsJudgedSum D.reveals ledger.now (D.state disk.old).files sum.old (filter (is_other (is_marked marks.now) b) (option_to_list input)) sum.new) }
    ensures clash { (d : BlockId) (revealed computed : List ℕ) → result ≡ Err (RestoreFault.Clash d revealed computed) → IsOtherDigest ledger.now d revealed computed }
    ensures found { (d : BlockId) (revealed computed : List ℕ) → result ≡ Err (RestoreFault.Clash d revealed computed) → IsReadClashIn D.reveals ledger.now (D.state disk.old).files (filter (is_other (is_marked marks.now) b) (option_to_list input)) d revealed computed }
    ensures reads { OnlyReads D.reveals (result ≡ Err RestoreFault.DiskFault) (D.state disk.old) (D.state disk.new) }
{
    match input {
        None => Ok(()),
        Some(other) => add_other(ledger, disk, marks, b, other, read, sum),
    }
}

/// Adds the payloads of the marked blocks of an equation to the sum, but that of b.
pub(crate) fn add_equation<D: Disk>(
    ledger: &Ledger,
    disk: &mut D,
    marks: &Marks,
    b: BlockId,
    e: EqId,
    read: &mut [u8],
    sum: &mut [u8],
) -> Result<(), RestoreFault>
    requires lattice { marks.now.lattice ≡ ledger.now.lattice }
    requires equation { HasEquation ledger.now.lattice e }
    requires buffer { length read.old ≡ cell_size ledger.now.shape }
    requires sum { length sum.old ≡ ledger.now.shape.block }
    ensures judged { OnOk result (IsJudgedSum D.reveals ledger.now (D.state disk.old).files sum.old (other_blocks ledger.now.lattice (is_marked marks.now) b (e ∷ [])) sum.new) }
    ensures clash { (d : BlockId) (revealed computed : List ℕ) → result ≡ Err (RestoreFault.Clash d revealed computed) → IsOtherDigest ledger.now d revealed computed }
    ensures found { (d : BlockId) (revealed computed : List ℕ) → result ≡ Err (RestoreFault.Clash d revealed computed) → IsReadClashIn D.reveals ledger.now (D.state disk.old).files (other_blocks ledger.now.lattice (is_marked marks.now) b (e ∷ [])) d revealed computed }
    ensures reads { OnlyReads D.reveals (result ≡ Err RestoreFault.DiskFault) (D.state disk.old) (D.state disk.new) }
{
    let blocks = ledger.lattice().equation(e);
    match add_input(ledger, disk, marks, b, blocks.input, read, sum) {
        Ok(()) => (),
        Err(fault) => return Err(fault),
    }
    match add_other(ledger, disk, marks, b, blocks.datum, read, sum) {
        Ok(()) => (),
        Err(fault) => return Err(fault),
    }
    match add_other(ledger, disk, marks, b, blocks.output, read, sum) {
        Ok(()) => Ok(()),
        Err(fault) => Err(fault),
    }
}

/// The same of several equations, one after the other.
pub(crate) fn add_equations<D: Disk>(
    ledger: &Ledger,
    disk: &mut D,
    marks: &Marks,
    b: BlockId,
    equations: &EqList,
    read: &mut [u8],
    sum: &mut [u8],
) -> Result<(), RestoreFault>
    requires lattice { marks.now.lattice ≡ ledger.now.lattice }
    requires equations { All (HasEquation ledger.now.lattice) equations.now }
    requires buffer { length read.old ≡ cell_size ledger.now.shape }
    requires sum { length sum.old ≡ ledger.now.shape.block }
    ensures judged { OnOk result (IsJudgedSum D.reveals ledger.now (D.state disk.old).files sum.old (other_blocks ledger.now.lattice (is_marked marks.now) b equations.now) sum.new) }
    ensures clash { (d : BlockId) (revealed computed : List ℕ) → result ≡ Err (RestoreFault.Clash d revealed computed) → IsOtherDigest ledger.now d revealed computed }
    ensures found { (d : BlockId) (revealed computed : List ℕ) → result ≡ Err (RestoreFault.Clash d revealed computed) → IsReadClashIn D.reveals ledger.now (D.state disk.old).files (other_blocks ledger.now.lattice (is_marked marks.now) b equations.now) d revealed computed }
    ensures reads { OnlyReads D.reveals (result ≡ Err RestoreFault.DiskFault) (D.state disk.old) (D.state disk.new) }
{
    for k in 0..equations.len() {
        let Some(e) = equations.get(k) else {
            unreachable!()
        };
        match add_equation(ledger, disk, marks, b, e, read, sum) {
            Ok(()) => (),
            Err(fault) => return Err(fault),
        }
    }
    Ok(())
}
