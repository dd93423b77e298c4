//! Payloads that are read, judged and added up: those of the blocks that equations leave over.

ghost use Rattle.std.specs.Prelude.{◌≡◌, [], ◌∷◌, ℕ, List, length, filter, All, IfSome, OnOk, Err, option_to_list};
ghost use Rattle.aea_lattice.specs.declared.blocks.BlockId.{BlockId};
ghost use Rattle.aea_lattice.specs.Blocks.{HasBlock};
ghost use Rattle.aea_lattice.specs.Equations.{HasEquation};
ghost use Rattle.aea_disk.specs.Frames.{OnlyReads};
ghost use Rattle.aea_shelf.specs.Places.{cell_size};
ghost use Rattle.aea_restore.specs.Plans.{is_left_over};
ghost use Rattle.aea_restore.specs.Drawn.{is_other, other_blocks};
ghost use Rattle.aea_restore.specs.Judged.{IsJudgedSum, IsReadClashIn};

use crate::left::is_left;
use aea_disk::Disk;
use aea_lattice::{BlockId, EqId, EqList, Lattice};
use aea_ledger::Ledger;
use aea_restore::{RestoreFault, add_payload};

// Whether a block is another one than b, and the equations leave it over.
fn is_another(lattice: &Lattice, equations: &EqList, b: BlockId, other: BlockId) -> bool
    requires equations { All (HasEquation lattice.now) equations.now }
    requires block { HasBlock lattice.now other }
    ensures { result ≡ is_other (is_left_over lattice.now equations.now) b other }
{
    if other == b {
        return false;
    }
    is_left(lattice, equations, other)
}

// Adds the payload of a block to the sum, if it is left over of all, and another one than b.
fn add_other<D: Disk>(
    ledger: &Ledger,
    disk: &mut D,
    all: &EqList,
    b: BlockId,
    other: BlockId,
    read: &mut [u8],
    sum: &mut [u8],
) -> Result<(), RestoreFault>
    requires all { All (HasEquation ledger.now.lattice) all.now }
    requires block { HasBlock ledger.now.lattice other }
    requires buffer { length read.old ≡ cell_size ledger.now.shape }
    requires sum { length sum.old ≡ ledger.now.shape.block }
    ensures judged { OnOk result (IsJudgedSum D.reveals ledger.now (D.state disk.old).files sum.old (filter (is_other (is_left_over ledger.now.lattice all.now) b) (other ∷ [])) sum.new) }
    ensures found { (d : BlockId) (revealed computed : List ℕ) → result ≡ Err (RestoreFault.Clash d revealed computed) → IsReadClashIn D.reveals ledger.now (D.state disk.old).files (filter (is_other (is_left_over ledger.now.lattice all.now) b) (other ∷ [])) d revealed computed }
    ensures reads { OnlyReads D.reveals (result ≡ Err RestoreFault.DiskFault) (D.state disk.old) (D.state disk.new) }
{
    if !is_another(&ledger.lattice(), all, b, other) {
        return Ok(());
    }
    add_payload(ledger, disk, other, read, sum)
}

// The same of the input of an equation, if it has one.
fn add_input<D: Disk>(
    ledger: &Ledger,
    disk: &mut D,
    all: &EqList,
    b: BlockId,
    input: Option<BlockId>,
    read: &mut [u8],
    sum: &mut [u8],
) -> Result<(), RestoreFault>
    requires all { All (HasEquation ledger.now.lattice) all.now }
    requires block { IfSome input (HasBlock ledger.now.lattice) }
    requires buffer { length read.old ≡ cell_size ledger.now.shape }
    requires sum { length sum.old ≡ ledger.now.shape.block }
    ensures judged { OnOk result (IsJudgedSum D.reveals ledger.now (D.state disk.old).files sum.old (filter (is_other (is_left_over ledger.now.lattice all.now) b) (option_to_list input)) sum.new) }
    ensures found { (d : BlockId) (revealed computed : List ℕ) → result ≡ Err (RestoreFault.Clash d revealed computed) → IsReadClashIn D.reveals ledger.now (D.state disk.old).files (filter (is_other (is_left_over ledger.now.lattice all.now) b) (option_to_list input)) d revealed computed }
    ensures reads { OnlyReads D.reveals (result ≡ Err RestoreFault.DiskFault) (D.state disk.old) (D.state disk.new) }
{
    match input {
        None => Ok(()),
        Some(other) => add_other(ledger, disk, all, b, other, read, sum),
    }
}

// Adds the payloads of the blocks of an equation that are left over of all to the sum, but that of b.
fn add_equation<D: Disk>(
    ledger: &Ledger,
    disk: &mut D,
    all: &EqList,
    b: BlockId,
    e: EqId,
    read: &mut [u8],
    sum: &mut [u8],
) -> Result<(), RestoreFault>
    requires all { All (HasEquation ledger.now.lattice) all.now }
    requires equation { HasEquation ledger.now.lattice e }
    requires buffer { length read.old ≡ cell_size ledger.now.shape }
    requires sum { length sum.old ≡ ledger.now.shape.block }
    ensures judged { OnOk result (IsJudgedSum D.reveals ledger.now (D.state disk.old).files sum.old (other_blocks ledger.now.lattice (is_left_over ledger.now.lattice all.now) b (e ∷ [])) sum.new) }
    ensures found { (d : BlockId) (revealed computed : List ℕ) → result ≡ Err (RestoreFault.Clash d revealed computed) → IsReadClashIn D.reveals ledger.now (D.state disk.old).files (other_blocks ledger.now.lattice (is_left_over ledger.now.lattice all.now) b (e ∷ [])) d revealed computed }
    ensures reads { OnlyReads D.reveals (result ≡ Err RestoreFault.DiskFault) (D.state disk.old) (D.state disk.new) }
{
    let blocks = ledger.lattice().equation(e);
    match add_input(ledger, disk, all, b, blocks.input, read, sum) {
        Ok(()) => (),
        Err(fault) => return Err(fault),
    }
    match add_other(ledger, disk, all, b, blocks.datum, read, sum) {
        Ok(()) => (),
        Err(fault) => return Err(fault),
    }
    match add_other(ledger, disk, all, b, blocks.output, read, sum) {
        Ok(()) => Ok(()),
        Err(fault) => Err(fault),
    }
}

/// Adds the payloads of what the equations leave over to the sum, but that of b, one equation after the other. Which blocks that
/// are is looked for in the names of all equations, for each block of each of them.
pub(crate) fn add_equations<D: Disk>(
    ledger: &Ledger,
    disk: &mut D,
    b: BlockId,
    equations: &EqList,
    read: &mut [u8],
    sum: &mut [u8],
) -> Result<(), RestoreFault>
    requires equations { All (HasEquation ledger.now.lattice) equations.now }
    requires buffer { length read.old ≡ cell_size ledger.now.shape }
    requires sum { length sum.old ≡ ledger.now.shape.block }
    ensures judged { OnOk result (IsJudgedSum D.reveals ledger.now (D.state disk.old).files sum.old (other_blocks ledger.now.lattice (is_left_over ledger.now.lattice equations.now) b equations.now) sum.new) }
    ensures found { (d : BlockId) (revealed computed : List ℕ) → result ≡ Err (RestoreFault.Clash d revealed computed) → IsReadClashIn D.reveals ledger.now (D.state disk.old).files (other_blocks ledger.now.lattice (is_left_over ledger.now.lattice equations.now) b equations.now) d revealed computed }
    ensures reads { OnlyReads D.reveals (result ≡ Err RestoreFault.DiskFault) (D.state disk.old) (D.state disk.new) }
{
    for k in 0..equations.len() {
        let Some(e) = equations.get(k) else {
            unreachable!()
        };
        match add_equation(ledger, disk, equations, b, e, read, sum) {
            Ok(()) => (),
            Err(fault) => return Err(fault),
        }
    }
    Ok(())
}
