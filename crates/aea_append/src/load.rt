//! Heads that are loaded from the last parities of an archive.

ghost use Rattle.std.specs.Prelude.{◌≡◌, ◌+◌, ◌<◌, ◌≤◌, ℕ, length, replicate, None, IfOk, IfSome, IsErr};
ghost use Rattle.aea_lattice.specs.declared.blocks.Class.{Class};
ghost use Rattle.aea_lattice.specs.Blocks.{HasParity, HasBlock};
ghost use Rattle.aea_lattice.specs.Ends.{strands_of, last_open};
ghost use Rattle.aea_disk.specs.State.{HasEarlier};
ghost use Rattle.aea_disk.specs.Frames.{OnlyReads};
ghost use Rattle.aea_shelf.specs.Places.{cell_size};
ghost use Rattle.aea_weave.specs.Woven.{strands_before, head_of};
ghost use Rattle.aea_weave.specs.Stored.{all_strands};
ghost use Rattle.aea_append.specs.Loading.{IsLoaded, IsFoundOn, HasLoaded, IsLesser};

use aea_archive::read_block;
use aea_disk::{Disk, DiskFault};
use aea_lattice::{BlockId, Class, Lattice};
use aea_ledger::Ledger;
use aea_shelf::Cell;
use aea_weave::Heads;

// How many strands the lattice has.
fn strand_count(lattice: &Lattice) -> u32
    ensures { result ≡ all_strands lattice.now }
{
    u32::from(lattice.s()) + u32::from(lattice.p()) * u32::from(lattice.alpha() - 1)
}

// The class and the number of the strand at this place in strand order.
fn strand_at(lattice: &Lattice, place: u32) -> (Class, u32)
    requires { place < all_strands lattice.now }
    ensures class { HasParity lattice.now result.0 }
    ensures strand { result.1 < strands_of lattice.now result.0 }
    ensures place { strands_before lattice.now result.0 + result.1 ≡ place }
{
    let s = u32::from(lattice.s());
    let p = u32::from(lattice.p());
    if place < s {
        return (Class::Horiz, place);
    }
    if place < s + p {
        return (Class::Right, place - s);
    }
    (Class::Left, place - s - p)
}

// The one of two blocks that has the lesser number, if there is any.
fn lesser(lattice: &Lattice, a: Option<BlockId>, b: Option<BlockId>) -> Option<BlockId>
    requires a { IfSome a (HasBlock lattice.now) }
    requires b { IfSome b (HasBlock lattice.now) }
    ensures { IsLesser lattice.now a b result }
{
    match (a, b) {
        (None, _) => b,
        (Some(_), None) => a,
        (Some(x), Some(y)) => {
            if lattice.number(y) < lattice.number(x) {
                b
            } else {
                a
            }
        }
    }
}

// Loads the head of a strand from the home of its last parity, if the strand has one. Returns this parity where it is
// damaged.
fn load_strand<D: Disk>(
    disk: &mut D,
    ledger: &Ledger,
    heads: &mut Heads,
    class: Class,
    strand: u32,
    cell: &mut [u8],
) -> Result<Option<BlockId>, DiskFault>
    requires lattice { heads.old.lattice ≡ ledger.now.lattice }
    requires size { heads.old.size ≡ ledger.now.shape.block }
    requires class { HasParity ledger.now.lattice class }
    requires strand { strand < strands_of ledger.now.lattice class }
    requires zeros { head_of heads.old class strand ≡ replicate ledger.now.shape.block 0 }
    requires buffer { length cell.old ≡ cell_size ledger.now.shape }
    ensures loaded { IfOk result (λ found. found ≡ None → IsLoaded D.reveals ledger.now (D.state disk.old).files class (head_of heads.new class strand) (last_open ledger.now.lattice class strand)) }
    ensures found { IfOk result (IsFoundOn D.reveals ledger.now (D.state disk.old).files class strand) }
    ensures lattice { heads.new.lattice ≡ heads.old.lattice }
    ensures size { heads.new.size ≡ heads.old.size }
    ensures others { (c : Class) (other : ℕ) → HasParity ledger.now.lattice c → other < strands_of ledger.now.lattice c → ((c ≡ class) × (other ≡ strand) → ⊥) → head_of heads.new c other ≡ head_of heads.old c other }
    ensures earlier { HasEarlier (D.state disk.old) (D.state disk.new) }
    ensures reads { OnlyReads D.reveals (IsErr result) (D.state disk.old) (D.state disk.new) }
{
    let Some(node) = ledger.lattice().last_on(class, strand) else {
        return Ok(None);
    };
    let b = BlockId { node, class };
    match read_block(disk, ledger, b, cell) {
        Ok(Cell::Intact) => {
            let size = cell.len() - 48;
            heads.set_head(class, strand, &cell[16..16 + size]);
            Ok(None)
        }
        Ok(Cell::Bad) => Ok(Some(b)),
        Err(fault) => Err(fault),
    }
}

/// Loads the heads of all strands from the homes of the last parities. Returns the damaged one with the least number, if
/// there is any; the heads are then of no use.
pub(crate) fn load_strands<D: Disk>(
    disk: &mut D,
    ledger: &Ledger,
    heads: &mut Heads,
    cell: &mut [u8],
) -> Result<Option<BlockId>, DiskFault>
    requires lattice { heads.old.lattice ≡ ledger.now.lattice }
    requires size { heads.old.size ≡ ledger.now.shape.block }
    requires zeros { (c : Class) (strand : ℕ) → HasParity ledger.now.lattice c → strand < strands_of ledger.now.lattice c → head_of heads.old c strand ≡ replicate ledger.now.shape.block 0 }
    requires buffer { length cell.old ≡ cell_size ledger.now.shape }
    ensures loaded { IfOk result (HasLoaded D.reveals ledger.now (D.state disk.old).files heads.new (all_strands ledger.now.lattice)) }
    ensures earlier { HasEarlier (D.state disk.old) (D.state disk.new) }
    ensures reads { OnlyReads D.reveals (IsErr result) (D.state disk.old) (D.state disk.new) }
{
    let lattice = ledger.lattice();
    let count = strand_count(&lattice);
    let mut found = None;
    let mut place: u32 = 0;
    while place < count {
        let (class, strand) = strand_at(&lattice, place);
        let next = match load_strand(disk, ledger, heads, class, strand, cell) {
            Ok(next) => next,
            Err(fault) => return Err(fault),
        };
        found = lesser(&lattice, found, next);
        place += 1;
    }
    Ok(found)
}
