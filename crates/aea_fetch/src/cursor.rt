//! The data blocks of an object, one after the other.

ghost use Rattle.std.specs.Prelude.{◌≡◌, ◌+◌, ◌≤◌, ℕ, [], ◌∷◌, All, MatchOption, IfSome};
ghost use Rattle.std.specs.FinMap.{get};
ghost use Rattle.aea_lattice.specs.declared.blocks.Class.TheVariants.{Datum};
ghost use Rattle.aea_lattice.specs.Blocks.{HasBlock};
ghost use Rattle.aea_archive.specs.Objects.{data_under};
ghost use Rattle.aea_fetch.specs.Cursors.{data_left};

use aea_catalog::Extent;
use aea_lattice::{BlockId, Class};
use aea_ledger::Ledger;
use std::marker::Model;

/// The data blocks of an object that are still to come, in order: those of its parts, one part after the other. It takes no
/// memory, and looks a part up in the catalogue only where the part before it has ended.
#[derive(Drop)]
pub struct DataBlocks<'a> {
    ledger: &'a Ledger,
    name: &'a [u8],
    // what is left of the part that was begun
    begun: Extent,
    // the place of the part after it
    place: usize,
}

impl<'a> Model for DataBlocks<'a> {
    ghost use Rattle.std.specs.Prelude.{◌+◌, ◌≤◌, List};
    ghost use Rattle.std.specs.FinMap.{get};
    ghost use Rattle.aea_lattice.specs.declared.blocks.BlockId.{BlockId};
    ghost use Rattle.aea_fetch.specs.Cursors.{data_left};

    ghost Value = { List BlockId };

    ghost view = { λ c. data_left (get c.ledger.now.objects c.name.now) c.begun c.place };

    ghost invariant = { λ c. (1 ≤ c.begun.first) × (c.begun.first + c.begun.count ≤ c.ledger.now.lattice.n + 1) };
}

impl<'a> DataBlocks<'a> {
    /// The data blocks of the object under the name; none where no object has it. Each is a block of the archive's lattice.
    pub fn new(ledger: &'a Ledger, name: &'a [u8]) -> DataBlocks<'a>
        ensures all { result ≡ data_under (get ledger.now.objects name.now) }
        ensures inside { All (HasBlock ledger.now.lattice) result }
        ensures data { All (λ b. b.class ≡ Datum) result }
    {
        // what it promises of the parts of its objects: that they lie within the nodes
        let _catalog = ledger.catalog();
        DataBlocks {
            ledger,
            name,
            begun: Extent { first: 1, count: 0 },
            place: 0,
        }
    }

    /// Takes the next block; None where none is left.
    pub fn next(&mut self) -> Option<BlockId>
        ensures { MatchOption result ((self.old ≡ []) × (self.new ≡ [])) (λ b. self.old ≡ b ∷ self.new) }
    {
        let (part, place) = part_with_next(self.ledger, self.name, self.begun, self.place)?;
        self.begun = Extent {
            first: part.first + 1,
            count: part.count - 1,
        };
        self.place = place;
        Some(BlockId {
            node: part.first,
            class: Class::Datum,
        })
    }
}

// What is left of the part with the next block, and the place of the part after it: the one that was begun, or where
// nothing of that is left the one at this place.
fn part_with_next(
    ledger: &Ledger,
    name: &[u8],
    begun: Extent,
    place: usize,
) -> Option<(Extent, usize)>
    requires first { 1 ≤ begun.first }
    requires last { begun.first + begun.count ≤ ledger.now.lattice.n + 1 }
    ensures left { MatchOption result (data_left (get ledger.now.objects name.now) begun place ≡ [])
        (λ r. data_left (get ledger.now.objects name.now) begun place ≡ data_left (get ledger.now.objects name.now) r.0 r.1) }
    ensures some { IfSome result (λ r. 1 ≤ r.0.count) }
    ensures inside { IfSome result (λ r. (1 ≤ r.0.first) × (r.0.first + r.0.count ≤ ledger.now.lattice.n + 1)) }
{
    if begun.count > 0 {
        return Some((begun, place));
    }
    let Some(part) = ledger.catalog().part(name, place) else {
        return None;
    };
    Some((part, place + 1))
}
