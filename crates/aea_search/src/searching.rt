//! A search: which blocks were read, which of them are unknown, and which of these wait to be gone around.

ghost use Rattle.std.specs.Prelude.{◌≡◌, ◌≤◌, ◌<◌, ◌∷◌, [], Bool, true, false, not, length, IfOk, OnOk, OnErr, Err, MatchOption, All, slice_get};
ghost use Rattle.aea_lattice.specs.declared.blocks.BlockId.{BlockId};
ghost use Rattle.aea_lattice.specs.Blocks.{HasBlock};
ghost use Rattle.aea_view.specs.Marked.{is_marked};
ghost use Rattle.aea_disk.specs.Frames.{OnlyReads};
ghost use Rattle.aea_shelf.specs.Places.{cell_size};
ghost use Rattle.aea_gauss.specs.Fates.{AreFates, IsFate};
ghost use Rattle.aea_search.specs.Searches.{Searched, IsNew, IsGoneAround, Goes, Begins, Passes, IsRightBy, IsFirst, Looks};

use aea_archive::is_block_intact;
use aea_disk::Disk;
use aea_fates::{parts_stand_alone, words_stay};
use aea_gauss::{FateList, solve_open};
use aea_lattice::{BlockId, Lattice, blocks_are_inside};
use aea_ledger::Ledger;
use aea_view::Marks;
use std::alloc::{AllocError, Global};
use std::marker::Model;

/// Why a search did not go on.
#[derive(Clone, Copy, Debug, PartialEq, Eq)]
pub enum SearchFault {
    /// The disk failed. It has counted it.
    DiskFault,
    /// There was no memory.
    NoMemory,
}

/// A search for the damaged blocks that matter for some blocks: marks of the blocks that were read and of those of them that
/// are unknown, which are damaged or were taken as such. Unknown blocks wait until they are gone around. It keeps two bits of memory
/// a block of the archive, and 8 bytes for each unknown block.
#[derive(Drop)]
pub struct Search {
    read: Marks,
    unknown: Marks,
    // the unknown blocks, as they were found
    found: Vec<BlockId>,
    // how many of these were gone around
    gone: usize,
}

impl Model for Search {
    ghost use Rattle.std.specs.Prelude.{◌≤◌, length, drop};
    ghost use Rattle.aea_search.specs.Searches.{Searched, searched_code, IsSearch};

    ghost Value = { Searched };

    ghost coded = { searched_code };

    ghost view = { λ s. record { read = s.read; unknown = s.unknown; waiting = drop s.gone s.found.items } };

    ghost invariant = { λ s. (s.gone ≤ length s.found.items) × IsSearch (record { read = s.read; unknown = s.unknown; waiting = drop s.gone s.found.items }) };
}

// The block at this place, if there is one.
fn item_at(blocks: &[BlockId], k: usize) -> Option<BlockId>
    ensures { result ≡ slice_get blocks.now k }
{
    blocks.get(k).copied()
}

impl Search {
    /// A search of the ledger's archive that has read nothing. It takes two bits of memory a block.
    pub fn new(alloc: Global, ledger: &Ledger) -> Result<Search, AllocError>
        ensures { IfOk result (IsNew ledger.now.lattice) }
    {
        let lattice = ledger.lattice();
        let read = Marks::new(alloc, &lattice)?;
        let unknown = Marks::new(alloc, &lattice)?;
        Ok(Search {
            read,
            unknown,
            found: Vec::new(alloc),
            gone: 0,
        })
    }

    /// Takes the block as read and as unknown, whatever its cell is, so that it waits to be gone around. It takes 8 bytes of
    /// memory; an error is lack of it, and nothing has changed then.
    pub fn begin(&mut self, b: BlockId) -> Result<(), AllocError>
        requires { HasBlock self.old.read.lattice b }
        ensures begins { OnOk result (Begins self.old self.new b) }
        ensures err { OnErr result (self.new ≡ self.old) }
    {
        self.found.push(b)?;
        self.unknown.set(b, true);
        self.read.set(b, true);
        Ok(())
    }

    // Takes a block as read that was not read before; it is not unknown.
    fn skip(&mut self, b: BlockId)
        requires block { HasBlock self.old.read.lattice b }
        ensures { Passes self.old self.new b }
    {
        self.read.set(b, true);
    }

    /// Reads the cell of the block into the buffer, which has the bytes of a cell, B + 48, unless the block was read before.
    /// Where it is damaged it is unknown then, and waits to be gone around, which takes 8 bytes of memory. Nothing is written.
    pub fn look<D: Disk>(
        &mut self,
        ledger: &Ledger,
        disk: &mut D,
        b: BlockId,
        cell: &mut [u8],
    ) -> Result<(), SearchFault>
        requires same { self.old.read.lattice ≡ ledger.now.lattice }
        requires block { HasBlock ledger.now.lattice b }
        requires buffer { length cell.old ≡ cell_size ledger.now.shape }
        ensures read { OnOk result (is_marked self.new.read b ≡ true) }
        ensures err { OnErr result (self.new ≡ self.old) }
        ensures looks { Looks D.reveals (result ≡ Err SearchFault.DiskFault) ledger.now self.old self.new (D.state disk.old) (D.state disk.new) }
    {
        if self.read.get(b) {
            return Ok(());
        }
        match is_block_intact(disk, ledger, b, cell) {
            Err(_) => return Err(SearchFault::DiskFault),
            Ok(true) => self.skip(b),
            Ok(false) => match self.begin(b) {
                Ok(()) => (),
                Err(_) => return Err(SearchFault::NoMemory),
            },
        }
        Ok(())
    }

    // The first block that waits, if one does.
    pub(crate) fn first(&self) -> Option<BlockId>
        ensures { MatchOption result (self.now.waiting ≡ []) (IsFirst self.now) }
    {
        item_at(self.found.as_slice(), self.gone)
    }

    // The first block that waits was gone around, and waits no more.
    pub(crate) fn pass(&mut self)
        requires waits { 0 < length self.old.waiting }
        requires around { (b : BlockId) → IsFirst self.old b → IsGoneAround self.old.read.lattice self.old.read b }
        ensures read { self.new.read ≡ self.old.read }
        ensures unknown { self.new.unknown ≡ self.old.unknown }
        ensures waiting { (b : BlockId) → IsFirst self.old b → self.old.waiting ≡ b ∷ self.new.waiting }
    {
        self.gone += 1;
    }

    /// Whether the block is unknown. A block that was not read is not.
    pub fn is_unknown(&self, b: BlockId) -> bool
        requires { HasBlock self.now.read.lattice b }
        ensures unknown { result ≡ is_marked self.now.unknown b }
        ensures read { result ≡ true → is_marked self.now.read b ≡ true }
    {
        self.unknown.get(b)
    }

    /// Marks of the unknown blocks.
    pub fn unknown(&self) -> &Marks
        ensures unknown { result.now ≡ self.now.unknown }
        ensures lattice { result.now.lattice ≡ self.now.read.lattice }
        ensures read { (b : BlockId) → HasBlock self.now.read.lattice b → is_marked result.now b ≡ true → is_marked self.now.read b ≡ true }
    {
        &self.unknown
    }

    /// The fates of the unknown blocks where all other blocks are known, in number order. Where none waits any more, they are the
    /// fates of these blocks where all that pass a test are known that is right about what was read: the others that do not
    /// pass are outside their part. It takes what `solve_open` takes, and an error is lack of memory.
    pub fn fates(&self, alloc: Global, lattice: &Lattice) -> Result<FateList, AllocError>
        requires same { self.now.read.lattice ≡ lattice.now }
        ensures unknown { IfOk result (AreFates lattice.now (λ b. not (is_marked self.now.unknown b))) }
        ensures known { IfOk result (λ fates. self.now.waiting ≡ [] → (known : BlockId → Bool) → IsRightBy lattice.now known self.now → All (IsFate lattice.now known) fates) }
    {
        parts_stand_alone();
        words_stay();
        blocks_are_inside();
        solve_open(alloc, lattice, &self.unknown)
    }
}
