//! Explanations of blocks.

ghost use Rattle.std.specs.Prelude.{◌≡◌, length, Err, IfOk};
ghost use Rattle.aea_lattice.specs.Blocks.{HasBlock};
ghost use Rattle.aea_disk.specs.Frames.{OnlyReads};
ghost use Rattle.aea_shelf.specs.Places.{cell_size};
ghost use Rattle.aea_explain.specs.Around.{IsAround};
ghost use Rattle.aea_explain.specs.Explained.{Explains};

use crate::fate::fate_of;
use aea_archive::{cell_buffer, is_block_intact, survivors_are_revealed};
use aea_disk::Disk;
use aea_fates::words_stay;
use aea_gauss::Fate;
use aea_lattice::BlockId;
use aea_ledger::Ledger;
use aea_search::{Search, SearchFault};
use std::alloc::Global;

/// Whether a block is intact, and its fate where all other intact blocks are known: the listed equations that give it from
/// these, or the listed nodes of a codeword that contains it and none of these.
#[derive(Debug, Drop)]
pub struct Explanation {
    pub intact: bool,
    pub fate: Fate,
}

/// Why a block was not explained.
#[derive(Clone, Copy, Debug, PartialEq, Eq)]
pub enum ExplainFault {
    /// The disk failed. It has counted it.
    DiskFault,
    /// There was no memory.
    NoMemory,
}

// Goes around the block, which is taken as unknown.
fn search_around<D: Disk>(
    alloc: Global,
    ledger: &Ledger,
    disk: &mut D,
    block: BlockId,
    cell: &mut [u8],
) -> Result<Search, ExplainFault>
    requires block { HasBlock ledger.now.lattice block }
    requires buffer { length cell.old ≡ cell_size ledger.now.shape }
    ensures around { IfOk result (IsAround D.reveals ledger.now (D.state disk.old).files block) }
    ensures reads { OnlyReads D.reveals (result ≡ Err ExplainFault.DiskFault) (D.state disk.old) (D.state disk.new) }
{
    let Ok(mut search) = Search::new(alloc, ledger) else {
        return Err(ExplainFault::NoMemory);
    };
    let Ok(()) = search.begin(block) else {
        return Err(ExplainFault::NoMemory);
    };
    match search.finish(ledger, disk, cell) {
        Ok(()) => Ok(search),
        Err(SearchFault::DiskFault) => Err(ExplainFault::DiskFault),
        Err(SearchFault::NoMemory) => Err(ExplainFault::NoMemory),
    }
}

/// Says whether the block is intact, and how the other intact blocks determine it or why they do not. It reads the block's
/// cell, and then goes around the block's own part: the block, and what equations join with it, from block to block, the
/// intact blocks left out. Only the cells of these are read, and those of the intact blocks around them, each once. The time
/// is linear in the number of blocks, for the marks, and in the part, beside that of the elimination in the part. It takes
/// memory for one cell and two marks a block, a bit each; 8 bytes for each block of the part; and what
/// `Search::fates` takes. Nothing is written.
pub fn explain<D: Disk>(
    alloc: Global,
    ledger: &Ledger,
    disk: &mut D,
    block: BlockId,
) -> Result<Explanation, ExplainFault>
    requires { HasBlock ledger.now.lattice block }

    // The intact blocks give the explanation, by whichever test they are distinguished, and no other one.
    ensures explains { IfOk result (Explains D.reveals ledger.now (D.state disk.old).files block) }

    // Nothing is written, and when the disk is at fault.
    ensures reads { OnlyReads D.reveals (result ≡ Err ExplainFault.DiskFault) (D.state disk.old) (D.state disk.new) }
{
    words_stay();
    survivors_are_revealed();
    let lattice = ledger.lattice();
    let Ok(mut cell) = cell_buffer(alloc, ledger) else {
        return Err(ExplainFault::NoMemory);
    };
    let intact = match is_block_intact(disk, ledger, block, cell.as_mut_slice()) {
        Ok(intact) => intact,
        Err(_) => return Err(ExplainFault::DiskFault),
    };
    let search = match search_around(alloc, ledger, disk, block, cell.as_mut_slice()) {
        Ok(search) => search,
        Err(fault) => return Err(fault),
    };
    match fate_of(alloc, &lattice, &search, block) {
        Ok(fate) => Ok(Explanation { intact, fate }),
        Err(_) => Err(ExplainFault::NoMemory),
    }
}
