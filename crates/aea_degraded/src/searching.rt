//! The beginning of the first pass: the object's own cells are read, and where some are damaged what is around these.

ghost use Rattle.std.specs.Prelude.{◌≡◌, true, [], Bool, length, All, IfOk, OnOk, Err};
ghost use Rattle.std.specs.FinMap.{get};
ghost use Rattle.aea_lattice.specs.declared.blocks.BlockId.{BlockId};
ghost use Rattle.aea_lattice.specs.Blocks.{HasBlock};
ghost use Rattle.aea_view.specs.Marked.{is_marked};
ghost use Rattle.aea_disk.specs.Frames.{OnlyReads};
ghost use Rattle.aea_shelf.specs.Places.{cell_size};
ghost use Rattle.aea_archive.specs.Blocks.{RevealsSurvivors};
ghost use Rattle.aea_archive.specs.Objects.{data_under};
ghost use Rattle.aea_search.specs.Searches.{Goes, IsRightBy};

use aea_disk::Disk;
use aea_fetch::DataBlocks;
use aea_ledger::Ledger;
use aea_search::{Search, SearchFault};
use std::alloc::Global;

// Reads the cells of the blocks that were not read before.
fn look_at<D: Disk>(
    ledger: &Ledger,
    disk: &mut D,
    mut blocks: DataBlocks<'_>,
    search: &mut Search,
    cell: &mut [u8],
) -> Result<(), SearchFault>
    requires same { search.old.read.lattice ≡ ledger.now.lattice }
    requires inside { All (HasBlock ledger.now.lattice) blocks }
    requires buffer { length cell.old ≡ cell_size ledger.now.shape }
    ensures read { OnOk result (All (λ b. is_marked search.new.read b ≡ true) blocks.entry) }
    ensures goes { Goes D.reveals ledger.now (D.state disk.old).files search.old search.new }
    ensures reads { OnlyReads D.reveals (result ≡ Err SearchFault.DiskFault) (D.state disk.old) (D.state disk.new) }
{
    while let Some(b) = blocks.next() {
        match search.look(ledger, disk, b, cell) {
            Ok(()) => (),
            Err(fault) => return Err(fault),
        }
    }
    Ok(())
}

/// A search that has read the data blocks of the object under the name, and around each damaged block that it found, until no more
/// was found. `cell` has the bytes of a cell, B + 48. Nothing is written. It takes what a `Search` takes.
pub(crate) fn search_object<D: Disk>(
    alloc: Global,
    ledger: &Ledger,
    disk: &mut D,
    name: &[u8],
    cell: &mut [u8],
) -> Result<Search, SearchFault>
    requires buffer { length cell.old ≡ cell_size ledger.now.shape }
    ensures lattice { IfOk result (λ s. s.read.lattice ≡ ledger.now.lattice) }
    ensures done { IfOk result (λ s. s.waiting ≡ []) }
    ensures read { IfOk result (λ s. All (λ b. is_marked s.read b ≡ true) (data_under (get ledger.now.objects name.now))) }
    ensures right { IfOk result (λ s. D.reveals → (known : BlockId → Bool) → RevealsSurvivors ledger.now.shape ledger.now.lattice.n ledger.now.digests (D.state disk.old).files known
        → IsRightBy ledger.now.lattice known s) }
    ensures reads { OnlyReads D.reveals (result ≡ Err SearchFault.DiskFault) (D.state disk.old) (D.state disk.new) }
{
    let _lattice = ledger.lattice();
    let mut search = match Search::new(alloc, ledger) {
        Ok(search) => search,
        Err(_) => return Err(SearchFault::NoMemory),
    };
    let blocks = DataBlocks::new(ledger, name);
    match look_at(ledger, disk, blocks, &mut search, cell) {
        Ok(()) => (),
        Err(fault) => return Err(fault),
    }
    match search.finish(ledger, disk, cell) {
        Ok(()) => Ok(search),
        Err(fault) => Err(fault),
    }
}
