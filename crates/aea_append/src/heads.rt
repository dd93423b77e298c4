//! Heads that are loaded from the last parities, for nodes that are woven after those of an archive.

ghost use Rattle.std.specs.Prelude.{◌≡◌, ◌⊎◌, [], List, ℕ, length, IfOk, OnOk, IsOk, IsSome};
ghost use Rattle.aea_faults.specs.Faults.{Rose};
ghost use Rattle.aea_lattice.specs.declared.blocks.BlockId.{BlockId};
ghost use Rattle.aea_lattice.specs.Data.{IsDataList};
ghost use Rattle.aea_disk.specs.State.{HasEarlier};
ghost use Rattle.aea_disk.specs.Frames.{OnlyReads};
ghost use Rattle.aea_shelf.specs.Places.{cell_size};
ghost use Rattle.aea_archive.specs.Lasts.{IsLastParity, IsDamagedLast, IsFirstDamagedLast, AreLastsIntact, AreLastsHonest};
ghost use Rattle.aea_append.specs.Weaving.{HasWoven, IsWovenOf};
ghost use Rattle.aea_append.specs.Keeping.{HasKeptHeads};

use crate::load::load_strands;
use aea_archive::{cell_buffer, lasts_are_values};
use aea_disk::Disk;
use aea_envelope::{cells_have_lengths, cells_have_parts};
use aea_lattice::BlockId;
use aea_ledger::Ledger;
use aea_weave::{Heads, last_parities_are_sums};
use std::alloc::Global;

/// Why heads were not loaded.
#[derive(Clone, Copy, Debug, PartialEq, Eq)]
pub enum HeadFault {
    /// The last parity of a strand is damaged: the one with the least number.
    HeadDamaged { block: BlockId },
    /// The disk failed. It has counted it.
    DiskFault,
    /// There was no memory. Nothing was read.
    NoMemory,
}

/// Heads for the node that is woven next, loaded from the last parities through this buffer of a cell. It takes memory for the
/// heads, before it reads.
pub(crate) fn ready_heads<D: Disk>(
    alloc: Global,
    disk: &mut D,
    ledger: &Ledger,
    cell: &mut [u8],
) -> Result<Heads, HeadFault>
    requires buffer { length cell.old ≡ cell_size ledger.now.shape }
    ensures woven { IfOk result (λ heads. HasWoven D.reveals ledger.now.shape ledger.now.lattice ledger.now.digests (D.state disk.old).files (D.state disk.new).files heads [] []) }
    ensures lattice { IfOk result (λ heads. heads.lattice ≡ ledger.now.lattice) }
    ensures size { IfOk result (λ heads. heads.size ≡ ledger.now.shape.block) }
    ensures intact { OnOk result (D.reveals → AreLastsIntact ledger.now.shape ledger.now.lattice ledger.now.digests (D.state disk.old).files) }
    ensures head { (b : BlockId) → result ≡ Err (HeadFault.HeadDamaged b) → IsLastParity ledger.now.lattice b × (D.reveals → IsFirstDamagedLast ledger.now.shape ledger.now.lattice ledger.now.digests (D.state disk.old).files b) }
    ensures memory { result ≡ Err HeadFault.NoMemory → disk.new ≡ disk.old }
    ensures earlier { HasEarlier (D.state disk.old) (D.state disk.new) }
    ensures reads { OnlyReads D.reveals (result ≡ Err HeadFault.DiskFault) (D.state disk.old) (D.state disk.new) }
{
    let size = ledger.shape().block() as usize;
    let mut heads = match Heads::new(alloc, &ledger.lattice(), size) {
        Ok(heads) => heads,
        Err(_) => return Err(HeadFault::NoMemory),
    };
    match load_strands(disk, ledger, &mut heads, cell) {
        Ok(None) => Ok(heads),
        Ok(Some(block)) => Err(HeadFault::HeadDamaged { block }),
        Err(_) => Err(HeadFault::DiskFault),
    }
}

/// The heads that were kept, where there are any: nothing is read then, and no memory is taken. Else they are loaded.
pub(crate) fn next_heads<D: Disk>(
    alloc: Global,
    disk: &mut D,
    ledger: &Ledger,
    kept: Option<Heads>,
    cell: &mut [u8],
) -> Result<Heads, HeadFault>
    requires kept { HasKeptHeads D.reveals ledger.now (D.state disk.old).files kept }
    requires buffer { length cell.old ≡ cell_size ledger.now.shape }
    ensures woven { IfOk result (λ heads. HasWoven D.reveals ledger.now.shape ledger.now.lattice ledger.now.digests (D.state disk.old).files (D.state disk.new).files heads [] []) }
    ensures lattice { IfOk result (λ heads. heads.lattice ≡ ledger.now.lattice) }
    ensures size { IfOk result (λ heads. heads.size ≡ ledger.now.shape.block) }
    ensures intact { OnOk result (D.reveals → AreLastsIntact ledger.now.shape ledger.now.lattice ledger.now.digests (D.state disk.old).files) }
    ensures head { (b : BlockId) → result ≡ Err (HeadFault.HeadDamaged b) → IsLastParity ledger.now.lattice b × (D.reveals → IsFirstDamagedLast ledger.now.shape ledger.now.lattice ledger.now.digests (D.state disk.old).files b) }
    ensures memory { result ≡ Err HeadFault.NoMemory → disk.new ≡ disk.old }
    ensures earlier { HasEarlier (D.state disk.old) (D.state disk.new) }
    ensures reads { OnlyReads D.reveals (result ≡ Err HeadFault.DiskFault) (D.state disk.old) (D.state disk.new) }
    ensures unread { IsSome kept → IsOk result × (disk.new ≡ disk.old) }
{
    cells_have_lengths();
    cells_have_parts();
    match kept {
        Some(heads) => Ok(heads),
        None => ready_heads(alloc, disk, ledger, cell),
    }
}

/// Loads the heads of all strands from the homes of the last parities, each of which has to be intact: the heads by which the
/// next node of the archive is woven. It takes memory for them, a block for each strand, and for one cell, B + 48 bytes; both
/// before the first read. Nothing is written.
pub fn load_heads<D: Disk>(alloc: Global, ledger: &Ledger, disk: &mut D) -> Result<Heads, HeadFault>
    ensures lattice { IfOk result (λ heads. heads.lattice ≡ ledger.now.lattice) }
    ensures size { IfOk result (λ heads. heads.size ≡ ledger.now.shape.block) }

    // They go on from the last parities; of each data list for which these are honest they are the strand sums.
    ensures woven { IfOk result (λ heads. HasWoven D.reveals ledger.now.shape ledger.now.lattice ledger.now.digests (D.state disk.old).files (D.state disk.new).files heads [] []) }
    ensures values { IfOk result (λ heads. D.reveals → (datas : List (List ℕ)) → IsDataList ledger.now.lattice ledger.now.shape.block datas
        → AreLastsHonest ledger.now.shape ledger.now.lattice ledger.now.digests datas (D.state disk.old).files
        → IsWovenOf ledger.now.shape ledger.now.lattice heads datas [] []) }
    ensures intact { OnOk result (D.reveals → AreLastsIntact ledger.now.shape ledger.now.lattice ledger.now.digests (D.state disk.old).files) }

    // A last parity that is damaged.
    ensures head { (b : BlockId) → result ≡ Err (HeadFault.HeadDamaged b) → IsLastParity ledger.now.lattice b × (D.reveals → IsFirstDamagedLast ledger.now.shape ledger.now.lattice ledger.now.digests (D.state disk.old).files b) }
    ensures head_refused { D.reveals → (a : BlockId) → IsDamagedLast ledger.now.shape ledger.now.lattice ledger.now.digests (D.state disk.old).files a
        → ((b : BlockId) × (result ≡ Err (HeadFault.HeadDamaged b))) ⊎ ((result ≡ Err HeadFault.DiskFault) ⊎ (result ≡ Err HeadFault.NoMemory)) }
    ensures complete { D.reveals → AreLastsIntact ledger.now.shape ledger.now.lattice ledger.now.digests (D.state disk.old).files → (Rose (D.state disk.old).faults (D.state disk.new).faults → ⊥)
        → IsOk result ⊎ (result ≡ Err HeadFault.NoMemory) }

    // The disk is only read, and not at all where there is no memory.
    ensures memory { result ≡ Err HeadFault.NoMemory → disk.new ≡ disk.old }
    ensures earlier { HasEarlier (D.state disk.old) (D.state disk.new) }
    ensures reads { OnlyReads D.reveals (result ≡ Err HeadFault.DiskFault) (D.state disk.old) (D.state disk.new) }
{
    lasts_are_values();
    last_parities_are_sums();
    let Ok(mut cell) = cell_buffer(alloc, ledger) else {
        return Err(HeadFault::NoMemory);
    };
    ready_heads(alloc, disk, ledger, cell.as_mut_slice())
}
