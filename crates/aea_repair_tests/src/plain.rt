//! A plain repair of the files of an archive of at most 64 nodes, read whole: the blocks that the others determine are found by
//! an elimination among the sets of nodes whose codewords contain no intact block. A set of nodes is a word, node i its bit
//! i - 1. The archives have blocks of 16 bytes, so cells of 64, on four sites.

use aea_cli::Status;
use aea_disk::Disk;
use aea_lattice::{BlockId, Lattice};
use aea_place::{Spot, home};
use aea_runs::all_bytes;
use aea_test_helpers::{Mask, escapes, file_bytes, masks_of, meets_oddly};
use std::alloc::{AllocError, Global};

/// The bytes of a cell.
pub const CELL: usize = 64;

/// The sites.
pub const SITES: u8 = 4;

// Those of the lost blocks that are in the codeword of none of these sets, in number order.
fn in_no_codeword(
    alloc: Global,
    masks: &[Mask],
    sets: &[u64],
    lost: &[BlockId],
) -> Result<Vec<BlockId>, AllocError> {
    let mut blocks = Vec::new(alloc);
    for mask in masks {
        let mut is_open = false;
        for nodes in sets {
            is_open |= meets_oddly(*nodes, mask.nodes);
        }
        if !is_open && lost.contains(&mask.block) {
            blocks.push(mask.block)?;
        }
    }
    Ok(blocks)
}

// Those of the lost blocks that the others determine, in number order.
fn determined(alloc: Global, lattice: &Lattice, lost: &[BlockId]) -> Option<Vec<BlockId>> {
    if let Ok(masks) = masks_of(alloc, lattice)
        && let Ok(sets) = escapes(alloc, lattice, masks.as_slice(), lost)
    {
        in_no_codeword(alloc, masks.as_slice(), sets.as_slice(), lost).ok()
    } else {
        None
    }
}

// The home of block number k.
fn spot_of(k: u32) -> Spot {
    home(SITES, u64::from(k))
}

// Whether these two files have the same whole cell in this place.
fn has_cell(before: &[u8], after: &[u8], cell: u64) -> bool {
    let first = (cell as usize).saturating_mul(CELL);
    let end = first.saturating_add(CELL);
    before.get(first..end) == after.get(first..end)
}

// The blocks whose cells are not as they were before the damage, in number order.
fn lost_blocks(
    alloc: Global,
    lattice: &Lattice,
    before: &[Vec<u8>],
    after: &[Vec<u8>],
) -> Result<Vec<BlockId>, AllocError> {
    let mut blocks = Vec::new(alloc);
    for k in 0..lattice.blocks() {
        let spot = spot_of(k);
        let site = usize::from(spot.site);
        if let (Some(was), Some(is)) = (before.get(site), after.get(site))
            && !has_cell(was.as_slice(), is.as_slice(), spot.cell)
        {
            blocks.push(lattice.block(k))?;
        }
    }
    Ok(blocks)
}

/// What a damage does: the files then, the blocks that are lost, and those of them that the others determine.
#[derive(Drop)]
pub struct Losses {
    pub files: Vec<Vec<u8>>,
    pub lost: Vec<BlockId>,
    pub restored: Vec<BlockId>,
}

/// The losses of the archive as it is damaged, whose files were these.
pub fn losses_of<D: Disk>(
    alloc: Global,
    disk: &mut D,
    lattice: &Lattice,
    whole: &[Vec<u8>],
) -> Option<Losses> {
    if let Some(files) = all_bytes(alloc, disk)
        && let Ok(lost) = lost_blocks(alloc, lattice, whole, files.as_slice())
        && let Some(restored) = determined(alloc, lattice, lost.as_slice())
    {
        Some(Losses {
            files,
            lost,
            restored,
        })
    } else {
        None
    }
}

/// How a repair of these losses ends.
pub fn status_of(losses: &Losses) -> Status {
    if losses.lost.len() == losses.restored.len() {
        Status::Done
    } else {
        Status::Damage
    }
}

// These bytes, made so long: with zeros where they grow.
fn padded_to(alloc: Global, bytes: &[u8], long: usize) -> Option<Vec<u8>> {
    let mut padded = Vec::from_slice(alloc, bytes).ok()?;
    padded.resize(long, 0).is_ok().then_some(padded)
}

// Adds a cell to a file: as it was before the damage where it is restored, and as it is after it where it is not.
fn add_cell(bytes: &mut Vec<u8>, was: &[u8], is: &[u8], restored: bool) -> Result<(), AllocError> {
    if restored {
        bytes.extend_from_slice(was)
    } else {
        bytes.extend_from_slice(is)
    }
}

// A file of a site in which each cell of these homes is as before, and the other bytes are as after the damage; it has zeros where
// the file grows.
fn repaired_file(
    alloc: Global,
    site: u8,
    before: &[u8],
    after: &[u8],
    homes: &[Spot],
) -> Option<Vec<u8>> {
    let padded = padded_to(alloc, after, before.len())?;
    let mut bytes = Vec::new(alloc);
    let mut end = after.len();
    let mut cell = 0u64;
    for (was, is) in before.chunks(CELL).zip(padded.as_slice().chunks(CELL)) {
        let is_home = homes.contains(&Spot { site, cell });
        add_cell(&mut bytes, was, is, is_home).ok()?;
        if is_home {
            end = end.max(bytes.len());
        }
        cell = cell.wrapping_add(1);
    }
    bytes.truncate(end);
    Some(bytes)
}

// The homes of these blocks.
fn homes_of(alloc: Global, lattice: &Lattice, blocks: &[BlockId]) -> Result<Vec<Spot>, AllocError> {
    let mut homes = Vec::new(alloc);
    for k in 0..lattice.blocks() {
        if blocks.contains(&lattice.block(k)) {
            homes.push(spot_of(k))?;
        }
    }
    Ok(homes)
}

// Whether the file of this number is now the one in which the cells of these homes are restored.
fn is_repaired<D: Disk>(
    alloc: Global,
    disk: &mut D,
    site: u8,
    before: &[u8],
    after: &[u8],
    homes: &[Spot],
) -> bool {
    if let Some(want) = repaired_file(alloc, site, before, after, homes)
        && let Some(found) = file_bytes(alloc, disk, site)
    {
        want.as_slice() == found.as_slice()
    } else {
        false
    }
}

// Whether all files are now those in which the cells of these homes are restored.
fn is_each_repaired<D: Disk>(
    alloc: Global,
    disk: &mut D,
    before: &[Vec<u8>],
    after: &[Vec<u8>],
    homes: &[Spot],
) -> bool {
    let mut is_each = true;
    let mut site = 0u8;
    for (was, is) in before.iter().zip(after) {
        is_each = is_each && is_repaired(alloc, disk, site, was.as_slice(), is.as_slice(), homes);
        site = site.wrapping_add(1);
    }
    is_each
}

/// Whether the files are those of the plain repair of these losses.
pub fn is_restored<D: Disk>(
    alloc: Global,
    disk: &mut D,
    lattice: &Lattice,
    whole: &[Vec<u8>],
    losses: &Losses,
) -> bool {
    let files = losses.files.as_slice();
    match homes_of(alloc, lattice, losses.restored.as_slice()) {
        Ok(homes) => is_each_repaired(alloc, disk, whole, files, homes.as_slice()),
        Err(_) => false,
    }
}
