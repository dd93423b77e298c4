//! Damage to the files of an archive: bytes that are flipped, and files that are cut.

use aea_disk::{Disk, DiskFault};
use aea_lattice::Shape;
use aea_place::home;

/// Flips all bits of a byte of a file. Returns whether the file has one at this place, at most 2^40.
pub fn spoil<D: Disk>(disk: &mut D, file: u8, at: u64) -> Result<bool, DiskFault> {
    if 66 < file || 1 << 40 < at {
        return Ok(false);
    }
    let mut byte = [0u8; 1];
    if disk.read(file, at, &mut byte)? != 1 {
        return Ok(false);
    }
    disk.write(file, at, &[byte[0] ^ 255])?;
    Ok(true)
}

/// Flips a byte, at this place, of the cell of the block of this number, where there are so many sites and cells have so many bytes.
/// Returns whether the file of its site has the byte.
pub fn spoil_cell<D: Disk>(
    disk: &mut D,
    sites: u8,
    size: u64,
    number: u32,
    at: u64,
) -> Result<bool, DiskFault> {
    if sites == 0 || 64 < sites {
        return Ok(false);
    }
    let spot = home(sites, u64::from(number));
    let first = spot.cell.saturating_mul(size);
    spoil(disk, spot.site, first.saturating_add(at))
}

/// Flips the first payload byte of the block of this number in an archive of the shape. Returns whether the file of its site has the
/// byte.
pub fn spoil_block<D: Disk>(disk: &mut D, shape: &Shape, number: u32) -> Result<bool, DiskFault> {
    let size = u64::from(shape.block()).saturating_add(48);
    spoil_cell(disk, shape.sites(), size, number, 16)
}

/// Cuts a file to this length, at most 2^40 bytes. Returns whether the file is as long.
pub fn shorten<D: Disk>(disk: &mut D, file: u8, to: u64) -> Result<bool, DiskFault> {
    if 66 < file || 1 << 40 < to {
        return Ok(false);
    }
    let long = disk.len(file)?;
    if to < long {
        disk.cut(file, to)?;
    }
    Ok(to <= long)
}
