//! The bytes of a file, read and written as a whole.

use crate::damage::shorten;
use aea_disk::{Disk, DiskFault};
use std::alloc::Global;

/// The bytes of a file, but none past the first 16,777,216. None where the disk fails or memory runs out.
pub fn file_bytes<D: Disk>(alloc: Global, disk: &mut D, file: u8) -> Option<Vec<u8>> {
    let file = file.min(66);
    let long = disk.len(file).ok()?.min(1 << 24) as usize;
    let mut bytes = vec![in alloc; 0; long].ok()?;
    let count = disk.read(file, 0, bytes.as_mut_slice()).ok()?;
    bytes.truncate(count);
    Some(bytes)
}

/// Makes these the bytes of a file. No disk here has space for more than 16,777,216.
pub fn fill_file<D: Disk>(disk: &mut D, file: u8, bytes: &[u8]) -> Result<(), DiskFault> {
    if 66 < file || 1 << 24 < bytes.len() {
        return Err(DiskFault);
    }
    shorten(disk, file, 0)?;
    disk.write(file, 0, bytes)
}

/// Whether a file has exactly these bytes, fewer than 256.
pub fn has_file<D: Disk>(disk: &mut D, file: u8, want: &[u8]) -> Result<bool, DiskFault> {
    let mut bytes = [9u8; 256];
    let count = disk.read(file.min(66), 0, &mut bytes)?;
    Ok(count == want.len() && bytes.starts_with(want))
}
