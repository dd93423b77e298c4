//! An archive of one object whose bytes are more than a page of the output.

use crate::{run_over, run_put};
use aea_disk::SureDisk;
use std::alloc::{AllocError, Global};

/// The bytes of a page of the output.
pub const PAGE: usize = 65_536;

/// An archive of AE(1,1,0) with blocks of 4,096 bytes on one site, and in it the object `pages` of these bytes, at most four pages.
pub fn archive_of_pages(alloc: Global, bytes: &[u8]) -> Result<SureDisk, AllocError> {
    let mut disk = SureDisk::new(alloc, 1, 8192, 1 << 19)?;
    let _made = run_over(alloc, "create 1 1 0 4096 1", &mut disk, 99)?;
    let _stored = run_put(alloc, &mut disk, "pages", bytes)?;
    Ok(disk)
}

/// The bytes of such an object: three pages and 7 bytes, so 49 blocks.
pub fn bytes_of_pages(alloc: Global) -> Result<Vec<u8>, AllocError> {
    let mut bytes = Vec::new(alloc);
    for k in 0..3 * PAGE + 7 {
        bytes.push((k % 251) as u8)?;
    }
    Ok(bytes)
}
