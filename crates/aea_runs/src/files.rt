//! The bytes of the files of an archive, before a run and after it.

use aea_disk::Disk;
use aea_test_helpers::file_bytes;
use std::alloc::Global;

/// The bytes of the ledger and of four sites. None where the disk fails or memory runs out.
pub fn all_bytes<D: Disk>(alloc: Global, disk: &mut D) -> Option<Vec<Vec<u8>>> {
    let mut files = Vec::new(alloc);
    for file in 0..5u8 {
        files.push(file_bytes(alloc, disk, file)?).ok()?;
    }
    Some(files)
}

/// Whether the ledger and four sites have these bytes. No also where the disk fails or memory runs out.
pub fn has_bytes<D: Disk>(alloc: Global, disk: &mut D, files: &[Vec<u8>]) -> bool {
    for (file, bytes) in files.iter().enumerate() {
        let found = file_bytes(alloc, disk, file.min(64) as u8);
        if !found.is_some_and(|found| found.as_slice() == bytes.as_slice()) {
            return false;
        }
    }
    true
}
