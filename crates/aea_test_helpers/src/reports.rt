//! The texts of reports, spelled by hand.

use crate::files::file_bytes;
use aea_disk::Disk;
use sha2::{Digest, Sha256};
use std::alloc::{AllocError, Global};

/// The digits of a digest.
pub fn digits_of(alloc: Global, digest: &[u8; 32]) -> Result<String, AllocError> {
    let mut text = String::new(alloc);
    for byte in digest {
        write!(text, "{byte:02x}")?;
    }
    Ok(text)
}

/// The report of this archive, of a lattice with these numbers, whose lines from the fourth on are these. The seal is the digest
/// of all bytes of the ledger but the gate that ends it, which is its last byte. None where the disk fails or memory runs out.
pub fn report_of<D: Disk>(
    alloc: Global,
    disk: &mut D,
    numbers: &str,
    lines: &str,
) -> Option<String> {
    let mut bytes = file_bytes(alloc, disk, 0)?;
    let _gate = bytes.pop();
    let seal = digits_of(alloc, &Sha256::digest(bytes.as_slice())).ok()?;
    format!(in alloc; "aea-report 1\nlattice {numbers}\nledger {seal}\n{lines}").ok()
}
