//! Bytes that are put together of parts. Where memory runs out the answer is none or no, here and in the whole crate.

use sha2::{Digest, Sha256};
use std::alloc::Global;

/// Adds these parts to some bytes, one after the other.
pub fn add(bytes: &mut Vec<u8>, parts: &[&[u8]]) -> bool {
    let mut are_added = true;
    for part in parts {
        are_added = are_added && bytes.extend_from_slice(part).is_ok();
    }
    are_added
}

/// These parts, one after the other.
pub fn joined(alloc: Global, parts: &[&[u8]]) -> Option<Vec<u8>> {
    let mut bytes = Vec::new(alloc);
    add(&mut bytes, parts).then_some(bytes)
}

/// The SHA-256 of these parts, one after the other.
pub fn digest_of_parts(alloc: Global, parts: &[&[u8]]) -> Option<[u8; 32]> {
    match joined(alloc, parts) {
        Some(bytes) => Some(Sha256::digest(bytes.as_slice())),
        None => None,
    }
}
