//! The lines of clashes, spelled by hand.

use aea_test_helpers::digits_of;
use sha2::{Digest, Sha256};
use std::alloc::{AllocError, Global};

/// The place in the ledger of the first digest of an archive's first object, where its name is of one byte.
pub const FIRST_DIGEST: u64 = 74;

/// The cell of a block of this node with this payload: class 0 is of a datum, and class 1 of a horizontal parity.
pub fn cell_of(alloc: Global, class: u8, node: u64, payload: &[u8]) -> Result<Vec<u8>, AllocError> {
    let mut cell = Vec::from_slice(alloc, b"AEB1")?;
    cell.push(class)?;
    cell.extend_from_slice(&[0; 3])?;
    cell.extend_from_slice(&node.to_be_bytes())?;
    cell.extend_from_slice(payload)?;
    let digest = Sha256::digest(cell.as_slice());
    cell.extend_from_slice(&digest)?;
    Ok(cell)
}

/// The digest of that cell, which is its end.
pub fn digest_of(
    alloc: Global,
    class: u8,
    node: u64,
    payload: &[u8],
) -> Result<[u8; 32], AllocError> {
    let mut cell = cell_of(alloc, class, node, payload)?;
    cell.truncate(cell.len().saturating_sub(32));
    Ok(Sha256::digest(cell.as_slice()))
}

/// The line of a clash.
pub fn clash_line(
    alloc: Global,
    block: &str,
    recorded: &[u8; 32],
    computed: &[u8; 32],
) -> Result<String, AllocError> {
    let revealed = digits_of(alloc, recorded)?;
    let found = digits_of(alloc, computed)?;
    format!(in alloc; "clash {block} recorded {revealed} computed {found}\n")
}
