//! Bytes that are added to others.

use aea_weave::xor_into;
use std::alloc::{AllocError, Global};

// The byte at place k of the n bytes that others are added to, and the one of those others.
fn pair(n: u8, k: u8) -> (u8, u8) {
    (k.wrapping_mul(29).wrapping_add(n), k.wrapping_mul(83) ^ 90)
}

// The n bytes that the others are added to.
fn firsts(alloc: Global, n: u8) -> Result<Vec<u8>, AllocError> {
    (0..n).map(|k| pair(n, k).0).collect(alloc)
}

// The n bytes that are added to the first ones.
fn seconds(alloc: Global, n: u8) -> Result<Vec<u8>, AllocError> {
    (0..n).map(|k| pair(n, k).1).collect(alloc)
}

// The n sums.
fn sums(alloc: Global, n: u8) -> Result<Vec<u8>, AllocError> {
    (0..n).map(|k| pair(n, k).0 ^ pair(n, k).1).collect(alloc)
}

// Whether n bytes and n others have their sums.
fn are_added(alloc: Global, n: u8) -> Result<bool, AllocError> {
    let second = seconds(alloc, n)?;
    let mut first = firsts(alloc, n)?;
    if first.len() == second.len() {
        xor_into(first.as_mut_slice(), second.as_slice());
    }
    let want = sums(alloc, n)?;
    Ok(want.len() == usize::from(n) && first.as_slice() == want.as_slice())
}

#[test]
fn bytes_are_added_at_each_length(rt: HostRuntime) {
    for n in 0..131_u8 {
        assert!(rt; are_added(rt.alloc(), n).is_ok_and(|are| are), "{n} bytes");
    }
}
