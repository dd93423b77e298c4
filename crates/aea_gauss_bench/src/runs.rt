//! The XOR of words and of bytes, again and again.

use crate::rows::step;
use aea_gauss_words::xor_words;
use aea_weave::xor_into;
use std::alloc::{AllocError, Global};

// Random words, from a seed.
fn words_from(alloc: Global, count: u32, seed: u64) -> Result<Vec<u64>, AllocError> {
    let mut words = Vec::new(alloc);
    let mut x = seed;
    for _at in 0..count {
        x = step(x);
        words.push(x)?;
    }
    Ok(words)
}

/// Adds words so many times, and gives the sum of all.
pub fn words_line(alloc: Global, count: u32, rounds: u32) -> Result<String, AllocError> {
    let mut first = words_from(alloc, count, 1)?;
    let mut second = words_from(alloc, count, 2)?;
    if first.len() == second.len() {
        for _round in 0..rounds / 2 {
            xor_words(first.as_mut_slice(), second.as_slice());
            xor_words(second.as_mut_slice(), first.as_slice());
        }
    }
    let mut sum: u64 = 0;
    for word in first.as_slice() {
        sum = sum.wrapping_mul(31).wrapping_add(*word);
    }
    format!(in alloc; "{sum}")
}

// Random bytes, from a seed.
fn bytes_from(alloc: Global, count: u32, seed: u64) -> Result<Vec<u8>, AllocError> {
    let mut bytes = Vec::new(alloc);
    let mut x = seed;
    for _at in 0..count {
        x = step(x);
        bytes.push((x >> 56) as u8)?;
    }
    Ok(bytes)
}

/// Adds bytes so many times, and gives the sum of all.
pub fn bytes_line(alloc: Global, count: u32, rounds: u32) -> Result<String, AllocError> {
    let mut first = bytes_from(alloc, count, 1)?;
    let mut second = bytes_from(alloc, count, 2)?;
    if first.len() == second.len() {
        for _round in 0..rounds / 2 {
            xor_into(first.as_mut_slice(), second.as_slice());
            xor_into(second.as_mut_slice(), first.as_slice());
        }
    }
    let mut sum: u64 = 0;
    for byte in first.as_slice() {
        sum = sum.wrapping_mul(31).wrapping_add(u64::from(*byte));
    }
    format!(in alloc; "{sum}")
}
