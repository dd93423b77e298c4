//! A worked example of damage, and bytes of objects.

use std::alloc::{AllocError, Global};

/// The numbers of nineteen blocks of AE(2,2,2) with eleven nodes, of which no equation has just one: the other blocks determine
/// three of them, and the sixteen are in two codewords.
pub const NINETEEN: [u32; 19] = [
    0, 6, 9, 12, 15, 21, 24, 27, 30, 1, 7, 10, 22, 25, 2, 8, 14, 23, 29,
];

/// The lines of their report from the fourth on.
pub const TWO_CODEWORDS: &str = "counts 19 0 3 16\n\
    lost d1 by 1 3 4 6\nlost h1 by 1 3 4 6\nlost r1 by 1 3 4 6\nlost d3 by 1 3 4 6\nsolved h3\n\
    lost r3 by 1 3 4 6\nlost d4 by 1 3 4 6\nlost h4 by 1 3 4 6\nsolved d5\nsolved r5\n\
    lost d6 by 1 3 4 6\nlost d8 by 8 9 10 11\nlost h8 by 8 9 10 11\nlost r8 by 8 9 10 11\n\
    lost d9 by 8 9 10 11\nlost h9 by 8 9 10 11\nlost d10 by 8 9 10 11\nlost r10 by 8 9 10 11\n\
    lost d11 by 8 9 10 11\n";

/// So many bytes, the first of which is this, modulo 251, and each other one 7 past the one before it. An error is lack of memory.
pub fn some_bytes(alloc: Global, count: u32, first: u32) -> Result<Vec<u8>, AllocError> {
    let mut bytes = Vec::new(alloc);
    for k in 0..count {
        bytes.push((k.wrapping_mul(7).wrapping_add(first) % 251) as u8)?;
    }
    Ok(bytes)
}
