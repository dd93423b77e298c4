//! Random rows.

ghost use Rattle.std.specs.Prelude.{◌≤◌};

use aea_gauss_words::eliminate;
use std::alloc::{AllocError, Global};

/// One step of the linear congruential generator of Knuth's MMIX.
pub fn step(x: u64) -> u64 {
    x.wrapping_mul(6_364_136_223_846_793_005)
        .wrapping_add(1_442_695_040_888_963_407)
}

// A random word: the high halves of two steps.
fn random(x: &mut u64) -> u64 {
    *x = step(*x);
    let high = *x >> 32;
    *x = step(*x);
    (high << 32) | (*x >> 32)
}

// Random rows of so many words each.
fn random_rows(alloc: Global, rows: u32, wide: u32) -> Result<Vec<u64>, AllocError> {
    let mut words = Vec::with_capacity(alloc, rows as usize * wide as usize)?;
    let mut x = 1;
    for _row in 0..rows {
        for _at in 0..wide {
            words.push(random(&mut x))?;
        }
    }
    Ok(words)
}

// A number of a row that tells rows apart, except by coincidence.
fn row_digest(row: &[u64]) -> u64 {
    let mut digest = 0;
    for word in row {
        digest = step(digest ^ *word);
    }
    digest
}

// The sum of the rows' numbers, in whatever order the rows come; rows without columns are left out.
fn digest(words: &[u64], wide: usize) -> u64
    requires { 1 ≤ wide }
{
    let mut sum: u64 = 0;
    for row in words.chunks_exact(wide) {
        if row.iter().any(|word| *word != 0) {
            sum = sum.wrapping_add(row_digest(row));
        }
    }
    sum
}

/// Fills random rows, of a multiple of 64 columns, reduces them where it is asked, and gives their digest.
pub fn line(alloc: Global, rows: u32, cols: u32, reduces: bool) -> Result<String, AllocError> {
    let wide = cols / 64;
    if wide == 0 || 65_536 < rows || 65_536 < cols {
        return String::from_str(alloc, "too few or too many");
    }
    let mut words = random_rows(alloc, rows, wide)?;
    if reduces && words.len() == rows as usize * wide as usize {
        eliminate(wide * 64, rows, words.as_mut_slice());
    }
    let digest = digest(words.as_slice(), wide as usize);
    format!(in alloc; "{digest}")
}
