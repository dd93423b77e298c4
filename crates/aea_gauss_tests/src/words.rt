//! Packed rows: the XOR of words at each short length, a small reduction, and many rows beside a plain reduction.

ghost use Rattle.std.specs.Prelude.{◌≡◌, ◌<◌, length};

use crate::random::step;
use aea_gauss_words::{eliminate, xor_words};
use std::alloc::{AllocError, Global};
use std::test::Fail;

// The first n words of every two by the generator that begins with the seed.
fn firsts(alloc: Global, n: u32, seed: u64) -> Result<Vec<u64>, AllocError> {
    let mut x = seed;
    let mut first = Vec::new(alloc);
    for _k in 0..n {
        x = step(x);
        first.push(x)?;
        x = step(x);
    }
    Ok(first)
}

// The second ones.
fn seconds(alloc: Global, n: u32, seed: u64) -> Result<Vec<u64>, AllocError> {
    let mut x = seed;
    let mut second = Vec::new(alloc);
    for _k in 0..n {
        x = step(step(x));
        second.push(x)?;
    }
    Ok(second)
}

// Whether these words are the sums of both.
fn are_sums(words: &[u64], seed: u64) -> bool {
    let mut x = seed;
    let mut are_right = true;
    for word in words {
        let a = step(x);
        x = step(a);
        are_right = are_right && *word == a ^ x;
    }
    are_right
}

// Whether the first words and the second ones have their sums.
fn have_sums(first: &mut [u64], second: &[u64], seed: u64) -> bool {
    if first.len() == second.len() {
        xor_words(first, second);
    }
    are_sums(first, seed)
}

// Whether n words and n others by the generator do.
fn are_added(alloc: Global, n: u32, seed: u64) -> bool {
    match firsts(alloc, n, seed) {
        Ok(mut first) => match seconds(alloc, n, seed) {
            Ok(second) => {
                first.len() == n as usize
                    && have_sums(first.as_mut_slice(), second.as_slice(), seed)
            }
            Err(_) => false,
        },
        Err(_) => false,
    }
}

#[test]
fn words_are_added_at_each_length(rt: HostRuntime) {
    let mut seed = 1;
    for n in 0..131 {
        assert!(rt; are_added(rt.alloc(), n, seed), "{n} words");
        // the next words are those after the n first ones and the n second ones
        for _k in 0..n {
            seed = step(step(seed));
        }
    }
}

#[test]
fn three_rows_are_reduced(rt: HostRuntime) -> Result<(), Fail> {
    let mut words = [3, 6, 5];
    eliminate(3, 3, &mut words);
    words.sort_unstable();
    assert!(rt; words == [0, 5, 6]);
    Ok(())
}

// Adds row i to row j.
fn add_plain(words: &mut [u64], i: usize, j: usize)
    requires long { length words.old ≡ 900 }
    requires i { i < 300 }
    requires j { j < 300 }
{
    for w in 0..3 {
        words[3 * j + w] ^= words[3 * i + w];
    }
}

// Whether the row has the column.
fn has(words: &[u64], row: usize, column: usize) -> bool
    requires long { length words.now ≡ 900 }
    requires row { row < 300 }
    requires column { column < 192 }
{
    (words[3 * row + column / 64] >> (column % 64)) & 1 == 1
}

// Reduces 300 rows of three words, column by column.
fn reduce_plain(words: &mut [u64])
    requires { length words.old ≡ 900 }
{
    let mut used = [false; 300];
    for column in 0..192 {
        let chosen = (0..300).find(|row| *row < 300 && !used[*row] && has(words, *row, column));
        if let Some(chosen) = chosen {
            clear_plain(words, chosen, column);
            if chosen < 300 {
                used[chosen] = true;
            }
        }
    }
}

// Adds the row to each other one that has the column.
fn clear_plain(words: &mut [u64], chosen: usize, column: usize)
    requires long { length words.old ≡ 900 }
    requires column { column < 192 }
{
    if 300 <= chosen {
        return;
    }
    for row in 0..300 {
        if row != chosen && has(words, row, column) {
            add_plain(words, chosen, row);
        }
    }
}

// A sum over the rows, in whatever order they come.
fn digest(words: &[u64]) -> u64 {
    let mut sum: u64 = 0;
    for row in words.chunks_exact(3) {
        let mut x = 0;
        for word in row {
            x = step(x ^ *word);
        }
        sum = sum.wrapping_add(x);
    }
    sum
}

// Three hundred rows of three words. Some rows have few columns, and some are the same as others.
fn rows(alloc: Global) -> Result<Vec<u64>, AllocError> {
    let mut x = 3;
    let mut words = Vec::new(alloc);
    for k in 0..900_u64 {
        x = step(x);
        words.push(if k % 7 == 0 { 5 } else { x & step(x) })?;
    }
    Ok(words)
}

// The sum over the rows after a reduction.
fn reduced(alloc: Global) -> Option<u64> {
    match rows(alloc) {
        Ok(mut words) => {
            if words.len() == 900 {
                eliminate(192, 300, words.as_mut_slice());
                Some(digest(words.as_slice()))
            } else {
                None
            }
        }
        Err(_) => None,
    }
}

// The same after a plain one.
fn plainly_reduced(alloc: Global) -> Option<u64> {
    match rows(alloc) {
        Ok(mut words) => {
            if words.len() == 900 {
                reduce_plain(words.as_mut_slice());
                Some(digest(words.as_slice()))
            } else {
                None
            }
        }
        Err(_) => None,
    }
}

#[test]
fn many_rows_are_reduced_as_few(rt: HostRuntime) {
    let sum = reduced(rt.alloc());
    assert!(rt; sum.is_some() && sum == plainly_reduced(rt.alloc()));
}
