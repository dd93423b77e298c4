ghost use Rattle.std.specs.Prelude.{◌≡◌, ◌≢◌, ℕ, ◌+◌, ◌*◌, ◌/◌, ◌<◌, ◌≤◌, ◌^◌, false, length, MatchOption};
ghost use Rattle.aea_gauss_words.specs.Words.{words_for, is_bit, bit_matrix, IsPadded, Apart, Adds};
ghost use Rattle.aea_gauss_words.specs.Matrices.{IsLead, IsCleared, IsClearedOne, IsReduction, SameSums, ReducedTo};

use crate::by_tables::reduce_by_tables;
use std::simd::prelude::*;

// From so many rows on tables are worth their time.
const MANY: usize = 256;

// Adds by XOR the eight words from `from + at` on to those from `into + at` on.
fn add_lanes(words: &mut [u64], from: usize, into: usize, at: usize)
    requires from { from + at + 8 ≤ length words.old }
    requires into { into + at + 8 ≤ length words.old }
    ensures { Adds (from + at) (into + at) 8 words.old words.new }
{
    let sum = u64x8::from_slice(&words[into + at..]) ^ u64x8::from_slice(&words[from + at..]);
    sum.copy_to_slice(&mut words[into + at..]);
}

// Adds as many eights of words as a row of so many words has.
fn add_eights(words: &mut [u64], from: usize, into: usize, wide: usize)
    requires from { from + wide ≤ length words.old }
    requires into { into + wide ≤ length words.old }
    requires apart { Apart from into wide }
    ensures { Adds from into (wide / 8 * 8) words.old words.new }
{
    for eight in 0..wide / 8 {
        add_lanes(words, from, into, eight * 8);
    }
}

// Adds by XOR the row that begins at `from` to that which begins at `into`.
fn add_row(words: &mut [u64], from: usize, into: usize, wide: usize)
    requires from { from + wide ≤ length words.old }
    requires into { into + wide ≤ length words.old }
    requires apart { Apart from into wide }
    ensures { Adds from into wide words.old words.new }
{
    add_eights(words, from, into, wide);
    for at in wide / 8 * 8..wide {
        words[into + at] ^= words[from + at];
    }
}

/// Whether the packed row that begins at the word `start` has the column, counted from 0.
pub fn has(words: &[u64], start: usize, column: usize) -> bool
    requires { start + column / 64 < length words.now }
    ensures { result ≡ is_bit words.now start column }
{
    (words[start + column / 64] >> (column % 64)) & 1 == 1
}

/// The least column of the packed row of `wide` words that begins at the word `start`, if it has one.
pub fn lead(words: &[u64], start: usize, wide: usize) -> Option<usize>
    requires inside { start + wide ≤ length words.now }
    requires short { 64 * wide < 2 ^ 63 }
    ensures { MatchOption result ((k : ℕ) → k < 64 * wide → is_bit words.now start k ≡ false)
        (λ c. IsLead (64 * wide) (is_bit words.now start) c) }
{
    for at in 0..wide {
        let word = words[start + at];
        if word != 0 {
            return Some(64 * at + word.trailing_zeros() as usize);
        }
    }
    None
}

// Adds the row to the other one, if the other has the column and is another.
fn clear_one(words: &mut [u64], rows: usize, wide: usize, row: usize, other: usize, column: usize)
    requires long { length words.old ≡ rows * wide }
    requires row { row < rows }
    requires other { other < rows }
    requires column { column < 64 * wide }
    ensures long { length words.new ≡ length words.old }
    ensures cleared { IsClearedOne rows (64 * wide) (bit_matrix wide words.old) (bit_matrix wide words.new) row column other }
{
    if other != row && has(words, other * wide, column) {
        add_row(words, row * wide, other * wide, wide);
    }
}

// Adds the row to each other row that has the column.
fn clear(words: &mut [u64], rows: usize, wide: usize, row: usize, column: usize)
    requires long { length words.old ≡ rows * wide }
    requires row { row < rows }
    requires column { column < 64 * wide }
    ensures long { length words.new ≡ length words.old }
    ensures cleared { IsCleared rows (64 * wide) (bit_matrix wide words.old) (bit_matrix wide words.new) row column }
{
    for other in 0..rows {
        clear_one(words, rows, wide, row, other, column);
    }
}

// Adds the row to each other row that has its least column.
pub(crate) fn reduce_row(words: &mut [u64], rows: usize, wide: usize, row: usize)
    requires long { length words.old ≡ rows * wide }
    requires row { row < rows }
    requires short { 64 * wide < 2 ^ 63 }
    ensures long { length words.new ≡ length words.old }
    ensures sums { SameSums rows (64 * wide) (bit_matrix wide words.old) (bit_matrix wide words.new) }
    ensures reduced { ReducedTo row rows (64 * wide) (bit_matrix wide words.old) → ReducedTo (row + 1) rows (64 * wide) (bit_matrix wide words.new) }
{
    match lead(words, row * wide, wide) {
        None => {}
        Some(column) => clear(words, rows, wide, row, column),
    }
}

// Reduces the rows over all columns of their words.
pub(crate) fn reduce(words: &mut [u64], rows: usize, wide: usize)
    requires long { length words.old ≡ rows * wide }
    requires short { 64 * wide < 2 ^ 63 }
    ensures long { length words.new ≡ length words.old }
    ensures reduction { IsReduction rows (64 * wide) (bit_matrix wide words.old) (bit_matrix wide words.new) }
{
    for row in 0..rows {
        reduce_row(words, rows, wide, row);
    }
}

// Reduces the rows over all columns of their words: few of them row by row.
fn reduce_all(words: &mut [u64], rows: usize, wide: usize)
    requires long { length words.old ≡ rows * wide }
    requires few { rows < 2 ^ 32 }
    requires wide { wide < 2 ^ 32 }
    ensures { IsReduction rows (64 * wide) (bit_matrix wide words.old) (bit_matrix wide words.new) }
{
    if rows < MANY {
        reduce(words, rows, wide);
    } else {
        reduce_by_tables(words, rows, wide);
    }
}

/// Reduces packed rows: the XORs of sets of rows stay the same, and the least column of each row is in no other row.
/// A row has as many words of 64 columns as it needs. By Gauss and Jordan: few rows one by one, and many in groups of
/// thirty-two, which tables of their sums add to the others at once.
pub fn eliminate(cols: u32, rows: u32, words: &mut [u64])
    requires some { 1 ≤ cols }
    requires long { length words.old ≡ rows * words_for cols }
    requires padded { IsPadded cols rows words.old }
    ensures long { length words.new ≡ length words.old }
    ensures padded { IsPadded cols rows words.new }
    ensures reduction { IsReduction rows cols (bit_matrix (words_for cols) words.old) (bit_matrix (words_for cols) words.new) }
{
    let wide = (cols as usize + 63) / 64;
    reduce_all(words, rows as usize, wide);
}
