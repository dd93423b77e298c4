ghost use Rattle.std.specs.Prelude.{◌+◌, ◌*◌, ◌/◌, ◌≤◌, ◌^◌, length, get_or, bit_xor};
ghost use Rattle.aea_gauss_words.specs.Tables.{Sets};

use std::simd::prelude::*;

// Puts eight words from `into` on: the XOR of those from `from` on with those of the rows from `begin` on.
fn sum_lanes(table: &mut [u64], from: usize, into: usize, words: &[u64], begin: usize)
    requires from { from + 8 ≤ length table.old }
    requires into { into + 8 ≤ length table.old }
    requires begin { begin + 8 ≤ length words.now }
    ensures { Sets into 8 (λ k. bit_xor (get_or table.old (from + k) 0) (get_or words.now (begin + k) 0)) table.old table.new }
{
    let sum = u64x8::from_slice(&table[from..]) ^ u64x8::from_slice(&words[begin..]);
    sum.copy_to_slice(&mut table[into..]);
}

// Puts as many eights of words as so many words have.
fn sum_eights(table: &mut [u64], from: usize, into: usize, words: &[u64], begin: usize, len: usize)
    requires apart { from + len ≤ into }
    requires into { into + len ≤ length table.old }
    requires begin { begin + len ≤ length words.now }
    ensures { Sets into (len / 8 * 8) (λ k. bit_xor (get_or table.old (from + k) 0) (get_or words.now (begin + k) 0)) table.old table.new }
{
    for eight in 0..len / 8 {
        let at = eight * 8;
        sum_lanes(table, from + at, into + at, words, begin + at);
    }
}

// Puts so many words from `into` on: the XOR of those from `from` on with those of the rows from `begin` on.
pub(crate) fn sum_entry(
    table: &mut [u64],
    from: usize,
    into: usize,
    words: &[u64],
    begin: usize,
    len: usize,
)
    requires apart { from + len ≤ into }
    requires into { into + len ≤ length table.old }
    requires begin { begin + len ≤ length words.now }
    ensures { Sets into len (λ k. bit_xor (get_or table.old (from + k) 0) (get_or words.now (begin + k) 0)) table.old table.new }
{
    sum_eights(table, from, into, words, begin, len);
    for k in len / 8 * 8..len {
        table[into + k] = table[from + k] ^ words[begin + k];
    }
}

// Adds to eight words from `into` on those of the four entries.
fn four_lanes(
    words: &mut [u64],
    into: usize,
    table: &[u64],
    first: usize,
    second: usize,
    third: usize,
    fourth: usize,
)
    requires into { into + 8 ≤ length words.old }
    requires first { first + 8 ≤ length table.now }
    requires second { second + 8 ≤ length table.now }
    requires third { third + 8 ≤ length table.now }
    requires fourth { fourth + 8 ≤ length table.now }
    ensures { Sets into 8 (λ k. bit_xor (get_or words.old (into + k) 0)
        (bit_xor (bit_xor (get_or table.now (first + k) 0) (get_or table.now (second + k) 0))
        (bit_xor (get_or table.now (third + k) 0) (get_or table.now (fourth + k) 0)))) words.old words.new }
{
    let low = u64x8::from_slice(&table[first..]) ^ u64x8::from_slice(&table[second..]);
    let high = u64x8::from_slice(&table[third..]) ^ u64x8::from_slice(&table[fourth..]);
    let sum = u64x8::from_slice(&words[into..]) ^ (low ^ high);
    sum.copy_to_slice(&mut words[into..]);
}

// Adds to as many eights of words as so many have those of the four entries.
fn four_eights(
    words: &mut [u64],
    into: usize,
    table: &[u64],
    first: usize,
    second: usize,
    third: usize,
    fourth: usize,
    len: usize,
)
    requires into { into + len ≤ length words.old }
    requires first { first + len ≤ length table.now }
    requires second { second + len ≤ length table.now }
    requires third { third + len ≤ length table.now }
    requires fourth { fourth + len ≤ length table.now }
    ensures { Sets into (len / 8 * 8) (λ k. bit_xor (get_or words.old (into + k) 0)
        (bit_xor (bit_xor (get_or table.now (first + k) 0) (get_or table.now (second + k) 0))
        (bit_xor (get_or table.now (third + k) 0) (get_or table.now (fourth + k) 0)))) words.old words.new }
{
    for eight in 0..len / 8 {
        let at = eight * 8;
        four_lanes(
            words,
            into + at,
            table,
            first + at,
            second + at,
            third + at,
            fourth + at,
        );
    }
}

// Adds to so many words from `into` on those of the four entries.
pub(crate) fn add_four(
    words: &mut [u64],
    into: usize,
    table: &[u64],
    first: usize,
    second: usize,
    third: usize,
    fourth: usize,
    len: usize,
)
    requires into { into + len ≤ length words.old }
    requires first { first + len ≤ length table.now }
    requires second { second + len ≤ length table.now }
    requires third { third + len ≤ length table.now }
    requires fourth { fourth + len ≤ length table.now }
    ensures { Sets into len (λ k. bit_xor (get_or words.old (into + k) 0)
        (bit_xor (bit_xor (get_or table.now (first + k) 0) (get_or table.now (second + k) 0))
        (bit_xor (get_or table.now (third + k) 0) (get_or table.now (fourth + k) 0)))) words.old words.new }
{
    four_eights(words, into, table, first, second, third, fourth, len);
    for k in len / 8 * 8..len {
        let low = table[first + k] ^ table[second + k];
        let high = table[third + k] ^ table[fourth + k];
        words[into + k] ^= low ^ high;
    }
}
