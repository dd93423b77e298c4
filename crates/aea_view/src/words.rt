//! Bits of words of 64.

ghost use Rattle.std.specs.Prelude.{◌≡◌, ◌≢◌, ℕ, List, ◌+◌, ◌<◌, ◌≤◌, ◌*◌, ◌^◌, true, false, not, length, get_or, count_by, IfOk, IfSome, IfNone};
ghost use Rattle.aea_view.specs.Bits.{has_bit, is_bit, words_for, bits_of};

use std::alloc::{AllocError, Global};

// The bit of the word at this place, counted from the lowest.
pub(crate) fn bit(word: u64, place: u32) -> bool
    requires { place < 64 }
    ensures { result ≡ has_bit word place }
{
    (word >> place) & 1 == 1
}

// The word with this bit at the place, and its others as they were.
pub(crate) fn with_bit(word: u64, place: u32, value: bool) -> u64
    requires { place < 64 }
    ensures here { has_bit result place ≡ value }
    ensures others { (k : ℕ) → k < 64 → k ≢ place → has_bit result k ≡ has_bit word k }
{
    if value {
        word | 1 << place
    } else {
        word & !(1 << place)
    }
}

// How many bits of the word are not set: so many truth values more are false where it comes behind other words.
fn clear_in(word: u64) -> u32
    ensures few { result ≤ 64 }
    ensures counted { (words : List ℕ) (at : ℕ) → get_or words at 0 ≡ word
        → count_by not (bits_of (64 * (at + 1)) words) ≡ count_by not (bits_of (64 * at) words) + result }
{
    word.count_zeros()
}

// How many truth values of the first words are false.
fn count_clear_words(words: &[u64], whole: u32) -> u32
    requires inside { whole ≤ length words.now }
    requires few { 64 * whole < 2 ^ 32 }
    ensures counted { result ≡ count_by not (bits_of (64 * whole) words.now) }
    ensures few { result ≤ 64 * whole }
{
    let mut count = 0;
    for at in 0..whole {
        count += clear_in(words[at as usize]);
    }
    count
}

// How many of the first n truth values are false: those of whole words are counted word by word, and the others one by one.
pub(crate) fn count_clear(words: &[u64], n: u32) -> u32
    requires { length words.now ≡ words_for n }
    ensures { result ≡ count_by not (bits_of n words.now) }
{
    let whole = n / 64;
    let mut count = count_clear_words(words, whole);
    for k in 64 * whole..n {
        if !bit(words[(k / 64) as usize], k % 64) {
            count += 1;
        }
    }
    count
}

// The word with each bit flipped.
fn flipped(word: u64) -> u64
    ensures { (k : ℕ) → k < 64 → has_bit result k ≡ not (has_bit word k) }
{
    !word
}

// Words with each bit flipped.
pub(crate) fn all_flipped(alloc: Global, words: &[u64]) -> Result<Vec<u64>, AllocError>
    ensures long { IfOk result (λ flipped. length flipped.items ≡ length words.now) }
    ensures flipped { IfOk result (λ flipped. (k : ℕ) → k < 64 * length words.now → is_bit flipped.items k ≡ not (is_bit words.now k)) }
{
    let mut flipped_words = Vec::with_capacity(alloc, words.len())?;
    for k in 0..words.len() {
        flipped_words.push(flipped(words[k]))?;
    }
    Ok(flipped_words)
}

// The place of the first bit that is set at this place of the word or above it, None where there is none.
fn set_from(word: u64, place: u32) -> Option<u32>
    requires { place < 64 }
    ensures inside { IfSome result (λ k. (place ≤ k) × (k < 64)) }
    ensures set { IfSome result (λ k. has_bit word k ≡ true) }
    ensures before { IfSome result (λ k. (j : ℕ) → place ≤ j → j < k → has_bit word j ≡ false) }
    ensures none { IfNone result ((j : ℕ) → place ≤ j → j < 64 → has_bit word j ≡ false) }
{
    let rest = word >> place;
    if rest == 0 {
        None
    } else {
        Some(place + rest.trailing_zeros())
    }
}

// The place of the first of n truth values that is true at this place or later, None where there is none.
pub(crate) fn next_set(words: &[u64], n: u32, from: u32) -> Option<u32>
    requires long { length words.now ≡ words_for n }
    requires few { n < 2 ^ 31 }
    ensures inside { IfSome result (λ k. (from ≤ k) × (k < n)) }
    ensures set { IfSome result (λ k. is_bit words.now k ≡ true) }
    ensures before { IfSome result (λ k. (j : ℕ) → from ≤ j → j < k → is_bit words.now j ≡ false) }
    ensures none { IfNone result ((j : ℕ) → from ≤ j → j < n → is_bit words.now j ≡ false) }
{
    let mut at = from;
    while at < n {
        let low = at % 64;
        if let Some(place) = set_from(words[(at / 64) as usize], low) {
            let found = at - low + place;
            return if found < n { Some(found) } else { None };
        }
        at += 64 - low;
    }
    None
}
