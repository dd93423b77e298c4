ghost use Rattle.std.specs.Prelude.{◌≡◌, ◌+◌, ◌*◌, ◌<◌, ◌≤◌, ◌^◌, length, min};
ghost use Rattle.aea_gauss_words.specs.Tables.{AreInside, AddsSums, AddsGroup};

use crate::entries::add_four;
use crate::picks::pick_rows;
use crate::tables::fill_tables;

// Adds to so many rows from `from` on, at so many words from `at` on, the picked sums of the four tables.
fn add_sums(
    words: &mut [u64],
    rows: usize,
    wide: usize,
    from: usize,
    count: usize,
    at: usize,
    len: usize,
    table: &[u64],
    picks: &[u8],
)
    requires long { length words.old ≡ rows * wide }
    requires few { rows < 2 ^ 32 }
    requires from { from + count ≤ rows }
    requires len { len ≤ 64 }
    requires at { at + len ≤ wide }
    requires table { length table.now ≡ 65536 }
    requires picks { 4 * count ≤ length picks.now }
    ensures { AddsSums rows wide from count at len table.now picks.now words.old words.new }
{
    for i in 0..count {
        add_four(
            words,
            (from + i) * wide + at,
            table,
            picks[4 * i] as usize * 64,
            16384 + picks[4 * i + 1] as usize * 64,
            32768 + picks[4 * i + 2] as usize * 64,
            49152 + picks[4 * i + 3] as usize * 64,
            len,
        );
    }
}

// The lesser of two numbers.
fn lesser(a: usize, b: usize) -> usize
    ensures { result ≡ min a b }
{
    if a < b { a } else { b }
}

// Adds the group to so many rows from `from` on, by strips of 64 words.
fn add_chunk(
    words: &mut [u64],
    rows: usize,
    wide: usize,
    lo: usize,
    leads: &[Option<usize>],
    from: usize,
    count: usize,
    table: &mut [u64],
    picks: &mut [u8],
)
    requires long { length words.old ≡ rows * wide }
    requires few { rows < 2 ^ 32 }
    requires wide { wide < 2 ^ 32 }
    requires group { lo + 32 ≤ rows }
    requires leads { length leads.now ≡ 32 }
    requires inside { AreInside wide leads.now }
    requires from { from + count ≤ rows }
    requires table { length table.old ≡ 65536 }
    requires room { 4 * count ≤ length picks.old }
    ensures { AddsGroup rows wide lo leads.now from (from + count) words.old words.new }
{
    pick_rows(picks, words, wide, from, count, lo, leads);
    for strip in 0..(wide + 63) / 64 {
        let at = strip * 64;
        let len = lesser(64, wide - at);
        fill_tables(table, words, wide, lo, at, len);
        add_sums(words, rows, wide, from, count, at, len, table, picks);
    }
}

// Adds the group to all rows outside it, by chunks of 4,096 rows.
pub(crate) fn add_group(
    words: &mut [u64],
    rows: usize,
    wide: usize,
    lo: usize,
    leads: &[Option<usize>],
    table: &mut [u64],
    picks: &mut [u8],
)
    requires long { length words.old ≡ rows * wide }
    requires few { rows < 2 ^ 32 }
    requires wide { wide < 2 ^ 32 }
    requires group { lo + 32 ≤ rows }
    requires leads { length leads.now ≡ 32 }
    requires inside { AreInside wide leads.now }
    requires table { length table.old ≡ 65536 }
    requires room { length picks.old ≡ 16384 }
    ensures { AddsGroup rows wide lo leads.now 0 rows words.old words.new }
{
    for chunk in 0..(rows + 4095) / 4096 {
        let from = chunk * 4096;
        let count = lesser(4096, rows - from);
        add_chunk(words, rows, wide, lo, leads, from, count, table, picks);
    }
}
