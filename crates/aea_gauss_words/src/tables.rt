ghost use Rattle.std.specs.Prelude.{◌≡◌, ℕ, ◌+◌, ◌*◌, ◌<◌, ◌≤◌, ◌^◌, ◌⊎◌, length, get_or, bit_xor};
ghost use Rattle.aea_gauss_words.specs.Tables.{Sets, word_of, IsTable, AreTables};

use crate::entries::sum_entry;

// Puts the sum of no rows.
fn clear_entry(table: &mut [u64], base: usize, len: usize)
    requires { base + len ≤ length table.old }
    ensures { Sets base len (λ k. 0) table.old table.new }
{
    for k in 0..len {
        table[base + k] = 0;
    }
}

// Puts after the first entries of a table as many more: each with the row from `begin` on added.
fn double_entries(
    table: &mut [u64],
    base: usize,
    size: usize,
    words: &[u64],
    begin: usize,
    len: usize,
)
    requires size { size ≤ 128 }
    requires len { len ≤ 64 }
    requires base { base + 16384 ≤ length table.old }
    requires begin { begin + len ≤ length words.now }
    ensures kept { (k : ℕ) → (k < base + size * 64) ⊎ (base + 2 * size * 64 ≤ k) → get_or table.new k 0 ≡ get_or table.old k 0 }
    ensures added { (x k : ℕ) → x < size → k < len
        → get_or table.new (base + (x + size) * 64 + k) 0 ≡ bit_xor (get_or table.old (base + x * 64 + k) 0) (get_or words.now (begin + k) 0) }
{
    for x in 0..size {
        sum_entry(
            table,
            base + x * 64,
            base + (x + size) * 64,
            words,
            begin,
            len,
        );
    }
}

// Puts a table of the sums of eight rows, at so many of their words from `at` on.
fn fill_table(
    table: &mut [u64],
    base: usize,
    words: &[u64],
    wide: usize,
    first: usize,
    at: usize,
    len: usize,
)
    requires base { base + 16384 ≤ length table.old }
    requires len { len ≤ 64 }
    requires at { at + len ≤ wide }
    requires few { first + 8 < 2 ^ 63 }
    requires rows { (first + 8) * wide ≤ length words.now }
    ensures kept { (k : ℕ) → (k < base) ⊎ (base + 16384 ≤ k) → get_or table.new k 0 ≡ get_or table.old k 0 }
    ensures table { IsTable base 8 len (λ s k. word_of wide words.now (first + s) (at + k)) table.new }
{
    clear_entry(table, base, len);
    for s in 0..8 {
        double_entries(table, base, 1 << s, words, (first + s) * wide + at, len);
    }
}

// Puts the four tables of the sums of the group's rows, at so many of their words from `at` on.
pub(crate) fn fill_tables(
    table: &mut [u64],
    words: &[u64],
    wide: usize,
    lo: usize,
    at: usize,
    len: usize,
)
    requires table { length table.old ≡ 65536 }
    requires len { len ≤ 64 }
    requires at { at + len ≤ wide }
    requires few { lo + 32 < 2 ^ 63 }
    requires rows { (lo + 32) * wide ≤ length words.now }
    ensures { AreTables wide words.now lo at len table.new }
{
    for t in 0..4 {
        fill_table(table, t * 16384, words, wide, lo + 8 * t, at, len);
    }
}
