ghost use Rattle.std.specs.Prelude.{◌≡◌, ℕ, ◌+◌, ◌*◌, ◌<◌, ◌≤◌, ◌^◌, ◌⊎◌, length, get_or};
ghost use Rattle.aea_gauss_words.specs.Tables.{place_of, has_lead, is_hit, ArePicks, AreInside};

use crate::rows::has;

// Whether the row has the column, if there is one.
fn row_has(words: &[u64], wide: usize, row: usize, column: Option<usize>) -> bool
    requires row { row * wide + wide ≤ length words.now }
    requires column { (c : ℕ) → column ≡ Some c → c < 64 * wide }
    ensures { result ≡ has_lead wide words.now row column }
{
    match column {
        Some(column) => has(words, row * wide, column),
        None => false,
    }
}

// The place in table t of those of its eight rows that are to be added to this row.
fn pick(words: &[u64], wide: usize, row: usize, leads: &[Option<usize>], t: usize) -> usize
    requires row { row * wide + wide ≤ length words.now }
    requires leads { length leads.now ≡ 32 }
    requires t { t < 4 }
    requires inside { AreInside wide leads.now }
    ensures place { result ≡ place_of (λ s. has_lead wide words.now row (get_or leads.now (8 * t + s) None)) 8 }
    ensures below { result < 256 }
{
    let mut place = 0;
    for s in 0..8 {
        if row_has(words, wide, row, leads[8 * t + s]) {
            place += 1 << s;
        }
    }
    place
}

// The place in table t of those of its eight rows that are to be added to this row: none where it is in the group.
fn group_pick(
    words: &[u64],
    wide: usize,
    row: usize,
    lo: usize,
    leads: &[Option<usize>],
    t: usize,
) -> usize
    requires row { row * wide + wide ≤ length words.now }
    requires lo { lo + 32 < 2 ^ 63 }
    requires leads { length leads.now ≡ 32 }
    requires t { t < 4 }
    requires inside { AreInside wide leads.now }
    ensures place { result ≡ place_of (λ s. is_hit wide words.now lo leads.now row (8 * t + s)) 8 }
    ensures below { result < 256 }
{
    if lo <= row && row < lo + 32 {
        return 0;
    }
    pick(words, wide, row, leads, t)
}

// Notes for a row its places in the four tables.
fn pick_row(
    picks: &mut [u8],
    i: usize,
    words: &[u64],
    wide: usize,
    row: usize,
    lo: usize,
    leads: &[Option<usize>],
)
    requires picks { 4 * i + 4 ≤ length picks.old }
    requires row { row * wide + wide ≤ length words.now }
    requires lo { lo + 32 < 2 ^ 63 }
    requires leads { length leads.now ≡ 32 }
    requires inside { AreInside wide leads.now }
    ensures here { (t : ℕ) → t < 4 → get_or picks.new (4 * i + t) 0 ≡ place_of (λ s. is_hit wide words.now lo leads.now row (8 * t + s)) 8 }
    ensures others { (k : ℕ) → (k < 4 * i) ⊎ (4 * i + 4 ≤ k) → get_or picks.new k 0 ≡ get_or picks.old k 0 }
{
    for t in 0..4 {
        picks[4 * i + t] = group_pick(words, wide, row, lo, leads, t) as u8;
    }
}

// Notes for so many rows from `from` on their places in the four tables.
pub(crate) fn pick_rows(
    picks: &mut [u8],
    words: &[u64],
    wide: usize,
    from: usize,
    count: usize,
    lo: usize,
    leads: &[Option<usize>],
)
    requires picks { 4 * count ≤ length picks.old }
    requires few { from + count < 2 ^ 32 }
    requires rows { (from + count) * wide ≤ length words.now }
    requires lo { lo + 32 < 2 ^ 63 }
    requires leads { length leads.now ≡ 32 }
    requires inside { AreInside wide leads.now }
    ensures { ArePicks wide words.now lo leads.now from count picks.new }
{
    for i in 0..count {
        pick_row(picks, i, words, wide, from + i, lo, leads);
    }
}
