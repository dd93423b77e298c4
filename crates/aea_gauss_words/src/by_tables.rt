ghost use Rattle.std.specs.Prelude.{◌≡◌, ◌+◌, ◌*◌, ◌/◌, ◌<◌, ◌≤◌, ◌^◌, length};
ghost use Rattle.aea_gauss_words.specs.Words.{bit_matrix};
ghost use Rattle.aea_gauss_words.specs.Matrices.{SameSums, ReducedTo, IsReduction};
ghost use Rattle.aea_gauss_words.specs.Tables.{AreGroupLeads, ReducesGroup, LeavesReduced};

use crate::chunks::add_group;
use crate::rows::{lead, reduce, reduce_row};

// The least column of each of the group's rows.
fn find_leads(words: &[u64], wide: usize, lo: usize, leads: &mut [Option<usize>])
    requires leads { length leads.old ≡ 32 }
    requires wide { wide < 2 ^ 32 }
    requires lo { lo + 32 < 2 ^ 32 }
    requires rows { (lo + 32) * wide ≤ length words.now }
    ensures { AreGroupLeads wide words.now lo 32 leads.new }
{
    for s in 0..32 {
        leads[s] = lead(words, (lo + s) * wide, wide);
    }
}

// Reduces the group's rows among themselves.
fn reduce_within(words: &mut [u64], rows: usize, wide: usize, lo: usize)
    requires long { length words.old ≡ rows * wide }
    requires few { rows < 2 ^ 32 }
    requires wide { wide < 2 ^ 32 }
    requires group { lo + 32 ≤ rows }
    ensures { ReducesGroup rows (64 * wide) lo (bit_matrix wide words.old) (bit_matrix wide words.new) }
{
    reduce(&mut words[lo * wide..(lo + 32) * wide], 32, wide);
}

// Reduces the group's rows among themselves, and adds them to the others that have their least columns.
fn reduce_group(
    words: &mut [u64],
    rows: usize,
    wide: usize,
    lo: usize,
    table: &mut [u64],
    picks: &mut [u8],
)
    requires long { length words.old ≡ rows * wide }
    requires few { rows < 2 ^ 32 }
    requires wide { wide < 2 ^ 32 }
    requires group { lo + 32 ≤ rows }
    requires table { length table.old ≡ 65536 }
    requires room { length picks.old ≡ 16384 }
    ensures sums { SameSums rows (64 * wide) (bit_matrix wide words.old) (bit_matrix wide words.new) }
    ensures reduced { ReducedTo lo rows (64 * wide) (bit_matrix wide words.old) → ReducedTo (lo + 32) rows (64 * wide) (bit_matrix wide words.new) }
{
    reduce_within(words, rows, wide, lo);
    let mut leads = [None; 32];
    find_leads(words, wide, lo, &mut leads);
    add_group(words, rows, wide, lo, &leads, table, picks);
}

// Reduces as many groups of thirty-two rows as there are. Never made a part of its caller, so that a reduction row by row
// does not take the stack of the tables.
#[inline(never)]
fn reduce_groups(words: &mut [u64], rows: usize, wide: usize)
    requires long { length words.old ≡ rows * wide }
    requires few { rows < 2 ^ 32 }
    requires wide { wide < 2 ^ 32 }
    ensures { LeavesReduced rows (64 * wide) (rows / 32 * 32) (bit_matrix wide words.old) (bit_matrix wide words.new) }
{
    let mut table = [0; 65_536];
    let mut picks = [0; 16_384];
    for group in 0..rows / 32 {
        reduce_group(words, rows, wide, group * 32, &mut table, &mut picks);
    }
}

/// Reduces the rows over all columns of their words: by groups of thirty-two, and the rest row by row. Takes 544 KiB of
/// the stack. The Method of the Four Russians, as in M4RI (Albrecht, Bard, Hart, 2010).
pub(crate) fn reduce_by_tables(words: &mut [u64], rows: usize, wide: usize)
    requires long { length words.old ≡ rows * wide }
    requires few { rows < 2 ^ 32 }
    requires wide { wide < 2 ^ 32 }
    ensures { IsReduction rows (64 * wide) (bit_matrix wide words.old) (bit_matrix wide words.new) }
{
    reduce_groups(words, rows, wide);
    for row in rows / 32 * 32..rows {
        reduce_row(words, rows, wide, row);
    }
}
