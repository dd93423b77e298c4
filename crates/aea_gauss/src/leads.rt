ghost use Rattle.std.specs.Prelude.{◌≡◌, ℕ, ◌+◌, ◌*◌, ◌<◌, ◌≤◌, ◌^◌, length, IfOk};
ghost use Rattle.aea_gauss_words.specs.Words.{bit_matrix};
ghost use Rattle.aea_gauss.specs.Revealed.{AreLeads};

use aea_gauss_words::lead;
use std::alloc::{AllocError, Global};

// Notes the row at its least column, if that is one of the columns.
fn note_lead(leads: &mut [Option<usize>], words: &[u64], wide: usize, row: usize)
    requires inside { row * wide + wide ≤ length words.now }
    requires short { 64 * wide < 2 ^ 63 }
    requires before { AreLeads row (64 * wide) (bit_matrix wide words.now) leads.old }
    ensures { AreLeads (row + 1) (64 * wide) (bit_matrix wide words.now) leads.new }
{
    if let Some(column) = lead(words, row * wide, wide) {
        if column < leads.len() {
            leads[column] = Some(row);
        }
    }
}

// For each of the first columns the row whose least column it is, if there is one.
pub(crate) fn lead_table(
    alloc: Global,
    words: &[u64],
    rows: usize,
    wide: usize,
    count: usize,
) -> Result<Vec<Option<usize>>, AllocError>
    requires long { length words.now ≡ rows * wide }
    requires short { 64 * wide < 2 ^ 63 }
    ensures long { IfOk result (λ leads. length leads.items ≡ count) }
    ensures leads { IfOk result (λ leads. AreLeads rows (64 * wide) (bit_matrix wide words.now) leads.items) }
{
    let mut leads = vec![in alloc; None; count]?;
    for row in 0..rows {
        note_lead(leads.as_mut_slice(), words, wide, row);
    }
    Ok(leads)
}
