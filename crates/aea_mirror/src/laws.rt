//! What a Mirror shows, and what is kept of a ledger whatever is lost.

ghost use Rattle.aea_mirror.specs.Shown.{KeepsTexts, KeepsLedgers, WritesAreShown, SyncsAreShown};
ghost use Rattle.aea_mirror.specs.Starting.{WholeCopiesAreGood};

use aea_records::records_are_short;

/// Whatever is lost of the ledger file and of one copy, the ledger that is made of what is left has the text of one that a
/// Mirror shows, and ends where it does.
pub fn mirrors_keep_texts()
    ensures { KeepsTexts }
{}

/// And so it has its records.
pub fn mirrors_keep_ledgers()
    ensures { KeepsLedgers }
{
    records_are_short();
}

/// What a Mirror shows after a write of the ledger past the texts of the copies comes from what it showed before.
pub fn writes_are_shown()
    ensures { WritesAreShown }
{}

/// While copies are extended a Mirror shows nothing that it did not show before.
pub fn syncs_are_shown()
    ensures { SyncsAreShown }
{}

/// A whole copy of pieces that a copy can have is a good one.
pub fn whole_copies_are_good()
    ensures { WholeCopiesAreGood }
{}
