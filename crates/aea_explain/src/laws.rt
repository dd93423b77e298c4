//! What follows of the definition of an explanation.

ghost use Rattle.aea_explain.specs.Explained.{ExplanationsAreOne, SumsExplainDetermined};

use aea_fates::{lists_are_one, sums_are_determined, words_are_open, words_stay};

/// A block has one explanation for the known blocks of its lattice.
pub fn explanations_are_one()
    ensures { ExplanationsAreOne }
{
    lists_are_one();
    words_stay();
}

/// An explanation has listed equations exactly where the other known blocks determine the block.
pub fn sums_explain_determined()
    ensures { SumsExplainDetermined }
{
    sums_are_determined();
    words_are_open();
}
