//! What follows of the definitions.

ghost use Rattle.aea_sites.specs.Laws.{LossesAreOne, FirstWordsShow, LostAreOnSites};

use aea_fates::lists_are_one;
use aea_lattice::{blocks_are_inside, reached_are_determined};

/// A lattice and its known blocks have one loss.
pub fn losses_are_one()
    ensures { LossesAreOne }
{
    blocks_are_inside();
    lists_are_one();
}

/// The nodes of the first lost block show that it is lost: their codeword contains it and no known block.
pub fn first_words_show()
    ensures { FirstWordsShow }
{}

/// Where sites are gone, each lost block has its home on one of them.
pub fn lost_are_on_sites()
    ensures { LostAreOnSites }
{
    blocks_are_inside();
    reached_are_determined();
}
