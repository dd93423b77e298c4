ghost use Rattle.aea_gauss.specs.Fates.{FatesAreOne, FatesDependOnBlocks};

use aea_fates::lists_are_one;

/// The fates for a lattice and its known blocks are one list.
pub fn fates_are_one()
    ensures { FatesAreOne }
{
    lists_are_one();
}

/// Which blocks are known matters for the blocks of the lattice alone: where another test is the same for these, the fates are too.
pub fn fates_depend_on_blocks()
    ensures { FatesDependOnBlocks }
{}
