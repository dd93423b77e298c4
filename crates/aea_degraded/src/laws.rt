//! What follows of the definitions.

ghost use Rattle.aea_degraded.specs.Summed.{SumsAreOfSummands, ListedAreSums, FatesAreSums};

/// In the lattice of every data list the block of a sum is the XOR of its summands.
pub fn sums_are_of_summands()
    ensures { SumsAreOfSummands }
{}

/// The listed equations of a block are a sum, and its summands are known.
pub fn listed_are_sums()
    ensures { ListedAreSums }
{}

/// Each of the fates of `solve` that is a Sum can be computed by `payload`, from known blocks alone.
pub fn fates_are_sums()
    ensures { FatesAreSums }
{}
