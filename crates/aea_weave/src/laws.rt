ghost use Rattle.aea_weave.specs.Sums.{LastParitiesAreSums, LongerDataKeepValues};

/// Heads that are the last parities of their strands, and zeros on strands without nodes, are the strand sums.
pub fn last_parities_are_sums()
    ensures { LastParitiesAreSums }
{}

/// The blocks of a lattice keep their values where more data blocks follow its own.
pub fn longer_data_keep_values()
    ensures { LongerDataKeepValues }
{}
