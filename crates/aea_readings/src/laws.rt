ghost use Rattle.aea_readings.specs.Small.{SmallRowsRevealFates, UnknownAreListed};

/// Reduced rows over the columns that are used show the fate of each block that is not known.
pub fn small_rows_reveal_fates()
    ensures { SmallRowsRevealFates }
{}

/// The blocks that are not known are listed in number order.
pub fn unknown_are_listed()
    ensures { UnknownAreListed }
{}
