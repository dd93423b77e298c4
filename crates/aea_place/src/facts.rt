ghost use Rattle.aea_place.specs.Facts.{HomesAreApart, HomesAreOnSites, RowsGoOverSites};

/// Two blocks never share a home.
pub fn homes_are_apart()
    ensures { HomesAreApart }
{}

/// Each site holds at most one block of each row.
pub fn rows_go_over_sites()
    ensures { RowsGoOverSites }
{}

/// A home is on one of the sites.
pub fn homes_are_on_sites()
    ensures { HomesAreOnSites }
{}
