ghost use Rattle.std.specs.Prelude.{◌≡◌, ℕ, ◌<◌, ◌≤◌, ◌/◌, ◌^◌};
ghost use Rattle.aea_place.specs.Homes.{home_of};

/// The place of a cell: a site, numbered from 1, and the cell's place among those of the site's file, counted from 0.
#[derive(Clone, Copy, Debug, PartialEq, Eq)]
pub struct Spot {
    pub site: u8,
    pub cell: u64,
}

/// The home of block number `k` in an archive of so many sites. Block numbers count from 0.
pub fn home(sites: u8, k: u64) -> Spot
    requires some { 1 ≤ sites }
    requires few { sites ≤ 64 }
    ensures home { result ≡ home_of sites k }
    ensures site { 1 ≤ result.site }
    ensures last { result.site ≤ sites }
    ensures cell { result.cell ≡ k / sites }

    // No other block has this home, and none of the same row is on this site.
    ensures apart { (j : ℕ) → home_of sites j ≡ result → j ≡ k }
    ensures row { (j : ℕ) → j / sites ≡ k / sites → (home_of sites j).site ≡ result.site → j ≡ k }
{
    let count = u64::from(sites);
    let row = k / count;
    let column = k % count;
    let site = 1 + ((column + row) % count) as u8;
    Spot { site, cell: row }
}

/// The number of the block whose home this is.
pub fn at(sites: u8, spot: Spot) -> u64
    requires some { 1 ≤ sites }
    requires few { sites ≤ 64 }
    requires site { 1 ≤ spot.site }
    requires last { spot.site ≤ sites }
    requires cell { spot.cell < 2 ^ 56 }
    ensures home { home_of sites result ≡ spot }
    ensures only { (k : ℕ) → home_of sites k ≡ spot → k ≡ result }
    ensures cell { result / sites ≡ spot.cell }
    ensures small { result < 2 ^ 62 }
{
    let count = u64::from(sites);
    let site = u64::from(spot.site) - 1;
    let column = (site + count - spot.cell % count) % count;
    spot.cell * count + column
}
