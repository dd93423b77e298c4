//! Homes of blocks by hand, there and back.

use aea_place::{Spot, at, home};

// The number of sites, a block's number, and its home by hand.
const HOMES: [(u8, u64, u8, u64); 9] = [
    (4, 0, 1, 0),
    (4, 5, 3, 1),
    (10, 9, 10, 0),
    (10, 10, 2, 1),
    (1, 0, 1, 0),
    (1, 1_000, 1, 1_000),
    (3, 8, 2, 2),
    (64, 63, 64, 0),
    (64, 64 * 64 + 1, 2, 64),
];

// The numbers and homes.
fn homes() -> [(u8, u64, u8, u64); 9] {
    HOMES
}

// Whether the spot is one of these sites, and the home of the block of this number, there and back.
fn is_home(sites: u8, k: u64, spot: Spot) -> bool {
    1 <= sites
        && sites <= 64
        && 1 <= spot.site
        && spot.site <= sites
        && spot.cell < 65_536
        && home(sites, k) == spot
        && at(sites, spot) == k
}

#[test]
fn homes_go_there_and_back(rt: HostRuntime) {
    for (sites, k, site, cell) in homes() {
        let spot = Spot { site, cell };
        assert!(rt; is_home(sites, k, spot), "block {k} of {sites} sites");
    }
}

#[test]
fn the_last_number_has_a_home(rt: HostRuntime) {
    assert!(rt;
        home(1, u64::MAX)
            == Spot {
                site: 1,
                cell: u64::MAX
            }
    );
    assert!(rt; home(64, u64::MAX).site == 63);
}
