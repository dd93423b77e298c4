//! Shapes of archives with blocks of 16 bytes, so that a cell has 64.

use aea_lattice::Shape;

/// AE(1) on one site.
pub const SMALL: Shape = Shape {
    alpha: 1,
    s: 1,
    p: 0,
    block: 16,
    sites: 1,
};

/// AE(1) on two sites.
pub const PLAIN: Shape = Shape {
    alpha: 1,
    s: 1,
    p: 0,
    block: 16,
    sites: 2,
};

/// AE(2,2,2) on three sites.
pub const WOVEN: Shape = Shape {
    alpha: 2,
    s: 2,
    p: 2,
    block: 16,
    sites: 3,
};

/// AE(3,2,5) on four sites.
pub const WIDE: Shape = Shape {
    alpha: 3,
    s: 2,
    p: 5,
    block: 16,
    sites: 4,
};
