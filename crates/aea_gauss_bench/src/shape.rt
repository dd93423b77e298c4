//! The lattice that numbers name.

use aea_lattice::Lattice;

/// The number as a byte, or 0.
pub fn small(number: u32) -> u8 {
    u8::try_from(number).unwrap_or(0)
}

/// The lattice of these numbers, if there is one.
pub fn lattice_of(alpha: u32, s: u32, p: u32, n: u32) -> Option<Lattice> {
    Lattice::new(small(alpha), small(s), small(p), n)
}
