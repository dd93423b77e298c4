//! What is lost without each site, and without each pair of sites.

use crate::shape::{lattice_of, small};
use aea_lattice::Lattice;
use aea_sites::without;
use std::alloc::{AllocError, Global};

// How many blocks are lost without these two of so many sites, none where they are no sites.
fn lost(alloc: Global, lattice: &Lattice, sites: u8, a: u8, b: u8) -> Result<u64, AllocError> {
    if sites < 1 || 64 < sites || a < 1 || sites < a || b < 1 || sites < b {
        return Ok(0);
    }
    let loss = without(alloc, lattice, sites, a, b)?;
    Ok(u64::from(loss.lost))
}

// The line of all calls, each site by itself and each pair.
fn all(alloc: Global, lattice: &Lattice, sites: u8) -> Result<String, AllocError> {
    let mut calls: u64 = 0;
    let mut sum: u64 = 0;
    for a in 0..sites {
        for b in a..sites {
            let one = lost(alloc, lattice, sites, a.wrapping_add(1), b.wrapping_add(1))?;
            sum = sum.wrapping_add(one);
            calls = calls.wrapping_add(1);
        }
    }
    format!(in alloc; "calls {calls} left {sum}")
}

/// Counts what is lost of a lattice over so many sites, without each site and without each pair of them.
pub fn line(alloc: Global, numbers: [u32; 6]) -> Result<String, AllocError> {
    let [alpha, s, p, n, sites, _] = numbers;
    match lattice_of(alpha, s, p, n) {
        Some(lattice) => all(alloc, &lattice, small(sites)),
        None => String::from_str(alloc, "no lattice"),
    }
}
