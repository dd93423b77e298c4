//! Archives of each shape over one to seven sites, with fences, beside the plain elimination.

use crate::shared::fenced;
use crate::sites::archives::{make_archive, prints};
use crate::sites::plain::lines_of;
use aea_disk::{Disk, SureDisk};
use aea_lattice::Lattice;
use std::alloc::Global;
use std::test::Fail;

// α, s, p, the fences, which rise, and the number of nodes.
fn lattices() -> [(u8, u8, u8, &'static [u32], u32); 12] {
    [
        (1, 1, 0, &[], 30),
        (1, 1, 0, &[4, 9, 20], 30),
        (2, 2, 3, &[], 25),
        (2, 2, 2, &[], 33),
        (2, 2, 5, &[11], 40),
        (2, 16, 16, &[], 45),
        (3, 2, 2, &[1, 2, 9], 30),
        (3, 2, 5, &[], 40),
        (3, 3, 3, &[17, 30], 31),
        (3, 4, 5, &[], 50),
        (3, 5, 5, &[25], 45),
        (3, 16, 64, &[], 20),
    ]
}

// Makes an archive of this lattice, with these fences, over so many sites. Returns whether each run was done.
fn is_made<D: Disk>(
    alloc: Global,
    disk: &mut D,
    lattice: &Lattice,
    fences: &[u32],
    sites: u8,
) -> bool {
    let (alpha, s, p) = (lattice.alpha(), lattice.s(), lattice.p());
    match format!(in alloc; "create {alpha} {s} {p} 16 {sites}") {
        Ok(create) => make_archive(alloc, disk, create.as_str(), fences, lattice.n()),
        Err(_) => false,
    }
}

// Whether `sites` prints the plain lines of this lattice.
fn prints_plain<D: Disk>(alloc: Global, disk: &mut D, lattice: &Lattice, sites: u8) -> bool {
    match lines_of(alloc, lattice, sites) {
        Some(lines) => prints(alloc, disk, lines.as_str()),
        None => false,
    }
}

// Whether `sites` prints the plain lines of an archive of this lattice, with these fences, over so many sites.
fn is_revealed(alloc: Global, lattice: &Lattice, fences: &[u32], sites: u8) -> bool {
    match SureDisk::new(alloc, 7, 16_384, 16_384) {
        Ok(mut disk) => {
            is_made(alloc, &mut disk, lattice, fences, sites)
                && prints_plain(alloc, &mut disk, lattice, sites)
        }
        Err(_) => false,
    }
}

// The first number of sites, of one to seven, over which it does not.
fn first_unrevealed(alloc: Global, lattice: &Lattice, fences: &[u32]) -> Option<u8> {
    (1..8u8).find(|sites| !is_revealed(alloc, lattice, fences, *sites))
}

#[test]
fn all_losses_are_those_of_a_plain_elimination(rt: HostRuntime) -> Result<(), Fail> {
    for (alpha, s, p, fences, nodes) in lattices() {
        let lattice = fenced((alpha, s, p), fences, nodes).ok_or("no lattice")?;
        let unrevealed = first_unrevealed(rt.alloc(), &lattice, fences);
        assert!(rt; unrevealed == None, "{lattice:?} over {unrevealed:?} sites");
    }
    Ok(())
}
