//! What is lost, of random damage and of sites that are gone.

ghost use Rattle.std.specs.Prelude.{◌≡◌, ◌≤◌, IfOk};

use crate::rows::step;
use crate::shape::{lattice_of, small};
use aea_lattice::Lattice;
use aea_place::home;
use aea_sweep::{LossList, losses};
use aea_view::Marks;
use std::alloc::{AllocError, Global};

// Marks of all blocks but so many of a thousand, at random, by the generator that begins with the seed.
fn random_marks(
    alloc: Global,
    lattice: &Lattice,
    permille: u32,
    seed: u32,
) -> Result<Marks, AllocError>
    ensures { IfOk result (λ m. m.lattice ≡ lattice.now) }
{
    let mut known = Marks::new(alloc, lattice)?;
    let mut x = u64::from(seed);
    for k in 0..lattice.blocks() {
        x = step(x);
        known.set(lattice.block(k), (x >> 33) % 1000 >= u64::from(permille));
    }
    Ok(known)
}

// Marks of the blocks whose home is on none of the first sites, which are gone.
fn marks_of_sites(
    alloc: Global,
    lattice: &Lattice,
    sites: u8,
    gone: u32,
) -> Result<Marks, AllocError>
    requires some { 1 ≤ sites }
    requires few { sites ≤ 64 }
    ensures { IfOk result (λ m. m.lattice ≡ lattice.now) }
{
    let mut known = Marks::new(alloc, lattice)?;
    for k in 0..lattice.blocks() {
        let site = home(sites, u64::from(k)).site;
        known.set(lattice.block(k), u32::from(site) > gone);
    }
    Ok(known)
}

// The numbers of the lost and of the determined blocks among so many, and of the nodes of all lists.
fn count(alloc: Global, list: &LossList, unknown: u32) -> Result<String, AllocError> {
    let mut lost: u64 = 0;
    let mut items: u64 = 0;
    for k in 0..list.len() {
        if let Some(nodes) = list.nodes(k) {
            lost = lost.wrapping_add(1);
            items = items.wrapping_add(nodes.len() as u64);
        }
    }
    let determined = u64::from(unknown).wrapping_sub(lost);
    format!(in alloc; "lost {lost} determined {determined} nodes {items}")
}

// What is lost where the marked blocks are known, or how many are not marked where it is not asked for.
fn revealed(
    alloc: Global,
    lattice: &Lattice,
    known: &Marks,
    asked: bool,
) -> Result<String, AllocError>
    requires { known.now.lattice ≡ lattice.now }
{
    let unknown = known.unmarked();
    if asked {
        let list = losses(alloc, lattice, known)?;
        count(alloc, &list, unknown)
    } else {
        format!(in alloc; "unknown {unknown}")
    }
}

/// Counts what is lost of a lattice with so many of a thousand blocks gone, or makes the marks alone.
pub fn random_line(alloc: Global, numbers: [u32; 6], asked: bool) -> Result<String, AllocError> {
    let [alpha, s, p, n, permille, seed] = numbers;
    let lattice = match lattice_of(alpha, s, p, n) {
        Some(lattice) => lattice,
        None => return String::from_str(alloc, "no lattice"),
    };
    let known = random_marks(alloc, &lattice, permille, seed)?;
    revealed(alloc, &lattice, &known, asked)
}

/// Counts what is lost of a lattice where the first of so many sites are gone, or makes the marks alone.
pub fn sites_line(alloc: Global, numbers: [u32; 6], asked: bool) -> Result<String, AllocError> {
    let [alpha, s, p, n, sites, gone] = numbers;
    let lattice = match lattice_of(alpha, s, p, n) {
        Some(lattice) => lattice,
        None => return String::from_str(alloc, "no lattice"),
    };
    let sites = small(sites);
    if sites == 0 || 64 < sites {
        return String::from_str(alloc, "no sites");
    }
    let known = marks_of_sites(alloc, &lattice, sites, gone)?;
    revealed(alloc, &lattice, &known, asked)
}
