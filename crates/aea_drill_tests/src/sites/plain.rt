//! The lines of `sites`, computed plainly for lattices of at most 64 nodes: by an elimination among the sets of nodes whose codewords
//! contain no block that is left.

use crate::shared::{add_lost, ends_without};
use aea_lattice::{BlockId, Lattice};
use aea_place::home;
use aea_test_helpers::{Mask, masks_of, set_of};
use std::alloc::{AllocError, Global};

// What is lost: how many blocks, and the first with the set of its nodes.
#[derive(Drop)]
struct Loss {
    count: u32,
    first: Option<(BlockId, u64)>,
}

// The site of the block of this number, over so many sites; 0 where that is no number of sites.
fn site_of(sites: u8, number: usize) -> u8 {
    if sites == 0 || 64 < sites {
        0
    } else {
        home(sites, number as u64).site
    }
}

// The blocks whose home is on one of the two sites, in number order. An error is lack of memory, here and below.
fn gone(
    alloc: Global,
    masks: &[Mask],
    sites: u8,
    a: u8,
    b: u8,
) -> Result<Vec<BlockId>, AllocError> {
    let mut blocks = Vec::new(alloc);
    for (k, mask) in masks.iter().enumerate() {
        let site = site_of(sites, k);
        if site == a || site == b {
            blocks.push(mask.block)?;
        }
    }
    Ok(blocks)
}

// What is lost without the two sites.
fn loss_of(
    alloc: Global,
    lattice: &Lattice,
    masks: &[Mask],
    sites: u8,
    a: u8,
    b: u8,
) -> Result<Loss, AllocError> {
    let lost = gone(alloc, masks, sites, a, b)?;
    let ends = ends_without(alloc, lattice, masks, lost.as_slice())?;
    let mut loss = Loss {
        count: 0,
        first: None,
    };
    for mask in masks {
        if let Some(set) = set_of(ends.as_slice(), mask.nodes) {
            if loss.count == 0 {
                loss.first = Some((mask.block, set));
            }
            loss.count = loss.count.wrapping_add(1);
        }
    }
    Ok(loss)
}

// Adds the line of a site, if both are the same, or of two sites, and of what their loss costs.
fn add_cost(text: &mut String, a: u8, b: u8, loss: &Loss) -> Result<(), AllocError> {
    let count = loss.count;
    let begun = if a == b {
        write!(text, "site {a} lost {count}")
    } else {
        write!(text, "pair {a} {b} lost {count}")
    };
    begun?;
    match loss.first {
        Some((block, set)) => add_lost(text, " first ", block, set),
        None => text.push_str("\n"),
    }
}

// Adds what the loss of the two sites would cost; false where memory runs out, as below.
fn add_loss(
    alloc: Global,
    text: &mut String,
    lattice: &Lattice,
    masks: &[Mask],
    sites: u8,
    a: u8,
    b: u8,
) -> bool {
    match loss_of(alloc, lattice, masks, sites, a, b) {
        Ok(loss) => add_cost(text, a, b, &loss).is_ok(),
        Err(_) => false,
    }
}

// Adds the lines of each site, and then those of each pair.
fn add_lines(
    alloc: Global,
    text: &mut String,
    lattice: &Lattice,
    masks: &[Mask],
    sites: u8,
) -> bool {
    let mut is_whole = true;
    for a in 1..sites.saturating_add(1) {
        is_whole = is_whole && add_loss(alloc, text, lattice, masks, sites, a, a);
    }
    for a in 1..sites.saturating_add(1) {
        for b in a.saturating_add(1)..sites.saturating_add(1) {
            is_whole = is_whole && add_loss(alloc, text, lattice, masks, sites, a, b);
        }
    }
    is_whole
}

/// The lines of an archive of this lattice over so many sites; none where memory runs out.
pub fn lines_of(alloc: Global, lattice: &Lattice, sites: u8) -> Option<String> {
    let masks = masks_of(alloc, lattice).ok()?;
    let mut text = String::new(alloc);
    add_lines(alloc, &mut text, lattice, masks.as_slice(), sites).then_some(text)
}
