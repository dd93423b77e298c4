//! The fates of lost blocks.

ghost use Rattle.std.specs.Prelude.{◌≡◌, IfOk, OnOk};

use crate::shape::lattice_of;
use aea_gauss::{Fate, FateList, solve};
use aea_io::{Source, read_whole};
use aea_lattice::{Lattice, parse_block};
use aea_view::Marks;
use std::alloc::{AllocError, Global};

// The most bytes of a list.
const MOST: usize = 8_388_608;

// Marks of all blocks but those of the list.
fn marks_without(alloc: Global, lattice: &Lattice, lost: &[u8]) -> Result<Marks, AllocError>
    ensures { IfOk result (λ m. m.lattice ≡ lattice.now) }
{
    let mut marks = Marks::new(alloc, lattice)?;
    for k in 0..lattice.blocks() {
        marks.set(lattice.block(k), true);
    }
    for word in lost.split(|byte| *byte == b'\n') {
        if let Some(b) = parse_block(word) {
            if lattice.contains(b) {
                marks.set(b, false);
            }
        }
    }
    Ok(marks)
}

// The numbers of sums and of words, and of the equations and nodes in all.
fn count(alloc: Global, fates: &FateList) -> Result<String, AllocError> {
    let mut sums: u64 = 0;
    let mut words: u64 = 0;
    let mut items: u64 = 0;
    for k in 0..fates.len() {
        match fates.get(k) {
            Some(Fate::Sum { block: _, eqs }) => {
                sums = sums.wrapping_add(1);
                items = items.wrapping_add(eqs.len() as u64);
            }
            Some(Fate::Word { block: _, nodes }) => {
                words = words.wrapping_add(1);
                items = items.wrapping_add(nodes.len() as u64);
            }
            None => {}
        }
    }
    format!(in alloc; "sums {sums} words {words} items {items}")
}

/// Reads the lost blocks of a lattice of these numbers, a line each, and counts their fates.
pub fn line<S: Source>(
    alloc: Global,
    input: &mut S,
    numbers: [u32; 4],
) -> Result<String, AllocError> {
    let [alpha, s, p, n] = numbers;
    let lattice = match lattice_of(alpha, s, p, n) {
        Some(lattice) => lattice,
        None => return String::from_str(alloc, "no lattice"),
    };
    let lost = match read_whole(alloc, input, MOST) {
        Ok(lost) => lost,
        Err(_) => return String::from_str(alloc, "no list"),
    };
    let marks = marks_without(alloc, &lattice, lost.as_slice())?;
    let fates = solve(alloc, &lattice, &marks)?;
    count(alloc, &fates)
}
