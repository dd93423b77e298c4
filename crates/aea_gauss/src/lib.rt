//! What happens to each block that is not known: it is a sum of equations, or it is lost, as a codeword shows.
//!
//! Promises to the layers above that `solve` gives each block that is not marked its fate, in number order: the listed
//! equations, which add up to it and marked blocks, or the listed nodes, whose codeword contains it and no marked block
//! (`AreFates`); that `solve_open` gives the same for a few blocks where all others are known, by these alone; that the list of
//! fates is the only one (`fates_are_one`), and depends on what is known of the lattice's blocks alone
//! (`fates_depend_on_blocks`); and that `FateList::find` finds the fate of a block by halving.
//!
//! Both eliminate rows, part by part, since most parts are small and take little. A part of more than 16,384 blocks would take
//! rows of the square of their number: then sums are found by two passes over the lattice for each 64 determined blocks, in
//! memory that grows with the lattice, at any damage (`all_fates`).
//!
//! Read in `specs/`: `Fates`; the others are of the way it is computed. It rests on `aea_fates` for what a fate is, on `losses`
//! of `aea_sweep` for what is lost, on `SumTable` of `aea_sums` for the sums, and where it eliminates on `aea_readings` and on
//! `eliminate` of `aea_gauss_words`.
#![tactic(auto)]

mod batch;
mod buckets;
mod columns;
mod determined;
mod equations;
mod fates;
mod labels;
mod laws;
mod leads;
mod lost;
mod marked;
mod open;
mod outputs;
mod parts;
mod put;
mod read;
mod rows;
mod small;
mod unknown;

pub use fates::{Fate, FateList, solve};
pub use laws::{fates_are_one, fates_depend_on_blocks};
pub use open::solve_open;
