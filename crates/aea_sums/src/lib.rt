//! Sums: for blocks of a lattice that the known blocks determine, the listed equations that add up to them. Two passes over
//! the blocks, one in number order and one back, find them for up to 64 blocks at a time. The passes keep at most one row a
//! strand, so time and memory grow with the lattice, however large the damage is.
//!
//! Promises to the layers above that `SumTable::find` finds for each wanted block its listed equations (`IsSum`), or that the
//! known blocks do not determine it, and takes no memory (`AreSums`); that `SumTable::lists` lists the equations of all wanted
//! blocks in one walk over the table, and `SumTable::equations` those of one (`equations_in`); and that `find_sum` does this
//! for one block (`IsFound`).
//!
//! Read `Sums` in `specs/` first: it has all words of the public contracts. How sums are computed is in `Places` and `Rows`
//! (the bits of a row), `Tags` (which wanted blocks a block is), `Passes` (what a step does to the rows), `Vectors` (what the
//! pass over the blocks holds, `ArePassed`, and what it has found, `AreRecords`), `Backs` (what the pass back holds,
//! `AreBack`), and `Lists` (how the lists are filled). It rests on `aea_lattice` and `aea_view`, on the proofs of
//! `aea_gauss_laws`, and on `aea_fates` for what a sum is.
#![tactic(auto)]

mod backward;
mod forward;
mod lists;
mod place;
mod row;
mod sums;
mod table;
mod tags;

pub use sums::{SumTable, find_sum};
