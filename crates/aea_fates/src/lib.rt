//! What happens to the blocks of a lattice that are not known: the equations that are listed for a block that is
//! determined, the nodes of one that is lost, and the laws of both.
//!
//! Promises to the layers above laws, each the contract of a function with an empty body: a block has listed equations
//! or listed nodes, one list at most (`lists_are_one`); a sum gives the block in the lattice of every data list
//! (`sums_give_blocks`); and blocks that share no equation do not matter for each other (`parts_stand_alone`).
//!
//! The definitions are in `specs/`: `Sums` (listed equations), `Live` (equations with an unknown block) and `Laws`. The
//! listed nodes are defined in `aea_lattice/specs/LeastWord.antt`.
//!
//! Read `Sums` first. It rests on `aea_lattice` and `aea_gauss_laws`.
#![tactic(auto)]

mod laws;

pub use laws::{
    determined_stay, lists_are_one, parts_stand_alone, sums_are_determined, sums_give_blocks,
    words_are_open, words_stay,
};
