//! The lattice of alpha entanglement codes AE(α,s,p): its blocks and equations, the neighbours of a node on its
//! strands, and the texts of blocks. The construction is that of "Alpha Entanglement Codes" (Estrada-Galiñanes,
//! Miller, Felber, Pâris, DSN 2018); the strands as residues, and so the tables of neighbours, are this project's
//! own.
//!
//! Promises to the layers above the neighbours of a node on its strands (`Lattice::input`, `Lattice::next`), equations,
//! numbers and texts of blocks as they are defined, lattices that are made exactly within the profile, and facts of the
//! definitions, as `codewords_are_even`.
//!
//! The definitions that the whole archive builds on are in `specs/`: `Profile`, `Blocks`, `Strands`,
//! `Fences`, `Equations`, `Lists`, `Data`, `Closure`, `Texts`, `Facts`, `Ends`, `Growth` and `Shapes`.
//!
//! Read first `Profile`, `Blocks`, `Strands` and `Equations`, then `Data` (`Determines`) and `Closure`. It rests on no
//! other crate but `itoa`.
#![tactic(auto)]

mod blocks;
mod ends;
mod equation_list;
mod facts;
mod fences;
mod grid;
mod lists;
mod shape;
mod texts;

pub use blocks::{BlockId, Class, EqId, Equation};
pub use facts::{
    blocks_are_inside, changes_are_codewords, codewords_are_even, equations_add_up,
    joined_stand_after_the_fence, lasts_enter, numbers_reveal_blocks, passing_are_among,
    reached_are_determined, sets_add_up, sums_are_listed, words_are_one, words_miss_determined,
};
pub use fences::{Fences, MAX_FENCES};
pub use grid::{Lattice, MAX_NODES};
pub use lists::{EqList, Items, NodeList};
pub use shape::Shape;
pub use texts::{BlockText, parse_block, print_block};
