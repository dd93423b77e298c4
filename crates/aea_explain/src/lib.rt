//! Explanations: whether a block of an archive is intact, and how the other intact blocks determine it, or why they do
//! not.
//!
//! Promises to the command above that `explain` says of one block whether it is intact, and its fate where all other
//! intact blocks are known (`Explains`); that over a disk whose contents are known there is one such answer
//! (`explanations_are_one`); and that nothing is written.
//!
//! `specs/Explained.antt` says what an explanation is.
//!
//! It rests on `Search` of `aea_search`, which reads the cells around the block's own part, and has its fate.
#![tactic(auto)]

mod explaining;
mod fate;
mod laws;

pub use explaining::{ExplainFault, Explanation, explain};
pub use laws::{explanations_are_one, sums_explain_determined};
