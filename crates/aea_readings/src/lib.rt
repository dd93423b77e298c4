//! How the fates of the blocks that are not known are read off the reduced rows of a lattice's equations.
//!
//! Promises to the elimination above that reduced rows, over the columns that are used, show the list of each block
//! that is not known: by the row that it leads, or by none (`small_rows_reveal_fates`, `unknown_are_listed`).
//!
//! The definitions are in `specs/`: `Starts` (the rows of a lattice), `Readings` (what a reduced row shows) and `Small`
//! (rows over the columns that are used alone, and what they show).
//!
//! Read `Small` first. It rests on `aea_fates`, on the laws of `aea_gauss_laws` and on the reduction of
//! `aea_gauss_words`.
#![tactic(auto)]

mod laws;

pub use laws::{small_rows_reveal_fates, unknown_are_listed};
