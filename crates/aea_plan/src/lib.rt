//! Plans: what happens to each block of a lattice that is not known. It is peeled, solved or lost, and the loss report says
//! so of each.
//!
//! Promises to drills and repairs that `Plan::new` has, for any known blocks, the steps that peel, the marks of their
//! closure, and of all other blocks by which nodes they are lost, or that they are determined; and that `print_report` prints the
//! one report for these blocks through a page, and takes no memory.
//!
//! The definitions are in `specs/`: `Verdicts` (the lines of what happens to each block), `Plans` (what a plan has) and `Texts`
//! (how the nodes of a lost block are printed).
//!
//! Read `Plans` (`IsPlanOf`) first, and `Printed` of `aea_report`. It rests on `aea_peel`, on `losses` of `aea_sweep`, and on
//! `aea_report`.
#![tactic(auto)]

mod counts;
mod nodes;
mod plan;
mod print;
mod verdicts;
mod walk;

pub use counts::Counts;
pub use plan::Plan;
pub use print::print_report;
pub use verdicts::Verdicts;
