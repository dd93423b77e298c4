//! Searches for the damaged blocks that matter for some blocks of an archive, without a scan of it.
//!
//! What decides the fate of a damaged block is its own part: the block, and each damaged block that shares an equation with
//! one of the part. A `Search` reads a cell only when it comes to it, and goes from damaged block to damaged block.
//!
//! Promises to the calls above that what a search has read stays read, and that over a disk whose contents are known each
//! block that it read is unknown exactly where it is not intact (`Goes`); that after `finish` each unknown block was gone around; and
//! that `fates` has the fates of the unknown blocks, where all other blocks are known, which then are their fates where exactly
//! the blocks are known that pass a test that is right about what was read (`IsRightBy`).
//!
//! Read `specs/Searches.antt` first. It rests on `is_block_intact` of `aea_archive`, on the marks of `aea_view`, on `solve_open` of
//! `aea_gauss`, and for what is outside a part on `parts_stand_alone` of `aea_fates`.
#![tactic(auto)]

mod searching;
mod surroundings;

pub use searching::{Search, SearchFault};
