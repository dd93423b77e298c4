//! The placement of an archive's blocks: which site keeps the cell of a block, and where in the site's file.
//!
//! Promises to the shelf above that over 1 to 64 sites each block has its home (`home`) and each cell its block (`at`),
//! that two blocks never share a home, and that the blocks of a row are on different sites (`homes_are_apart`,
//! `rows_go_over_sites`).
//!
//! Blocks go over the sites row by row, and each row begins one site further than the row before. `specs/Homes.antt` has the homes,
//! and `specs/Facts.antt` what follows.
//!
//! Read `Homes` first. It rests on no other crate.
#![tactic(auto)]

mod facts;
mod homes;

pub use facts::{homes_are_apart, homes_are_on_sites, rows_go_over_sites};
pub use homes::{Spot, at, home};
