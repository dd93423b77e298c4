//! Cells: what is on a disk for a block. A cell has a head that names the block, the block's payload, and the
//! SHA-256 (FIPS 180-4) of both.
//!
//! Promises to the shelf above that `encode` writes the cell of a block with a payload, and that `decode` reads bytes
//! as a cell of a block exactly where they are one.
//!
//! `specs/Cells.antt` has the layout, and `specs/Facts.antt` what follows from it.
//!
//! Read `Cells` first. It rests on `aea_lattice` for blocks and on `sha2`.
#![tactic(auto)]

mod cells;
mod facts;

pub use cells::{decode, digest_of, encode};
pub use facts::{
    cells_have_lengths, cells_have_one_payload, cells_have_parts, cells_reveal_blocks,
};
