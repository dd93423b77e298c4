//! The shelf: the cells of an archive's blocks on its disk. Each cell is read and written at the block's home by one
//! call of the disk, in a buffer that the caller lends.
//!
//! Promises to the archive above, over a disk whose contents are known, that `read_cell` is Intact exactly where the
//! block is; that `write_cell` leaves the block's cell at its home, and every other home, intact block and file as it
//! was, as the disk reads and in every image; and over any disk that a read changes nothing, and that a fault comes
//! only where its count rose. Read `Places` and `Intact` first. It rests on `aea_disk`, `aea_envelope` and `aea_place`.
//!
//! `specs/Places.antt` has the homes on the disk, `specs/Intact.antt` says when a block is intact and when it is held,
//! `specs/Honest.antt` when intact blocks are honest and damage is plain, and `specs/Writes.antt` what writes leave of
//! the other blocks.
//!
//! A function over several cells gets its clauses from those of its calls by these lemmas of
//! `Rattle.aea_shelf.proofs.Runs`. Each takes the states before, between and after the calls.
//!
//! - the blocks that stay: `shelf_none` before the first call; `shelf_both` for two runs; `shelf_less` for fewer blocks;
//!   `shelf_kept` for a call that keeps the images, as a read or a sync; `shelf_others` for calls on a file with no home,
//!   which the ledger's is by `no_home_in_ledger`, and each past the sites' by `no_home_outside`
//! - what follows of a home that stays: `during_shelf` of its bytes in every image, `held_by_shelf` of a held block
//! - after a sync: `synced_held`
//! - the homes with zeros past the ends: `padded_none` before the first call; `padded_both` for two runs; `padded_less` for
//!   fewer blocks; `padded_kept` for a call that leaves the files; `padded_others` for calls on a file with no home;
//!   `padded_same` for any that leave the files of the homes
//!
//! Of a block that is held at a moment, in each of its images, `Rattle.aea_shelf.proofs.Held` has `held_in` from a block
//! that is held now and `held_of` back, `held_less` for fewer images, and `held_through` for each moment of calls.
//!
//! `Rattle.aea_shelf.proofs.Cells` has `intact_of` and `at_intact` between an intact block and the bytes at its home,
//! `intact_same` for files that are the same there, and `padded_intact`; and `honest_some` and `honest_all` between the
//! honesty of all survivors and of those of a test.
#![tactic(auto)]

mod facts;
mod places;
mod shelf;

pub use facts::{
    cells_are_apart, held_is_held_now, homes_are_in_rows, homes_are_on_its_sites,
    plain_damage_stays, rows_grow,
};
pub use shelf::{Cell, judge, read_cell, write_cell};
