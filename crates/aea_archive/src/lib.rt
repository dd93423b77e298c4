//! The archive: what its ledger and its cells are together.
//!
//! Promises to the calls above that `read_block` is Intact exactly where the block is, by the digest that the ledger
//! keeps, over a disk whose contents are known; that where the last parities have the payloads of a recorded data list,
//! the records with the next one record that list and the blocks of its object (`next_records_more`); that with the record
//! of an object in parts they record the list and all blocks that were woven after it (`parts_record_more`); and that some
//! test distinguishes the intact blocks, whatever the files are (`survivors_are_revealed`). Read `Blocks` (`IsIntactBy`) and
//! `Stretches` (`Adds`) first. It rests on `aea_ledger`, `aea_shelf` and `aea_weave`.
//!
//! `specs/Blocks.antt` says which digest the ledger keeps of a block and which blocks are intact by it, `specs/Lasts.antt`
//! what the last parities are that enter the next node, `specs/Next.antt` what the next record of an object is, that of a
//! put given by the payloads of blocks and that of an object in parts by the data, `specs/Cells.antt` what changes of the
//! files leave of the blocks, `specs/Stretches.antt` what a stretch of a run leaves in which records are added,
//! `specs/Data.antt` what of the data survivors have, and `specs/Objects.antt` what the data blocks of an object are, and
//! what payloads of them are, joined and cut.
//!
//! A function that adds records gets its clauses from those of its calls by these lemmas of
//! `Rattle.aea_archive.proofs.Stretches`. Each takes the states before, between and after.
//!
//! - `adds_nothing` for a stretch in which every image has the old records; `adds_append` for the commit of a record before
//!   which every image has the cells of its blocks; `adds_both` for two stretches, and `adds_later` for one that adds
//!   nothing and another after it
//! - what a file has: `at_none`, `at_all` and `all_at` between a ledger and how many of the added records it has; `at_less`
//!   for fewer of them; `not_more` where none is there; `has_ledger` of an opened ledger's bytes
//!
//! Calls that change the files have frames of `aea_disk` with the step `ChangesArchive`. By `Rattle.aea_archive.proofs.Cells`:
//! `changes_none`, `changes_both` and `changes_less` put steps together; `changes_cell` is that of one cell, `changes_ledger`
//! that of the ledger's file; `changes_shelf` is what they leave of the shelf; `file_kept` and `fixed_kept` speak of a file
//! that stays; `room_some` and `room_later` of the space; `no_home` says that no home is in a file without cells. Calls that
//! write cells alone have the frame `WritesCells`, by `Rattle.aea_archive.proofs.Writes`: `cell_written`, `cells_none`,
//! `cells_both` and `cells_then` put them together, `cells_read`, `read_then_cells` and `cells_then_read` with calls that only
//! read, and `cells_held` is what they leave of blocks that were held.
//!
//! `Rattle.aea_archive.proofs.Values` has `last_inside`, `last-before` and `last-grown` on last parities of lattices that
//! grow, `Rattle.aea_archive.proofs.Pieces` the lengths of an object's blocks (`cut-length`, `cut-bytes`), and
//! `Rattle.aea_archive.proofs.Records` that there is one lattice of a shape (`one_lattice`).
#![tactic(auto)]

mod laws;
mod read;

pub use laws::{
    lasts_are_values, next_records_more, none_record_none, objects_record_more, parts_record_more,
    puts_record, survivors_are_revealed, survivors_stay_honest,
};
pub use read::{cell_buffer, is_block_intact, read_block, recorded};
