//! Scans of an archive: which of its blocks are intact.
//!
//! Promises to the calls above that `scan` marks exactly the intact blocks of an opened archive, by the digests that
//! its ledger keeps, over a disk whose contents are known (`AreIntact`), and that it writes nothing, over any disk.
//!
//! `specs/Scans.antt` says which marks are those of the intact blocks.
//!
//! It rests on `is_block_intact` of `aea_archive` and on the marks of `aea_view`.
#![tactic(auto)]

mod marking;

pub use marking::{ScanFault, scan};
