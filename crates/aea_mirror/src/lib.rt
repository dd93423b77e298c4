//! A disk that keeps two copies of the ledger.
//!
//! `Mirror` is a disk over a lent one. It shows the ledger and the sites of that, and hides the files of the copies. Where
//! copies are on it refuses, and counts, each write and cut of a copy, each write of the ledger that begins before the end of
//! the text that the copies keep, and each cut of it to that end or before; and a sync writes the records that the ledger has
//! more into both copies before it answers, or refuses where what follows the kept text is no list of whole records. Once a
//! copy could not be written it takes nothing more but reads. It is made of what `adopt` says (`Mirror::new`), and begins
//! copies where there are none (`Mirror::start`). Promises to the engines above: all that the trait of a disk promises, so
//! each of them runs over a Mirror as over any disk; and which calls it refuses.
//!
//! What it says of a crash has, beside the ledger as it is, each ledger that is made where the text of one good copy is kept
//! (`Shows`); so what an engine promises of every image holds of what is found after one of the three files was lost, which is
//! said by laws: `mirrors_keep_texts`, `mirrors_keep_ledgers`, `writes_are_shown`, `syncs_are_shown`.
//!
//! Read `specs/Shown.antt` (`Shows`), `specs/Mirrored.antt` (`mirror_state`, `Takes`, `Keeps`) and `specs/Guarding.antt`
//! (`Guards`) first. It rests on `aea_disk`, on `aea_copies`, `aea_copy_writer` and `aea_adopt`, and on `aea_ledger` for what
//! a ledger is.
#![tactic(auto)]

mod begin;
mod extend;
mod further;
mod laws;
mod mirror;
mod start;
mod tail;

pub use laws::{
    mirrors_keep_ledgers, mirrors_keep_texts, syncs_are_shown, whole_copies_are_good,
    writes_are_shown,
};
pub use mirror::Mirror;
pub use start::StartFault;
pub use tail::Tail;
