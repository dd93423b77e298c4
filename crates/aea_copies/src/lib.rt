//! Copies of the ledger: how one is spelled, which bytes are a good one, and at which place another is bad.
//!
//! A copy is a chain of entries. Each has a piece of the ledger and a link: the SHA-256 of the link before, of the length of
//! the piece and of the piece. Promises to the readers and writers above, as laws: that a file is a good copy of one list of
//! pieces at most (`copies_have_one_reading`), bad at one place at most (`copies_are_bad_at_one_place`), and never both
//! (`copies_are_not_bad`), but always one of them (`each_is_a_copy_or_bad`); and that a text belongs to one list of pieces
//! (`texts_end_once`).
//!
//! Read `specs/Format.antt` (`copied`) and `specs/Grammar.antt` (`IsCopy`, `IsBadCopyAt`) first; `specs/Kept.antt` says what
//! two copies keep of a ledger, and which ledger is made of it. It rests on `aea_disk` for what files are, on `aea_records`
//! for what a gate is, and on `sha2`.
#![tactic(auto)]

mod laws;

pub use laws::{
    copies_are_bad_at_one_place, copies_are_not_bad, copies_have_one_reading,
    each_is_a_copy_or_bad, texts_end_once,
};
