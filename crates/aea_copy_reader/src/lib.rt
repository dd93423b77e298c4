//! Both copies of the ledger are read, judged and compared, the ledger beside them.
//!
//! Promises to those who adopt copies, by `judge_copies`: of each copy that it is good, with the place of the gate that ends
//! its entries, the length of its text, its last link, and whether the ledger begins with its text; or else the place at which
//! it is bad; and where both are good, the first place at which their texts differ, if neither begins with the other. Only
//! reads are made, and no memory is taken.
//!
//! Both copies are walked side by side (`judge`, `walk`): up to the last gate before which they are the same, one walk judges
//! and compares them, so each of their bytes is read once, in windows, and hashed once; from there on each is walked alone.
//!
//! Read `specs/Judging.antt` (`IsJudged`) and `specs/Comparing.antt` (`IsCompared`) first. It rests on `aea_copies` for what a
//! good copy is, on `aea_disk`, and on `sha2`.
#![tactic(auto)]

mod entries;
mod hashing;
mod heads;
mod judge;
mod keeping;
mod known;
mod parts;
mod range;
mod walk;
mod window;

pub use judge::judge_copies;
pub use known::{Judged, Judgement, Standing};
