//! The check of a loss report against the disk, in time linear in the archive and the report. It plans nothing.
//!
//! Promises to the command above, over a disk and an input whose contents are known, that `verify` accepts a report
//! exactly where it fits the archive as it is, or names the first rule that is broken and its line; that any other
//! input is refused at its line, by the input alone, whatever the disk is; and what an accepted report shows of each
//! lost block (`lost_are_open`).
//!
//! `specs/Answers.antt` says what is returned, `specs/Rules.antt` by which rules a report is judged, and in which order, and
//! `specs/Shown.antt` what an accepted one shows.
//!
//! Read `Rules` and `Answers` first. It rests on `aea_walk`, `aea_reader` and `aea_scrub`, and on no elimination.
#![tactic(auto)]

mod judge;
mod laws;
mod reading;
mod tally;
mod verdict;
mod verifying;

pub use laws::{accepted_are_fitting, lost_are_open};
pub use verdict::{Verdict, VerifyFault, Why};
pub use verifying::verify;
