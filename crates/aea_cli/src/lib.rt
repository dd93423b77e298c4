//! The top call `run`, over any disk, input and output.
//!
//! Promises to the program `run`: `Ends`: there is an answer that has the status, what was done is determined by the command
//! that the words mean, and the line of a failure is on `err`. A command that uses the disk runs over a Mirror of it, once copies of the
//! ledger are adopted (`RunsBeneath`). When a fault is returned, what is flushed and what is not touched; `run_surely`: completeness;
//! and `stops_keep_puts`, of many runs, with `runs_spare_blocks`, of those that leave the ledger.
//!
//! Read first in `specs/`: `Ends`, then `Beneath` (`RunsAdopted`), and of `aea_dispatch` `Does` and `Words`.
#![tactic(auto)]

mod keeping;
mod program;
mod surely;

pub use aea_command::{Refusal, Status};
pub use aea_dispatch::{Command, parse_words, runs_spare_blocks};
pub use aea_stops::stops_keep_puts;
pub use aea_survival::{copies_keep_puts, kept_stays, shown_is_found};
pub use keeping::copies_stay_good;
pub use program::run;
pub use surely::run_surely;
