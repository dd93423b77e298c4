//! What every command is: how it may end, why it is refused, how the archive is opened, and what is printed of a failure.
//!
//! Promises to the commands above: the place of each refusal in the order of refusals and its line (`place_of`,
//! `refusal_line`); which failure each fault of a call below is (`opening_failure` and its kin, by `From`); an opened archive,
//! or the reason (`open`: `Opens`); and the line of a failure on `err` with its status (`report`: `PutsLine`).
//!
//! Read first in `specs/`: `Causes` (`Refuses`: what it means that a command reports its refusals), `Failures` (`Answer`),
//! `Openings` (`Opens`, `OpensThen`) and `Printed` (`PrintsText`). It has one enum of refusals for all commands, with those of
//! commands that are to come, and rests on each call of the archive whose faults it names.
#![tactic(auto)]

mod archive;
mod digits;
mod lines;
mod refusal;
mod status;

pub use archive::open;
pub use digits::{digits_of, print_named};
pub use lines::{print_block, print_nodes, print_with_block, report};
pub use refusal::{Failure, Refusal};
pub use status::Status;
