//! The commands that read the archive and print what is in it: `stat`, `list`, `get`, `fetch`, `scrub`.
//!
//! Promises to the table above, command by command, what is printed and that the disk is only read: `Stats`, `ListsObjects`,
//! `GetsNamed`, `FetchesNamed`, `Scrubs`, each with its refusals.
//!
//! Read first in `specs/`: `Get` (`Gets`: what is written of an object), `Fetch` (`FetchesObject`: the same of a damaged archive)
//! and `Scrub` (`Scrubs`: which blocks are printed). It rests on `aea_command`, on `get` of `aea_fetch`, `fetch` of `aea_degraded`
//! and `scan` of `aea_scrub`; the line of `stat` is written by `serde_json`.
#![tactic(auto)]

mod fetch;
mod get;
pub mod list;
pub mod scrub;
pub mod stat;

pub use fetch::fetch_object;
pub use get::get_object;
