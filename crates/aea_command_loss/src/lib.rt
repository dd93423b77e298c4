//! The commands about damaged blocks: `drill`, `repair`, `explain`, `verify`, `rehearse`, `sites`.
//!
//! Promises to the table above, command by command, what is computed, restored and printed: `Drills`, `RepairsArchive`,
//! `ExplainsOrNot`, `Verifies`, `Rehearses`, `SumsUpSites`, each with its refusals.
//!
//! Read first in `specs/`: `Drill` (`IsOutcome`: the report for the blocks that a list leaves) and `Repair` (`RepairsOpened`:
//! what is restored, what stays, what is printed). It rests on `aea_command`, on plans (`aea_plan`), on losses (`aea_sites`) and
//! on the calls `repair`, `explain`, `verify` and `rehearse` of the crates of these names.
#![tactic(auto)]

pub mod drill;
mod explain;
mod rehearse;
mod repair;
mod sites;
mod verify;

pub use explain::explain_word;
pub use rehearse::rehearse_line;
pub use repair::repair_archive;
pub use sites::sum_up_sites;
pub use verify::verify_report;
