//! Repair of an archive: what its intact blocks determine is written back, and a report says of each damaged block whether
//! it was restored or is lost.
//!
//! Promises to the command above, over a disk whose contents are known, that `repair` leaves each block that the intact
//! ones determine intact, with the recorded data where these are honest, or says why not (`Repairs`, `Restores`); that
//! all other homes stay in every image; and that the report for the intact blocks is printed (`HasReported`).
//!
//! `specs/Repairs.antt` says what a repair leaves on the disk, and `specs/Reports.antt` what it prints.
//!
//! Read `Repairs` (`Restores`) first. It rests on `scan` of `aea_scrub`, on plans (`aea_plan`), on the sums of `solve` of
//! `aea_gauss`, and on `restore` of `aea_restore`.
#![tactic(auto)]

mod fault;
mod outcome;
mod prepare;
mod repairing;
mod restoring;

pub use fault::RepairFault;
pub use outcome::Outcome;
pub use repairing::repair;
