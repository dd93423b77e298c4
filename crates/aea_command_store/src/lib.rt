//! The commands that write the ledger: `create`, `put`, `ingest`, `fence`, `upgrade`.
//!
//! Promises to the table above, command by command, what a run leaves, whatever it returns: `Creates`, `Puts`, `Ingests`,
//! `Fences`, `Upgrades`, each with its refusals (`CreateCauses` and its kin) and the space that it needs. What is there after any
//! number of runs that are stopped and gone on with is the law of `aea_stops`.
//!
//! Read first in `specs/`: `Adding` (`AddsRecord`: the effect on the disk where a record is added), `Growing` (`GrowsBy`: where
//! several are; `Grows`: where objects are) and `Put`. It rests on `aea_command`, on `create_ledger` and the appends of `aea_ledger`, and on `put` and
//! `ingest_next` of `aea_append`.
#![tactic(auto)]

pub mod create;
pub mod fence;
pub mod ingest;
mod put;
pub mod upgrade;

pub use put::put_input;
