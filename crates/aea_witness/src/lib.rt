//! A witness: a caller without premises that meets all those of the calls that put, repair and get.
//!
//! Promises that `witness`, but for lack of memory, has made an archive in memory, put objects into it, ingested a stream that
//! ends inside a frame, lost a site, repaired the archive with a report, and got an object back as it was put; and that on the
//! way the survivors were honest for the data list of the objects that were put, and the damage was plain (`IsWitnessed`). No
//! call fails otherwise. Nothing rests on it: it shows that what the calls of the archive ask of their callers, and what their
//! clauses presuppose, can be met at once.
//!
//! `specs/Objects.antt` has the objects and what an archive with them is (`HasPuts`), `specs/Streams.antt` what the stream begins
//! with, `specs/Rooms.antt` the space, and `specs/Losses.antt` the loss and the repair after it.
//!
//! Read `Witnessed` first. It rests on `aea_append`, `aea_repair` and `aea_fetch`, and on the steps of `aea_rehearse`.
#![tactic(auto)]

mod ending;
mod fetching;
mod ingesting;
mod losing;
mod storing;
mod witnessing;

pub use ending::Witness;
pub use witnessing::witness;
