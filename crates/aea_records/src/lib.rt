//! Records of a ledger: what they say, how they are spelled, and which may follow which.
//!
//! Promises to the ledger above that spelling and table agree (`next_is_spelled`, `spelled_is_next`); that each file
//! has one reading at most (`ledgers_have_one_reading`); and that one with an open header is a ledger, or bad at one
//! place (`each_is_a_ledger_or_bad`, `ledgers_are_not_bad`, `ledgers_are_bad_at_one_place`).
//!
//! The layout of a record is written twice, as a spelling (`specs/Format.antt`) and as a table of fields with their tests
//! (`specs/Tables.antt`, `specs/Fields.antt`); `laws` says that the two agree. `specs/Grammar.antt` says which bytes are a
//! ledger, and `specs/Faults.antt` at which place others are bad. `specs/Recorded.antt` says which data records record,
//! and `specs/Catalogued.antt` what a catalogue keeps of them.
//!
//! Read `Format` (`Record`) and `Grammar` (`IsLedger`) first. It rests on `aea_lattice`, on the names and objects of
//! `aea_catalog`, and on `sha2`.
#![tactic(auto)]

mod bodies;
mod fields;
mod header;
mod heads;
mod laws;
mod parts;

pub use bodies::{body_front, fence_body, raise_body};
pub use header::shape_in;
pub use heads::{Found, HeadFields, ObjectFields, gate_in};
pub use laws::{
    digests_are_counted, each_is_a_ledger_or_bad, fences_may_follow, ledgers_are_archives,
    ledgers_are_bad_at_one_place, ledgers_are_not_bad, ledgers_have_one_reading, names_are_found,
    new_names_are_free, next_is_spelled, objects_are_counted, objects_are_of_records, readers_know,
    records_are_few, records_are_short, spelled_is_next, tails_are_judged, tails_are_spelled,
};
pub use parts::are_parts;
