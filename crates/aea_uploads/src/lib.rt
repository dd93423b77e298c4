//! Uploads under way, of which each may be stored as an object: what is kept of one, and how its bytes become nodes.
//!
//! Promises to a session of many uploads that what a slot keeps is an upload as the machine of `aea_machine` has it: a new slot
//! keeps one of no byte (`Slot::new`), bytes join it and each block that they fill is woven at once (`gather_all`), and at its
//! end the rest is filled with zeros and woven (`finish_rest`). Of whatever upload the slot kept, and whatever data list the
//! heads go on from, it is so afterwards (`Gathers`, `Finishes`).
//!
//! The definitions are in `specs/`: `Slots` (what a slot keeps), `Gathering` (what bytes that join it do, and the close) and
//! `Laws`, of which each is the contract of a function: the blocks that are woven are the machine's (`filled_are_the_machines`,
//! `last_is_the_machines`) and are counted before (`filled_are_counted`), the other slots keep what they kept (`kept_with_more`), and what a slot has at its close are the
//! parts and the record that a ledger takes next (`closed_are_parts`, `closed_are_next`).
//!
//! Read `Slots` (`Keeps`) and `Gathering` (`Gathers`) first. It rests on `weave_node` of `aea_append` and on the definitions of
//! `aea_machine`.
#![tactic(auto)]

mod close;
mod gather;
mod laws;
mod runs;
mod slot;

pub use close::finish_rest;
pub use gather::gather_all;
pub use laws::{
    closed_are_next, closed_are_parts, filled_are_counted, filled_are_the_machines, kept_are_held,
    kept_with_more, last_is_the_machines, runs_are_parts,
};
pub use slot::Slot;
