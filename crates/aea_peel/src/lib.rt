//! Peeling: the blocks of a lattice that follow from the present ones by single equations, one after the other.
//! Peeling decoders are known from erasure codes on sparse graphs (Luby, Mitzenmacher, Shokrollahi, Spielman,
//! "Efficient Erasure Correcting Codes", 2001); what they leave is the greatest stopping set of the absent blocks.
//!
//! Promises to plans above steps that give exactly what the closure adds to the known blocks, each once and each by
//! blocks that are known or given before (`peel`, `peel_marks`: `IsPlan`), and the marks of the closure (`AreReached`).
//! What a plan is, is defined in `specs/Plans.antt`; `specs/Queue.antt` is of the loop alone. It rests on `aea_lattice` and
//! `aea_view`.
#![tactic(auto)]

mod plan;
mod worklist;

pub use plan::{Peeled, Plan, Step, StepList};
pub use worklist::{peel, peel_marks};
