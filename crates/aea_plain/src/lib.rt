//! The plain programs of the definitions of a lattice that can be computed: prefixes, the neighbours on a strand and
//! its last node, codewords, what sets of equations add up to, and closures. Each scans nodes, blocks or equations as
//! its definition reads, and is slow. The tables of neighbours, and the faster programs of the crates above, are tested
//! against these.
//!
//! Promises to tests that each of `prefix`, `previous`, `next`, `last_on`, `codeword`, `sum` and `closure` is its
//! definition. Read in `specs/`: `Sets` (`IsClosure`), and the definitions of `aea_lattice`. It rests on `aea_lattice`
//! and `aea_view`.
#![tactic(auto)]

mod codewords;
mod strands;
mod sums;
mod sweeps;

pub use codewords::codeword;
pub use strands::{last_on, next, prefix, previous};
pub use sums::{all_equations, sum};
pub use sweeps::closure;
