//! Codewords of nodes, and blocks that have no mark.
//!
//! Promises to the check of a report whether the codeword of nodes contains a block (`is_in_codeword`), the least
//! marked block that it contains (`first_touched`), and the least block without a mark in a range of numbers
//! (`least_missing`).
//!
//! What each costs, where α is the number of classes:
//!
//! - `is_in_codeword`: time linear in the nodes, however far apart they are. It looks at each node once.
//! - `NextIntact::new`: one pass over the lattice for each class, and 4 bytes for each parity. It is made once for a report.
//! - `first_touched`: time linear in α times the nodes. On each strand the codeword has the parities from an odd node to
//!   before the next even one or to the next fence, and the table gives the first intact one of them by one look. For each
//!   class it clears 64 places of 4 bytes, one a strand. It takes no memory.
//! - `least_missing`: time linear in the range.
//!
//! Each look at fences goes through all of them, at most 16.
//!
//! `specs/Codewords.antt` and `specs/Missing.antt` say what is found, and `specs/Stretches.antt` how far the nodes are passed.
//!
//! Read `Codewords` first. It rests on `aea_lattice` and on the marks of `aea_view`, and on no elimination.
#![tactic(auto)]

mod codewords;
mod missing;
mod nexts;
mod stretches;

pub use codewords::{first_touched, is_in_codeword};
pub use missing::least_missing;
pub use nexts::NextIntact;
