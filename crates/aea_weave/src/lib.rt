//! The heads of a lattice's strands: XOR of blocks, and the parities of each next node.
//!
//! In the alpha entanglement codes (Estrada-Galiñanes, Miller, Felber, Pâris, DSN 2018) each new datum is
//! entangled with the last parity of each of its strands. These last parities are the heads, and a head is the sum by
//! XOR of its strand's data so far.
//!
//! Promises to the layers above that heads which are the strand sums of a data list are, after `Heads::step`, those of
//! the list with the payload, and that `Heads::parity` then is the parity of the last node; and the XOR of two blocks
//! (`xor_into`). Read in `specs/`: `Woven` (`Weaves`), then `Sums` (`AreStrandSums`). It rests on `aea_lattice`.
#![tactic(auto)]

mod heads;
mod laws;
mod xor;

pub use heads::Heads;
pub use laws::{last_parities_are_sums, longer_data_keep_values};
pub use xor::xor_into;
