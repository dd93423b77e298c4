//! What is lost: for each block of a lattice that is not known, the nodes of the least end whose codeword contains it, or that
//! the known blocks determine it. One pass over the blocks in number order keeps at most one open word a strand, so time and
//! memory grow with the lattice and with the words that come out, however large the damage is.
//!
//! Promises to the layers above that `losses` gives each block of the lattice its listed nodes, or that it is determined
//! (`AreLosses`), which leaves no choice; that `marked_losses` gives the same and marks of the known blocks and of the ends
//! (`AddsEnds`); and two laws of sums, that ends may be marked too (`ends_stand_aside`) and which equations are not spare
//! (`not_spare`).
//!
//! Read in `specs/`: `Losses`, `Ends`, and `Sweep` for the laws. How it is computed is in `States`, what the pass holds when it
//! has come to a block (`AreOpen`, `AreHeads`, `AreClosed`); in `Labels` and `Stretches`, how each block gets the first word
//! whose codeword contains it; and in `Words`, `Heads`, `Tables`, `Cuts`, `Firsts` and `Entries`, the forms of these. It rests
//! on `aea_lattice` and `aea_view`, on the proofs of `aea_gauss_laws`, `aea_gauss_words` and `aea_readings`, and on `aea_fates`
//! for what a sum is.
#![tactic(auto)]

mod ends;
mod heads;
mod labels;
mod laws;
mod listing;
mod marking;
mod sweep;
mod table;
mod word;
mod word_list;

pub use laws::{ends_stand_aside, not_spare};
pub use listing::{LossList, MarkedLosses, losses, marked_losses};
