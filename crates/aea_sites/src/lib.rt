//! What the loss of sites would cost: how many blocks of a lattice nothing brings back where all blocks of one or two sites
//! are gone, and the first of them with nodes that show it. Only the lattice and the placement are looked at.
//!
//! Promises to the command above that `without` gives, for one or two sites, the number of blocks that those on the other
//! sites do not determine, and the first of them with its listed nodes (`IsLossOf`, `is_elsewhere`), and that `loss` does so
//! for the absent blocks of a view; and laws: a lattice and its known blocks have one loss (`losses_are_one`), the codeword of
//! these nodes contains the block and no known one (`first_words_show`), and what is lost has its home on the sites that are
//! gone (`lost_are_on_sites`).
//!
//! Read `specs/Losses.antt` first, then `Sites` (which blocks the named sites leave) and `Laws`. How it is counted is in
//! `Counts` and `Words`, and what the pass over the missing blocks keeps in `Passes`. It rests on `peel_marks` of `aea_peel`
//! for what that pass leaves; for what peeling leaves, on `solve_open` of `aea_gauss` where that is little (`Words`), and else
//! on `losses` of `aea_sweep` (`Counts`); on the laws of `aea_fates`, and on `aea_place`.
#![tactic(auto)]

mod count;
mod few;
mod laws;
mod lost;
mod missing;
mod pass;
mod sites;

pub use laws::{first_words_show, losses_are_one, lost_are_on_sites};
pub use lost::{FirstLost, SiteLoss, loss};
pub use sites::without;
