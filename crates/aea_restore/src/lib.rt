//! Repair of an archive: blocks that others give are written back, with no payload kept in memory.
//!
//! Promises to repairs above that `restore` writes back each block that steps and sums give, each judged by the digest
//! that the ledger keeps, and leaves every other home as it was, with zeros past the end of its file (`Leaves`,
//! `IsRepaired`); that it goes by the order of the lists, and adds up only payloads that it has judged, whatever is
//! marked (`GoInOrder`, `AreReadJudged`); that where the survivors are honest these blocks have the recorded data; and
//! that a plan can be carried out and gives exactly what the known blocks determine (`plans_can_be_restored`,
//! `given_are_restorable`). Read `Drawn` (`IsDrawn`) and `Repairs` first. It rests on `aea_archive`, and on the steps and
//! fates of `aea_peel` and `aea_gauss`.
//!
//! `specs/Plans.antt` says what gives a block from others, `specs/Given.antt` which steps and sums can be carried out,
//! `specs/Laws.antt` that those of a plan can be, and which blocks they give, `specs/Drawn.antt` which payloads are sums of
//! survivors, `specs/Judged.antt` which are sums of what was read and judged, `specs/InOrder.antt` what is carried out in
//! which order, `specs/Repairs.antt` what holds afterwards, and `specs/UnderWay.antt` what holds meanwhile.
//!
//! A crate that computes a payload without a repair has the parts of one, which only read: `read_payload` and `add_payload`
//! judge each payload by the digest that the ledger keeps before it is used, and `other_digest` what was computed (`Judged`).
//!
//! It offers these modules of its proofs. `Rattle.aea_restore.proofs.Same` is for callers that name the restored blocks
//! otherwise than by steps and sums: what is said of a call holds for each test that names the same blocks. The others are for
//! callers that add up payloads themselves.
//!
//! - `Sums`: the XOR of lists of blocks whose payloads are wide (`sum_one`, `sum_both`, `sum_others`)
//! - `Parts`: the other blocks of equations that give a block are had, are blocks of the lattice that are picked, and add up to
//!   it (`others_ready`, `others_picked`, `others_sum`)
//! - `Planned`: the listed equations of a fate give its block (`sum_gives`)
//! - `Drawing`: the payload of an intact block is wide, and is drawn from it (`payload_wide`, `drawn_alone`); a block of the
//!   lattice is one of the archive (`block_in_archive`)
//! - `Judging`: sums of judged payloads, one block, one equation, one more and all of them (`judged_none`, `judged_equation`,
//!   `judged_start`, `judged_next`), in files that stay (`judged_moved`, `clash_moved`); which blocks were read (`among_input`,
//!   `among_next`); and that of intact blocks they are the payloads at the homes, with no clash (`judged_homes`, `homes_never`)
//! - `Items`: lists that are gone through by their places (`take_more`, `take_whole`, `got_some`, `item_has`)
#![tactic(auto)]

mod block;
mod fault;
mod laws;
mod payload;
mod stage;
mod steps;
mod sum;

pub use fault::RestoreFault;
pub use laws::{given_are_restorable, plans_can_be_restored};
pub use payload::{other_digest, read_payload};
pub use stage::restore;
pub use sum::add_payload;
