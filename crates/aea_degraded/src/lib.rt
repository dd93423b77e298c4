//! Objects and payloads of a damaged archive, without repair: a block which is damaged is computed from the intact blocks that
//! determine it, and nothing is written to the disk.
//!
//! Promises to the calls above that `fetch` appends the bytes of an object, each payload of it with the digest that the ledger
//! keeps, and drawn from the intact blocks (`HasFetched`, `own`); that else it names the first data block that these do not
//! determine (`IsFirstOpen`) or two digests that differ, before a byte is written where the disk's contents are known; and that
//! it fetches each object whose data blocks are determined (`complete`). That `payload` makes the XOR of payloads of a sum's
//! other blocks, each of which was judged, as is the XOR itself (`IsSummed`); that a clash is one of a block that was read and is
//! not intact, or of the sum's own block (`IsPayloadClash`); and that the block of a sum is the XOR of these blocks in every
//! lattice, all of them known where the equations are the listed ones (`sums_are_of_summands`, `listed_are_sums`,
//! `fates_are_sums`).
//!
//! `specs/Summed.antt` says of which blocks a sum is made, `Faults.antt` how a fault of `aea_restore` is told, and `Fetched.antt`
//! what a fetch appends. `Found.antt` has what is known of a block whose payload is read or computed, `Planned.antt` what the
//! first pass found out, and `Sent.antt` how the second one fails. Read `Fetched` and `Summed` first. It rests on `aea_search`
//! for the damaged blocks and their fates, on `aea_fetch` for the data blocks of an object and for the second pass, which is
//! `send_payloads` with a source of payloads of its own (`PlanReader`), and on `aea_restore` for a payload that is read and
//! judged.
#![tactic(auto)]

mod block;
mod checking;
mod computing;
mod fault;
mod fetching;
mod first;
mod laws;
mod left;
mod planning;
mod reader;
mod searching;
mod sending;
mod sum;

pub use computing::payload;
pub use fault::{FetchFault, PayloadFault};
pub use fetching::fetch;
pub use laws::{fates_are_sums, listed_are_sums, sums_are_of_summands};
