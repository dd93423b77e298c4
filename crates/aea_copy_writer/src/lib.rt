//! Copies of the ledger are written: entries after a closed gate, a whole copy, and the ledger from a copy.
//!
//! Promises to the adoption of copies and to a disk that keeps them up: of a copy that gets entries (`write_entries`), that it
//! stays as it is up to and with its closed gate, at each moment, and which bytes are there at `Ok`; of a copy or a ledger
//! that is made anew (`make_copy`, `make_ledger`), that at each moment it is as it was, or not begun, or whole. All of it over a
//! disk without rules of its own. No memory is taken. Read `specs/Entries.antt` (`HasWritten`) and `specs/Anew.antt` first.
//! It rests on `aea_disk`, on `aea_copies` for how a copy is spelled, and on `sha2`.
#![tactic(auto)]

mod anew;
mod copy;
mod entries;
mod entry;
mod ledger;
mod parts;
mod through;

pub use copy::make_copy;
pub use entries::{Written, write_entries};
pub use ledger::make_ledger;
pub use through::{close_gate, open_gate_at};
