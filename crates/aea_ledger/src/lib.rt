//! The ledger: file 0 of the disk. It says what the shape of an archive is, which objects it has, and which digests their
//! blocks have.
//!
//! Promises to the archive above, over a disk whose contents are known, that `open_ledger` returns Ok exactly on the
//! files in the grammar, and otherwise that there is no archive, or the first bad place; that `create_ledger` leaves no
//! archive or the empty one in every image from its first sync on, and each call that appends the old ledger or the new
//! one at every moment; and that after Ok every image has the new one (`LeavesOldOrNew`, `HasCommitted`). A ready disk takes
//! all calls of these, whatever rule it has, and where it has the space none of them fails.
//!
//! What records are, and which bytes are a ledger, is defined in `aea_records`. `specs/Recorded.antt` says which data a ledger
//! records, `specs/Values.antt` what a contract sees of an opened one, `specs/Openings.antt` what opening returns,
//! `specs/Stops.antt` what stops leave, `specs/Next.antt` which record is added, `specs/Lying.antt` where objects lie, and
//! `specs/Taking.antt` what a disk takes, and has space for, while a ledger is made or added to. For calls above that go on
//! after others `proofs/Readying.antt` has what stays of that.
//!
//! Read `Values` (`Opened`) and `Stops` (`HasOldOrNew`) first. It rests on `aea_records`, `aea_catalog` and `aea_disk`.
#![tactic(auto)]

mod append;
mod create;
mod cursor;
mod entry;
mod fences;
mod input;
mod ledger;
mod open;
mod raise;
mod reader;

pub use append::AppendFault;
pub use create::{CreateFault, create_ledger};
pub use fences::FenceFault;
pub use ledger::Ledger;
pub use open::{OpenFault, open_ledger};
pub use raise::UpgradeFault;
