//! Objects that are put into an archive: woven of what a source has, their cells written, and their record committed.
//!
//! Promises to the commands above that `put` stores all that a source has as one object, and `ingest_one` and `ingest_next` one
//! that they take from a stream, or say why not; and that whatever it returns, in every image of every moment the ledger is the
//! old one or has the record, and then the cells of its blocks (`HasPut`, `HasStored`, `MayHaveStored`). A fault of the disk
//! or of the source is returned as such and never as lack of memory: after any other result its count is what it was.
//!
//! `specs/Loading.antt` says what of the last parities is loaded, `specs/Weaving.antt` what was woven after the nodes of a
//! lattice, `specs/Keeping.antt` which heads are kept from one object to the next, `specs/Taking.antt` what of a source was
//! taken and woven, `specs/Causes.antt` why an object is not stored, `specs/Puts.antt` what is left where one was stored, or
//! may have been, and `specs/Frames.antt` what a stream of objects is.
//!
//! Read `Puts` first. It rests on `Ledger::append` of `aea_ledger`, `write_cell` of `aea_shelf`, `Heads` of
//! `aea_weave`, and on `read_block` and the definitions of `aea_archive`.
#![tactic(auto)]

mod commit;
mod fault;
mod frame;
mod heads;
mod ingest;
mod load;
mod object;
mod parts;
mod piece;
mod store;
mod weave;

pub use fault::PutFault;
pub use heads::{HeadFault, load_heads};
pub use ingest::{Ingest, IngestFault, ingest_next, ingest_one};
pub use parts::commit_parts;
pub use store::{Stored, put};
pub use weave::weave_node;
