//! Objects that are got back from an archive.
//!
//! Promises to the command above that `get` appends the bytes of an object after a first pass has found all its data
//! blocks intact, or names the first that is not (`HasGot`); and that of objects that were put, and honest survivors,
//! these are the bytes that were put (`AreOfPuts`, with `puts_go_on`).
//!
//! `DataBlocks` gives the data blocks of an object one after the other. The two passes of `get` are `check_object` and
//! `send_object`, for calls that do something between them. `send_payloads` is the second pass for any way to have the
//! payloads of blocks, a `PayloadSource`, which says of which blocks it may be asked (`ready`), which bytes are a payload to
//! it (`has`), and what its faults say (`says`). That of `get` is `CellReader`, which reads their cells; that of `fetch`, in
//! `aea_degraded`, computes the damaged ones.
//!
//! `specs/Payloads.antt` has what a payload is to one who reads its cell, `specs/Copies.antt` what is written of payloads,
//! whatever a payload is, `specs/Gets.antt` what `get` appends, and why it does not, `specs/Cells.antt` why a cell gives no
//! payload, `specs/Cursors.antt` the blocks that are left of an object, and `specs/Puts.antt` what objects that were put one
//! after the other are in the archive.
//!
//! These lemmas hold of any word for a payload: of `Rattle.aea_fetch.proofs.Loops` for the invariants of loops over blocks, of
//! `Copies` for one block, the end of the page and the length of an object, of `Payloads` for payloads that are joined and
//! cut, and of `Firsts` for the first block that is not good. Those of `Broken` are for calls after others that only read.
//!
//! Read `Payloads`, `Copies` and `Gets` first. It rests on `read_block` of `aea_archive`, on its `specs/Objects.antt`, and on
//! the catalogue of the opened ledger.
#![tactic(auto)]

mod cells;
mod check;
mod copy;
mod cursor;
mod fault;
mod fetch;
mod laws;
mod source;

pub use cells::{CellFault, CellReader};
pub use check::check_object;
pub use copy::send_payloads;
pub use cursor::DataBlocks;
pub use fault::GetFault;
pub use fetch::{get, send_object};
pub use laws::{puts_go_on, recorded_objects_have_their_digests};
pub use source::{PayloadSource, SendFault};
