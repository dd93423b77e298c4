//! Up to sixteen uploads at once over one archive, whose messages come in any order.
//!
//! Promises to a command above that a session answers each message as the machine of `aea_machine` does (`Session::take`:
//! `Takes`), whatever data list the ledger records, and also where it records none: the step of the machine in each state that
//! the session keeps, its reply, which is flushed, and what is left of the disk. The cells of all blocks that were recorded or
//! woven stay; a close leaves its record in every image before it replies; every image of every moment has the archive as it was
//! or with this close; and of a data list that the ledger records the session goes on to stand for it with the blocks that were
//! woven after it. `serve` takes the messages of a stream, one after the other (`ServesAll`), and the laws say what a session is
//! after them (`served_are_after`), and that messages may be cut and joined (`served_in_two`, `served_as_one`).
//!
//! A step has two functions. The first does it and gives its result: `open_upload`, `add_chunk`, `close_upload`, `abort_upload`
//! (`MakesStep`), or looks and prints: `read`, `patrol`. The second, `take_open` and so on, has the contract of the whole message,
//! `Takes`; `take_message` picks one by the message.
//!
//! The definitions are in `specs/`: `Stands` (what a session keeps, and what it stands for), `Steps` (a step of the machine that
//! is made), `Closes` (what a close leaves of the ledger), `Looks` (replies), `Takes` (all that a message leaves), `Serving` and
//! `Traces` (messages of a stream); `Chunks`, `May`, `Opening` and `Faults` are for private functions.
//!
//! Read `Stands`, `Takes` and `Serving` first. It rests on the laws of `aea_machine` and `aea_uploads`, on `load_heads` and
//! `commit_parts` of `aea_append`, and on the first pass, `DataBlocks` and `CellReader` of `aea_fetch`.
#![tactic(auto)]

mod abort;
mod aborting;
mod answer;
mod begin;
mod chunk;
mod chunking;
mod close;
mod closing;
mod copy;
mod fault;
mod laws;
mod looking;
mod open;
mod opening;
mod patrol;
mod read;
mod serving;
mod session;
mod take;
mod work;

pub use begin::BeginFault;
pub use fault::TakeFault;
pub use laws::{served_are_after, served_as_one, served_in_two};
pub use serving::{Stop, serve};
pub use session::Session;
pub use work::Work;
