//! The command `session`: many uploads at once, by messages.
//!
//! Promises to the table above what a run of it leaves, whatever it returns (`Sessions`): the replies to the messages of its input
//! are those of the machine of `aea_machine`, each over the files as they stand at its step; the archive grows by the closes
//! among them, and every image at the end has each close of whose reply a byte stands on the output; when it is refused
//! (`SessionCauses`), and the space that it needs (`FitsSession`, `FitsReplies`).
//!
//! Read first in `specs/`: `Session` (`Sessions`), then `Standing` (the replies), `Closes` (the archive), `Causes` and `Space`. It
//! rests on `Session` and `serve` of `aea_session`.
#![tactic(auto)]

mod failure;
mod laws;
pub mod session;

pub use laws::replies_stay;
