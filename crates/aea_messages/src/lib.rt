//! Messages to a session of many uploads: what bytes are one, and a stream of them that is read.
//!
//! Promises to the layers above that `read_message` takes the next message of a stream and no byte past it, or says why not:
//! that the stream is at its end, that it ends inside a message, or at which place its bytes begin none; that it tells exactly
//! which bytes were taken in each case; and that a stream begins with one of these alone (`each_stream_begins`,
//! `messages_have_one_reading` and the laws beside them). After every answer but a failed read the source's count of faults is
//! what it was.
//!
//! The definitions are in `specs/`: `Messages` (how a message is spelled, and which bytes begin one, are cut inside one or begin
//! none), `Reading` (what a reading has taken), `Fields` (the same of one field) and `Readings` (the laws of streams).
//!
//! Read `Messages` (`IsMessage`, `IsBad`, `IsCut`) and `Reading` (`ReadsMessage`) first. It rests on `fill` of `aea_io` and on
//! `NameText` of `aea_catalog`.
#![tactic(auto)]

mod fault;
mod fields;
mod kinds;
mod laws;
mod message;
mod read;

pub use fault::MessageFault;
pub use laws::{
    bad_are_not_cut, bad_at_one_place, each_stream_begins, each_stream_is_read,
    messages_are_not_bad, messages_are_not_cut, messages_have_one_reading,
    streams_have_one_reading,
};
pub use message::{ChunkBytes, Message};
pub use read::read_message;
