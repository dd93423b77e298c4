//! A session of many uploads as a machine over messages: its states, its answers and its replies.
//!
//! Promises to a session over a disk that what the machine does by a message is a function of its state and the message, and
//! that each reply is printed as it is spelled (`print_made`, `print_refusal`, `print_closed` and the heads of the two others).
//! And it has the laws of the machine. Over every list of messages what a slot holds is what its own make of it, whatever stands
//! between them (`slots_stand_alone`). Of each message: a refusal leaves the state; names stay those of single slots; the blocks
//! of an upload stand at its nodes (`uploads_hold`); what is closed is read back (`closed_are_read`), in parts that are the
//! longest runs of its nodes (`runs_are_longest`); and no message takes away what is stored (`stored_stay`).
//!
//! The definitions are in `specs/`: `Machine` (the states and `step`), `Replies` (the bytes that answer a message), `Refusals`
//! (which answer a refusal is), `Solo` (the machine as one slot sees it), `Holding` (where blocks stand), `Sound` (what holds of
//! each state that is reached), `Runs` (the longest runs of nodes) and `Closings` (what each close leaves in a ledger).
//!
//! Read `Machine` (`step`) and `Replies` (`IsReply`) first. It rests on `aea_messages`, on `print` of `aea_io` and on the
//! definitions of `aea_archive`.
#![tactic(auto)]

mod laws;
mod refusal;
mod reply;

pub use laws::{
    asks_stay, closed_are_held, closed_are_placed, closed_are_read, closed_records_join,
    closings_go_on, limits_stay, names_stay_own, none_have_names, none_hold, refusals_stay,
    runs_are_longest, slots_stand_alone, slots_stay, stored_stay, uploads_hold,
};
pub use refusal::Refusal;
pub use reply::{
    print_closed, print_damaged, print_made, print_object_head, print_range_head, print_refusal,
};
