//! The commands of the program: their words, their table, and one call that carries out any of them over any disk, input and output.
//!
//! Promises to the top call: which command a list of words means (`parse_words`: `Means`); of each command what it touches, why it is
//! refused, and what a run of it does (`carry_out`: `Runs`); what is so of every answer (`IsSound`); and `runs_spare_blocks`, of runs that
//! leave the ledger.
//!
//! Read first in `specs/`: `Does` (the table: a line a command, and `Runs`) and `Words` (`Means`). What a command does is in its
//! room: `aea_command_store`, `aea_command_read`, `aea_command_loss` or `aea_command_session`, over `aea_command`. The command
//! `copies`, which needs the disk that keeps copies up, has its lines in the table; it is carried out by the top call.
#![tactic(auto)]

mod command;
mod create_words;
mod dispatch;
mod drill_words;
mod numbers;
mod rehearse_words;
mod spares;
mod words;

pub use command::{Command, parse_words};
pub use dispatch::carry_out;
pub use spares::runs_spare_blocks;
