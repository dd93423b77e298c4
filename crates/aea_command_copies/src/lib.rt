//! `copies`: the ledger of an archive gets two copies.
//!
//! Promises to the table of the commands what the command shows over the disk that keeps copies up (`Begins`), and to the top call what
//! it leaves of the disk that is lent to that (`MakesCopies`): both copies whole where it ended well, and in each image no copy
//! begun or the first one whole. Read `specs/Copies.antt` first. It rests on `aea_mirror` for the copies, and on `aea_command` for what
//! every command is.
#![tactic(auto)]

pub mod copies;
