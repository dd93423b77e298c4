//! States that meet the premises of the calls.
//!
//! Promises that there are archives with an object, whose ledger records its block, whose blocks are all intact, and that stay honest
//! where a site is lost (`damaged_archives_stand`). On a disk that lists its calls each has one image; and on disks in memory runs of
//! `get`, `fetch`, `scrub`, `explain`, `repair`, `verify`, `fence` and `upgrade` meet all that `run_surely` of `aea_cli` asks
//! (`runs_are_met`), also with two whole copies of the ledger, which are adopted as they are (`copies_are_met`); and so does a run of
//! `session` over an input without messages, once the limit was raised (`sessions_are_met`). They are laws alone; nothing is done.
//!
//! `specs/Standing.antt` has the archives, `Logs.antt` the disks with images, `Meeting.antt` what a run meets and with how much space,
//! `Sessions.antt` the raised limit, and `Copies.antt` the copies.
//!
//! Read `Meeting` (`IsMet`, `Meets`, `AreMet`) first. It rests on `aea_cli`, and on the definitions of the commands.
#![tactic(auto)]

mod standing;

pub use standing::{copies_are_met, damaged_archives_stand, runs_are_met, sessions_are_met};
