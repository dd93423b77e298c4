//! A reader of loss reports, line by line.
//!
//! Promises to the check above that exactly the texts of the grammar are read to their end, as their head and lines,
//! and that any other text is refused at its line, as bad or too long (`Reader::begin`, `Reader::next`: `HasRead`);
//! once settled, the answer stays.
//!
//! The definitions are in `specs/`: `Readings` (a reader, and what it returns), `Places` (where it is in its input),
//! `Pieces` (lines that are read piece by piece), `Heads` (the lines of a head) and `Words`.
//!
//! Read `Readings` first. It rests on the grammar of `aea_report` and on the sources and pages of `aea_io`.
#![tactic(auto)]

mod ahead;
mod answer;
mod begin;
mod fault;
mod heads;
mod judge;
mod lines;
mod reader;
mod walk;
mod words;

pub use answer::{Ending, Next};
pub use fault::ReportFault;
pub use reader::Reader;
