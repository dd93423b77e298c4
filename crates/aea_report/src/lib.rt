//! Loss reports: what was lost of an archive, and how each block is restored or why it cannot be.
//!
//! Promises to the layers above that a text has one reading, or is bad or too long at one line
//! (`reports_have_one_reading`, `each_is_a_report_or_bad`); that heads and lines are printed as the grammar spells them
//! (`print_head`, `print_line`, `write_head`, `write_line`); and that what is printed for known blocks is a report, and
//! fits where exactly what they determine is intact (`printed_reports_fit`).
//!
//! The definitions are in `specs/`: `Format` (how a report is spelled), `Grammar` (which bytes are a report), `Faults`
//! (the line at which others are none), `Printed` (what is printed for the blocks that are known), `Fits` (when a report
//! is true of an archive) and `Laws`.
//!
//! Read `Grammar` (`IsReport`) and `Printed` (`IsPrinted`) first. It rests on `aea_io` and `aea_lattice`.
#![tactic(auto)]

mod head;
mod laws;
mod line;
mod print;
mod text;
mod write;

pub use head::Head;
pub use laws::{
    each_is_a_report_or_bad, lines_are_short, printed_are_one, printed_are_reports,
    printed_reports_fit, reports_are_bad_at_one_line, reports_are_not_bad,
    reports_have_one_reading,
};
pub use line::Line;
pub use print::{print_head, print_line, print_lost, print_lost_with};
pub use write::{write_head, write_line};
