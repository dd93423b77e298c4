//! Changes of the report of two codewords, each with what is said of it then.

use crate::archives::{judges, repairs};
use aea_cli::Status;
use aea_disk::SureDisk;
use aea_test_helpers::{TWO_CODEWORDS, report_of};
use std::alloc::Global;

// What is changed in the report, by what, and what is said of it.
type Row = (&'static str, &'static str, &'static str);

const CHANGES: &[Row] = &[
    ("d1 by 1 3 4 6", "d1 by 1 3 4 6", "accepted\n"),
    (
        "d1 by 1 3 4 6",
        "d1 by 1 3 4",
        "rejected 5 word-touches h6\n",
    ),
    (
        "d1 by 1 3 4 6",
        "d1 by 3 4 6",
        "rejected 5 word-misses d1\n",
    ),
    ("d1 by 1 3 4 6", "d1 by 3 1", "refused: bad line 5\n"),
    ("d1 by 1 3 4 6", "d1 by 1 1 3 4 6", "refused: bad line 5\n"),
    ("d1 by 1 3 4 6", "d1 by 1  3 4 6", "refused: bad line 5\n"),
    ("d1 by 1 3 4 6", "d1 by 1 3 4 6 ", "refused: bad line 5\n"),
    ("d1 by 1 3 4 6", "d1 by 1 3 4 12", "refused: bad line 5\n"),
    ("d1 by 1 3 4 6", "d1 by", "refused: bad line 5\n"),
    ("lost d1 by 1 3 4 6\n", "", "rejected 5 missing d1\n"),
    ("lost d1 by 1 3 4 6\n", "\n", "refused: bad line 5\n"),
    (
        "lost d1 by 1 3 4 6\n",
        "peeled d1\n",
        "rejected 5 still-bad d1\n",
    ),
    ("solved h3\n", "peeled h3\n", "rejected 4 wrong-count\n"),
    ("solved h3\n", "", "rejected 4 wrong-count\n"),
    (
        "solved h3\n",
        "lost h3 by 1 3 4 6\n",
        "rejected 9 not-damaged h3\n",
    ),
    (
        "solved h3\n",
        "solved h3\nsolved h3\n",
        "refused: bad line 10\n",
    ),
    ("lost d11 by 8 9 10 11\n", "", "rejected 23 missing d11\n"),
    (
        "lost d11 by 8 9 10 11\n",
        "lost d11 by 8 9 10 11",
        "refused: bad line 23\n",
    ),
    (
        "lost d11 by 8 9 10 11\n",
        "lost d11 by 11\n",
        "rejected 23 word-touches h11\n",
    ),
    (
        "counts 19 0 3 16",
        "counts 019 0 3 16",
        "refused: bad line 4\n",
    ),
    (
        "counts 19 0 3 16",
        "counts 19 3 0 16",
        "rejected 4 wrong-count\n",
    ),
    (
        "lattice 2 2 2 11",
        "lattice 2 2 2 12",
        "rejected 2 other-archive\n",
    ),
    ("aea-report 1", "aea-report 2", "refused: bad line 1\n"),
];

// A function, so that the proof of the test does not carry the table.
fn changes() -> &'static [Row] {
    CHANGES
}

// The report in which a text is changed, none where it has no such text.
fn changed_report(alloc: Global, report: &str, old: &str, new: &str) -> Option<String> {
    let (before, after) = report.split_once(old)?;
    format!(in alloc; "{before}{new}{after}").ok()
}

// Whether this is said of the report in which a text is changed.
fn is_said(
    alloc: Global,
    disk: &mut SureDisk,
    report: &str,
    change: (&str, &str),
    revealed: &str,
) -> bool {
    let (old, new) = change;
    match changed_report(alloc, report, old, new) {
        Some(changed) => judges(alloc, disk, changed.as_str(), revealed),
        None => false,
    }
}

// What was changed, and by what, in the first changed report of which something else is said; none where there is none.
fn first_said_otherwise(
    alloc: Global,
    disk: &mut SureDisk,
    report: &str,
) -> Option<(&'static str, &'static str)> {
    for (old, new, revealed) in changes() {
        if !is_said(alloc, disk, report, (old, new), revealed) {
            return Some((old, new));
        }
    }
    None
}

// The same of a report that a repair has to print first; ("no change", "another report") where it does not.
fn first_said_after_repair(
    alloc: Global,
    disk: &mut SureDisk,
    report: &str,
) -> Option<(&'static str, &'static str)> {
    if repairs(alloc, disk, Status::Damage, report) {
        first_said_otherwise(alloc, disk, report)
    } else {
        Some(("no change", "another report"))
    }
}

/// The same of the report of two codewords; ("no change", "no report") where this is not made.
pub fn first_change_said_otherwise(
    alloc: Global,
    disk: &mut SureDisk,
) -> Option<(&'static str, &'static str)> {
    match report_of(alloc, disk, "2 2 2 11", TWO_CODEWORDS) {
        Some(report) => first_said_after_repair(alloc, disk, report.as_str()),
        None => Some(("no change", "no report")),
    }
}
