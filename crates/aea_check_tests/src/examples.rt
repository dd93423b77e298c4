//! Worked examples of checks and of explanations.

use crate::archives::{
    archive_of, archive_with, first_misjudged, judges, nineteen, put_only, report_with, reveals,
    run_explain, run_only, run_verify, scrubs,
};
use crate::changes::first_change_said_otherwise;
use aea_cli::Status;
use aea_disk::{Disk, SureDisk};
use aea_test_helpers::{TWO_CODEWORDS, report_of, shorten};
use std::alloc::Global;
use std::test::Fail;

// Whether the report is accepted, read to its end, and this is flushed.
fn is_accepted(alloc: Global, disk: &mut SureDisk, report: &str) -> bool {
    run_verify(alloc, disk, report.as_bytes()).is_ok_and(|left| {
        reveals(&left, "accepted\n") && left.unread == 0 && left.out.flushed == 9
    })
}

// Whether the report of the repair of a site begins with these blocks and is accepted, and nothing is damaged any more.
fn is_of_a_whole_archive(alloc: Global, disk: &mut SureDisk, report: &str) -> bool {
    report.contains("\ncounts 40 40 0 0\npeeled h1\npeeled d2\npeeled l3\n")
        && is_accepted(alloc, disk, report)
        && scrubs(alloc, disk, Status::Done, "total 160 damaged 0\n")
}

// Whether this is said of the report once the second site is gone again.
fn judges_without_site(alloc: Global, disk: &mut SureDisk, report: &str, revealed: &str) -> bool {
    shorten(disk, 2, 0).is_ok() && judges(alloc, disk, report, revealed)
}

// Whether the second site is repaired so, and its first block is said to be damaged still once the site is gone again.
fn is_repaired_and_lost(alloc: Global, disk: &mut SureDisk) -> bool {
    match report_with(alloc, disk, Status::Done) {
        Some(report) => {
            is_of_a_whole_archive(alloc, disk, report.as_str())
                && judges_without_site(alloc, disk, report.as_str(), "rejected 5 still-bad h1\n")
        }
        None => false,
    }
}

// Whether all that is so of an archive on four sites whose second one is gone.
fn is_a_lost_site_repaired(alloc: Global) -> bool {
    match archive_with(alloc, "create 3 2 5 16 4", 640) {
        Some(mut disk) => {
            shorten(&mut disk, 2, 0).is_ok() && is_repaired_and_lost(alloc, &mut disk)
        }
        None => false,
    }
}

#[test]
fn a_repaired_site_of_four_is_accepted(rt: HostRuntime) -> Result<(), Fail> {
    assert!(rt; is_a_lost_site_repaired(rt.alloc()));
    Ok(())
}

// The first change of the report of two codewords after which something else is said.
fn first_change_in_nineteen(alloc: Global) -> Option<(&'static str, &'static str)> {
    match nineteen(alloc) {
        Some(mut disk) => first_change_said_otherwise(alloc, &mut disk),
        None => Some(("no change", "no archive")),
    }
}

#[test]
fn a_report_of_two_codewords_is_judged(rt: HostRuntime) -> Result<(), Fail> {
    let found = first_change_in_nineteen(rt.alloc());
    assert!(rt; found == None, "{found:?}");
    Ok(())
}

// Reports that are cut.
fn cuts() -> [(&'static str, &'static str); 4] {
    [
        ("", "refused: bad line 1\n"),
        ("aea-report 1", "refused: bad line 1\n"),
        ("aea-report 1\n", "refused: bad line 2\n"),
        (
            "aea-report 1\nlattice 2 2 2 11\nledger none\n",
            "refused: bad line 4\n",
        ),
    ]
}

// A report that is cut in the middle of line 7.
fn cut_report(alloc: Global, disk: &mut SureDisk) -> Option<String> {
    let report = report_of(alloc, disk, "2 2 2 11", TWO_CODEWORDS)?;
    let (first, _rest) = report.as_str().split_once("h1 by 1 3")?;
    format!(in alloc; "{first}h1 by 1 3 4 6\nlost r1 b").ok()
}

// Whether the report of a drill, which has no seal, is that of another archive.
fn is_drill_of_another(alloc: Global, disk: &mut SureDisk) -> bool {
    match format!(in alloc; "aea-report 1\nlattice 2 2 2 11\nledger none\n{TWO_CODEWORDS}") {
        Ok(drilled) => judges(alloc, disk, drilled.as_str(), "rejected 3 other-archive\n"),
        Err(_) => false,
    }
}

// Whether the report that is cut in the middle of a line is refused for that line.
fn is_cut_refused(alloc: Global, disk: &mut SureDisk) -> bool {
    match cut_report(alloc, disk) {
        Some(cut) => judges(alloc, disk, cut.as_str(), "refused: bad line 7\n"),
        None => false,
    }
}

// The first of all these reports of which something else is said, none where there is none.
fn first_misnamed(alloc: Global, disk: &mut SureDisk) -> Option<&'static str> {
    if !run_only(alloc, disk, "repair", 4096) {
        Some("no repair")
    } else if !is_drill_of_another(alloc, disk) {
        Some("the report of a drill")
    } else if !is_cut_refused(alloc, disk) {
        Some("the report that is cut in line 7")
    } else {
        first_misjudged(alloc, disk, &cuts())
    }
}

// The same in the archive in which the nineteen blocks are damaged.
fn first_misnamed_in_nineteen(alloc: Global) -> Option<&'static str> {
    match nineteen(alloc) {
        Some(mut disk) => first_misnamed(alloc, &mut disk),
        None => Some("no archive"),
    }
}

#[test]
fn reports_without_a_seal_and_cut_ones_are_named(rt: HostRuntime) -> Result<(), Fail> {
    let found = first_misnamed_in_nineteen(rt.alloc());
    assert!(rt; found == None, "{found:?}");
    Ok(())
}

// Whether the first site of an archive of one node is gone, the lines of a report, and what is said of it.
fn of_one_node() -> [(bool, &'static str, &'static str); 8] {
    [
        (true, "counts 0 0 0 0\n", "rejected 5 missing d1\n"),
        (
            true,
            "counts 1 1 0 0\npeeled d1\n",
            "rejected 5 still-bad d1\n",
        ),
        (
            true,
            "counts 1 0 0 1\nlost d1 by 1\n",
            "rejected 5 word-touches h1\n",
        ),
        (
            false,
            "counts 1 0 0 1\nlost d1 by 1\n",
            "rejected 5 not-damaged d1\n",
        ),
        (
            false,
            "counts 2 1 0 0\npeeled d1\n",
            "rejected 4 wrong-count\n",
        ),
        (false, "counts 1 1 0 0\npeeled d1\n", "accepted\n"),
        (false, "counts 1 0 1 0\nsolved l1\n", "accepted\n"),
        (false, "counts 0 0 0 0\n", "accepted\n"),
    ]
}

// Whether this is said of a report of the archive with these numbers and lines.
fn judges_lines(
    alloc: Global,
    disk: &mut SureDisk,
    numbers: &str,
    lines: &str,
    revealed: &str,
) -> bool {
    match report_of(alloc, disk, numbers, lines) {
        Some(report) => judges(alloc, disk, report.as_str(), revealed),
        None => false,
    }
}

// Whether this is said of a report with these lines.
fn is_judged(alloc: Global, is_gone: bool, lines: &str, revealed: &str) -> bool {
    match archive_of(alloc, "create 3 2 5 64 4", b"abc") {
        Some(mut disk) => {
            (!is_gone || shorten(&mut disk, 1, 0).is_ok())
                && judges_lines(alloc, &mut disk, "3 2 5 1", lines, revealed)
        }
        None => false,
    }
}

#[test]
fn reports_of_one_node_are_judged(rt: HostRuntime) -> Result<(), Fail> {
    for (is_gone, lines, revealed) in of_one_node() {
        assert!(rt; is_judged(rt.alloc(), is_gone, lines, revealed), "{lines}");
    }
    Ok(())
}

// Puts a fence and one more object after a lost node. It says whether the ledger is as long between them as it is to be.
fn puts_behind_a_fence(alloc: Global, disk: &mut SureDisk) -> bool {
    run_only(alloc, disk, "fence", 99)
        && disk.len(0) == Ok(149)
        && put_only(alloc, disk, "b", b"abc")
}

// Whether the repair's report ends so, and is accepted.
fn is_accepted_later(alloc: Global, disk: &mut SureDisk, lines: &str) -> bool {
    match report_with(alloc, disk, Status::Damage) {
        Some(report) => {
            report.as_str().ends_with(lines) && judges(alloc, disk, report.as_str(), "accepted\n")
        }
        None => false,
    }
}

// Whether this report is accepted, and is that of another archive once there is a fence and one more object, when the repair's
// report ends with the same lines.
fn is_report_accepted_until_a_fence(
    alloc: Global,
    disk: &mut SureDisk,
    report: &str,
    lines: &str,
) -> bool {
    judges(alloc, disk, report, "accepted\n")
        && puts_behind_a_fence(alloc, disk)
        && is_accepted_later(alloc, disk, lines)
        && judges(alloc, disk, report, "rejected 2 other-archive\n")
}

// The same of a report with these lines.
fn is_accepted_until_a_fence(alloc: Global, disk: &mut SureDisk, lines: &str) -> bool {
    match report_of(alloc, disk, "1 1 0 1", lines) {
        Some(report) => { is_report_accepted_until_a_fence(alloc, disk, report.as_str(), lines) }
        None => false,
    }
}

// Whether this is so of a chain whose one node is lost, and a word of both nodes touches the datum of the second one, which is
// there.
fn is_a_lost_node_judged(alloc: Global, disk: &mut SureDisk) -> bool {
    let lines = "counts 2 0 0 2\nlost d1 by 1\nlost h1 by 1\n";
    let wrong = "counts 1 0 0 1\nlost d1 by 1 2\n";
    let revealed = "rejected 5 word-touches d2\n";
    shorten(disk, 1, 0).is_ok()
        && is_accepted_until_a_fence(alloc, disk, lines)
        && judges_lines(alloc, disk, "1 1 0 2", wrong, revealed)
}

// The same of a chain that is made here.
fn is_a_lost_node_of_a_chain_judged(alloc: Global) -> bool {
    match archive_of(alloc, "create 1 1 0 16 1", b"abc") {
        Some(mut disk) => is_a_lost_node_judged(alloc, &mut disk),
        None => false,
    }
}

#[test]
fn a_report_of_what_is_lost_before_a_fence_is_accepted(rt: HostRuntime) -> Result<(), Fail> {
    assert!(rt; is_a_lost_node_of_a_chain_judged(rt.alloc()));
    Ok(())
}

// A block, the status, and what is printed of it.
fn explanations() -> [(&'static str, Status, &'static str); 9] {
    [
        (
            "d5",
            Status::Done,
            "damaged d5\nsum h1 r1 h3 r3 h4 r4 h5 h6 r6\n",
        ),
        ("d1", Status::Damage, "damaged d1\nword 1 3 4 6\n"),
        ("d2", Status::Done, "intact d2\nsum h2\n"),
        ("d11", Status::Damage, "damaged d11\nword 8 9 10 11\n"),
        ("d12", Status::Refused, "refused: bad block\n"),
        ("l1", Status::Refused, "refused: bad block\n"),
        ("d0", Status::Refused, "refused: bad block\n"),
        ("", Status::Refused, "refused: bad block\n"),
        ("D1", Status::Refused, "refused: bad block\n"),
    ]
}

// Whether this is said of the block, with this status, and flushed, and nothing is read.
fn is_explained(
    alloc: Global,
    disk: &mut SureDisk,
    block: &str,
    status: Status,
    revealed: &str,
) -> bool {
    let (out, err) = if status == Status::Refused {
        ("", revealed)
    } else {
        (revealed, "")
    };
    run_explain(alloc, disk, block).is_ok_and(|left| {
        left.is(status, out, err) && left.unread == 6 && left.out.flushed == out.len()
    })
}

// The first of these blocks of which something else is said, none where there is none.
fn first_explained_otherwise(alloc: Global, disk: &mut SureDisk) -> Option<&'static str> {
    for (block, status, revealed) in explanations() {
        if !is_explained(alloc, disk, block, status, revealed) {
            return Some(block);
        }
    }
    None
}

// The same in the archive in which the nineteen blocks are damaged.
fn first_explained_otherwise_in_nineteen(alloc: Global) -> Option<&'static str> {
    match nineteen(alloc) {
        Some(mut disk) => first_explained_otherwise(alloc, &mut disk),
        None => Some("no archive"),
    }
}

#[test]
fn blocks_are_explained(rt: HostRuntime) -> Result<(), Fail> {
    let found = first_explained_otherwise_in_nineteen(rt.alloc());
    assert!(rt; found == None, "{found:?}");
    Ok(())
}

// Sites that are lost one after another, and what is said of a block then: each of the four blocks of the one node reveals the
// datum.
fn losses() -> [(u8, &'static str, &'static str); 5] {
    [
        (2, "d1", "intact d1\nsum r1\n"),
        (3, "d1", "intact d1\nsum l1\n"),
        (4, "d1", "intact d1\nword 1\n"),
        (4, "h1", "damaged h1\nsum h1\n"),
        (1, "d1", "damaged d1\nword 1\n"),
    ]
}

// Whether this is printed of the block, and nothing on the errors.
fn is_printed(alloc: Global, disk: &mut SureDisk, block: &str, revealed: &str) -> bool {
    run_explain(alloc, disk, block).is_ok_and(|left| {
        left.out.bytes() == revealed.as_bytes() && left.err.bytes().is_empty()
    })
}

// The first of these losses after which something else is printed, with its block; none where there is none.
fn first_printed_otherwise(alloc: Global, disk: &mut SureDisk) -> Option<(u8, &'static str)> {
    for (gone, block, revealed) in losses() {
        if shorten(disk, gone, 0).is_err() || !is_printed(alloc, disk, block, revealed) {
            return Some((gone, block));
        }
    }
    None
}

// The same in an archive of one node.
fn first_printed_otherwise_of_one_node(alloc: Global) -> Option<(u8, &'static str)> {
    match archive_of(alloc, "create 3 2 5 64 4", b"abc") {
        Some(mut disk) => first_printed_otherwise(alloc, &mut disk),
        None => Some((0, "no archive")),
    }
}

#[test]
fn the_last_that_stands_for_its_node_is_a_word(rt: HostRuntime) -> Result<(), Fail> {
    let found = first_printed_otherwise_of_one_node(rt.alloc());
    assert!(rt; found == None, "{found:?}");
    Ok(())
}
