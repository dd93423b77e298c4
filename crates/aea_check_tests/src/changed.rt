//! Each single change of reports of damaged archives, against the plain judge.

use crate::archives::{
    archive_of, archive_with, damaged_blocks, judges, nineteen, printed, put_only, run_only,
    spoil_cells,
};
use crate::lines::{Change, changed_text, other_lines};
use crate::plain::{Facts, plain_verdict};
use aea_disk::SureDisk;
use aea_lattice::{BlockId, Lattice};
use aea_test_helpers::{report_of, shorten, spoil_cell};
use std::alloc::Global;
use std::test::Fail;

// What is known of an archive that was repaired: its lattice, the blocks that are damaged still; and of its report the line of
// counts, and the lines of blocks.
#[derive(Drop)]
struct Repaired {
    lattice: Lattice,
    damaged: Vec<BlockId>,
    counts: String,
    lines: String,
}

// The line of counts of a report, and the lines behind it.
fn split_report(alloc: Global, report: &str) -> Option<(String, String)> {
    let (_head, behind) = report.split_once("\ncounts ")?;
    let (counts, lines) = behind.split_once('\n')?;
    let counts = format!(in alloc; "counts {counts}").ok()?;
    let lines = String::from_str(alloc, lines).ok()?;
    Some((counts, lines))
}

// The same of the report of a repair.
fn counts_and_lines(alloc: Global, disk: &mut SureDisk) -> Option<(String, String)> {
    match printed(alloc, disk, "repair", 16_384) {
        Some(report) => split_report(alloc, report.as_str()),
        None => None,
    }
}

// Repairs the archive, which has this lattice.
fn repair_known(alloc: Global, disk: &mut SureDisk, lattice: Lattice) -> Option<Repaired> {
    let (counts, lines) = counts_and_lines(alloc, disk)?;
    let damaged = damaged_blocks(alloc, disk)?;
    Some(Repaired {
        lattice,
        damaged,
        counts,
        lines,
    })
}

// The same of this archive, which is given back beside what is known of it. None where there is no archive or no lattice.
fn make_repaired(
    alloc: Global,
    disk: Option<SureDisk>,
    lattice: Option<Lattice>,
) -> Option<(SureDisk, Repaired)> {
    let lattice = lattice?;
    let mut disk = disk?;
    let known = repair_known(alloc, &mut disk, lattice)?;
    Some((disk, known))
}

// The report of the archive with this line of counts and these lines.
fn report_with_lines(
    alloc: Global,
    disk: &mut SureDisk,
    lattice: &Lattice,
    counts: &str,
    lines: &str,
) -> Option<String> {
    let (alpha, s, p, n) = (lattice.alpha(), lattice.s(), lattice.p(), lattice.n());
    let numbers = format!(in alloc; "{alpha} {s} {p} {n}").ok()?;
    let both = format!(in alloc; "{counts}\n{lines}").ok()?;
    report_of(alloc, disk, numbers.as_str(), both.as_str())
}

// Whether a check says of that report what the plain judge says.
fn agree(alloc: Global, disk: &mut SureDisk, facts: Facts, counts: &str, lines: &str) -> bool {
    let report = report_with_lines(alloc, disk, facts.lattice, counts, lines);
    let want = plain_verdict(alloc, facts, counts, lines);
    match (report, want) {
        (Some(report), Some(want)) => judges(alloc, disk, report.as_str(), want.as_str()),
        _ => false,
    }
}

// The same of the archive that was repaired.
fn agree_on(
    alloc: Global,
    disk: &mut SureDisk,
    known: &Repaired,
    counts: &str,
    lines: &str,
) -> bool {
    let facts = Facts {
        lattice: &known.lattice,
        damaged: known.damaged.as_slice(),
    };
    agree(alloc, disk, facts, counts, lines)
}

// Whether both agree on the archive's own report with a changed line.
fn agree_on_changed(
    alloc: Global,
    disk: &mut SureDisk,
    known: &Repaired,
    number: usize,
    change: Change,
) -> bool {
    match changed_text(alloc, known.lines.as_str(), number, change) {
        Some(lines) => agree_on(alloc, disk, known, known.counts.as_str(), lines.as_str()),
        None => false,
    }
}

// Whether they agree where this line is left out, doubled, or exchanged with the next.
fn agree_on_moved_line(
    alloc: Global,
    disk: &mut SureDisk,
    known: &Repaired,
    number: usize,
) -> bool {
    agree_on_changed(alloc, disk, known, number, Change::LeftOut)
        && agree_on_changed(alloc, disk, known, number, Change::Doubled)
        && agree_on_changed(alloc, disk, known, number, Change::ExchangedWithNext)
}

// The same of each line.
fn agree_on_moved(alloc: Global, disk: &mut SureDisk, known: &Repaired) -> bool {
    let mut goes_on = true;
    for number in 0..known.lines.as_str().lines().count() {
        goes_on = goes_on && agree_on_moved_line(alloc, disk, known, number);
    }
    goes_on
}

// Whether they agree where each of these lines takes the place of the one with this number.
fn agree_on_others(
    alloc: Global,
    disk: &mut SureDisk,
    known: &Repaired,
    number: usize,
    others: &str,
) -> bool {
    let mut goes_on = true;
    for other in others.lines() {
        goes_on = goes_on
            && agree_on_changed(alloc, disk, known, number, Change::ReplacedBy(other));
    }
    goes_on
}

// Whether they agree where another line takes the place of this one, which has this number.
fn agree_on_replaced_line(
    alloc: Global,
    disk: &mut SureDisk,
    known: &Repaired,
    number: usize,
    line: &str,
) -> bool {
    match other_lines(alloc, line, known.lattice.n()) {
        Some(others) => agree_on_others(alloc, disk, known, number, others.as_str()),
        None => false,
    }
}

// The same of each line.
fn agree_on_replaced(alloc: Global, disk: &mut SureDisk, known: &Repaired) -> bool {
    let mut goes_on = true;
    for (number, line) in known.lines.as_str().lines().enumerate() {
        goes_on = goes_on && agree_on_replaced_line(alloc, disk, known, number, line);
    }
    goes_on
}

// Whether they agree with the right counts, with these wrong ones, and with some others.
fn agree_on_all_counts(alloc: Global, disk: &mut SureDisk, known: &Repaired, wrong: &str) -> bool {
    let mut goes_on = true;
    for counts in [
        known.counts.as_str(),
        wrong,
        "counts 0 0 0 0",
        "counts 1 1 0 0",
        "counts 19 3 0 16",
        "counts 19 0 4 15",
        "counts 20 0 3 17",
        "counts 4294967295 0 0 0",
    ] {
        goes_on = goes_on && agree_on(alloc, disk, known, counts, known.lines.as_str());
    }
    goes_on
}

// The same, where the wrong counts are the right ones with one more digit.
fn agree_on_counts(alloc: Global, disk: &mut SureDisk, known: &Repaired) -> bool {
    let right = known.counts.as_str();
    match format!(in alloc; "{right}0") {
        Ok(wrong) => agree_on_all_counts(alloc, disk, known, wrong.as_str()),
        Err(_) => false,
    }
}

// Nineteen blocks of AE(2,2,2) are damaged: three are determined, and the others are in two codewords.
fn two_codewords(alloc: Global) -> Option<(SureDisk, Repaired)> {
    make_repaired(alloc, nineteen(alloc), Lattice::new(2, 2, 2, 11))
}

// One of four sites of AE(3,2,5) is gone, and all four blocks of the last node.
fn without_a_site(alloc: Global) -> Option<SureDisk> {
    let mut disk = archive_with(alloc, "create 3 2 5 16 4", 112)?;
    let is_damaged = shorten(&mut disk, 2, 0).is_ok()
        && spoil_cells(&mut disk, 4, &[24, 25, 26, 27]);
    is_damaged.then_some(disk)
}

// That archive, repaired.
fn a_site(alloc: Global) -> Option<(SureDisk, Repaired)> {
    make_repaired(alloc, without_a_site(alloc), Lattice::new(3, 2, 5, 7))
}

// The lattice of a chain of four nodes with a fence after its second one.
fn fenced_chain() -> Option<Lattice> {
    Lattice::new(1, 1, 0, 2)?.fenced()?.grown(4)
}

// A chain with a fence after its second node: the blocks of the second and of the fourth node are damaged, and the last datum
// before the last one.
fn with_a_fence(alloc: Global) -> Option<SureDisk> {
    let mut disk = archive_of(alloc, "create 1 1 0 16 1", b"0123456789abcdefg")?;
    let is_damaged = run_only(alloc, &mut disk, "fence", 99)
        && put_only(alloc, &mut disk, "b", b"0123456789abcdefg")
        && spoil_cells(&mut disk, 1, &[2, 3, 4, 6, 7]);
    is_damaged.then_some(disk)
}

// That archive, repaired.
fn a_fence(alloc: Global) -> Option<(SureDisk, Repaired)> {
    make_repaired(alloc, with_a_fence(alloc), fenced_chain())
}

// The names of these three.
fn names() -> [&'static str; 3] {
    ["two codewords", "a site", "a fence"]
}

// The archive of this name.
fn named(alloc: Global, name: &str) -> Option<(SureDisk, Repaired)> {
    match name {
        "two codewords" => two_codewords(alloc),
        "a site" => a_site(alloc),
        _ => a_fence(alloc),
    }
}

// Whether they agree in the archive of this name where its lines are moved.
fn are_moved_in(alloc: Global, name: &str) -> bool {
    match named(alloc, name) {
        Some((mut disk, known)) => agree_on_moved(alloc, &mut disk, &known),
        None => false,
    }
}

// The same where they are replaced.
fn are_replaced_in(alloc: Global, name: &str) -> bool {
    match named(alloc, name) {
        Some((mut disk, known)) => agree_on_replaced(alloc, &mut disk, &known),
        None => false,
    }
}

// The same where the counts are others.
fn are_counted_in(alloc: Global, name: &str) -> bool {
    match named(alloc, name) {
        Some((mut disk, known)) => agree_on_counts(alloc, &mut disk, &known),
        None => false,
    }
}

#[test]
fn lines_that_are_moved_are_judged_plainly(rt: HostRuntime) -> Result<(), Fail> {
    for name in names() {
        assert!(rt; are_moved_in(rt.alloc(), name), "{name}");
    }
    Ok(())
}

#[test]
fn lines_of_two_codewords_that_are_replaced_are_judged_plainly(
    rt: HostRuntime,
) -> Result<(), Fail> {
    assert!(rt; are_replaced_in(rt.alloc(), "two codewords"));
    Ok(())
}

#[test]
fn lines_of_a_site_that_are_replaced_are_judged_plainly(rt: HostRuntime) -> Result<(), Fail> {
    assert!(rt; are_replaced_in(rt.alloc(), "a site"));
    Ok(())
}

#[test]
fn lines_around_a_fence_that_are_replaced_are_judged_plainly(rt: HostRuntime) -> Result<(), Fail> {
    assert!(rt; are_replaced_in(rt.alloc(), "a fence"));
    Ok(())
}

#[test]
fn counts_are_judged_plainly(rt: HostRuntime) -> Result<(), Fail> {
    for name in names() {
        assert!(rt; are_counted_in(rt.alloc(), name), "{name}");
    }
    Ok(())
}

// Whether they agree on the archive's own report, where the blocks that a scrub names now are damaged.
fn agree_on_own(alloc: Global, disk: &mut SureDisk, known: &Repaired) -> bool {
    match damaged_blocks(alloc, disk) {
        Some(damaged) => {
            let facts = Facts {
                lattice: &known.lattice,
                damaged: damaged.as_slice(),
            };
            agree(
                alloc,
                disk,
                facts,
                known.counts.as_str(),
                known.lines.as_str(),
            )
        }
        None => false,
    }
}

// The first of some blocks with which they do not agree once it and those before it are damaged, too.
fn first_damaged_again(alloc: Global, disk: &mut SureDisk, known: &Repaired) -> Option<u32> {
    for number in [4u32, 7, 13, 20] {
        if spoil_cell(disk, 3, 64, number, 20).is_err() || !agree_on_own(alloc, disk, known) {
            return Some(number);
        }
    }
    None
}

// The same in the archive of this name; 0 where there is none.
fn first_damaged_again_in(alloc: Global, name: &str) -> Option<u32> {
    match named(alloc, name) {
        Some((mut disk, known)) => first_damaged_again(alloc, &mut disk, &known),
        None => Some(0),
    }
}

#[test]
fn reports_of_an_archive_that_is_damaged_again_are_judged_plainly(
    rt: HostRuntime,
) -> Result<(), Fail> {
    for name in ["two codewords", "a site"] {
        let wrong = first_damaged_again_in(rt.alloc(), name);
        assert!(rt; wrong == None, "{name}, {wrong:?}");
    }
    Ok(())
}
