//! Reports that are judged: one that fits, one of another archive, and cuts.

use crate::archives::archive;
use aea_disk::{Disk, SureDisk};
use aea_io::MemSource;
use aea_ledger::open_ledger;
use aea_test_helpers::{PLAIN, report_of};
use aea_verify::{Verdict, VerifyFault, Why, verify};
use std::alloc::Global;
use std::test::Fail;

// The report of another archive in which nothing is damaged.
const OF_ANOTHER: &[u8] = b"aea-report 1\nlattice 1 1 0 1\nledger \
ba7816bf8f01cfea414140de5dae2223b00361a396177a9cb410ff61f20015ad\ncounts 0 0 0 0\n";

// Opens the archive and judges what the source has. It says whether the answer is the wanted one.
fn judges<D: Disk>(
    alloc: Global,
    disk: &mut D,
    source: &mut MemSource,
    want: Result<Verdict, VerifyFault>,
) -> bool {
    match open_ledger(alloc, disk) {
        Ok(ledger) => verify(alloc, &ledger, disk, source) == want,
        Err(_) => false,
    }
}

// The same of these bytes.
fn is_judged<D: Disk>(
    alloc: Global,
    disk: &mut D,
    bytes: &[u8],
    want: Result<Verdict, VerifyFault>,
) -> bool {
    match MemSource::new(alloc, bytes, &[]) {
        Ok(mut source) => judges(alloc, disk, &mut source, want),
        Err(_) => false,
    }
}

// Whether the report is accepted, and that of another archive is rejected by its third line.
fn are_distinguished(alloc: Global, disk: &mut SureDisk, report: &[u8]) -> bool {
    let rejected = Verdict::Rejected {
        line: 3,
        why: Why::OtherArchive,
    };
    is_judged(alloc, disk, report, Ok(Verdict::Accepted))
        && is_judged(alloc, disk, OF_ANOTHER, Ok(rejected))
}

// Whether this line of the report is bad where it has only so many bytes.
fn is_bad(alloc: Global, disk: &mut SureDisk, report: &[u8], count: usize, line: u32) -> bool {
    match report.get(..count) {
        Some(front) => is_judged(alloc, disk, front, Err(VerifyFault::BadLine { line })),
        None => false,
    }
}

// Whether a report of 116 bytes is bad where it is cut within its third line, before its fourth, and before its last newline.
fn are_cuts_bad(alloc: Global, disk: &mut SureDisk, report: &[u8]) -> bool {
    report.len() == 116
        && is_bad(alloc, disk, report, 58, 3)
        && is_bad(alloc, disk, report, 101, 4)
        && is_bad(alloc, disk, report, 115, 4)
}

// Whether the report of the archive is told from others, and is bad where it is cut.
fn is_report_judged(alloc: Global, disk: &mut SureDisk) -> bool {
    match report_of(alloc, disk, "1 1 0 1", "counts 0 0 0 0\n") {
        Some(report) => {
            are_distinguished(alloc, disk, report.as_bytes())
                && are_cuts_bad(alloc, disk, report.as_bytes())
        }
        None => false,
    }
}

#[test]
fn a_report_is_judged(rt: HostRuntime) -> Result<(), Fail> {
    let mut disk = archive(rt.alloc(), &PLAIN, &[97; 16]).ok_or("no archive")?;
    assert!(rt; is_report_judged(rt.alloc(), &mut disk));
    Ok(())
}
