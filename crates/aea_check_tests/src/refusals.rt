//! Lines that are too long, and archives that are none.

use crate::archives::{archive_of, judges_bytes};
use aea_cli::Status;
use aea_disk::{Disk, SureDisk};
use aea_runs::run_over;
use std::alloc::Global;
use std::test::Fail;

// Whether a report of one line of so many bytes is refused over this disk.
fn is_too_long(alloc: Global, disk: &mut SureDisk, count: usize) -> bool {
    match vec![in alloc; b'x'; count] {
        Ok(input) => judges_bytes(alloc, disk, input.as_slice(), "refused: line too long 1\n"),
        Err(_) => false,
    }
}

// The same over an archive.
fn is_too_long_for_an_archive(alloc: Global, count: usize) -> bool {
    match archive_of(alloc, "create 3 2 5 64 4", b"abc") {
        Some(mut disk) => is_too_long(alloc, &mut disk, count),
        None => false,
    }
}

#[test]
fn a_line_may_not_be_too_long(rt: HostRuntime) -> Result<(), Fail> {
    assert!(rt; is_too_long_for_an_archive(rt.alloc(), 16_777_217));
    Ok(())
}

// Whether the command is refused so over this disk, and reads nothing.
fn is_refused(alloc: Global, disk: &mut SureDisk, line: &str, revealed: &str) -> bool {
    run_over(alloc, line, disk, 99).is_ok_and(|left| left.is(Status::Refused, "", revealed)
        && left.unread == 6)
}

// Whether the command is refused where there is no archive.
fn is_refused_without_one(alloc: Global, line: &str) -> bool {
    match SureDisk::new(alloc, 4, 4096, 4096) {
        Ok(mut none) => is_refused(alloc, &mut none, line, "refused: no archive\n"),
        Err(_) => false,
    }
}

// Whether the command is refused over a ledger with a bad byte.
fn is_refused_over_a_bad_one(alloc: Global, line: &str) -> bool {
    match archive_of(alloc, "create 3 2 5 64 4", b"abc") {
        Some(mut disk) => {
            disk.write(0, 9, &[4]).is_ok()
                && is_refused(alloc, &mut disk, line, "refused: ledger bad at 9\n")
        }
        None => false,
    }
}

#[test]
fn what_is_no_archive_is_not_judged(rt: HostRuntime) -> Result<(), Fail> {
    let alloc = rt.alloc();
    for line in ["verify", "explain d1"] {
        assert!(rt;
            is_refused_without_one(alloc, line) && is_refused_over_a_bad_one(alloc, line),
            "{line}"
        );
    }
    Ok(())
}
