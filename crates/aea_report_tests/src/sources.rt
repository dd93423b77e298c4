//! Reports from sources that give a byte at a time or fail.

use crate::plain::plain_outcome;
use crate::reading::{Found, read_whole, report};
use aea_io::{MemSource, StdSource};
use aea_reader::ReportFault;
use aea_test_helpers::SlowReader;
use std::alloc::Global;
use std::test::Fail;

// Whether the reader says of these bytes, one at a time, what the plain one does.
fn is_judged_slowly(alloc: Global, bytes: &[u8]) -> Result<bool, Fail> {
    let want = plain_outcome(alloc, bytes)?;
    let mut source = StdSource::new(SlowReader {
        rest: bytes,
        calls: 0,
        fails: 0,
    });
    Ok(read_whole(alloc, &mut source, bytes)? == Some(want))
}

#[test]
fn a_source_may_give_one_byte_at_a_time(rt: HostRuntime) -> Result<(), Fail> {
    let bytes = report();
    for end in 0..=bytes.len() {
        assert!(rt; is_judged_slowly(rt.alloc(), &bytes[..end])?, "{end}");
    }
    Ok(())
}

// Whether a failed read was found, before so many bytes were read as lines.
fn is_failed(found: Option<Found>, most: usize) -> bool {
    match found {
        Some(found) => found.fault == Some(ReportFault::ReadFault) && found.read < most,
        None => false,
    }
}

// Whether that is so where this read of single bytes fails, which is counted once.
fn fails_slowly(alloc: Global, fails: usize) -> Result<bool, Fail> {
    let mut source = StdSource::new(SlowReader {
        rest: report(),
        calls: 0,
        fails,
    });
    let found = read_whole(alloc, &mut source, report())?;
    Ok(is_failed(found, fails) && source.faults == 1)
}

#[test]
fn a_failed_read_is_answered_and_stays(rt: HostRuntime) -> Result<(), Fail> {
    for fails in 1..=report().len() + 1 {
        assert!(rt; fails_slowly(rt.alloc(), fails)?, "{fails}");
    }
    Ok(())
}

// Whether that is so where this read in memory fails.
fn fails_in_memory(alloc: Global, call: u32) -> Result<bool, Fail> {
    let mut source = MemSource::new(alloc, report(), &[call])?;
    Ok(is_failed(read_whole(alloc, &mut source, report())?, usize::MAX))
}

#[test]
fn a_failed_read_is_no_end(rt: HostRuntime) -> Result<(), Fail> {
    for call in [1, 2] {
        assert!(rt; fails_in_memory(rt.alloc(), call)?, "{call}");
    }
    Ok(())
}
