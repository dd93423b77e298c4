//! Sources that give a byte at a time or fail.

use crate::messages::reading::{Found, cut_at, messages, read_all, stream};
use aea_io::{MemSource, StdSource};
use aea_messages::MessageFault;
use aea_test_helpers::SlowReader;
use std::alloc::Global;
use std::test::Fail;

// Whether this is found in the bytes where they come one at a time and a read fails, or none does, and as many faults are
// counted.
fn finds_slowly(alloc: Global, bytes: &[u8], fails: usize, want: Found, faults: u64) -> bool {
    let mut source = StdSource::new(SlowReader {
        rest: bytes,
        calls: 0,
        fails,
    });
    let found = read_all(alloc, &mut source, &messages());
    found == want && source.faults == faults
}

#[test]
fn a_stream_may_come_a_byte_at_a_time(rt: HostRuntime) {
    let bytes = stream();
    for end in 0..=bytes.len() {
        assert!(rt;
            finds_slowly(rt.alloc(), &bytes[..end], 0, cut_at(end), 0),
            "{end}"
        );
    }
}

#[test]
fn each_read_may_fail(rt: HostRuntime) {
    let bytes = stream();
    for end in 0..=bytes.len() {
        let want = Found {
            fault: Some(MessageFault::ReadFault),
            ..cut_at(end)
        };
        assert!(rt; finds_slowly(rt.alloc(), bytes, end + 1, want, 1), "{end}");
    }
}

// Whether a failed read is found where this read in memory fails, and counted once.
fn fails_in_memory(alloc: Global, fails: u32) -> bool {
    match MemSource::new(alloc, stream(), &[fails]) {
        Ok(mut source) => {
            let found = read_all(alloc, &mut source, &messages());
            found.fault == Some(MessageFault::ReadFault) && source.faults == 1
        }
        Err(_) => false,
    }
}

#[test]
fn a_read_that_fails_in_memory_is_no_end(rt: HostRuntime) -> Result<(), Fail> {
    for fails in [1, 2, 5, 9, 20] {
        assert!(rt; fails_in_memory(rt.alloc(), fails), "{fails}");
    }
    Ok(())
}
