//! Runs over an input that gives one byte at a time.

use crate::{Left, words_of};
use aea_cli::run;
use aea_disk::Disk;
use aea_io::{StdSource, SureSink};
use aea_test_helpers::SlowReader;
use std::alloc::{AllocError, Global};

/// Runs the command of a line over this disk, and an input that gives these bytes one at a time and fails at one read, counted
/// from 1; at 0 none does.
pub fn run_slowly<D: Disk>(
    alloc: Global,
    line: &str,
    disk: &mut D,
    bytes: &[u8],
    fails: usize,
) -> Result<Left, AllocError> {
    let words = words_of(alloc, line)?;
    let mut input = StdSource::new(SlowReader {
        rest: bytes,
        calls: 0,
        fails,
    });
    let mut out = SureSink::new(alloc, 999)?;
    let mut err = SureSink::new(alloc, 64)?;
    let status = run(
        alloc,
        words.as_slice(),
        disk,
        &mut input,
        &mut out,
        &mut err,
    );
    let unread = input.reader.rest.len();
    Ok(Left {
        status,
        out,
        err,
        unread,
    })
}
