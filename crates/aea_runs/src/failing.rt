//! Runs over streams that fail.

use crate::words_of;
use aea_cli::{Status, run};
use aea_disk::Disk;
use aea_io::{MemSink, MemSource};
use std::alloc::{AllocError, Global};

/// Which call of each stream fails, counted from 1 (at 0 none does), and the capacities of the sinks in bytes.
#[derive(Clone, Copy)]
pub struct Faults {
    pub read: u32,
    pub out_call: u32,
    pub out_room: usize,
    pub err_call: u32,
    pub err_room: usize,
}

/// No call fails, and there is space.
pub const NONE: Faults = Faults {
    read: 0,
    out_call: 0,
    out_room: 999,
    err_call: 0,
    err_room: 99,
};

/// What a run over streams that fail leaves.
#[derive(Drop)]
pub struct Ended {
    pub status: Status,
    pub out: MemSink,
    pub err: MemSink,
    /// How many bytes of the input were not read.
    pub unread: usize,
}

/// Runs the command of a line over this disk, with these bytes on an input that gives as many as are asked for, and streams
/// that fail so.
pub fn run_failing<D: Disk>(
    alloc: Global,
    line: &str,
    disk: &mut D,
    bytes: &[u8],
    faults: Faults,
) -> Result<Ended, AllocError> {
    let words = words_of(alloc, line)?;
    let mut input = MemSource::new(alloc, bytes, &[faults.read])?;
    let mut out = MemSink::new(alloc, faults.out_room, &[faults.out_call])?;
    let mut err = MemSink::new(alloc, faults.err_room, &[faults.err_call])?;
    let status = run(
        alloc,
        words.as_slice(),
        disk,
        &mut input,
        &mut out,
        &mut err,
    );
    let unread = input.bytes.len().saturating_sub(input.taken);
    Ok(Ended {
        status,
        out,
        err,
        unread,
    })
}
