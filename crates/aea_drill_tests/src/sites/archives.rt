//! Archives of so many nodes, with fences, made by whole runs.

use aea_cli::Status;
use aea_disk::Disk;
use aea_runs::{run_over, run_put};
use aea_test_helpers::some_bytes;
use std::alloc::Global;

// Puts an object, and returns whether it was done.
fn is_put<D: Disk>(alloc: Global, disk: &mut D, name: &str, bytes: &[u8]) -> bool {
    run_put(alloc, disk, name, bytes).is_ok_and(|left| left.status == Status::Done)
}

// Puts an object whose name is this number, and returns whether it was done.
fn put_numbered<D: Disk>(alloc: Global, disk: &mut D, number: u32, bytes: &[u8]) -> bool {
    match format!(in alloc; "{number}") {
        Ok(name) => is_put(alloc, disk, name.as_str(), bytes),
        Err(_) => false,
    }
}

// Puts an object of so many nodes after those up to `from`, whose number is its name. Blocks have 16 bytes.
fn put_some<D: Disk>(alloc: Global, disk: &mut D, from: u32, nodes: u32) -> bool {
    match some_bytes(alloc, nodes.saturating_mul(16), from) {
        Ok(bytes) => put_numbered(alloc, disk, from, bytes.as_slice()),
        Err(_) => false,
    }
}

// Puts an object of the nodes up to this one, if it is some, after so many nodes.
fn put_nodes<D: Disk>(alloc: Global, disk: &mut D, from: u32, to: u32) -> bool {
    let nodes = to.saturating_sub(from);
    nodes == 0 || put_some(alloc, disk, from, nodes)
}

// Runs the command of the line, and returns whether it was done.
fn is_done<D: Disk>(alloc: Global, line: &str, disk: &mut D) -> bool {
    run_over(alloc, line, disk, 99).is_ok_and(|left| left.status == Status::Done)
}

/// Makes an archive in an empty disk by this line of `create`, with an object up to each fence, which is then put, and one up to
/// the last node. Returns whether each run was done.
pub fn make_archive<D: Disk>(
    alloc: Global,
    disk: &mut D,
    create: &str,
    fences: &[u32],
    nodes: u32,
) -> bool {
    let mut is_made = is_done(alloc, create, disk);
    let mut from = 0;
    for fence in fences {
        is_made = is_made && put_nodes(alloc, disk, from, *fence) && is_done(alloc, "fence", disk);
        from = *fence;
    }
    is_made && put_nodes(alloc, disk, from, nodes)
}

/// Whether `sites` prints these lines over the disk, and is done.
pub fn prints<D: Disk>(alloc: Global, disk: &mut D, lines: &str) -> bool {
    run_over(alloc, "sites", disk, 65_536).is_ok_and(|left| left.is(Status::Done, lines, ""))
}
