//! Clashes: data blocks whose computed payloads have other digests than the ledger keeps of them.

use crate::archives::{archive_of, leaves, spoil_cells, takes};
use aea_cli::Status;
use aea_disk::{Disk, SureDisk};
use aea_runs::{
    FIRST_DIGEST, Faults, NONE, all_bytes, cell_of, clash_line, digest_of, has_bytes, run_failing,
};
use std::alloc::Global;
use std::test::Fail;

// The payloads of d1 and d2, the object of both, and what the cell of h1 has in place of that of d1.
const FIRST: &[u8; 16] = b"the first datum.";

const SECOND: &[u8; 16] = b"the second one..";

const BOTH: &[u8; 32] = b"the first datum.the second one..";

const OTHER: &[u8; 16] = b"no sum of these.";

/// The line of the clash of the block of this node and class, of whose payloads the first is recorded and the second is computed.
pub fn line_of_payloads(
    alloc: Global,
    block: &str,
    class: u8,
    node: u64,
    payloads: (&[u8], &[u8]),
) -> Option<String> {
    let recorded = digest_of(alloc, class, node, payloads.0).ok()?;
    let computed = digest_of(alloc, class, node, payloads.1).ok()?;
    clash_line(alloc, block, &recorded, &computed).ok()
}

// Gives the ledger the digest of another payload of h1 than the sum of the data. False where it is not written.
fn forge_digest(alloc: Global, disk: &mut SureDisk) -> bool {
    match digest_of(alloc, 1, 1, OTHER) {
        Ok(digest) => disk.write(0, FIRST_DIGEST + 32, &digest).is_ok(),
        Err(_) => false,
    }
}

// Gives the cell of h1 that payload.
fn forge_cell(alloc: Global, disk: &mut SureDisk) -> bool {
    match cell_of(alloc, 1, 1, OTHER) {
        Ok(cell) => cell.len() == 64 && disk.write(2, 0, cell.as_slice()).is_ok(),
        Err(_) => false,
    }
}

// An archive of AE(1,1,0) of two nodes on two sites, in which the cell of h1 is intact by the ledger, but forged. The blocks with
// these numbers are damaged.
fn dishonest(alloc: Global, damaged: &[u32]) -> Option<SureDisk> {
    let mut disk = archive_of(alloc, "create 1 1 0 16 2", 2, 4096, 1024)?;
    let is_forged = takes(alloc, &mut disk, "a", BOTH)
        && forge_digest(alloc, &mut disk)
        && forge_cell(alloc, &mut disk);
    (is_forged && spoil_cells(&mut disk, 2, 64, damaged)).then_some(disk)
}

// The line of the clash of d1, which h1 alone gives.
fn first_line(alloc: Global) -> Option<String> {
    line_of_payloads(alloc, "d1", 0, 1, (FIRST, OTHER))
}

// The line of the clash of d2, which is the sum of h1 and h2.
fn second_line(alloc: Global) -> Option<String> {
    let mut sum = *SECOND;
    for ((byte, one), other) in sum.iter_mut().zip(FIRST).zip(OTHER) {
        *byte ^= *one ^ *other;
    }
    line_of_payloads(alloc, "d2", 0, 2, (SECOND, &sum))
}

// Whether a fetch from that archive, where these blocks are damaged, ends with this status, these bytes and this line.
fn ends_so(alloc: Global, damaged: &[u32], status: Status, out: &[u8], err: &str) -> bool {
    match dishonest(alloc, damaged) {
        Some(mut disk) => leaves(alloc, &mut disk, "a", status, out, err),
        None => false,
    }
}

// Whether it is a clash with the line, if there is one.
fn is_clash_by(alloc: Global, damaged: &[u32], line: Option<String>) -> bool {
    match line {
        Some(line) => ends_so(alloc, damaged, Status::Clash, b"", line.as_str()),
        None => false,
    }
}

// Whether a fetch from that archive, where these blocks are damaged, is a clash with the line of the datum of this node, 1 or 2;
// for node 0, whether the object is fetched.
fn is_clash_at(alloc: Global, damaged: &[u32], node: u32) -> bool {
    match node {
        0 => ends_so(alloc, damaged, Status::Done, BOTH, ""),
        1 => is_clash_by(alloc, damaged, first_line(alloc)),
        _ => is_clash_by(alloc, damaged, second_line(alloc)),
    }
}

// The numbers of damaged blocks, and the node whose datum clashes. The first in the object's order is told, and a block that is not
// computed is no clash.
fn clashes() -> [(&'static [u32], u32); 7] {
    [
        (&[0], 1),
        (&[2], 2),
        (&[0, 2], 1),
        (&[], 0),
        (&[1], 0),
        (&[3], 0),
        (&[1, 3], 0),
    ]
}

#[test]
fn a_sum_with_another_digest_is_a_clash(rt: HostRuntime) -> Result<(), Fail> {
    let alloc = rt.alloc();
    for (damaged, node) in clashes() {
        assert!(rt; is_clash_at(alloc, damaged, node), "{damaged:?}");
    }
    // a block that is not determined goes before it
    let line = "refused: undetermined d2 by 2\n";
    assert!(rt; ends_so(alloc, &[0, 2, 3], Status::Refused, b"", line));
    Ok(())
}

// Whether a fetch over so much space on the errors is a clash, with nothing on the output, and tells as much of this line as there is
// space for.
fn is_revealed_in(alloc: Global, disk: &mut SureDisk, err_room: usize, line: &str) -> bool {
    let faults = Faults { err_room, ..NONE };
    match run_failing(alloc, "fetch a", disk, b"unread", faults) {
        Ok(left) => {
            let revealed = left.err.bytes();
            left.status == Status::Clash
                && left.out.bytes().is_empty()
                && revealed.len() == err_room.min(157)
                && line.as_bytes().starts_with(revealed)
        }
        Err(_) => false,
    }
}

// Whether a clash of d1 is told so over this space on the errors, and all files stay as they are.
fn is_spared_in(alloc: Global, disk: &mut SureDisk, err_room: usize, line: &str) -> bool {
    match all_bytes(alloc, disk) {
        Some(stands) => {
            is_revealed_in(alloc, disk, err_room, line) && has_bytes(alloc, disk, stands.as_slice())
        }
        None => false,
    }
}

#[test]
fn a_clash_is_reported_as_far_as_there_is_room(rt: HostRuntime) -> Result<(), Fail> {
    let alloc = rt.alloc();
    let line = first_line(alloc).ok_or("no line")?;
    let mut disk = dishonest(alloc, &[0]).ok_or("no archive")?;
    for err_room in [200usize, 157, 156, 64, 6, 0] {
        assert!(rt;
            line.len() == 157 && is_spared_in(alloc, &mut disk, err_room, line.as_str()),
            "{err_room}"
        );
    }
    Ok(())
}
