//! Clashes: blocks whose computed or re-read payloads have other digests than the ledger keeps of them.

use crate::archives::{filled, repairs, run_repair};
use aea_cli::Status;
use aea_disk::{Disk, SureDisk};
use aea_runs::{FIRST_DIGEST, all_bytes, clash_line, digest_of, has_bytes, run_over, run_put};
use aea_test_helpers::{FlippingDisk, shorten, spoil_cell};
use std::alloc::Global;

const Y: &[u8; 16] = b"a payload of h1.";

// Makes the digest of d1 in the ledger that of another payload, and takes the file of its site away. Whether the disk did
// not fail.
fn deceives<D: Disk>(alloc: Global, disk: &mut D) -> bool {
    match digest_of(alloc, 0, 1, b"another payload.") {
        Ok(digest) => {
            disk.write(0, FIRST_DIGEST, &digest).is_ok() && shorten(disk, 1, 0).is_ok()
        }
        Err(_) => false,
    }
}

// An archive of one node on two sites whose h1 has the payload Y, whose d1 is gone, and whose ledger keeps the digest of
// another payload as that of d1.
fn dishonest(alloc: Global) -> Option<SureDisk> {
    let mut disk = filled(alloc, (2, 4096, 1024), "create 1 1 0 16 2", Y)?;
    deceives(alloc, &mut disk).then_some(disk)
}

// Whether a repair, with space for so many bytes on the errors, ends in a clash, prints nothing but this on the errors, and reads
// nothing.
fn clashes<D: Disk>(alloc: Global, disk: &mut D, room: usize, err: &[u8]) -> bool {
    run_repair(alloc, disk, 999, 0, room).is_ok_and(|left| {
        let is_revealed = left.status == Status::Clash && left.err.bytes() == err;
        is_revealed && left.out.bytes().is_empty() && left.unread == 6
    })
}

// Whether it clashes so, and leaves the files.
fn clashes_alone<D: Disk>(alloc: Global, disk: &mut D, room: usize, err: &[u8]) -> bool {
    match all_bytes(alloc, disk) {
        Some(stands) => {
            clashes(alloc, disk, room, err) && has_bytes(alloc, disk, stands.as_slice())
        }
        None => false,
    }
}

// Whether a repair of that archive ends in a clash, prints as much of this line as there is space for, and leaves the files.
fn is_clash(alloc: Global, line: &str, room: usize) -> bool {
    if let Some(revealed) = line.as_bytes().get(..room.min(157))
        && let Some(mut disk) = dishonest(alloc)
    {
        clashes_alone(alloc, &mut disk, room, revealed)
    } else {
        false
    }
}

// The line of a clash of the block of this class at node 1 whose recorded digest is that of the one payload, where the other is
// computed.
fn line_of(
    alloc: Global,
    block: &str,
    class: u8,
    recorded: &[u8],
    computed: &[u8],
) -> Option<String> {
    let recorded = digest_of(alloc, class, 1, recorded).ok()?;
    let computed = digest_of(alloc, class, 1, computed).ok()?;
    clash_line(alloc, block, &recorded, &computed).ok()
}

// The first space on the errors where that archive does not clash with this line.
fn wrong_room(alloc: Global, line: &str) -> Option<usize> {
    let mut wrong = None;
    for room in [200usize, 157, 156, 64, 6, 0] {
        if wrong.is_none() && !is_clash(alloc, line, room) {
            wrong = Some(room);
        }
    }
    wrong
}

// The same with the line of that clash; 999 where there is no line of 157 bytes.
fn wrong_room_of_sum(alloc: Global) -> Option<usize> {
    if let Some(line) = line_of(alloc, "d1", 0, b"another payload.", Y)
        && line.len() == 157
    {
        wrong_room(alloc, line.as_str())
    } else {
        Some(999)
    }
}

#[test]
fn a_sum_with_another_digest_is_a_clash(rt: HostRuntime) {
    let wrong = wrong_room_of_sum(rt.alloc());
    assert!(rt; wrong.is_none(), "{wrong:?}");
}

// Adds a second node to that archive, after a fence, and damages its blocks. Whether there was memory and the disk did not fail; here
// and below it is not looked at what else the runs came to.
fn adds_lost<D: Disk>(alloc: Global, disk: &mut D) -> bool {
    run_over(alloc, "fence", disk, 99).is_ok()
        && run_put(alloc, disk, "b", b"abc").is_ok()
        && spoil_cell(disk, 2, 64, 2, 16).is_ok()
        && spoil_cell(disk, 2, 64, 3, 16).is_ok()
}

// Whether a repair whose first write fails ends in the clash of d1, and prints nothing else.
fn clashes_first<D: Disk>(alloc: Global, disk: &mut D) -> bool {
    run_repair(alloc, disk, 999, 1, 200).is_ok_and(|left| {
        let is_revealed = left.err.bytes().starts_with(b"clash d1 recorded ");
        left.status == Status::Clash && is_revealed && left.out.bytes().is_empty()
    })
}

// Whether that archive, with such a second node, clashes first.
fn is_clash_first(alloc: Global) -> bool {
    match dishonest(alloc) {
        Some(mut disk) => adds_lost(alloc, &mut disk) && clashes_first(alloc, &mut disk),
        None => false,
    }
}

#[test]
fn a_clash_goes_before_a_lost_block_and_a_failing_output(rt: HostRuntime) {
    assert!(rt; is_clash_first(rt.alloc()));
}

// Damages the blocks of these numbers. Whether the disk did not fail.
fn spoils<D: Disk>(disk: &mut D, numbers: &[u32]) -> bool {
    let mut is_each = true;
    for number in numbers {
        is_each = is_each && spoil_cell(disk, 2, 64, *number, 30).is_ok();
    }
    is_each
}

// An archive of AE(1,1,0) of three nodes, whose blocks of these numbers are damaged: 0 is d1, and 1 is h1.
fn of_three(alloc: Global, damaged: &[u32]) -> Option<SureDisk> {
    let bytes = b"a payload of h1.and two more blocks of bytes....";
    let mut disk = filled(alloc, (2, 4096, 1024), "create 1 1 0 16 2", bytes)?;
    spoils(&mut disk, damaged).then_some(disk)
}

// The files of that archive where none is damaged.
fn whole_three(alloc: Global) -> Option<Vec<Vec<u8>>> {
    all_bytes(alloc, &mut of_three(alloc, &[])?)
}

// Whether d1 and h1 of that archive are peeled one after the other.
fn is_each_peeled(alloc: Global) -> bool {
    let lines = "counts 2 2 0 0\npeeled d1\npeeled h1\n";
    if let Some(whole) = whole_three(alloc)
        && let Some(mut disk) = of_three(alloc, &[0, 1])
    {
        let files = whole.as_slice();
        repairs(alloc, &mut disk, "1 1 0 3", lines, Status::Done, files)
    } else {
        false
    }
}

#[test]
fn a_restored_block_serves_the_next(rt: HostRuntime) {
    assert!(rt; is_each_peeled(rt.alloc()));
}

// An archive of three nodes whose d1 is damaged. h1 is first on site 2, and d1 on site 1; the first reads of site 2 are those of the
// scan, of h1, d2 and h3. After these this byte of what is read there is flipped.
fn flipping(alloc: Global, byte: usize) -> Option<FlippingDisk<SureDisk>> {
    Some(FlippingDisk {
        inner: of_three(alloc, &[0])?,
        file: 2,
        byte,
        from: 4,
        reads: 0,
    })
}

// Whether a repair of it ends in a clash, prints nothing but this on the errors, and leaves the files as they are.
fn is_left(alloc: Global, byte: usize, err: &str) -> bool {
    if let Some(mut disk) = flipping(alloc, byte)
        && let Some(damaged) = all_bytes(alloc, &mut disk.inner)
    {
        clashes(alloc, &mut disk, 200, err.as_bytes())
            && has_bytes(alloc, &mut disk.inner, damaged.as_slice())
    } else {
        false
    }
}

// Whether it clashes so where a byte of the payload of h1 is flipped.
fn is_flip_clash(alloc: Global) -> bool {
    let mut flipped = *Y;
    flipped[2] ^= 1;
    line_of(alloc, "h1", 1, Y, &flipped).is_some_and(|line| is_left(alloc, 18, line.as_str()))
}

#[test]
fn a_survivor_that_changes_under_way_is_a_clash(rt: HostRuntime) {
    assert!(rt; is_flip_clash(rt.alloc()));
}

// Whether a repair of it is done, and leaves these files.
fn is_done(alloc: Global, byte: usize, files: &[Vec<u8>]) -> bool {
    if let Some(mut disk) = flipping(alloc, byte)
        && let Ok(left) = run_repair(alloc, &mut disk, 999, 0, 200)
    {
        left.status == Status::Done && has_bytes(alloc, &mut disk.inner, files)
    } else {
        false
    }
}

// The first byte of a cell that is not of the payload, and after whose flip a repair is not done, or leaves other files.
fn harmful_byte(alloc: Global, files: &[Vec<u8>]) -> Option<usize> {
    let mut harmful = None;
    // the letters of the cell, its class, its node, and its digest
    for byte in [0usize, 4, 15, 32, 63] {
        if harmful.is_none() && !is_done(alloc, byte, files) {
            harmful = Some(byte);
        }
    }
    harmful
}

// The same with the whole files; 64 where there are none.
fn harmful_byte_of_three(alloc: Global) -> Option<usize> {
    match whole_three(alloc) {
        Some(whole) => harmful_byte(alloc, whole.as_slice()),
        None => Some(64),
    }
}

#[test]
fn a_head_that_changes_under_way_does_no_harm(rt: HostRuntime) {
    let harmful = harmful_byte_of_three(rt.alloc());
    assert!(rt; harmful.is_none(), "{harmful:?}");
}
