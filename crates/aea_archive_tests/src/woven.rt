//! Archives whose blocks are compared with the plain sums of their data.

ghost use Rattle.std.specs.Prelude.{◌≤◌, ◌^◌};
ghost use Rattle.aea_lattice.specs.Blocks.{HasBlock};

use crate::runs::{archive_of, says};
use aea_cli::Status;
use aea_disk::{Disk, SureDisk};
use aea_lattice::{BlockId, Lattice};
use aea_ledger::{Ledger, open_ledger};
use aea_plain::prefix;
use aea_runs::{cell_of, run_over, run_put};
use aea_test_helpers::some_bytes;
use std::alloc::{AllocError, Global};
use std::test::Fail;

// Archives of these tests have blocks of 16 bytes, so cells of 64, on four sites.
const CELL: u64 = 64;

// Adds the blocks of an object: its bytes, cut, and the last filled with zeros.
fn add_blocks(datas: &mut Vec<[u8; 16]>, bytes: &[u8]) -> Result<(), AllocError> {
    for chunk in bytes.chunks(16) {
        let mut block = [0; 16];
        for (byte, other) in block.iter_mut().zip(chunk) {
            *byte = *other;
        }
        datas.push(block)?;
    }
    Ok(())
}

// The datum of a node, zeros where there is none.
fn datum(datas: &[[u8; 16]], node: u32) -> [u8; 16] {
    match datas.get((node as usize).wrapping_sub(1)) {
        Some(block) => *block,
        None => [0; 16],
    }
}

// The payload that a block is to have: a datum, or the XOR of the data up to the parity's node on its strand.
fn payload_of(
    alloc: Global,
    lattice: &Lattice,
    b: BlockId,
    datas: &[[u8; 16]],
) -> Result<[u8; 16], AllocError>
    requires { HasBlock lattice.now b }
{
    if b.class as u8 == 0 {
        return Ok(datum(datas, b.node));
    }
    let mut sum = [0; 16];
    for node in &prefix(alloc, lattice, b.node, b.class)? {
        for (byte, other) in sum.iter_mut().zip(datum(datas, *node)) {
            *byte ^= other;
        }
    }
    Ok(sum)
}

// The cell that a block is to have, spelled by hand.
fn wanted_cell(
    alloc: Global,
    lattice: &Lattice,
    b: BlockId,
    datas: &[[u8; 16]],
) -> Result<Vec<u8>, AllocError>
    requires { HasBlock lattice.now b }
{
    let payload = payload_of(alloc, lattice, b, datas)?;
    cell_of(alloc, b.class as u8, u64::from(b.node), &payload)
}

// The file and the place of the cell of block number k.
fn home(k: u32) -> (u8, u64)
    ensures file { result.0 ≤ 4 }
    ensures place { result.1 ≤ 2 ^ 40 }
{
    let row = k / 4;
    let site = 1 + ((k % 4 + row % 4) % 4) as u8;
    (site, u64::from(row) * CELL)
}

// Whether this cell is at the home of block number k.
fn has_cell<D: Disk>(disk: &mut D, k: u32, cell: &[u8]) -> bool {
    let (file, place) = home(k);
    let mut bytes = [0; 64];
    disk.read(file, place, &mut bytes) == Ok(64) && bytes.starts_with(cell)
}

// Whether block number k is at its home as the cell of its plain sum, and its digest is the recorded one.
fn is_block_woven<D: Disk>(
    alloc: Global,
    disk: &mut D,
    ledger: &Ledger,
    k: u32,
    datas: &[[u8; 16]],
) -> bool {
    let lattice = ledger.lattice();
    if k >= lattice.blocks() {
        return false;
    }
    let b = lattice.block(k);
    match wanted_cell(alloc, &lattice, b, datas) {
        Ok(cell) => has_cell(disk, k, cell.as_slice()) && cell.ends_with(&ledger.digest(k)),
        Err(_) => false,
    }
}

// Whether the ledger's archive has as many nodes as there are data, and all its blocks are there as the plain sums of them.
fn are_blocks_woven<D: Disk>(
    alloc: Global,
    disk: &mut D,
    ledger: &Ledger,
    datas: &[[u8; 16]],
) -> bool {
    let lattice = ledger.lattice();
    let mut are_woven = lattice.n() as usize == datas.len();
    for k in 0..lattice.blocks() {
        are_woven = are_woven && is_block_woven(alloc, disk, ledger, k, datas);
    }
    are_woven
}

// The same of the archive on a disk.
fn is_woven<D: Disk>(alloc: Global, disk: &mut D, datas: &[[u8; 16]]) -> bool {
    match open_ledger(alloc, disk) {
        Ok(ledger) => are_blocks_woven(alloc, disk, &ledger, datas),
        Err(_) => false,
    }
}

// Each shape, and how many bytes the three objects have.
fn shapes() -> [(&'static str, [u32; 3]); 6] {
    [
        ("create 1 1 0 16 4", [16, 100, 1]),
        ("create 2 2 2 16 4", [15, 250, 33]),
        ("create 2 2 5 16 4", [0, 33, 300]),
        ("create 3 2 2 16 4", [17, 200, 48]),
        ("create 3 2 5 16 4", [1, 33, 400]),
        ("create 3 5 5 16 4", [300, 5, 300]),
    ]
}

// Whether `put` of these bytes is done.
fn puts<D: Disk>(alloc: Global, disk: &mut D, name: &str, bytes: &[u8]) -> bool {
    run_put(alloc, disk, name, bytes).is_ok_and(|left| left.status == Status::Done)
}

// Whether a fence is done, or, where it should not be, refused.
fn fences<D: Disk>(alloc: Global, disk: &mut D, is_done: bool) -> bool {
    let status = if is_done {
        Status::Done
    } else {
        Status::Refused
    };
    run_over(alloc, "fence", disk, 99).is_ok_and(|left| left.status == status)
}

// Puts an object with this name, so many bytes and this first one, and a fence after it or none, and adds its blocks to the data.
// Whether the put is done, and the fence, which is refused after an object without nodes.
fn adds<D: Disk>(
    alloc: Global,
    disk: &mut D,
    datas: &mut Vec<[u8; 16]>,
    object: (&str, u32, u32),
    is_fenced: bool,
) -> bool {
    let (name, count, first) = object;
    match some_bytes(alloc, count, first) {
        Ok(bytes) => {
            add_blocks(datas, &bytes).is_ok()
                && puts(alloc, disk, name, &bytes)
                && (!is_fenced || fences(alloc, disk, count > 0))
        }
        Err(_) => false,
    }
}

// An archive that this line makes.
fn fresh(alloc: Global, line: &str) -> Option<SureDisk> {
    archive_of(alloc, line, 4, 8192, 4096)
}

// Whether three objects of so many bytes, with a fence after each or with none, are plain sums after each put.
fn are_sums_in<D: Disk>(
    alloc: Global,
    disk: &mut D,
    counts: &[u32; 3],
    first: u32,
    are_fenced: bool,
) -> bool {
    let mut datas = Vec::new(alloc);
    let mut are_sums = true;
    for (count, name) in counts.iter().zip(["a", "b", "c"]) {
        let object = (name, *count, first);
        are_sums = are_sums
            && adds(alloc, disk, &mut datas, object, are_fenced)
            && is_woven(alloc, disk, datas.as_slice());
    }
    are_sums
}

// The same in the archive that this line makes.
fn are_woven(alloc: Global, line: &str, counts: &[u32; 3], first: u32, are_fenced: bool) -> bool {
    match fresh(alloc, line) {
        Some(mut disk) => are_sums_in(alloc, &mut disk, counts, first, are_fenced),
        None => false,
    }
}

#[test]
fn three_objects_are_plain_sums(rt: HostRuntime) -> Result<(), Fail> {
    for (line, counts) in shapes() {
        assert!(rt; are_woven(rt.alloc(), line, &counts, 0, false), "{line}");
    }
    Ok(())
}

#[test]
fn strands_begin_anew_behind_a_fence(rt: HostRuntime) -> Result<(), Fail> {
    for (line, counts) in shapes() {
        assert!(rt; are_woven(rt.alloc(), line, &counts, 11, true), "{line}");
    }
    Ok(())
}

// Three objects.
const FIRST: &[u8] = b"seventeen bytes..";

const SECOND: &[u8] = b"later";

const THIRD: &[u8] = b"and one more object";

// Whether the second object is refused, since the head h1 is lost.
fn is_refused<D: Disk>(alloc: Global, disk: &mut D) -> bool {
    let line = "refused: head damaged h1\n";
    run_put(alloc, disk, "b", SECOND).is_ok_and(|left| left.is(Status::Refused, "", line))
}

// Whether the second object is stored after a fence, and the third one after a raise of the limit.
fn goes_on<D: Disk>(alloc: Global, disk: &mut D) -> bool {
    says(alloc, disk, "fence", "fence 2\n")
        && puts(alloc, disk, "b", SECOND)
        && says(alloc, disk, "upgrade", "upgraded 1048576\n")
        && puts(alloc, disk, "c", THIRD)
}

// The blocks of the three objects.
fn all_blocks(alloc: Global) -> Result<Vec<[u8; 16]>, AllocError> {
    let mut datas = Vec::new(alloc);
    for bytes in [FIRST, SECOND, THIRD] {
        add_blocks(&mut datas, bytes)?;
    }
    Ok(datas)
}

// Whether all blocks of the archive are the plain sums of the three objects.
fn are_sums<D: Disk>(alloc: Global, disk: &mut D) -> bool {
    match all_blocks(alloc) {
        Ok(datas) => is_woven(alloc, disk, datas.as_slice()),
        Err(_) => false,
    }
}

// Whether a fence serves where the cell of h1, block 1, is lost, the first of the second site; once it is back, all are plain sums.
fn serves<D: Disk>(alloc: Global, disk: &mut D) -> bool {
    let mut cell = [0; 64];
    puts(alloc, disk, "a", FIRST)
        && disk.read(2, 0, &mut cell) == Ok(64)
        && disk.write(2, 0, &[0; 64]).is_ok()
        && is_refused(alloc, disk)
        && goes_on(alloc, disk)
        && disk.write(2, 0, &cell).is_ok()
        && are_sums(alloc, disk)
}

// The same in a fresh archive.
fn serves_in_one(alloc: Global) -> bool {
    match fresh(alloc, "create 3 2 5 16 4") {
        Some(mut disk) => serves(alloc, &mut disk),
        None => false,
    }
}

#[test]
fn a_fence_serves_where_a_head_is_lost(rt: HostRuntime) -> Result<(), Fail> {
    assert!(rt; serves_in_one(rt.alloc()));
    Ok(())
}
