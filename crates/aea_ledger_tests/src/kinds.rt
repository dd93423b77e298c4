//! Records of each kind, added one by one: their bytes, and what faults and stops leave of them.

ghost use Rattle.std.specs.Prelude.{◌≡◌, true, OnOk};
ghost use Rattle.aea_disk.specs.State.{IsFixed};
ghost use Rattle.aea_ledger.specs.Values.{IsThisOne};

use crate::example::{ABC, SHAPE, each_kind};
use crate::plain::part;
use crate::stops::{adds_abc, first_digests, left_by, listed, losses, made};
use aea_catalog::{Extent, check_name};
use aea_disk::{Disk, FailDisk, Loss, MemDisk, SureDisk};
use aea_ledger::{AppendFault, FenceFault, Ledger, UpgradeFault, create_ledger, open_ledger};
use aea_records::are_parts;
use std::alloc::Global;
use std::test::Fail;

/// Adds an object in parts, the digests of whose new nodes are given. False where no ledger takes these.
pub fn add_parts<D: Disk>(
    ledger: &mut Ledger,
    disk: &mut D,
    name: &[u8],
    size: u64,
    digests: &[[u8; 32]],
    parts: &[Extent],
) -> Result<bool, AppendFault>
    requires live { ledger.old.live ≡ true }
    requires this { D.reveals → IsThisOne ledger.old ((D.state disk.old).files 0) }
    requires fixed { D.reveals → IsFixed (D.state disk.old) 0 }
{
    let shape = ledger.shape();
    let nodes = ledger.lattice().n();
    if ledger.limit() != 1_048_576 || nodes > 1_048_576 || parts.len() > 1 << 20 {
        return Ok(false);
    }
    let each = 1 + shape.alpha() as usize;
    let count = digests.len() / each;
    if count > (1_048_576 - nodes) as usize || digests.len() != count * each {
        return Ok(false);
    }
    let count = count as u32;
    if !are_parts(&shape, size, nodes + count, parts)
        || !check_name(name)
        || ledger.catalog().find(name).is_some()
    {
        return Ok(false);
    }
    ledger.append_parts(disk, name, size, *ABC, count, digests, parts)?;
    Ok(true)
}

/// Opens the ledger and adds a fence. It says whether the result is the wanted one.
pub fn fence<D: Disk>(alloc: Global, disk: &mut D, want: Result<u32, FenceFault>) -> bool {
    let Ok(mut ledger) = open_ledger(alloc, disk) else {
        return false;
    };
    ledger.append_fence(disk) == want
}

/// Opens the ledger and raises its limit. It says whether the result is the wanted one.
pub fn raise<D: Disk>(alloc: Global, disk: &mut D, want: Result<(), UpgradeFault>) -> bool {
    let Ok(mut ledger) = open_ledger(alloc, disk) else {
        return false;
    };
    ledger.append_upgrade(disk) == want
}

// The parts of the object `b` of the example.
fn parts_of_b() -> [Extent; 2] {
    [Extent { first: 1, count: 1 }, Extent { first: 2, count: 1 }]
}

// Opens the ledger and adds the object `b` in two parts. It says whether it did.
fn in_parts<D: Disk>(alloc: Global, disk: &mut D) -> bool {
    let Ok(mut ledger) = open_ledger(alloc, disk) else {
        return false;
    };
    let (digests, parts) = (first_digests(), parts_of_b());
    add_parts(&mut ledger, disk, b"b", 128, &digests, &parts) == Ok(true)
}

// Opens the ledger and adds the record of this step, one of the four of the example: an object, a fence, a raise, and an object in
// parts. It says whether it did.
fn take_step<D: Disk>(alloc: Global, disk: &mut D, step: usize) -> bool {
    match step {
        0 => adds_abc(alloc, disk, &first_digests()),
        1 => fence(alloc, disk, Ok(1)),
        2 => raise(alloc, disk, Ok(())),
        3 => in_parts(alloc, disk),
        _ => false,
    }
}

// Takes so many steps, and says whether it did.
fn take_steps<D: Disk>(alloc: Global, disk: &mut D, count: usize) -> bool {
    for step in 0..count {
        if !take_step(alloc, disk, step) {
            return false;
        }
    }
    true
}

// What an archive has.
#[derive(Clone, Copy, PartialEq, Eq)]
struct Contents {
    nodes: u32,
    objects: usize,
    fences: u8,
    limit: u32,
}

// What it has after so many of the four steps.
fn contents_after(steps: usize) -> Contents {
    let (nodes, objects, fences, limit) = match steps {
        0 => (0, 0, 0, 65_536),
        1 => (1, 1, 0, 65_536),
        2 => (1, 1, 1, 65_536),
        3 => (1, 1, 1, 1_048_576),
        _ => (2, 2, 1, 1_048_576),
    };
    Contents {
        nodes,
        objects,
        fences,
        limit,
    }
}

// What the archive on a disk has, if there is one.
fn holds<D: Disk>(alloc: Global, disk: &mut D) -> Option<Contents> {
    match open_ledger(alloc, disk) {
        Ok(ledger) => Some(contents_of(&ledger)),
        Err(_) => None,
    }
}

// What the archive of a ledger has.
fn contents_of(ledger: &Ledger) -> Contents {
    Contents {
        nodes: ledger.lattice().n(),
        objects: ledger.catalog().len(),
        fences: ledger.lattice().fence_count(),
        limit: ledger.limit(),
    }
}

// Whether the file has the bytes of each kind that were spelled by hand.
fn is_spelled_by_hand<D: Disk>(disk: &mut D) -> bool {
    let mut bytes = [0u8; 512];
    match disk.read(0, 0, &mut bytes) {
        Ok(count) => part(&bytes, 0, count as u64) == each_kind().as_slice(),
        Err(_) => false,
    }
}

/// Whether the first parts of an object of the ledger are these.
pub fn has_parts(ledger: &Ledger, name: &[u8], parts: &[Extent]) -> bool {
    for (k, part) in parts.iter().enumerate() {
        if ledger.catalog().part(name, k) != Some(*part) {
            return false;
        }
    }
    true
}

// Whether the object `b` has its two parts.
fn is_in_parts<D: Disk>(alloc: Global, disk: &mut D) -> bool {
    match open_ledger(alloc, disk) {
        Ok(ledger) => has_parts(&ledger, b"b", &parts_of_b()),
        Err(_) => false,
    }
}

// Whether all steps are taken, and leave what was spelled by hand.
fn leaves_each_kind<D: Disk>(alloc: Global, disk: &mut D) -> bool {
    take_steps(alloc, disk, 4) && is_spelled_by_hand(disk) && is_in_parts(alloc, disk)
}

#[test]
fn each_kind_is_spelled_as_by_hand(rt: HostRuntime) -> Result<(), Fail> {
    let mut disk = made(rt.alloc(), &SHAPE, 512)?;
    assert!(rt; leaves_each_kind(rt.alloc(), &mut disk));
    Ok(())
}

// What a stop after this call with this loss leaves.
fn left_by_stop(alloc: Global, disk: &MemDisk, after: u64, loss: Loss) -> Option<Contents> {
    let mut left = left_by(alloc, disk, after, loss)?;
    holds(alloc, &mut left)
}

// A step that was taken: its number, and how many calls of the disk came before its first and up to its last.
#[derive(Clone, Copy)]
struct StepCalls {
    step: usize,
    before: u64,
    end: u64,
}

// Whether what a stop after this call leaves is the old or the new, the new not before the step, and the old not after it.
fn is_old_or_new(state: Option<Contents>, after: u64, taken: StepCalls) -> bool {
    let old = contents_after(taken.step);
    let new = contents_after(taken.step.saturating_add(1));
    state == Some(old) && after < taken.end || state == Some(new) && after > taken.before
}

// The first call after which a stop leaves neither the old nor the new, from those before the step on; 0 where there is none.
fn first_wrong_stop(alloc: Global, disk: &MemDisk, taken: StepCalls) -> u64 {
    for after in taken.before..=taken.end {
        for loss in losses() {
            if !is_old_or_new(left_by_stop(alloc, disk, after, loss), after, taken) {
                return after;
            }
        }
    }
    0
}

// Takes this step, and gives the first such call; none where it was not taken.
fn first_wrong_stop_of(alloc: Global, disk: &mut MemDisk, step: usize) -> Option<u64> {
    let before = disk.calls();
    if !take_step(alloc, disk, step) {
        return None;
    }
    let end = disk.calls();
    Some(first_wrong_stop(alloc, disk, StepCalls { step, before, end }))
}

#[test]
fn each_image_has_the_old_or_the_new(rt: HostRuntime) -> Result<(), Fail> {
    let mut disk = listed(rt.alloc(), 96, 1024)?;
    for k in 0..4usize {
        let after = first_wrong_stop_of(rt.alloc(), &mut disk, k);
        assert!(rt; after == Some(0), "step {k} after {after:?}");
    }
    Ok(())
}

// What comes of a step over a disk of which one call fails.
#[derive(Clone, Copy)]
enum Came {
    /// The step was taken, and what is there is the new.
    Taken,
    /// It was not taken, and what is there is the old or the new.
    Failed,
    Otherwise,
}

// A disk on which the archive is made, and so many steps are taken.
fn after_steps(alloc: Global, k: usize) -> Option<SureDisk> {
    let mut disk = SureDisk::new(alloc, 0, 512, 0).ok()?;
    if create_ledger(&mut disk, &SHAPE).is_ok() && take_steps(alloc, &mut disk, k) {
        return Some(disk);
    }
    None
}

// Takes a step after those before it over a disk of which this call of the step fails.
fn failing_at(alloc: Global, k: usize, call: u64) -> Came {
    let Some(inner) = after_steps(alloc, k) else {
        return Came::Otherwise;
    };
    let Ok(mut disk) = FailDisk::new(alloc, inner, &[call]) else {
        return Came::Otherwise;
    };
    let is_taken = take_step(alloc, &mut disk, k);
    // where the step takes fewer calls, this is the one that fails
    let _synced = disk.sync();
    what_came(is_taken, holds(alloc, &mut disk), k)
}

// What came of this step, where this is there then.
fn what_came(is_taken: bool, state: Option<Contents>, step: usize) -> Came {
    let old = contents_after(step);
    let new = contents_after(step.saturating_add(1));
    if is_taken && state == Some(new) {
        Came::Taken
    } else if !is_taken && (state == Some(old) || state == Some(new)) {
        Came::Failed
    } else {
        Came::Otherwise
    }
}

#[test]
fn each_fault_leaves_the_old_or_the_new(rt: HostRuntime) -> Result<(), Fail> {
    for k in 0..4usize {
        let mut calls = 0u64;
        for call in 1..=32u64 {
            match failing_at(rt.alloc(), k, call) {
                Came::Taken => break,
                Came::Failed => calls = call,
                Came::Otherwise => panic!(rt; "step {k} at call {call}"),
            }
        }
        // at least a sync and three reads to open the ledger, and four calls to add the record
        assert!(rt; calls >= 8 && calls < 32, "{calls} calls");
    }
    Ok(())
}
