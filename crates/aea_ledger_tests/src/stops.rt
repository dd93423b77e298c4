//! Stops while an archive is made and records are added: each image is opened.

ghost use Rattle.std.specs.Prelude.{◌≡◌, true, OnOk};
ghost use Rattle.aea_disk.specs.State.{IsFixed};
ghost use Rattle.aea_ledger.specs.Values.{IsThisOne};

use crate::example::{ABC, CLASSES, FRONT, SHAPE, example, first_digest};
use crate::openings::{add_number, open_disk};
use crate::plain::{Reading, part};
use aea_catalog::check_name;
use aea_disk::{Disk, Loss, MemDisk, SureDisk};
use aea_lattice::Shape;
use aea_ledger::{AppendFault, CreateFault, Ledger, create_ledger, open_ledger};
use aea_test_helpers::fill_file;
use std::alloc::Global;
use std::test::Fail;

/// What may be lost in a stop.
pub fn losses() -> [Loss; 4] {
    [Loss::Kept, Loss::Dropped, Loss::Ones, Loss::Zeros]
}

// A ledger without records, with the first object, and with the second.
const NONE: Reading = Reading::Ledger {
    nodes: 0,
    objects: 0,
};

const ONE: Reading = Reading::Ledger {
    nodes: 1,
    objects: 1,
};

const TWO: Reading = Reading::Ledger {
    nodes: 1,
    objects: 2,
};

/// Adds an object of this name, length, digest and digests of blocks. False where no ledger takes these.
pub fn add<D: Disk>(
    ledger: &mut Ledger,
    disk: &mut D,
    name: &[u8],
    size: u64,
    digest: [u8; 32],
    digests: &[[u8; 32]],
) -> Result<bool, AppendFault>
    requires live { ledger.old.live ≡ true }
    requires this { D.reveals → IsThisOne ledger.old ((D.state disk.old).files 0) }
    requires fixed { D.reveals → IsFixed (D.state disk.old) 0 }
    ensures live { OnOk result (ledger.new.live ≡ true) }
    ensures this { OnOk result (D.reveals → IsThisOne ledger.new ((D.state disk.new).files 0)) }
    ensures fixed { OnOk result (D.reveals → IsFixed (D.state disk.new) 0) }
{
    let shape = ledger.shape();
    let block = u64::from(shape.block());
    if size > 1 << 40 {
        return Ok(false);
    }
    let count = (size + block - 1) / block;
    let Some(free) = 65_536u32.checked_sub(ledger.lattice().n()) else {
        return Ok(false);
    };
    if count > u64::from(free) || !check_name(name) || ledger.catalog().find(name).is_some() {
        return Ok(false);
    }
    let count = count as u32;
    if digests.len() != count as usize * (1 + shape.alpha() as usize) {
        return Ok(false);
    }
    ledger.append(disk, name, size, digest, count, digests)?;
    Ok(true)
}

/// The digests of the first node's blocks.
pub fn first_digests() -> [[u8; 32]; 4] {
    [
        first_digest(CLASSES[0]),
        first_digest(CLASSES[1]),
        first_digest(CLASSES[2]),
        first_digest(CLASSES[3]),
    ]
}

/// Opens the ledger and adds an object of this name, length, digest and digests of blocks. It says whether it did.
pub fn adds<D: Disk>(
    alloc: Global,
    disk: &mut D,
    name: &[u8],
    size: u64,
    digest: [u8; 32],
    digests: &[[u8; 32]],
) -> bool {
    let Ok(mut ledger) = open_ledger(alloc, disk) else {
        return false;
    };
    add(&mut ledger, disk, name, size, digest, digests) == Ok(true)
}

/// The same of the object `a` with the bytes `abc`, with these digests of blocks.
pub fn adds_abc<D: Disk>(alloc: Global, disk: &mut D, digests: &[[u8; 32]]) -> bool {
    adds(alloc, disk, b"a", 3, *ABC, digests)
}

// Opens the ledger and adds both, and gives it; none where it did not.
fn add_two<D: Disk>(alloc: Global, disk: &mut D) -> Option<Ledger> {
    let Ok(mut ledger) = open_ledger(alloc, disk) else {
        return None;
    };
    let Ok(true) = add(&mut ledger, disk, b"a", 3, *ABC, &first_digests()) else {
        return None;
    };
    let Ok(true) = add(&mut ledger, disk, b"e", 0, [7; 32], &[]) else {
        return None;
    };
    Some(ledger)
}

/// A disk with an archive of the shape, with space for so many bytes in its ledger.
pub fn made(alloc: Global, shape: &Shape, room: usize) -> Result<SureDisk, Fail> {
    let mut disk = SureDisk::new(alloc, 0, room, 0)?;
    create_ledger(&mut disk, shape)?;
    Ok(disk)
}

/// A disk with the archive of the example, which lists its calls and the bytes that are written, so many of each.
pub fn listed(alloc: Global, calls: usize, bytes: usize) -> Result<MemDisk, Fail> {
    let mut disk = MemDisk::new(alloc, 0, 512, 0, calls, bytes)?;
    create_ledger(&mut disk, &SHAPE)?;
    Ok(disk)
}

/// Whether the ledger's file has exactly these bytes, fewer than 1,024.
pub fn has_ledger<D: Disk>(disk: &mut D, want: &[u8]) -> bool {
    let mut bytes = [9u8; 1024];
    match disk.read(0, 0, &mut bytes) {
        Ok(count) => count == want.len() && bytes.starts_with(want),
        Err(_) => false,
    }
}

/// Whether it has them where the disk is stopped now and what is pending is lost.
pub fn is_durable(alloc: Global, disk: &MemDisk, bytes: &[u8]) -> bool {
    match disk.image(alloc, disk.calls(), Loss::Dropped) {
        Ok(mut left) => has_ledger(&mut left, bytes),
        Err(_) => false,
    }
}

// After how many calls of the disk the archive is made, and each of the two objects is added.
#[derive(Clone, Copy)]
struct Ends {
    made: u64,
    first: u64,
    second: u64,
}

// Whether what is opened after so many calls is what was there before the last of these ends, or what is there after it.
fn fits(opened: Reading, after: u64, ends: Ends) -> bool {
    match opened {
        Reading::NoArchive => after < ends.made,
        NONE => after < ends.first,
        ONE => ends.made < after && after < ends.second,
        TWO => ends.first < after,
        _ => false,
    }
}

/// What a stop after this call with this loss leaves; none where there is no such call, or no memory.
pub fn left_by(alloc: Global, disk: &MemDisk, after: u64, loss: Loss) -> Option<SureDisk> {
    if after > disk.calls() {
        return None;
    }
    disk.image(alloc, after, loss).ok()
}

// Whether a stop after this call with this loss leaves what fits.
fn leaves_what_fits(alloc: Global, disk: &MemDisk, after: u64, loss: Loss, ends: Ends) -> bool {
    match left_by(alloc, disk, after, loss) {
        Some(mut left) => fits(open_disk(alloc, &mut left), after, ends),
        None => false,
    }
}

// The first call after which a stop leaves what does not fit; 0 where there is none.
fn first_wrong_stop(alloc: Global, disk: &MemDisk, ends: Ends) -> u64 {
    for after in 1..=disk.calls() {
        for loss in losses() {
            if !leaves_what_fits(alloc, disk, after, loss, ends) {
                return after;
            }
        }
    }
    0
}

// Adds both objects, and says after how many calls the archive was made, and each was added; an error where one was not.
fn ends_of_adding(alloc: Global, disk: &mut MemDisk) -> Result<Ends, Fail> {
    let made = disk.calls();
    if !adds_abc(alloc, disk, &first_digests()) {
        return Err(Fail::new("a is not added"));
    }
    let first = disk.calls();
    if !adds(alloc, disk, b"e", 0, [7; 32], &[]) {
        return Err(Fail::new("e is not added"));
    }
    let second = disk.calls();
    Ok(Ends {
        made,
        first,
        second,
    })
}

#[test]
fn each_image_opens_as_the_old_or_the_new(rt: HostRuntime) -> Result<(), Fail> {
    let mut disk = listed(rt.alloc(), 64, 1024)?;
    let ends = ends_of_adding(rt.alloc(), &mut disk)?;
    let after = first_wrong_stop(rt.alloc(), &disk, ends);
    assert!(rt; after == 0, "after {after}");
    Ok(())
}

// Whether the two ledgers have the same seal, lattice and objects `a` and `e`, and `e` is one of theirs.
fn are_alike(one: &Ledger, other: &Ledger) -> bool {
    let (objects, others) = (one.catalog(), other.catalog());
    one.seal() == other.seal()
        && one.lattice() == other.lattice()
        && objects.find(b"a") == others.find(b"a")
        && objects.find(b"e") == others.find(b"e")
        && objects.find(b"e").is_some()
}

// Adds both, and opens the ledger once more. It says whether that is the ledger to which they were added.
fn is_opened_again<D: Disk>(alloc: Global, disk: &mut D) -> bool {
    match add_two(alloc, disk) {
        Some(added) => opens_alike(alloc, disk, &added),
        None => false,
    }
}

// Whether the ledger that is opened now is like this one.
fn opens_alike<D: Disk>(alloc: Global, disk: &mut D, added: &Ledger) -> bool {
    match open_ledger(alloc, disk) {
        Ok(opened) => are_alike(&opened, added),
        Err(_) => false,
    }
}

// Whether the file has the bytes of the example up to its last gate, and after them a record of an empty object.
fn has_example_and_more<D: Disk>(disk: &mut D) -> bool {
    let mut bytes = [0u8; 512];
    match disk.read(0, 0, &mut bytes) {
        Ok(count) => count == 202 + 57 + 1 && bytes.starts_with(part(&example(), 0, 202)),
        Err(_) => false,
    }
}

#[test]
fn what_was_added_is_opened_again(rt: HostRuntime) -> Result<(), Fail> {
    let mut disk = made(rt.alloc(), &SHAPE, 512)?;
    assert!(rt; is_opened_again(rt.alloc(), &mut disk));
    assert!(rt; has_example_and_more(&mut disk));
    Ok(())
}

// Opens the ledger, adds an object, and says whether there is then no place for one more.
fn is_full_after_one<D: Disk>(alloc: Global, disk: &mut D) -> bool {
    let Ok(mut ledger) = open_ledger(alloc, disk) else {
        return false;
    };
    let Ok(true) = add(&mut ledger, disk, b"last", 0, [0; 32], &[]) else {
        return false;
    };
    let more = add(&mut ledger, disk, b"one more", 0, [0; 32], &[]);
    more == Err(AppendFault::CatalogFull) && ledger.live()
}

// A ledger with one object less than there may be.
fn nearly_full(alloc: Global) -> Result<Vec<u8>, Fail> {
    let mut bytes = Vec::from_slice(alloc, FRONT)?;
    for k in 0..65_535u32 {
        add_number(alloc, &mut bytes, k)?;
    }
    Ok(bytes)
}

// Whether a ledger with these bytes takes one object, of 60 bytes, and no more.
fn takes_one(alloc: Global, bytes: &[u8]) -> bool {
    let Ok(mut disk) = SureDisk::new(alloc, 0, bytes.len().saturating_add(100), 0) else {
        return false;
    };
    let long = (bytes.len() as u64).saturating_add(60);
    fill_file(&mut disk, 0, bytes).is_ok()
        && is_full_after_one(alloc, &mut disk)
        && disk.len(0) == Ok(long)
}

#[test]
fn a_full_catalogue_takes_no_more(rt: HostRuntime) -> Result<(), Fail> {
    let bytes = nearly_full(rt.alloc())?;
    assert!(rt; takes_one(rt.alloc(), &bytes));
    Ok(())
}

// Adds both, and makes an archive. It says whether that is refused, and the ledger is the one to which they were added.
fn is_not_made_twice<D: Disk>(alloc: Global, disk: &mut D) -> bool {
    let Some(added) = add_two(alloc, disk) else {
        return false;
    };
    create_ledger(disk, &SHAPE) == Err(CreateFault::Occupied) && opens_alike(alloc, disk, &added)
}

#[test]
fn an_archive_is_not_made_twice(rt: HostRuntime) -> Result<(), Fail> {
    let mut disk = made(rt.alloc(), &SHAPE, 512)?;
    assert!(rt; is_not_made_twice(rt.alloc(), &mut disk));
    Ok(())
}
