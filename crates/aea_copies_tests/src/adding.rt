//! Records that are added to the ledger of the example, over a Mirror of its disk.

use crate::example::{FENCE, RAISE, ledger};
use crate::joining::joined;
use crate::plain::part;
use crate::three::{Answer, put};
use aea_adopt::adopt;
use aea_disk::Disk;
use aea_ledger::open_ledger;
use aea_mirror::Mirror;
use std::alloc::Global;

/// What is answered where the example with a fence more is adopted.
pub const FENCED: Answer = Answer::On {
    end: 212,
    gate: 332,
};

/// The same with a fence and a raise.
pub const RAISED: Answer = Answer::On {
    end: 222,
    gate: 379,
};

/// The example with a fence, and with a raise of the limit after it.
pub fn raised(alloc: Global) -> Option<Vec<u8>> {
    joined(alloc, &[part(&ledger(), 0, 202), FENCE, RAISE, b"\0"])
}

// Adds a fence to the ledger of a disk. It says whether it did.
fn adds_fence<D: Disk>(alloc: Global, disk: &mut D) -> bool {
    match open_ledger(alloc, disk) {
        Ok(mut ledger) => ledger.append_fence(disk) == Ok(1),
        Err(_) => false,
    }
}

// Adds a raise of the limit.
fn adds_raise<D: Disk>(alloc: Global, disk: &mut D) -> bool {
    match open_ledger(alloc, disk) {
        Ok(mut ledger) => ledger.append_upgrade(disk) == Ok(()),
        Err(_) => false,
    }
}

/// Adds a fence to the ledger of a disk, and a raise of the limit if that is wanted. It says whether it did.
pub fn adds<D: Disk>(alloc: Global, disk: &mut D, raises: bool) -> bool {
    adds_fence(alloc, disk) && (!raises || adds_raise(alloc, disk))
}

/// The same over a Mirror of the disk, once its copies were adopted.
pub fn adds_over<D: Disk>(alloc: Global, disk: &mut D, raises: bool) -> bool {
    match adopt(disk) {
        Ok(adopted) => adds(alloc, &mut Mirror::new(disk, adopted), raises),
        Err(_) => false,
    }
}

// Writes two records over a Mirror, and makes them known by one gate and one sync.
fn writes_two<D: Disk>(alloc: Global, mirror: &mut Mirror<D>) -> bool {
    match raised(alloc) {
        Some(text) => {
            let calls = [
                put(mirror, 0, 203, part(text.as_slice(), 203, 20)),
                mirror.sync(),
                put(mirror, 0, 202, b"\x01"),
                mirror.sync(),
            ];
            calls == [Ok(()); 4]
        }
        None => false,
    }
}

/// The same over a Mirror of this disk.
pub fn adds_two<D: Disk>(alloc: Global, disk: &mut D) -> bool {
    match adopt(disk) {
        Ok(adopted) => writes_two(alloc, &mut Mirror::new(disk, adopted)),
        Err(_) => false,
    }
}

/// Whether a ledger is opened.
pub fn is_opened<D: Disk>(alloc: Global, disk: &mut D) -> bool {
    open_ledger(alloc, disk).is_ok()
}
