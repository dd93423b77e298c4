//! Records that are added to a ledger, spelled by hand, and what is in its file after faults and stops.

use crate::creating::EMPTY;
use crate::example::{ABC, SHAPE};
use crate::plain::part;
use crate::stops::{add, has_ledger, is_durable, left_by, losses};
use aea_disk::{Disk, FailDisk, Loss, MemDisk, SureDisk};
use aea_ledger::{AppendFault, create_ledger, open_ledger};
use std::alloc::Global;
use std::test::Fail;

// The ledger of the example with one record, the object abc under the name a. The digests of its four blocks are given.
fn short() -> &'static [u8; 203] {
    b"\x01AEALEDG1\x03\x02\x05\x04\0\0\0\x40\x01\
\x01\0\0\0\xb3\0\x01a\0\0\0\0\0\0\0\x03\
\xba\x78\x16\xbf\x8f\x01\xcf\xea\x41\x41\x40\xde\x5d\xae\x22\x23\
\xb0\x03\x61\xa3\x96\x17\x7a\x9c\xb4\x10\xff\x61\xf2\x00\x15\xad\
\0\0\0\x01\0\0\0\x01\
dddddddddddddddddddddddddddddddd\
hhhhhhhhhhhhhhhhhhhhhhhhhhhhhhhh\
rrrrrrrrrrrrrrrrrrrrrrrrrrrrrrrr\
llllllllllllllllllllllllllllllll\0"
}

const SHORT_DIGESTS: [[u8; 32]; 4] = [[b'd'; 32], [b'h'; 32], [b'r'; 32], [b'l'; 32]];

// The same with an object of four nodes, whose record has more than 512 bytes.
fn long() -> &'static [u8; 587] {
    b"\x01AEALEDG1\x03\x02\x05\x04\0\0\0\x40\x01\
\x01\0\0\x02\x33\0\x01a\0\0\0\0\0\0\x01\0\
\xba\x78\x16\xbf\x8f\x01\xcf\xea\x41\x41\x40\xde\x5d\xae\x22\x23\
\xb0\x03\x61\xa3\x96\x17\x7a\x9c\xb4\x10\xff\x61\xf2\x00\x15\xad\
\0\0\0\x01\0\0\0\x04\
aaaaaaaaaaaaaaaaaaaaaaaaaaaaaaaa\
bbbbbbbbbbbbbbbbbbbbbbbbbbbbbbbb\
cccccccccccccccccccccccccccccccc\
dddddddddddddddddddddddddddddddd\
eeeeeeeeeeeeeeeeeeeeeeeeeeeeeeee\
ffffffffffffffffffffffffffffffff\
gggggggggggggggggggggggggggggggg\
hhhhhhhhhhhhhhhhhhhhhhhhhhhhhhhh\
iiiiiiiiiiiiiiiiiiiiiiiiiiiiiiii\
jjjjjjjjjjjjjjjjjjjjjjjjjjjjjjjj\
kkkkkkkkkkkkkkkkkkkkkkkkkkkkkkkk\
llllllllllllllllllllllllllllllll\
mmmmmmmmmmmmmmmmmmmmmmmmmmmmmmmm\
nnnnnnnnnnnnnnnnnnnnnnnnnnnnnnnn\
oooooooooooooooooooooooooooooooo\
pppppppppppppppppppppppppppppppp\0"
}

// The digests of its blocks: each is one letter of the alphabet.
fn long_digests() -> [[u8; 32]; 16] {
    let mut digests = [[0; 32]; 16];
    for k in 0..16u8 {
        digests[usize::from(k)] = [b'a' + k; 32];
    }
    digests
}

// An object that is added: how many bytes it has, the digests of its blocks, and the ledger then.
#[derive(Clone, Copy)]
struct Added<'a> {
    size: u64,
    digests: &'a [[u8; 32]],
    ledger: &'a [u8],
}

fn short_one() -> Added<'static> {
    Added {
        size: 3,
        digests: &SHORT_DIGESTS,
        ledger: short(),
    }
}

fn long_one(digests: &[[u8; 32]; 16]) -> Added {
    Added {
        size: 256,
        digests,
        ledger: long(),
    }
}

// How many calls of the disk make the archive.
const MADE: u64 = 10;

// Makes an archive, opens it and adds the record. It says whether the answer is the wanted one, and the ledger is live then or is not.
fn adds<D: Disk>(
    alloc: Global,
    disk: &mut D,
    object: Added,
    want: Result<bool, AppendFault>,
    is_live: bool,
) -> bool {
    if create_ledger(disk, &SHAPE).is_err() {
        return false;
    }
    let Ok(mut ledger) = open_ledger(alloc, disk) else {
        return false;
    };
    let answer = add(&mut ledger, disk, b"a", object.size, *ABC, object.digests);
    answer == want && ledger.live() == is_live
}

// Whether the record is added to a new archive, and the file is the ledger of the object then.
fn adds_to_new(alloc: Global, object: Added) -> bool {
    let Ok(mut disk) = SureDisk::new(alloc, 0, 1024, 0) else {
        return false;
    };
    adds(alloc, &mut disk, object, Ok(true), true) && has_ledger(&mut disk, object.ledger)
}

#[test]
fn adds_the_examples(rt: HostRuntime) -> Result<(), Fail> {
    assert!(rt; adds_to_new(rt.alloc(), short_one()));
    assert!(rt; adds_to_new(rt.alloc(), long_one(&long_digests())));
    Ok(())
}

// Whether these bytes of a file of so many begin with the ledger up to the gate that ends it, and that is not open.
fn begins_with(bytes: &[u8], count: usize, ledger: &[u8]) -> bool {
    let last = ledger.len().saturating_sub(1);
    count >= ledger.len()
        && bytes.starts_with(part(ledger, 0, last as u64))
        && bytes.get(last) != Some(&1)
}

// Whether the file is the old ledger or the new one, up to the gate that ends it.
fn is_old_or_new(disk: &mut SureDisk, ledger: &[u8]) -> bool {
    let mut bytes = [9u8; 1024];
    match disk.read(0, 0, &mut bytes) {
        Ok(count) => begins_with(&bytes, count, EMPTY) || begins_with(&bytes, count, ledger),
        Err(_) => false,
    }
}

// Whether a stop after this call with this loss leaves one of them.
fn leaves_old_or_new(alloc: Global, disk: &MemDisk, after: u64, loss: Loss, ledger: &[u8]) -> bool {
    match left_by(alloc, disk, after, loss) {
        Some(mut left) => is_old_or_new(&mut left, ledger),
        None => false,
    }
}

// The first call after which a stop leaves neither of them, from the last sync of the making on; 0 where there is none.
fn first_wrong_stop(alloc: Global, disk: &MemDisk, ledger: &[u8]) -> u64 {
    for after in MADE..=disk.calls() {
        for loss in losses() {
            if !leaves_old_or_new(alloc, disk, after, loss, ledger) {
                return after;
            }
        }
    }
    0
}

// The first such call where the record is added to a new archive, by so many calls of the disk, and lasts.
fn first_wrong_stop_of(alloc: Global, object: Added, calls: u64) -> Result<u64, Fail> {
    let mut disk = MemDisk::new(alloc, 0, 1024, 0, 20, 1024)?;
    if !adds(alloc, &mut disk, object, Ok(true), true) || disk.calls() != calls {
        return Err(Fail::new("not added by so many calls"));
    }
    if !is_durable(alloc, &disk, object.ledger) {
        return Err(Fail::new("not durable"));
    }
    Ok(first_wrong_stop(alloc, &disk, object.ledger))
}

#[test]
fn stopped_after_each_call(rt: HostRuntime) -> Result<(), Fail> {
    // four calls open the ledger, and four add a short record, or six a long one
    let after = first_wrong_stop_of(rt.alloc(), short_one(), 18)?;
    assert!(rt; after == 0, "short, after {after}");
    let after = first_wrong_stop_of(rt.alloc(), long_one(&long_digests()), 20)?;
    assert!(rt; after == 0, "long, after {after}");
    Ok(())
}

// The new ledgers without their first gate, which comes last.
fn short_staged() -> [u8; 203] {
    let mut bytes = *short();
    bytes[17] = 0;
    bytes
}

fn long_staged() -> [u8; 587] {
    let mut bytes = *long();
    bytes[17] = 0;
    bytes
}

// What is there of the long one before that: the closing gate and the digests, and before that the closing gate alone.
fn with_digests() -> [u8; 587] {
    let mut bytes = long_staged();
    bytes[17..74].fill(0);
    bytes
}

fn with_gate() -> [u8; 587] {
    let mut bytes = [0; 587];
    bytes[..18].copy_from_slice(EMPTY);
    bytes
}

// Whether the record is not added where this call of the disk fails, and the file has these bytes then.
fn is_at_fault(alloc: Global, object: Added, call: u64, left: &[u8]) -> bool {
    let Ok(inner) = SureDisk::new(alloc, 0, 1024, 0) else {
        return false;
    };
    let Ok(mut disk) = FailDisk::new(alloc, inner, &[call]) else {
        return false;
    };
    let fault = Err(AppendFault::DiskFault);
    adds(alloc, &mut disk, object, fault, false) && has_ledger(&mut disk, left)
}

// Whether that holds of the short record with what its calls leave, from the 15th to the 18th.
fn is_short_at_fault(alloc: Global, call: u64) -> bool {
    let object = short_one();
    match call {
        15 => is_at_fault(alloc, object, call, EMPTY),
        16 | 17 => is_at_fault(alloc, object, call, &short_staged()),
        18 => is_at_fault(alloc, object, call, short()),
        _ => false,
    }
}

#[test]
fn failing_at_each_call(rt: HostRuntime) -> Result<(), Fail> {
    for k in 15..=18u64 {
        assert!(rt; is_short_at_fault(rt.alloc(), k), "call {k}");
    }
    Ok(())
}

// The same of the long record, from the 15th to the 20th.
fn is_long_at_fault(alloc: Global, object: Added, call: u64) -> bool {
    match call {
        15 => is_at_fault(alloc, object, call, EMPTY),
        16 => is_at_fault(alloc, object, call, &with_gate()),
        17 => is_at_fault(alloc, object, call, &with_digests()),
        18 | 19 => is_at_fault(alloc, object, call, &long_staged()),
        20 => is_at_fault(alloc, object, call, long()),
        _ => false,
    }
}

#[test]
fn failing_at_each_call_of_a_long_record(rt: HostRuntime) -> Result<(), Fail> {
    for k in 15..=20u64 {
        let is_so = is_long_at_fault(rt.alloc(), long_one(&long_digests()), k);
        assert!(rt; is_so, "call {k}");
    }
    Ok(())
}
