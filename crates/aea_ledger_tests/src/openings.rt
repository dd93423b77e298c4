//! Ledgers byte by byte: what opening returns, beside the plain reader.

use crate::example::{ABC, FRONT, each_kind, example, first_digest};
use crate::plain::{Reading, part, read_plainly};
use aea_disk::{Disk, SureDisk};
use aea_lattice::{Class, Shape};
use aea_ledger::{Ledger, OpenFault, open_ledger};
use aea_test_helpers::fill_file;
use sha2::{Digest, Sha256};
use std::alloc::{AllocError, Global};
use std::test::Fail;

/// What opening makes of the bytes. The disk keeps them.
pub fn open_bytes(alloc: Global, disk: &mut SureDisk, bytes: &[u8]) -> Reading {
    match fill_file(disk, 0, bytes) {
        Ok(()) => open_disk(alloc, disk),
        Err(_) => Reading::Unread,
    }
}

/// What opening makes of a disk.
pub fn open_disk<D: Disk>(alloc: Global, disk: &mut D) -> Reading {
    match open_ledger(alloc, disk) {
        Ok(ledger) => Reading::Ledger {
            nodes: u64::from(ledger.lattice().n()),
            objects: ledger.catalog().len() as u64,
        },
        Err(OpenFault::NoArchive) => Reading::NoArchive,
        Err(OpenFault::LedgerBad { at }) => Reading::Bad { at },
        Err(_) => Reading::Unread,
    }
}

// The digest of the block with this number, None past the last block.
fn recorded(ledger: &Ledger, k: u32) -> Option<[u8; 32]> {
    if k < ledger.lattice().blocks() {
        Some(ledger.digest(k))
    } else {
        None
    }
}

// Whether the ledger has the shape, the nodes and the one object of the example, and takes records.
fn has_object(ledger: &Ledger) -> bool {
    let objects = ledger.catalog();
    let Some(object) = objects.find(b"a") else {
        return false;
    };
    Some(ledger.shape()) == Shape::new(3, 2, 5, 64, 4)
        && ledger.lattice().n() == 1
        && ledger.live()
        && objects.len() == 1
        && (object.first, object.count, object.length) == (1, 1, 3)
        && &object.digest == ABC
}

// Whether the ledger has the digests of the four blocks of the example.
fn has_digests(ledger: &Ledger) -> bool {
    for (k, class) in [
        (0u32, Class::Datum),
        (1, Class::Horiz),
        (2, Class::Right),
        (3, Class::Left),
    ] {
        if recorded(ledger, k) != Some(first_digest(class)) {
            return false;
        }
    }
    true
}

// Whether the bytes are opened as the ledger of the example, and the seal is the digest of those before the last.
fn is_example(alloc: Global, bytes: &[u8]) -> bool {
    let Ok(mut disk) = SureDisk::new(alloc, 0, 256, 0) else {
        return false;
    };
    if fill_file(&mut disk, 0, bytes).is_err() {
        return false;
    }
    let Ok(ledger) = open_ledger(alloc, &mut disk) else {
        return false;
    };
    has_fields(&ledger, bytes)
}

// Whether each field is that of the example.
fn has_fields(ledger: &Ledger, bytes: &[u8]) -> bool {
    has_object(ledger)
        && has_digests(ledger)
        && ledger.seal() == Sha256::digest(part(bytes, 0, 202))
}

#[test]
fn the_example_is_read_field_by_field(rt: HostRuntime) -> Result<(), Fail> {
    assert!(rt; is_example(rt.alloc(), &example()));
    Ok(())
}

// Whether opening makes of the bytes what the plain reader does.
fn agrees(alloc: Global, disk: &mut SureDisk, bytes: &[u8]) -> bool {
    read_plainly(alloc, bytes) == Ok(open_bytes(alloc, disk, bytes))
}

// Whether opening and the plain reader both make this of the bytes.
fn is_read_as(alloc: Global, disk: &mut SureDisk, bytes: &[u8], want: Reading) -> bool {
    open_bytes(alloc, disk, bytes) == want && read_plainly(alloc, bytes) == Ok(want)
}

// The least number of bytes of which opening does not make what the plain reader does; one more than there are where there is none.
fn first_cut_apart(alloc: Global, disk: &mut SureDisk, bytes: &[u8]) -> usize {
    for end in 0..=bytes.len() {
        if !agrees(alloc, disk, &bytes[..end]) {
            return end;
        }
    }
    bytes.len().saturating_add(1)
}

// Whether the value is one of some that are tried in place of a byte of any value.
fn is_tried(kept: u8, value: u8) -> bool {
    let flips = [kept ^ 1, kept ^ 128, kept ^ 16];
    [0, 1, 2, 3, 4, 5, 31, 127, 255].contains(&value) || flips.contains(&value)
}

// The first place at which another byte is not to opening what it is to the plain reader, and that byte; the place after the last one
// where there is none. Each byte is tried, or some.
fn first_change_apart(
    alloc: Global,
    disk: &mut SureDisk,
    bytes: &mut [u8],
    is_each: bool,
) -> (usize, u8) {
    for place in 0..bytes.len() {
        let kept = bytes[place];
        for value in 0..=255u8 {
            if is_each || is_tried(kept, value) {
                bytes[place] = value;
                if !agrees(alloc, disk, bytes) {
                    return (place, value);
                }
            }
        }
        bytes[place] = kept;
    }
    (bytes.len(), 0)
}

// What both give of these bytes: how many are left of the first cut apart, and the first place apart, with its byte.
fn first_apart(
    alloc: Global,
    disk: &mut SureDisk,
    bytes: &mut [u8],
    is_each: bool,
) -> (usize, usize, u8) {
    let end = first_cut_apart(alloc, disk, bytes);
    let (place, value) = first_change_apart(alloc, disk, bytes, is_each);
    (end, place, value)
}

#[test]
fn each_cut_and_change_is_as_the_plain_reader_has_it(rt: HostRuntime) -> Result<(), Fail> {
    let mut disk = SureDisk::new(rt.alloc(), 0, 256, 0)?;
    let (end, place, value) = first_apart(rt.alloc(), &mut disk, &mut example(), true);
    assert!(rt; end == 204 && place == 203, "{end}, {value} at {place}");
    Ok(())
}

// Whether the archive has a raised limit, a fence and an object in two parts.
fn has_each_kind(alloc: Global, disk: &mut SureDisk) -> bool {
    match open_ledger(alloc, disk) {
        Ok(ledger) => is_of_each_kind(&ledger),
        Err(_) => false,
    }
}

// Whether the ledger has them.
fn is_of_each_kind(ledger: &Ledger) -> bool {
    ledger.limit() == 1_048_576
        && ledger.lattice().fence_count() == 1
        && ledger.catalog().parts(b"b") == Some(2)
}

// Whether opening and the plain reader both make two nodes and two objects of each kind, and the archive has them.
fn is_each_kind(alloc: Global, disk: &mut SureDisk) -> bool {
    let two = Reading::Ledger {
        nodes: 2,
        objects: 2,
    };
    is_read_as(alloc, disk, &each_kind(), two) && has_each_kind(alloc, disk)
}

#[test]
fn each_kind_is_as_the_plain_reader_has_it(rt: HostRuntime) -> Result<(), Fail> {
    let mut disk = SureDisk::new(rt.alloc(), 0, 512, 0)?;
    assert!(rt; is_each_kind(rt.alloc(), &mut disk));
    let (end, place, value) = first_apart(rt.alloc(), &mut disk, &mut each_kind(), false);
    assert!(rt; end == 429 && place == 428, "{end}, {value} at {place}");
    Ok(())
}

// Some changes of the example, whose places are known: how many bytes are kept, the place of a byte, what is put there, and
// what that is.
#[rattlefmt::skip]
fn bad_changes() -> [(u64, usize, u8, Reading); 18] {
    [
        (203, 9, 4, Reading::Bad { at: 9 }),
        (202, 0, 1, Reading::Bad { at: 202 }),
        (150, 0, 1, Reading::Bad { at: 74 }),
        (17, 0, 1, Reading::NoArchive),
        (203, 0, 7, Reading::NoArchive),
        // the length of the body is judged last, but whether it is there at its place
        (203, 22, 0xb4, Reading::Bad { at: 19 }),
        (202, 22, 0xb4, Reading::Bad { at: 19 }),
        (150, 22, 0xb4, Reading::Bad { at: 74 }),
        (21, 0, 1, Reading::Bad { at: 19 }),
        (203, 69, 2, Reading::Bad { at: 66 }),
        (203, 73, 2, Reading::Bad { at: 70 }),
        (203, 24, 0, Reading::Bad { at: 23 }),
        (203, 25, 31, Reading::Bad { at: 25 }),
        (203, 25, 127, Reading::Bad { at: 25 }),
        (203, 25, 0xff, Reading::Bad { at: 25 }),
        (203, 202, 1, Reading::Bad { at: 203 }),
        (203, 202, 2, Reading::Ledger { nodes: 1, objects: 1 }),
        (203, 17, 0, Reading::Ledger { nodes: 0, objects: 0 }),
    ]
}

// So many bytes of the example with another one at this place, if they have it.
fn changed(alloc: Global, end: u64, byte: (usize, u8)) -> Result<Vec<u8>, AllocError> {
    let (place, value) = byte;
    let mut bytes = Vec::from_slice(alloc, part(&example(), 0, end))?;
    if let Some(kept) = bytes.get_mut(place) {
        *kept = value;
    }
    Ok(bytes)
}

// Whether these are this.
fn is_changed_to(
    alloc: Global,
    disk: &mut SureDisk,
    end: u64,
    byte: (usize, u8),
    want: Reading,
) -> bool {
    match changed(alloc, end, byte) {
        Ok(bytes) => is_read_as(alloc, disk, &bytes, want),
        Err(_) => false,
    }
}

#[test]
fn bad_places(rt: HostRuntime) -> Result<(), Fail> {
    let mut disk = SureDisk::new(rt.alloc(), 0, 256, 0)?;
    for (end, place, value, want) in bad_changes() {
        assert!(rt;
            is_changed_to(rt.alloc(), &mut disk, end, (place, value), want),
            "{end} {place} {value}"
        );
    }
    Ok(())
}

// What comes before the name of so many bytes in the record of an empty object, from its open gate on.
fn head_of(long: u16) -> [u8; 8] {
    let mut head = [1; 8];
    head[2..6].copy_from_slice(&u32::from(long).saturating_add(50).to_be_bytes());
    head[6..].copy_from_slice(&long.to_be_bytes());
    head
}

// What comes behind the name, and the closed gate.
fn tail_of(first: u32) -> [u8; 49] {
    let mut tail = [0; 49];
    tail[40..44].copy_from_slice(&first.to_be_bytes());
    tail
}

// Adds an empty object of this name after the last gate, which it opens, and closes the next.
fn add_empty(bytes: &mut Vec<u8>, name: &[u8], first: u32) -> Result<(), AllocError> {
    let _gate = bytes.pop();
    let long = u16::try_from(name.len()).unwrap_or(u16::MAX);
    bytes.extend_from_slice(&head_of(long))?;
    bytes.extend_from_slice(name)?;
    bytes.extend_from_slice(&tail_of(first))
}

/// Adds one whose name is this number.
pub fn add_number(alloc: Global, bytes: &mut Vec<u8>, number: u32) -> Result<(), AllocError> {
    let name = format!(in alloc; "{number}")?;
    add_empty(bytes, name.as_bytes(), 1)
}

// Names, and what a ledger with an object of the name is.
#[rattlefmt::skip]
fn names() -> [(&'static [u8], Reading); 12] {
    let none = Reading::Bad { at: 25 };
    let one = Reading::Ledger { nodes: 0, objects: 1 };
    [
        (&[b'a'; 255], one),
        (&[b'a'; 256], Reading::Bad { at: 23 }),
        (b"", Reading::Bad { at: 23 }),
        (b"tab\x09", none),
        (b"\x1f", none),
        (b"\x20", one),
        (b"\x7e", one),
        (b"\x7f", none),
        (b"\xc3\xa9", one),
        (b"\xc3", none),
        (b"\xc0\x80", none),
        (b"\xff", none),
    ]
}

// A ledger with empty objects of these names.
fn with_names(alloc: Global, names: &[&[u8]]) -> Result<Vec<u8>, AllocError> {
    let mut bytes = Vec::from_slice(alloc, FRONT)?;
    for name in names {
        add_empty(&mut bytes, name, 1)?;
    }
    Ok(bytes)
}

// Whether such a ledger is this.
fn are_read_as(alloc: Global, disk: &mut SureDisk, names: &[&[u8]], want: Reading) -> bool {
    match with_names(alloc, names) {
        Ok(bytes) => is_read_as(alloc, disk, &bytes, want),
        Err(_) => false,
    }
}

// Whether a ledger with a name that occurs twice is bad there.
fn is_bad_at_third(alloc: Global, disk: &mut SureDisk) -> bool {
    let at = 17 + 57 + 57 + 8;
    are_read_as(alloc, disk, &[b"b", b"a", b"b"], Reading::Bad { at })
}

#[test]
fn names_at_their_limits(rt: HostRuntime) -> Result<(), Fail> {
    let mut disk = SureDisk::new(rt.alloc(), 0, 512, 0)?;
    for (name, want) in names() {
        assert!(rt;
            are_read_as(rt.alloc(), &mut disk, &[name], want),
            "{name:?}"
        );
    }
    assert!(rt; is_bad_at_third(rt.alloc(), &mut disk));
    Ok(())
}

// A ledger with as many empty objects as there may be, whose names are out of order.
fn full_one(alloc: Global) -> Result<Vec<u8>, Fail> {
    let mut bytes = Vec::from_slice(alloc, FRONT)?;
    for k in 0..65_536u32 {
        add_number(alloc, &mut bytes, k.wrapping_mul(40_503) % 65_536)?;
    }
    Ok(bytes)
}

// Whether these bytes are a ledger with so many objects, and are none with one object more.
fn is_full(alloc: Global, bytes: &mut Vec<u8>, objects: u64) -> bool {
    let Ok(mut disk) = SureDisk::new(alloc, 0, bytes.len().saturating_add(100), 0) else {
        return false;
    };
    let full = Reading::Ledger { nodes: 0, objects };
    let at = (bytes.len() as u64).saturating_sub(1);
    open_bytes(alloc, &mut disk, bytes) == full
        && add_empty(bytes, b"one more", 1).is_ok()
        && open_bytes(alloc, &mut disk, bytes) == Reading::Bad { at }
}

#[test]
fn as_many_objects_as_there_may_be(rt: HostRuntime) -> Result<(), Fail> {
    let mut bytes = full_one(rt.alloc())?;
    assert!(rt; is_full(rt.alloc(), &mut bytes, 65_536));
    Ok(())
}
