//! Objects that are refused, with the line, and that a refusal changes nothing.

use crate::archives::{
    LINE, archive_of, counts, ends, puts, refuses, refuses_stream, takes, with_abc,
};
use aea_cli::Status;
use aea_disk::{Disk, SureDisk};
use aea_runs::run_put;
use aea_test_helpers::{fill_file, shorten, spoil};
use std::alloc::{AllocError, Global};
use std::test::Fail;

// What `stat` prints of an archive without objects.
const NO_OBJECT: &str =
    "{\"alpha\":3,\"block\":64,\"nodes\":0,\"objects\":0,\"p\":5,\"s\":2,\"sites\":4}\n";

// Names that are refused, and how.
fn bad_names() -> [(&'static str, &'static str); 4] {
    [
        ("a", "refused: name taken\n"),
        ("", "refused: bad name\n"),
        ("a\n", "refused: bad name\n"),
        ("\u{7f}", "refused: bad name\n"),
    ]
}

// The first of the bad names that is not refused so, or of some names, words like commands among them, that is not taken.
fn first_wrong_name<D: Disk>(alloc: Global, disk: &mut D) -> Option<&'static str> {
    for (name, line) in bad_names() {
        if !refuses(alloc, disk, name, b"abc", line, 3) {
            return Some(name);
        }
    }
    for name in ["put", "fence", "b c", "A", "\u{e9}"] {
        if !takes(alloc, disk, name, b"") {
            return Some(name);
        }
    }
    None
}

// The first wrong one in the archive with the object `a`.
fn wrong_name(alloc: Global) -> Option<&'static str> {
    match with_abc(alloc) {
        Some(mut disk) => first_wrong_name(alloc, &mut disk),
        None => Some("no archive"),
    }
}

#[test]
fn names_that_are_refused(rt: HostRuntime) -> Result<(), Fail> {
    let wrong = wrong_name(rt.alloc());
    assert!(rt; wrong == None, "{wrong:?}");
    Ok(())
}

// One of sixteen letters.
fn letter(k: u32) -> u8 {
    b'a' + (k % 16) as u8
}

// The record of the empty object of this number, whose name has five letters.
fn empty_record(k: u32) -> [u8; 61] {
    let mut record = [0; 61];
    record[..8].copy_from_slice(b"\x01\x01\0\0\0\x37\0\x05");
    record[8] = letter(k / 4096);
    record[9] = letter(k / 256);
    record[10] = letter(k / 16);
    record[11] = letter(k);
    record[12] = b'z';
    record[56] = 1;
    record
}

// A ledger with as many empty objects as there may be.
fn full_ledger(alloc: Global) -> Result<Vec<u8>, AllocError> {
    let mut bytes = Vec::from_slice(alloc, b"\x01AEALEDG1\x01\x01\0\x01\0\0\0\x10")?;
    for k in 0..65_536u32 {
        bytes.extend_from_slice(&empty_record(k))?;
    }
    bytes.push(0)?;
    Ok(bytes)
}

// An archive with that ledger. None where memory runs out, or the disk does not take it.
fn full_one(alloc: Global) -> Option<SureDisk> {
    let bytes = full_ledger(alloc).ok()?;
    let mut disk = SureDisk::new(alloc, 1, 4_200_000, 64).ok()?;
    fill_file(&mut disk, 0, &bytes).is_ok().then_some(disk)
}

// Objects of one byte, and streams of one object without bytes, that a full catalogue refuses, and the lines.
fn refused_objects() -> [(&'static str, &'static str); 3] {
    [
        ("more", "refused: catalog full\n"),
        ("aaaaz", "refused: name taken\n"),
        ("", "refused: bad name\n"),
    ]
}

fn refused_streams() -> [(&'static [u8], &'static str); 2] {
    [
        (
            b"\0\x04more\0\0\0\0\0\0\0\0".as_slice(),
            "refused: catalog full\n",
        ),
        (b"\0\x05aaaaz\0\0\0\0\0\0\0\0", "refused: name taken\n"),
    ]
}

// The name of the first object, or the line of the first stream, that is not refused so.
fn first_stored<D: Disk>(alloc: Global, disk: &mut D) -> Option<&'static str> {
    for (name, line) in refused_objects() {
        let want = (Status::Refused, "", line);
        if !puts(alloc, disk, (name, b"x"), want, 1) {
            return Some(name);
        }
    }
    for (stream, line) in refused_streams() {
        if !refuses_stream(alloc, disk, stream, line, 0) {
            return Some(line);
        }
    }
    None
}

// The first of them in an archive with a full catalogue.
fn stored_in_full_one(alloc: Global) -> Option<&'static str> {
    match full_one(alloc) {
        Some(mut disk) => first_stored(alloc, &mut disk),
        None => Some("no archive"),
    }
}

#[test]
fn a_full_catalogue_takes_no_object(rt: HostRuntime) -> Result<(), Fail> {
    let stored = stored_in_full_one(rt.alloc());
    assert!(rt; stored == None, "{stored:?}");
    Ok(())
}

// Sites of whose first cells a byte is flipped, some more than once, and the line. The blocks d1, h1, r1 and l1 are on the sites 1
// to 4.
fn damaged_heads() -> [([u8; 3], &'static str); 4] {
    [
        ([3, 3, 3], "refused: head damaged r1\n"),
        ([4, 4, 4], "refused: head damaged l1\n"),
        ([4, 3, 1], "refused: head damaged r1\n"),
        ([4, 3, 2], "refused: head damaged h1\n"),
    ]
}

// The archive with the object `a`, a byte flipped on each of these sites. None where one has no such byte.
fn spoiled(alloc: Global, sites: &[u8]) -> Option<SureDisk> {
    let mut disk = with_abc(alloc)?;
    let mut are_spoiled = true;
    for site in sites {
        are_spoiled &= spoil(&mut disk, *site, 16) == Ok(true);
    }
    are_spoiled.then_some(disk)
}

// Whether each put of a new name is refused with this line where these sites are damaged, and a name that is taken as always.
fn is_named(alloc: Global, sites: [u8; 3], line: &str) -> bool {
    let taken = "refused: name taken\n";
    match spoiled(alloc, &sites) {
        Some(mut disk) => {
            refuses(alloc, &mut disk, "b", b"x", line, 1)
                && refuses(alloc, &mut disk, "b", b"", line, 0)
                && refuses(alloc, &mut disk, "a", b"x", taken, 1)
        }
        None => false,
    }
}

// Whether objects are stored where a datum alone is damaged, which is no head.
fn is_no_head(alloc: Global) -> bool {
    match spoiled(alloc, &[1]) {
        Some(mut disk) => {
            takes(alloc, &mut disk, "b", b"x") && takes(alloc, &mut disk, "c", b"x")
        }
        None => false,
    }
}

#[test]
fn the_damaged_head_with_the_least_number_is_named(rt: HostRuntime) -> Result<(), Fail> {
    for (sites, line) in damaged_heads() {
        assert!(rt; is_named(rt.alloc(), sites, line), "{line}");
    }
    assert!(rt; is_no_head(rt.alloc()));
    Ok(())
}

// Bad ledgers: how many bytes of the ledger are kept, the place of a byte, what is written there, and the line.
fn bad_ledgers() -> [(u64, u8, u8, &'static str); 5] {
    [
        (203, 9, 4, "refused: ledger bad at 9\n"),
        (202, 0, 1, "refused: ledger bad at 202\n"),
        (150, 0, 1, "refused: ledger bad at 74\n"),
        (17, 0, 1, "refused: no archive\n"),
        (203, 0, 7, "refused: no archive\n"),
    ]
}

// The archive with the object `a`, whose ledger is bad so. None where it had another ledger.
fn with_bad_ledger(alloc: Global, end: u64, place: u8, value: u8) -> Option<SureDisk> {
    let mut disk = with_abc(alloc)?;
    let is_bad = disk.len(0) == Ok(203)
        && shorten(&mut disk, 0, end) == Ok(true)
        && disk.write(0, u64::from(place), &[value]).is_ok();
    is_bad.then_some(disk)
}

// Puts objects, and runs the other commands that open the ledger. The answer is the name or the command that is not refused with this
// line first.
fn first_unrefused<D: Disk>(alloc: Global, disk: &mut D, line: &str) -> Option<&'static str> {
    for name in ["b", "a", ""] {
        if !refuses(alloc, disk, name, b"x", line, 1) {
            return Some(name);
        }
    }
    for other in [
        "get a", "get z", "list", "stat", "scrub", "fence", "upgrade", "ingest",
    ] {
        if !ends(alloc, disk, other, (Status::Refused, "", line)) {
            return Some(other);
        }
    }
    None
}

// The same in the archive whose ledger is bad so.
fn unrefused(alloc: Global, end: u64, place: u8, value: u8, line: &str) -> Option<&'static str> {
    match with_bad_ledger(alloc, end, place, value) {
        Some(mut disk) => first_unrefused(alloc, &mut disk, line),
        None => Some("no archive"),
    }
}

#[test]
fn a_bad_ledger_takes_no_object(rt: HostRuntime) -> Result<(), Fail> {
    for (end, place, value, line) in bad_ledgers() {
        let taken = unrefused(rt.alloc(), end, place, value, line);
        assert!(rt; taken == None, "{taken:?} {end} {place}");
    }
    Ok(())
}

// Whether `put` of the object of three bytes ends with a fault of the disk.
fn puts_at_fault<D: Disk>(alloc: Global, disk: &mut D) -> bool {
    run_put(alloc, disk, "a", b"abc").is_ok_and(|left| left.is(Status::Disk, "", "fault: disk\n"))
}

// Whether an object is refused on a disk whose ledger and whose sites have so much space, and none is there then.
fn is_at_fault(alloc: Global, ledger: usize, site: usize) -> bool {
    match archive_of(alloc, LINE, 4, ledger, site) {
        Some(mut disk) => { puts_at_fault(alloc, &mut disk) && counts(alloc, &mut disk, NO_OBJECT) }
        None => false,
    }
}

#[test]
fn a_disk_without_room_for_a_cell_is_at_fault(rt: HostRuntime) -> Result<(), Fail> {
    for (ledger, site) in [(202usize, 112usize), (203, 111)] {
        assert!(rt; is_at_fault(rt.alloc(), ledger, site), "{ledger} {site}");
    }
    Ok(())
}
