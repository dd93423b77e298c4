//! Objects that are got back and listed.

use crate::archives::{archive_of, is_done, is_got, takes};
use aea_cli::Status;
use aea_disk::{Disk, SureDisk};
use aea_runs::{run_get, run_over};
use std::alloc::Global;
use std::test::Fail;

// An archive of AE(3,2,5) with blocks of 16 bytes on four sites.
const LINE: &str = "create 3 2 5 16 4";

// Objects of three blocks, of one, and of none, by their names.
fn texts() -> [(&'static str, &'static [u8]); 3] {
    [
        ("second", b"an object of three blocks, 36 bytes."),
        ("first", b"abc"),
        ("a", b""),
    ]
}

const LISTED: &str = "0 e3b0c44298fc1c149afbf4c8996fb92427ae41e4649b934ca495991b7852b855 a\n\
3 ba7816bf8f01cfea414140de5dae2223b00361a396177a9cb410ff61f20015ad first\n\
36 ebb2ccefaf3779ada5f38d338ce83cbfc6437766d1dbce0d6f0c8cd17b61b732 second\n";

// A disk with that archive and these objects.
fn filled(alloc: Global) -> Option<SureDisk> {
    let mut disk = archive_of(alloc, LINE, 4, 4096, 4096)?;
    let mut is_full = true;
    for (name, bytes) in texts() {
        is_full = is_full && takes(alloc, &mut disk, name, bytes);
    }
    is_full.then_some(disk)
}

// Whether a get of the object is refused with this line.
fn is_refused<D: Disk>(alloc: Global, disk: &mut D, name: &str, line: &str) -> bool {
    match run_get(alloc, disk, name, 99) {
        Ok(left) => left.is(Status::Refused, "", line),
        Err(_) => false,
    }
}

#[test]
fn objects_are_got_as_they_were_put(rt: HostRuntime) -> Result<(), Fail> {
    let mut disk = filled(rt.alloc()).ok_or("no archive")?;
    for (name, bytes) in texts() {
        assert!(rt; is_got(rt.alloc(), &mut disk, name, bytes, 99), "{name}");
    }
    Ok(())
}

#[test]
fn a_name_that_no_object_has(rt: HostRuntime) -> Result<(), Fail> {
    let unknown = "refused: unknown name\n";
    let mut disk = filled(rt.alloc()).ok_or("no archive")?;
    for name in ["fir", "firsts", "", "b"] {
        assert!(rt; is_refused(rt.alloc(), &mut disk, name, unknown), "{name}");
    }
    Ok(())
}

// A site and a place in it where a bit is flipped, and what is said then: d1 is on site 1, d2 on site 2, d3 on site 3.
fn places() -> [(u8, u8, &'static str); 3] {
    [
        (1, 20, "refused: damaged d1\n"),
        (2, 84, "refused: damaged d2\n"),
        (3, 148, "refused: damaged d3\n"),
    ]
}

// Flips the last bit of the byte at this place of the file. False where the disk fails.
fn flips_bit(disk: &mut SureDisk, file: u8, place: u8) -> bool {
    let (file, place) = (file.min(64), u64::from(place));
    let mut byte = [0u8; 1];
    disk.read(file, place, &mut byte).is_ok() && disk.write(file, place, &[byte[0] ^ 1]).is_ok()
}

// Whether a get of the object with a block there is refused with this line, and another object is got.
fn is_named(alloc: Global, file: u8, place: u8, line: &str) -> bool {
    match filled(alloc) {
        Some(mut disk) => {
            flips_bit(&mut disk, file, place)
                && is_refused(alloc, &mut disk, "second", line)
                && is_got(alloc, &mut disk, "first", b"abc", 99)
        }
        None => false,
    }
}

#[test]
fn the_first_damaged_block_is_named(rt: HostRuntime) -> Result<(), Fail> {
    for (file, place, line) in places() {
        assert!(rt; is_named(rt.alloc(), file, place, line), "{file}");
    }
    Ok(())
}

// Whether `list` ends so, and flushes what it prints.
fn lists<D: Disk>(alloc: Global, disk: &mut D, status: Status, out: &str, err: &str) -> bool {
    match run_over(alloc, "list", disk, 999) {
        Ok(left) => left.is(status, out, err) && left.out.flushed == out.len(),
        Err(_) => false,
    }
}

// Whether `list` is refused where there is no archive, and prints nothing of an empty one.
fn lists_none(alloc: Global) -> bool {
    match SureDisk::new(alloc, 4, 4096, 4096) {
        Ok(mut disk) => {
            lists(
                alloc,
                &mut disk,
                Status::Refused,
                "",
                "refused: no archive\n",
            ) && is_done(alloc, &mut disk, LINE)
                && lists(alloc, &mut disk, Status::Done, "", "")
        }
        Err(_) => false,
    }
}

// Whether the objects are listed by name.
fn are_listed(alloc: Global) -> bool {
    match filled(alloc) {
        Some(mut disk) => lists(alloc, &mut disk, Status::Done, LISTED, ""),
        None => false,
    }
}

#[test]
fn objects_are_listed_by_name(rt: HostRuntime) -> Result<(), Fail> {
    assert!(rt; lists_none(rt.alloc()) && are_listed(rt.alloc()));
    Ok(())
}
