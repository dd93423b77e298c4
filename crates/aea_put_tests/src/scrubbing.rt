//! Scrubs: which blocks of an archive are damaged.

use crate::archives::{archive_of, ends, is_done};
use aea_append::put;
use aea_cli::Status;
use aea_disk::{Disk, SureDisk};
use aea_io::SureSource;
use aea_ledger::open_ledger;
use aea_test_helpers::shorten;
use std::alloc::Global;
use std::test::Fail;

// An archive of AE(3,2,5) with blocks of 16 bytes on four sites. With four nodes the file of each site has four cells of
// 64 bytes.
const LINE: &str = "create 3 2 5 16 4";

const SOUND: &str = "total 16 damaged 0\n";

// Site 3 has the blocks of the numbers 2, 5, 8 and 15.
const SITE_3_LOST: &str = "damaged r1\ndamaged h2\ndamaged d3\ndamaged l4\ntotal 16 damaged 4\n";

// Whether these bytes were put as an object.
fn put_bytes<D: Disk>(alloc: Global, disk: &mut D, name: &[u8], bytes: &[u8]) -> bool {
    let mut source = SureSource::new(bytes);
    match open_ledger(alloc, disk) {
        Ok(mut ledger) => put(alloc, &mut ledger, disk, name, &mut source).is_ok(),
        Err(_) => false,
    }
}

// A disk with that archive, and two objects of three nodes and of one. None where they are not stored.
fn filled(alloc: Global) -> Option<SureDisk> {
    let mut disk = archive_of(alloc, LINE, 4, 4096, 4096)?;
    let bytes = b"an object of three blocks, 36 bytes.";
    let are_put = put_bytes(alloc, &mut disk, b"first", bytes)
        && put_bytes(alloc, &mut disk, b"second", b"abc");
    are_put.then_some(disk)
}

// Whether a scrub prints this, and ends with the status that goes with it.
fn scrubs<D: Disk>(alloc: Global, disk: &mut D, out: &str) -> bool {
    let status = if out.starts_with("damaged ") {
        Status::Damage
    } else {
        Status::Done
    };
    ends(alloc, disk, "scrub", (status, out, ""))
}

// Whether no archive is scrubbed, and one without blocks is.
fn has_no_block(alloc: Global) -> bool {
    let none = (Status::Refused, "", "refused: no archive\n");
    match SureDisk::new(alloc, 0, 18, 0) {
        Ok(mut disk) => {
            ends(alloc, &mut disk, "scrub", none)
                && is_done(alloc, &mut disk, LINE)
                && scrubs(alloc, &mut disk, "total 0 damaged 0\n")
        }
        Err(_) => false,
    }
}

#[test]
fn a_fresh_archive_has_no_block(rt: HostRuntime) -> Result<(), Fail> {
    assert!(rt; has_no_block(rt.alloc()));
    Ok(())
}

// Whether an archive is sound, its third site is told once it is lost, and the objects are there.
fn reveals_lost_site(alloc: Global) -> bool {
    match filled(alloc) {
        Some(mut disk) => {
            scrubs(alloc, &mut disk, SOUND)
                && shorten(&mut disk, 3, 0) == Ok(true)
                && scrubs(alloc, &mut disk, SITE_3_LOST)
                && is_done(alloc, &mut disk, "stat")
        }
        None => false,
    }
}

#[test]
fn a_lost_site_is_reported(rt: HostRuntime) -> Result<(), Fail> {
    assert!(rt; reveals_lost_site(rt.alloc()));
    Ok(())
}

// A file and a place where a bit is flipped, and what is said then.
fn places() -> [(u8, u16, &'static str); 5] {
    [
        (1, 0, "damaged d1\ntotal 16 damaged 1\n"),
        (4, 63, "damaged l1\ntotal 16 damaged 1\n"),
        (2, 64, "damaged d2\ntotal 16 damaged 1\n"),
        (3, 255, "damaged l4\ntotal 16 damaged 1\n"),
        (3, 256, SOUND),
    ]
}

// Flips a bit of the byte at this place, which is 0 where the file ends. Whether no call fails.
fn flips<D: Disk>(disk: &mut D, file: u8, place: u16) -> bool {
    let (file, place) = (file.min(64), u64::from(place));
    let mut byte = [0u8; 1];
    disk.read(file, place, &mut byte).is_ok() && disk.write(file, place, &[byte[0] ^ 1]).is_ok()
}

// Whether this is said where a bit is flipped there.
fn is_revealed(alloc: Global, file: u8, place: u16, text: &str) -> bool {
    match filled(alloc) {
        Some(mut disk) => flips(&mut disk, file, place) && scrubs(alloc, &mut disk, text),
        None => false,
    }
}

#[test]
fn a_changed_byte_is_reported(rt: HostRuntime) -> Result<(), Fail> {
    for (file, place, text) in places() {
        assert!(rt;
            is_revealed(rt.alloc(), file, place, text),
            "{file} {place}"
        );
    }
    Ok(())
}

// Whether the cell of d1 at the home of h1 is damaged.
fn is_misplaced(alloc: Global) -> bool {
    let mut cell = [0u8; 64];
    match filled(alloc) {
        Some(mut disk) => {
            disk.read(1, 0, &mut cell) == Ok(64)
                && disk.write(2, 0, &cell).is_ok()
                && scrubs(alloc, &mut disk, "damaged h1\ntotal 16 damaged 1\n")
        }
        None => false,
    }
}

#[test]
fn a_cell_at_another_home_is_damaged(rt: HostRuntime) -> Result<(), Fail> {
    assert!(rt; is_misplaced(rt.alloc()));
    Ok(())
}

// Whether the line is no command.
fn is_no_command(alloc: Global, line: &str) -> bool {
    let words = (Status::Words, "", "words: no such command\n");
    match archive_of(alloc, LINE, 0, 18, 0) {
        Some(mut disk) => ends(alloc, &mut disk, line, words),
        None => false,
    }
}

#[test]
fn words_beside_it_are_no_command(rt: HostRuntime) -> Result<(), Fail> {
    for line in ["scrub 1", "scrubs", "Scrub", "scru"] {
        assert!(rt; is_no_command(rt.alloc(), line), "{line}");
    }
    Ok(())
}
