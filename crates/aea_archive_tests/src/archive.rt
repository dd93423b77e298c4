//! Archives that are made, and what is said of them.

use crate::runs::{ends, refuses, says};
use aea_catalog::check_name;
use aea_cli::Status;
use aea_disk::{Disk, SureDisk};
use aea_ledger::open_ledger;
use aea_test_helpers::{has_file, shorten};
use sha2::{Digest, Sha256};
use std::alloc::Global;
use std::test::Fail;

const LINE: &str = "create 3 2 5 64 4";

const CREATED: &str = "created 3 2 5 64 4\n";

// The ledger of that archive, without records.
const LEDGER: &[u8; 18] = b"\x01AEALEDG1\x03\x02\x05\x04\0\0\0\x40\0";

// Whether no archive is made where there is one.
fn is_occupied<D: Disk>(alloc: Global, disk: &mut D) -> bool {
    refuses(alloc, disk, "create 1 1 0 16 1", "refused: occupied\n")
}

// Whether an archive is made, with its ledger, and no other one then, which leaves the ledger.
fn is_made_once(alloc: Global) -> bool {
    match SureDisk::new(alloc, 0, 32, 0) {
        Ok(mut disk) => {
            says(alloc, &mut disk, LINE, CREATED)
                && has_file(&mut disk, 0, LEDGER) == Ok(true)
                && is_occupied(alloc, &mut disk)
                && has_file(&mut disk, 0, LEDGER) == Ok(true)
        }
        Err(_) => false,
    }
}

#[test]
fn makes_an_archive_once(rt: HostRuntime) -> Result<(), Fail> {
    assert!(rt; is_made_once(rt.alloc()));
    Ok(())
}

// Whether a disk that lacks one byte is at fault.
fn is_at_fault(alloc: Global) -> bool {
    let fault = (Status::Disk, "", "fault: disk\n");
    match SureDisk::new(alloc, 0, 17, 0) {
        Ok(mut disk) => ends(alloc, &mut disk, LINE, fault),
        Err(_) => false,
    }
}

#[test]
fn a_disk_without_room_is_at_fault(rt: HostRuntime) -> Result<(), Fail> {
    assert!(rt; is_at_fault(rt.alloc()));
    Ok(())
}

const STAT: &str =
    "{\"alpha\":3,\"block\":64,\"nodes\":0,\"objects\":0,\"p\":5,\"s\":2,\"sites\":4}\n";

const STAT_OF_ONE: &str =
    "{\"alpha\":3,\"block\":64,\"nodes\":1,\"objects\":1,\"p\":5,\"s\":2,\"sites\":4}\n";

// Opens the archive and adds the object `a` with the bytes `abc` to its ledger; the digests of its blocks are given.
// False where the archive is of another shape, or the object is not added.
fn add_abc<D: Disk>(alloc: Global, disk: &mut D) -> bool {
    let Ok(mut ledger) = open_ledger(alloc, disk) else {
        return false;
    };
    let block = u64::from(ledger.shape().block());
    let count = (3 + block - 1) / block;
    if count != 1
        || ledger.limit() <= ledger.lattice().n()
        || ledger.shape().alpha() != 3
        || !check_name(b"a")
        || ledger.catalog().find(b"a").is_some()
    {
        return false;
    }
    let digests = [[b'd'; 32], [b'h'; 32], [b'r'; 32], [b'l'; 32]];
    ledger
        .append(disk, b"a", 3, Sha256::digest(b"abc"), 1, &digests)
        .is_ok()
}

// A disk with that archive. None where it is not made.
fn created(alloc: Global) -> Option<SureDisk> {
    let mut disk = SureDisk::new(alloc, 0, 256, 0).ok()?;
    says(alloc, &mut disk, LINE, CREATED).then_some(disk)
}

// Whether `stat` says twice what is in the archive, and once more where an object was added; and no other archive is made then.
fn is_revealed(alloc: Global) -> bool {
    match created(alloc) {
        Some(mut disk) => {
            says(alloc, &mut disk, "stat", STAT)
                && says(alloc, &mut disk, "stat", STAT)
                && add_abc(alloc, &mut disk)
                && says(alloc, &mut disk, "stat", STAT_OF_ONE)
                && is_occupied(alloc, &mut disk)
        }
        None => false,
    }
}

#[test]
fn reveals_what_stands_in_an_archive(rt: HostRuntime) -> Result<(), Fail> {
    assert!(rt; is_revealed(rt.alloc()));
    Ok(())
}

// How many bytes of the ledger are kept, the place of a byte, what is written there, and how `stat` ends then: the first is not bad.
#[rattlefmt::skip]
fn ledgers() -> [(u64, u8, u8, (Status, &'static str, &'static str)); 6] {
    [
        (203, 202, 0, (Status::Done, STAT_OF_ONE, "")),
        (203, 9, 4, (Status::Refused, "", "refused: ledger bad at 9\n")),
        (202, 0, 1, (Status::Refused, "", "refused: ledger bad at 202\n")),
        (150, 0, 1, (Status::Refused, "", "refused: ledger bad at 74\n")),
        (17, 0, 1, (Status::Refused, "", "refused: no archive\n")),
        (203, 0, 7, (Status::Refused, "", "refused: no archive\n")),
    ]
}

// The archive with the object `a`, whose ledger is changed so. None where it had another ledger.
fn with_ledger(alloc: Global, end: u64, place: u8, value: u8) -> Option<SureDisk> {
    let mut disk = created(alloc)?;
    let is_changed = add_abc(alloc, &mut disk)
        && disk.len(0) == Ok(203)
        && shorten(&mut disk, 0, end) == Ok(true)
        && disk.write(0, u64::from(place), &[value]).is_ok();
    is_changed.then_some(disk)
}

// Whether `stat` of that archive ends so.
fn is_named(alloc: Global, end: u64, place: u8, value: u8, want: (Status, &str, &str)) -> bool {
    match with_ledger(alloc, end, place, value) {
        Some(mut disk) => ends(alloc, &mut disk, "stat", want),
        None => false,
    }
}

#[test]
fn a_bad_ledger_is_named(rt: HostRuntime) -> Result<(), Fail> {
    for (end, place, value, want) in ledgers() {
        assert!(rt;
            is_named(rt.alloc(), end, place, value, want),
            "{end} {place}"
        );
    }
    Ok(())
}
