//! Copies that are begun.

use crate::archives::{LISTED, bare, bare_within, copied, ends, leaves_files};
use crate::harms::{Harm, inflict_all};
use aea_cli::Status;
use aea_disk::Disk;
use aea_runs::{Faults, NONE, all_bytes, has_bytes, run_failing};
use aea_test_helpers::file_bytes;
use sha2::{Digest, Sha256};
use std::alloc::Global;
use std::test::Fail;

const COPIES_ON: &str = "copies on\n";

const ARE_ON: &str = "refused: copies are on\n";

// The SHA-256 of a copy of the ledger with the object `a`, as another program computes it.
const SUM: &[u8; 32] =
    b"\xc4\xf1\x41\x1c\x83\x72\x96\xd0\x0e\xc4\x17\x9e\x27\xbb\xd3\x2c\x6e\x6c\xb5\xf8\x61\x23\x8f\xb8\xac\xe1\xb1\xaa\x94\x52\x3e\xc8";

// The bytes at these places: the three gates, and the lengths of the two pieces before the second and the third.
const PLACES: [(usize, u8); 11] = [
    (9, 1),
    (10, 0),
    (11, 0),
    (12, 0),
    (13, 17),
    (63, 1),
    (64, 0),
    (65, 0),
    (66, 0),
    (67, 185),
    (285, 0),
];

// Whether these bytes are that copy: their length, its gates, the lengths of its pieces, and its digest.
fn are_copy(bytes: &[u8]) -> bool {
    PLACES.iter().all(|row| bytes.get(row.0) == Some(&row.1))
        && bytes.len() == 286
        && Sha256::digest(bytes) == *SUM
}

// Whether a file is that copy.
fn is_copy<D: Disk>(alloc: Global, disk: &mut D, file: u8) -> bool {
    match file_bytes(alloc, disk, file) {
        Some(copy) => are_copy(copy.as_slice()),
        None => false,
    }
}

// The bytes of the ledger and the sites of the archive without copies.
fn plain_bytes(alloc: Global) -> Option<Vec<Vec<u8>>> {
    let mut plain = bare(alloc)?;
    all_bytes(alloc, &mut plain)
}

// Whether both copies are that, and the ledger and the sites are those of the archive without copies.
fn are_begun<D: Disk>(alloc: Global, disk: &mut D) -> bool {
    match plain_bytes(alloc) {
        Some(plain) => {
            has_bytes(alloc, disk, plain.as_slice())
                && is_copy(alloc, disk, 65)
                && is_copy(alloc, disk, 66)
        }
        None => false,
    }
}

// Whether a run of `copies` ends so, and the copies are there then.
fn leaves_copies<D: Disk>(alloc: Global, disk: &mut D, want: (Status, &str, &str)) -> bool {
    ends(alloc, disk, "copies", want) && are_begun(alloc, disk)
}

// Whether copies are begun, and refused the next time, when they are left as they are.
fn are_begun_once(alloc: Global) -> bool {
    match bare(alloc) {
        Some(mut disk) => {
            leaves_copies(alloc, &mut disk, (Status::Done, COPIES_ON, ""))
                && leaves_copies(alloc, &mut disk, (Status::Refused, "", ARE_ON))
        }
        None => false,
    }
}

#[test]
fn copies_are_begun_once(rt: HostRuntime) -> Result<(), Fail> {
    assert!(rt; are_begun_once(rt.alloc()));
    Ok(())
}

// Whether copies are refused with this line where such damage is done to an archive without copies, and nothing is written.
fn is_refused(alloc: Global, harms: &[Harm], err: &str) -> bool {
    match bare(alloc) {
        Some(mut disk) => {
            inflict_all(&mut disk, harms)
                && leaves_files(alloc, &mut disk, "copies", (Status::Refused, "", err))
        }
        None => false,
    }
}

#[test]
fn no_copies_are_begun_of_a_bad_ledger(rt: HostRuntime) -> Result<(), Fail> {
    let rows = [
        (Harm::Cut(0, 0), "refused: no archive\n"),
        (Harm::Byte(0, 0, 7), "refused: no archive\n"),
        (Harm::Byte(0, 9, 4), "refused: ledger bad at 9\n"),
        (Harm::Cut(0, 202), "refused: ledger bad at 202\n"),
    ];
    for (harm, err) in rows {
        assert!(rt; is_refused(rt.alloc(), &[harm], err), "{err}");
    }
    Ok(())
}

// Whether the archive is listed, and the first copy is still empty then.
fn is_off<D: Disk>(alloc: Global, disk: &mut D) -> bool {
    ends(alloc, disk, "list", (Status::Done, LISTED, ""))
        && file_bytes(alloc, disk, 65).is_some_and(|bytes| bytes.is_empty())
}

// Whether copies that are begun once both were removed are those that were there.
fn are_begun_anew(alloc: Global) -> bool {
    let harms = [Harm::Cut(65, 0), Harm::Byte(66, 0, 0)];
    match copied(alloc) {
        Some(mut disk) => {
            inflict_all(&mut disk, &harms)
                && is_off(alloc, &mut disk)
                && leaves_copies(alloc, &mut disk, (Status::Done, COPIES_ON, ""))
        }
        None => false,
    }
}

#[test]
fn copies_that_are_gone_are_begun_anew(rt: HostRuntime) -> Result<(), Fail> {
    assert!(rt; are_begun_anew(rt.alloc()));
    Ok(())
}

// Whether a run of `copies` whose streams fail so says that the output failed.
fn ends_by_output<D: Disk>(alloc: Global, disk: &mut D, faults: Faults) -> bool {
    match run_failing(alloc, "copies", disk, b"", faults) {
        Ok(ended) => {
            ended.status == Status::Output && ended.err.bytes() == b"fault: output\n".as_slice()
        }
        Err(_) => false,
    }
}

// Whether the copies are there where the line cannot be printed: there is no space for it, or the first call of the output fails.
fn are_begun_silently(alloc: Global, faults: Faults) -> bool {
    match bare(alloc) {
        Some(mut disk) => ends_by_output(alloc, &mut disk, faults) && are_begun(alloc, &mut disk),
        None => false,
    }
}

#[test]
fn copies_are_begun_before_that_is_said(rt: HostRuntime) -> Result<(), Fail> {
    for (out_room, out_call) in [(9, 0), (99, 1), (99, 2)] {
        let faults = Faults {
            out_room,
            out_call,
            ..NONE
        };
        assert!(rt;
            are_begun_silently(rt.alloc(), faults),
            "{out_room} {out_call}"
        );
    }
    Ok(())
}

// Whether copies are a fault where the disk has this capacity for each ledger file, and the archive is there afterwards.
fn is_too_small(alloc: Global, room: usize) -> bool {
    match bare_within(alloc, room) {
        Some(mut disk) => {
            ends(
                alloc,
                &mut disk,
                "copies",
                (Status::Disk, "", "fault: disk\n"),
            ) && ends(alloc, &mut disk, "get a", (Status::Done, "abc", ""))
        }
        None => false,
    }
}

// The ledger has 203 bytes, and a copy of it 286.
#[test]
fn a_disk_that_lacks_one_byte_is_at_fault(rt: HostRuntime) -> Result<(), Fail> {
    for room in [203usize, 240, 285] {
        assert!(rt; is_too_small(rt.alloc(), room), "{room}");
    }
    Ok(())
}
