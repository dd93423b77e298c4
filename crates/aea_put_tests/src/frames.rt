//! Streams of frames: what is printed, what is refused, and what is then in the archive.

use crate::archives::{LINE, STORED_ABC, archive_of, ends, ingests, refuses_stream, takes};
use aea_cli::Status;
use aea_disk::{Disk, SureDisk};
use std::alloc::Global;
use std::test::Fail;

// The frames of `a` with the bytes `abc`, of `b` with none, and of `c` with three bytes, of which one is there.
const CUT: &[u8; 37] =
    b"\0\x01a\0\0\0\0\0\0\0\x03abc\0\x01b\0\0\0\0\0\0\0\0\0\x01c\0\0\0\0\0\0\0\x03x";

const STORED_B: &str =
    "stored 0 0 e3b0c44298fc1c149afbf4c8996fb92427ae41e4649b934ca495991b7852b855 b\n";

const LISTED: &str = "3 ba7816bf8f01cfea414140de5dae2223b00361a396177a9cb410ff61f20015ad a\n\
    0 e3b0c44298fc1c149afbf4c8996fb92427ae41e4649b934ca495991b7852b855 b\n";

// An archive without objects.
fn fresh(alloc: Global) -> Option<SureDisk> {
    archive_of(alloc, LINE, 4, 4096, 4096)
}

// Whether `ingest` of this stream stores the two objects, says so and then this, and reads all.
fn stores_two<D: Disk>(
    alloc: Global,
    disk: &mut D,
    stream: &[u8],
    status: Status,
    end: &str,
    err: &str,
) -> bool {
    match format!(in alloc; "{STORED_ABC}{STORED_B}{end}") {
        Ok(out) => ingests(alloc, disk, stream, (status, out.as_str(), err), 0),
        Err(_) => false,
    }
}

// Whether two objects of the stream that is cut are stored, it is refused then, and the archive lists the two.
fn is_cut_refused(alloc: Global) -> bool {
    let line = "refused: bad stream at 37\n";
    match fresh(alloc) {
        Some(mut disk) => {
            stores_two(alloc, &mut disk, CUT, Status::Refused, "", line)
                && ends(alloc, &mut disk, "list", (Status::Done, LISTED, ""))
        }
        None => false,
    }
}

#[test]
fn a_stream_that_ends_inside_its_third_frame(rt: HostRuntime) -> Result<(), Fail> {
    assert!(rt; is_cut_refused(rt.alloc()));
    Ok(())
}

// Whether a stream of the two objects is stored, then one of none, and the first is refused then.
fn are_two_stored(alloc: Global) -> bool {
    let taken = "refused: name taken\n";
    match fresh(alloc) {
        Some(mut disk) => {
            stores_two(alloc, &mut disk, &CUT[..25], Status::Done, "end 2\n", "")
                && ingests(alloc, &mut disk, b"", (Status::Done, "end 0\n", ""), 0)
                && refuses_stream(alloc, &mut disk, &CUT[..14], taken, 3)
        }
        None => false,
    }
}

#[test]
fn a_stream_of_two_frames(rt: HostRuntime) -> Result<(), Fail> {
    assert!(rt; are_two_stored(rt.alloc()));
    Ok(())
}

// Streams that are refused in an archive without objects, their lines, and how many bytes are not read.
#[rattlefmt::skip]
fn refused_streams() -> [(&'static [u8], &'static str, usize); 7] {
    [
        (b"\0\0".as_slice(), "refused: bad name\n", 0),
        (b"\0\0rest", "refused: bad name\n", 4),
        (b"\x01\0rest", "refused: bad name\n", 4),
        (b"\0\x01\n\0\0\0\0\0\0\0\x01z", "refused: bad name\n", 1),
        (b"\0\x01a\xff\xff\xff\xff\xff\xff\xff\xffz", "refused: full at 0 nodes\n", 1),
        (b"\0\x01a\0\0\0\0\0\x40\0\x01", "refused: full at 0 nodes\n", 0),
        (b"\0\x01a\0\0\0\0\0\x40\0\0", "refused: bad stream at 11\n", 0),
    ]
}

// Whether an archive without objects refuses this stream.
fn is_refused(alloc: Global, bytes: &[u8], line: &str, unread: usize) -> bool {
    match fresh(alloc) {
        Some(mut disk) => refuses_stream(alloc, &mut disk, bytes, line, unread),
        None => false,
    }
}

#[test]
fn streams_that_are_refused(rt: HostRuntime) -> Result<(), Fail> {
    for (bytes, line, unread) in refused_streams() {
        assert!(rt; is_refused(rt.alloc(), bytes, line, unread), "{line}");
    }
    Ok(())
}

// Whether no byte of an object is read that is too long, whether it is there or not.
fn are_too_long(alloc: Global) -> bool {
    let line = "refused: full at 0 nodes\n";
    let absent = b"\0\x01a\0\0\0\0\0\x10\0\x01";
    let there = b"\0\x01a\0\0\0\0\0\x10\0\x01rest";
    match archive_of(alloc, "create 1 1 0 16 1", 1, 4096, 4096) {
        Some(mut disk) => {
            refuses_stream(alloc, &mut disk, absent, line, 0)
                && refuses_stream(alloc, &mut disk, there, line, 4)
        }
        None => false,
    }
}

#[test]
fn a_length_that_no_node_is_left_for(rt: HostRuntime) -> Result<(), Fail> {
    assert!(rt; are_too_long(rt.alloc()));
    Ok(())
}

// Whether a damaged head refuses the first of two frames, and the other is not read.
fn is_head_refused(alloc: Global) -> bool {
    let line = "refused: head damaged r1\n";
    match fresh(alloc) {
        Some(mut disk) => {
            takes(alloc, &mut disk, "z", b"abc")
                && disk.write(3, 16, b"x").is_ok()
                && refuses_stream(alloc, &mut disk, &CUT[..25], line, 14)
        }
        None => false,
    }
}

#[test]
fn a_damaged_head_refuses_the_first_frame_alone(rt: HostRuntime) -> Result<(), Fail> {
    assert!(rt; is_head_refused(rt.alloc()));
    Ok(())
}

// Whether a disk without an archive takes no frame.
fn is_none_refused(alloc: Global) -> bool {
    match SureDisk::new(alloc, 4, 1024, 1024) {
        Ok(mut disk) => refuses_stream(alloc, &mut disk, CUT, "refused: no archive\n", 37),
        Err(_) => false,
    }
}

// Whether an archive whose ledger has a bad byte takes no frame.
fn is_bad_one_refused(alloc: Global) -> bool {
    let line = "refused: ledger bad at 9\n";
    match fresh(alloc) {
        Some(mut disk) => {
            disk.write(0, 9, &[4]).is_ok() && refuses_stream(alloc, &mut disk, CUT, line, 37)
        }
        None => false,
    }
}

#[test]
fn what_is_no_archive_takes_no_frame(rt: HostRuntime) -> Result<(), Fail> {
    assert!(rt; is_none_refused(rt.alloc()) && is_bad_one_refused(rt.alloc()));
    Ok(())
}
