//! Worked examples of whole streams: many objects and a lost site, and an archive that is full.

use crate::archives::{STORED_ALL, STORED_EMPTY, archive_of, counts, ingests, refuses_stream};
use aea_cli::Status;
use aea_disk::Disk;
use aea_runs::{run_over, run_words, text_of};
use aea_test_helpers::shorten;
use std::alloc::{AllocError, Global};
use std::test::Fail;

// The bytes of an object with this number.
fn bytes_of(alloc: Global, object: u8, count: u32) -> Result<Vec<u8>, AllocError> {
    let mut bytes = Vec::new(alloc);
    for place in 0..count {
        let low = (place % 251) as u8;
        bytes.push(low ^ object)?;
    }
    Ok(bytes)
}

// Adds the frame of an object with this name and these bytes.
fn add_frame(stream: &mut Vec<u8>, name: &str, bytes: &[u8]) -> Result<(), AllocError> {
    let name_length = (name.len().min(255) as u16).to_be_bytes();
    let length = (bytes.len() as u64).to_be_bytes();
    for part in [
        name_length.as_slice(),
        name.as_bytes(),
        length.as_slice(),
        bytes,
    ] {
        stream.extend_from_slice(part)?;
    }
    Ok(())
}

// The name and the bytes of the object with this number.
fn named(alloc: Global, object: u8) -> Result<(String, Vec<u8>), AllocError> {
    let name = format!(in alloc; "object {object}")?;
    let bytes = bytes_of(alloc, object, u32::from(object).saturating_mul(4000))?;
    Ok((name, bytes))
}

// The stream of 75 objects.
fn many_objects(alloc: Global) -> Result<Vec<u8>, AllocError> {
    let mut stream = Vec::new(alloc);
    for object in 1..76u8 {
        let (name, bytes) = named(alloc, object)?;
        add_frame(&mut stream, name.as_str(), bytes.as_slice())?;
    }
    Ok(stream)
}

// Whether this stream is stored whole, and told in 76 lines.
fn is_stored<D: Disk>(alloc: Global, disk: &mut D, stream: &[u8]) -> bool {
    match run_words(alloc, &["ingest"], disk, stream, 16_384) {
        Ok(left) => {
            left.status == Status::Done
                && left.unread == 0
                && text_of(left.out.bytes()).is_ok_and(|out| {
                    out.ends_with(" object 75\nend 75\n") && out.lines().count() == 76
                })
        }
        Err(_) => false,
    }
}

// Whether the 75 objects are stored.
fn are_stored<D: Disk>(alloc: Global, disk: &mut D) -> bool {
    match many_objects(alloc) {
        Ok(stream) => is_stored(alloc, disk, stream.as_slice()),
        Err(_) => false,
    }
}

// Whether a report is accepted.
fn is_accepted<D: Disk>(alloc: Global, disk: &mut D, report: &[u8]) -> bool {
    let accepted = "accepted\n".as_bytes();
    run_words(alloc, &["verify"], disk, report, 99).is_ok_and(|left| left.out.bytes() == accepted)
}

// Whether a repair of a lost site is done, and its report says so and is accepted.
fn is_repaired<D: Disk>(alloc: Global, disk: &mut D) -> bool {
    let lines = "\ncounts 2817 2817 0 0\npeeled h1\n";
    match run_over(alloc, "repair", disk, 100_000) {
        Ok(repaired) => {
            let report = repaired.out.bytes();
            repaired.status == Status::Done
                && text_of(report).is_ok_and(|text| text.contains(lines))
                && is_accepted(alloc, disk, report)
        }
        Err(_) => false,
    }
}

// Whether `get` of this object is done, and prints these bytes.
fn gets<D: Disk>(alloc: Global, disk: &mut D, name: &str, bytes: &[u8]) -> bool {
    match run_words(alloc, &["get", name], disk, b"", 300_000) {
        Ok(got) => got.status == Status::Done && got.out.bytes() == bytes,
        Err(_) => false,
    }
}

// Whether the object with this number is got as it was stored.
fn is_got<D: Disk>(alloc: Global, disk: &mut D, object: u8) -> bool {
    match named(alloc, object) {
        Ok((name, bytes)) => gets(alloc, disk, name.as_str(), bytes.as_slice()),
        Err(_) => false,
    }
}

// The number of the first object that is not got as it was stored; 0 where they are not stored, or the lost site is not repaired.
fn first_ungot<D: Disk>(alloc: Global, disk: &mut D) -> Option<u8> {
    let is_whole = are_stored(alloc, disk)
        && shorten(disk, 2, 0) == Ok(true)
        && is_repaired(alloc, disk);
    if !is_whole {
        return Some(0);
    }
    for object in 1..76u8 {
        if !is_got(alloc, disk, object) {
            return Some(object);
        }
    }
    None
}

// The same in an archive with space for them.
fn ungot(alloc: Global) -> Option<u8> {
    match archive_of(alloc, "create 3 2 5 4096 4", 4, 400_000, 12_000_000) {
        Some(mut disk) => first_ungot(alloc, &mut disk),
        None => Some(0),
    }
}

#[test]
fn many_objects_a_lost_site_and_a_repair(rt: HostRuntime) -> Result<(), Fail> {
    let lost = ungot(rt.alloc());
    assert!(rt; lost == None, "{lost:?}");
    Ok(())
}

// A stream of the object `a` of so many bytes, and of these objects.
fn stream_of(alloc: Global, count: usize, others: &[(&str, &[u8])]) -> Result<Vec<u8>, AllocError> {
    let bytes = vec![in alloc; 7u8; count]?;
    let mut stream = Vec::new(alloc);
    add_frame(&mut stream, "a", bytes.as_slice())?;
    for (name, bytes) in others {
        add_frame(&mut stream, name, bytes)?;
    }
    Ok(stream)
}

// Whether the length of an object is told to be too much. No byte of the object is read.
fn is_too_much<D: Disk>(alloc: Global, disk: &mut D) -> bool {
    let line = "refused: full at 0 nodes\n";
    match stream_of(alloc, 1_048_577, &[]) {
        Ok(stream) => refuses_stream(alloc, disk, stream.as_slice(), line, 1_048_577),
        Err(_) => false,
    }
}

// Whether this stream is stored but its last object of three bytes, for which no node is left.
fn is_stored_but_last<D: Disk>(alloc: Global, disk: &mut D, stream: &[u8]) -> bool {
    let line = "refused: full at 65536 nodes\n";
    match format!(in alloc; "{STORED_ALL}{STORED_EMPTY}") {
        Ok(out) => {
            let want = (Status::Refused, out.as_str(), line);
            ingests(alloc, disk, stream, want, 3)
        }
        Err(_) => false,
    }
}

// Whether an object of one byte less fills the archive: one without bytes is stored then, and one of three bytes is not.
fn is_filled<D: Disk>(alloc: Global, disk: &mut D) -> bool {
    match stream_of(alloc, 1_048_576, &[("e", b"".as_slice()), ("b", b"xyz")]) {
        Ok(stream) => is_stored_but_last(alloc, disk, stream.as_slice()),
        Err(_) => false,
    }
}

const FULL: &str =
    "{\"alpha\":1,\"block\":16,\"nodes\":65536,\"objects\":2,\"p\":0,\"s\":1,\"sites\":1}\n";

// Whether an archive takes as many nodes as there may be, and no byte more.
fn takes_all_nodes(alloc: Global) -> bool {
    match archive_of(alloc, "create 1 1 0 16 1", 1, 4_200_000, 8_400_000) {
        Some(mut disk) => {
            is_too_much(alloc, &mut disk)
                && is_filled(alloc, &mut disk)
                && counts(alloc, &mut disk, FULL)
        }
        None => false,
    }
}

#[test]
fn a_stream_of_as_many_nodes_as_there_may_be(rt: HostRuntime) -> Result<(), Fail> {
    assert!(rt; takes_all_nodes(rt.alloc()));
    Ok(())
}
