//! Worked examples of fetches.

use crate::archives::{
    PARTS, archive_of, archive_of_parts, flipping, is_as_revealed, is_fetched, is_refused,
    spoil_cells, takes,
};
use aea_cli::Status;
use aea_disk::{Disk, SureDisk};
use aea_runs::{Left, run_fetch, run_get, run_over, run_words, text_of};
use aea_test_helpers::{NINETEEN, shorten, some_bytes};
use std::alloc::{AllocError, Global};
use std::test::Fail;

// A disk with an archive of AE(3,2,5) of forty nodes, with blocks of 16 bytes on four sites: the object `a` of all of them, which has
// these bytes, and `none` of none.
fn archive_of_forty(alloc: Global, bytes: &[u8]) -> Option<SureDisk> {
    let mut disk = archive_of(alloc, "create 3 2 5 16 4", 4, 8192, 4096)?;
    let is_full = takes(alloc, &mut disk, "a", bytes) && takes(alloc, &mut disk, "none", b"");
    is_full.then_some(disk)
}

// Whether two runs have ended with status 0, and left the same.
fn are_alike(one: &Left, two: &Left) -> bool {
    one.status == Status::Done
        && two.status == Status::Done
        && one.out.bytes() == two.out.bytes()
        && one.out.flushed == two.out.flushed
        && one.err.bytes().is_empty()
        && two.err.bytes().is_empty()
        && one.unread == two.unread
}

// Whether a run of this command, `get` or `fetch`, of the object `a` reads this file of the intact archive twenty times.
fn reads_twenty(alloc: Global, bytes: &[u8], word: &str, file: u8) -> bool {
    match archive_of_forty(alloc, bytes) {
        Some(inner) => {
            let mut disk = flipping(inner, file, 0, 9_999);
            run_words(alloc, &[word, "a"], &mut disk, b"", 640).is_ok() && disk.reads == 20
        }
        None => false,
    }
}

// Whether both commands do.
fn both_read_twenty(alloc: Global, bytes: &[u8], file: u8) -> bool {
    reads_twenty(alloc, bytes, "get", file) && reads_twenty(alloc, bytes, "fetch", file)
}

// Whether the object is fetched as this run of `get` got it, and this many bytes are flushed.
fn is_fetched_like(
    alloc: Global,
    disk: &mut SureDisk,
    name: &str,
    got: &Left,
    count: usize,
) -> bool {
    match run_fetch(alloc, disk, name, 640) {
        Ok(fetched) => {
            are_alike(got, &fetched)
                && fetched.out.flushed == count
                && is_fetched(alloc, disk, name, got.out.bytes())
        }
        Err(_) => false,
    }
}

// Whether the object is fetched as it is got, and this many bytes are flushed.
fn is_fetched_as_got(alloc: Global, disk: &mut SureDisk, name: &str, count: usize) -> bool {
    match run_get(alloc, disk, name, 640) {
        Ok(got) => is_fetched_like(alloc, disk, name, &got, count),
        Err(_) => false,
    }
}

#[test]
fn an_intact_object_is_fetched_as_it_is_got(rt: HostRuntime) -> Result<(), Fail> {
    let alloc = rt.alloc();
    let bytes = some_bytes(alloc, 639, 0)?;
    let mut disk = archive_of_forty(alloc, bytes.as_slice()).ok_or("no archive")?;
    for (name, count) in [("a", 639usize), ("none", 0)] {
        assert!(rt; is_fetched_as_got(alloc, &mut disk, name, count), "{name}");
    }
    // each of the four sites has ten of the forty data cells, which are read twice
    for file in 1..5u8 {
        assert!(rt; both_read_twenty(alloc, bytes.as_slice(), file), "{file}");
    }
    Ok(())
}

// The numbers of damaged blocks. Those of d1 and of its parities are 0 to 3, those of d20 and of its parities 76 to 79, and those of
// the last node 156 to 159.
fn determined() -> [&'static [u32]; 8] {
    [
        &[76],
        &[77],
        &[76, 77],
        &[76, 77, 78, 79],
        &[0, 1, 2, 3],
        &[72, 76, 80, 84],
        &[156, 157, 158],
        &[0, 1, 2, 3, 76, 77, 78, 79, 157, 158, 159],
    ]
}

// Whether the object of these bytes is fetched where these blocks are damaged.
fn is_computed(alloc: Global, bytes: &[u8], numbers: &[u32]) -> bool {
    match archive_of_forty(alloc, bytes) {
        Some(mut disk) => {
            spoil_cells(&mut disk, 4, 64, numbers) && is_fetched(alloc, &mut disk, "a", bytes)
        }
        None => false,
    }
}

#[test]
fn damaged_blocks_are_computed(rt: HostRuntime) -> Result<(), Fail> {
    let bytes = some_bytes(rt.alloc(), 640, 0)?;
    for numbers in determined() {
        assert!(rt;
            is_computed(rt.alloc(), bytes.as_slice(), numbers),
            "{numbers:?}"
        );
    }
    Ok(())
}

// Whether a run of `get` refuses the object `a`.
fn is_not_got<D: Disk>(alloc: Global, disk: &mut D) -> bool {
    match run_get(alloc, disk, "a", 640) {
        Ok(left) => left.status == Status::Refused,
        Err(_) => false,
    }
}

// Whether these bytes are a text that tells of forty damaged blocks at its end.
fn says_forty(bytes: &[u8]) -> bool {
    match text_of(bytes) {
        Ok(text) => text.ends_with("\ntotal 160 damaged 40\n"),
        Err(_) => false,
    }
}

// Whether a scrub tells of forty damaged blocks.
fn has_lost_forty<D: Disk>(alloc: Global, disk: &mut D) -> bool {
    match run_over(alloc, "scrub", disk, 9_999) {
        Ok(left) => says_forty(left.out.bytes()),
        Err(_) => false,
    }
}

// Whether the object of these bytes is fetched, and not got, without this site, and the blocks stay damaged.
fn is_fetched_without(alloc: Global, bytes: &[u8], file: u8) -> bool {
    match archive_of_forty(alloc, bytes) {
        Some(mut disk) => {
            shorten(&mut disk, file, 0) == Ok(true)
                && is_not_got(alloc, &mut disk)
                && is_fetched(alloc, &mut disk, "a", bytes)
                && has_lost_forty(alloc, &mut disk)
        }
        None => false,
    }
}

#[test]
fn an_object_is_fetched_without_a_site(rt: HostRuntime) -> Result<(), Fail> {
    let bytes = some_bytes(rt.alloc(), 640, 3)?;
    for file in 1..5u8 {
        assert!(rt;
            is_fetched_without(rt.alloc(), bytes.as_slice(), file),
            "{file}"
        );
    }
    Ok(())
}

// The archive of forty nodes, of whose sites no byte is left.
fn without_sites(alloc: Global) -> Option<SureDisk> {
    let bytes = some_bytes(alloc, 640, 0).ok()?;
    let mut disk = archive_of_forty(alloc, bytes.as_slice())?;
    let mut is_cut = true;
    for file in 1..5u8 {
        is_cut = is_cut && shorten(&mut disk, file, 0) == Ok(true);
    }
    is_cut.then_some(disk)
}

// Names that are fetched from it: of the object of no bytes, and of no object, with the line then.
fn names() -> [(&'static str, &'static str); 5] {
    [
        ("none", ""),
        ("b", "refused: unknown name\n"),
        ("aa", "refused: unknown name\n"),
        ("non", "refused: unknown name\n"),
        ("A", "refused: unknown name\n"),
    ]
}

// Whether a fetch of the empty name is refused.
fn is_no_name<D: Disk>(alloc: Global, disk: &mut D) -> bool {
    match run_fetch(alloc, disk, "", 99) {
        Ok(left) => left.is(Status::Refused, "", "refused: unknown name\n"),
        Err(_) => false,
    }
}

// Whether a fetch is refused where there is no archive.
fn is_no_archive(alloc: Global) -> bool {
    match SureDisk::new(alloc, 4, 1024, 1024) {
        Ok(mut none) => is_refused(alloc, &mut none, "none", "refused: no archive\n"),
        Err(_) => false,
    }
}

#[test]
fn what_the_object_does_not_need_is_not_missed(rt: HostRuntime) -> Result<(), Fail> {
    let alloc = rt.alloc();
    let mut disk = without_sites(alloc).ok_or("no archive")?;
    for (name, line) in names() {
        assert!(rt; is_as_revealed(alloc, &mut disk, name, b"", line), "{name}");
    }
    assert!(rt; is_no_name(alloc, &mut disk) && is_no_archive(alloc));
    Ok(())
}

// The objects of an archive of AE(2,2,2) with eleven nodes: the name of each, its first byte and how many it has, and the first block
// of it that is not determined where nineteen blocks are damaged, with the line of a fetch. Of node 5 no equation alone gives
// the datum.
type Piece = (&'static str, u32, u32, &'static str, &'static str);

fn pieces() -> [Piece; 5] {
    [
        ("a", 0, 64, "d1", "refused: undetermined d1 by 1 3 4 6\n"),
        ("b", 64, 16, "", ""),
        ("c", 80, 32, "d6", "refused: undetermined d6 by 1 3 4 6\n"),
        (
            "d",
            112,
            32,
            "d8",
            "refused: undetermined d8 by 8 9 10 11\n",
        ),
        (
            "e",
            144,
            20,
            "d10",
            "refused: undetermined d10 by 8 9 10 11\n",
        ),
    ]
}

// The bytes of such an object.
fn bytes_of_piece(alloc: Global, from: u32, count: u32) -> Result<Vec<u8>, AllocError> {
    some_bytes(alloc, count, from.wrapping_mul(7))
}

// Puts such an object.
fn takes_piece(alloc: Global, disk: &mut SureDisk, piece: Piece) -> bool {
    let (name, from, count, ..) = piece;
    match bytes_of_piece(alloc, from, count) {
        Ok(bytes) => takes(alloc, disk, name, bytes.as_slice()),
        Err(_) => false,
    }
}

// That archive, with the damage of the nineteen blocks.
fn nineteen(alloc: Global) -> Option<SureDisk> {
    let mut disk = archive_of(alloc, "create 2 2 2 16 3", 3, 8192, 4096)?;
    let mut is_full = true;
    for piece in pieces() {
        is_full = is_full && takes_piece(alloc, &mut disk, piece);
    }
    (is_full && spoil_cells(&mut disk, 3, 64, &NINETEEN)).then_some(disk)
}

// The line of a fetch that names the nodes which `explain` has printed of the block; none where it has printed no word.
fn line_by(alloc: Global, explained: &[u8], block: &str) -> Option<String> {
    let (_first, nodes) = text_of(explained).ok()?.split_once("\nword ")?;
    format!(in alloc; "refused: undetermined {block} by {nodes}").ok()
}

// Whether the line of a fetch has the block and the nodes that `explain` prints of the block.
fn is_as_explained(alloc: Global, disk: &mut SureDisk, block: &str, line: &str) -> bool {
    match run_words(alloc, &["explain", block], disk, b"", 99) {
        Ok(left) => line_by(alloc, left.out.bytes(), block).is_some_and(|want| want.as_str()
            == line),
        Err(_) => false,
    }
}

// Whether such an object is fetched, or refused as its block is explained.
fn is_as_solved(alloc: Global, disk: &mut SureDisk, piece: Piece) -> bool {
    let (name, from, count, block, line) = piece;
    match bytes_of_piece(alloc, from, count) {
        Ok(bytes) => {
            is_as_revealed(alloc, disk, name, bytes.as_slice(), line)
                && (line.is_empty() || is_as_explained(alloc, disk, block, line))
        }
        Err(_) => false,
    }
}

#[test]
fn what_is_solved_is_fetched_and_what_is_lost_is_reported(rt: HostRuntime) -> Result<(), Fail> {
    let mut disk = nineteen(rt.alloc()).ok_or("no archive")?;
    for piece in pieces() {
        let (name, ..) = piece;
        assert!(rt; is_as_solved(rt.alloc(), &mut disk, piece), "{name}");
    }
    Ok(())
}

// The numbers of damaged blocks of the archive of parts, and the line of a fetch of the object of nodes 1 and 3; none where it is
// fetched.
fn damage_of_parts() -> [(&'static [u32], &'static str); 7] {
    [
        (&[], ""),
        (&[0], ""),
        (&[4], ""),
        (&[0, 1, 4], ""),
        (&[2, 3], ""),
        (&[4, 5], "refused: undetermined d3 by 3\n"),
        (&[0, 1, 2, 4, 5], "refused: undetermined d1 by 1 2\n"),
    ]
}

// Whether a fetch of that object is refused with this line, or, where it is empty, done, where these blocks are damaged.
fn is_revealed_of_parts(alloc: Global, numbers: &[u32], line: &str) -> bool {
    match archive_of_parts(alloc) {
        Some(mut disk) => {
            spoil_cells(&mut disk, 1, 64, numbers)
                && is_as_revealed(alloc, &mut disk, "x", PARTS, line)
        }
        None => false,
    }
}

#[test]
fn an_object_in_parts_is_fetched(rt: HostRuntime) -> Result<(), Fail> {
    for (numbers, line) in damage_of_parts() {
        assert!(rt;
            is_revealed_of_parts(rt.alloc(), numbers, line),
            "{numbers:?}"
        );
    }
    Ok(())
}
