//! Archives in memory whose ledger has two copies, and what runs over them print and leave. Where memory runs out, the
//! answer is none or no, here and in the whole crate.

use aea_cli::Status;
use aea_disk::{Disk, SureDisk};
use aea_runs::{run_input, run_over, run_put};
use aea_test_helpers::{file_bytes, fill_file};
use std::alloc::Global;

/// The line that makes an archive of AE(3,2,5) with blocks of 64 bytes, so cells of 112, on four sites.
pub const LINE: &str = "create 3 2 5 64 4";

/// What `list` prints of it once it has the object `a` with the bytes `abc`.
pub const LISTED: &str = "3 ba7816bf8f01cfea414140de5dae2223b00361a396177a9cb410ff61f20015ad a\n";

/// The object `b`, of two nodes.
pub const B: &str = "the first line of an object, and its second line,\n\
    which is in the block of the second node\n";

/// The ledger and its two copies.
pub const THREE: [u8; 3] = [0, 65, 66];

// The files of such an archive: the ledger, four sites and the copies.
const FILES: [u8; 7] = [0, 1, 2, 3, 4, 65, 66];

/// Makes an archive by this line of `create`, and puts an object into it. How the two runs end is not looked at, here and below.
pub fn store<D: Disk>(alloc: Global, disk: &mut D, create: &str, name: &str, bytes: &[u8]) -> bool {
    run_over(alloc, create, disk, 99).is_ok() && run_put(alloc, disk, name, bytes).is_ok()
}

/// Makes such an archive with the object `a`.
pub fn store_abc<D: Disk>(alloc: Global, disk: &mut D) -> bool {
    store(alloc, disk, LINE, "a", b"abc")
}

/// An archive with the object `a`, whose ledger has no copies, on a disk with so many bytes for each ledger file.
pub fn bare_within(alloc: Global, room: usize) -> Option<SureDisk> {
    let mut disk = SureDisk::new(alloc, 4, room, 1024).ok()?;
    store_abc(alloc, &mut disk).then_some(disk)
}

/// The same archive, with enough of them.
pub fn bare(alloc: Global) -> Option<SureDisk> {
    bare_within(alloc, 2048)
}

/// Begins the copies of the ledger.
pub fn begin_copies<D: Disk>(alloc: Global, disk: &mut D) -> bool {
    run_over(alloc, "copies", disk, 99).is_ok()
}

/// An archive with the object `a`, whose ledger has copies where this is said.
pub fn archive(alloc: Global, has_copies: bool) -> Option<SureDisk> {
    let mut disk = bare(alloc)?;
    let is_made = !has_copies || begin_copies(alloc, &mut disk);
    is_made.then_some(disk)
}

/// The same archive with them.
pub fn copied(alloc: Global) -> Option<SureDisk> {
    archive(alloc, true)
}

/// Another archive, with an object of the same name.
pub fn other(alloc: Global) -> Option<SureDisk> {
    let mut disk = SureDisk::new(alloc, 1, 2048, 1024).ok()?;
    let is_made = store(alloc, &mut disk, "create 1 1 0 16 1", "a", b"other")
        && begin_copies(alloc, &mut disk);
    is_made.then_some(disk)
}

/// Whether a run of the line ends so, flushes what it prints, and leaves its input.
pub fn ends<D: Disk>(alloc: Global, disk: &mut D, line: &str, want: (Status, &str, &str)) -> bool {
    let (status, out, err) = want;
    match run_over(alloc, line, disk, 999) {
        Ok(left) => {
            left.is(status, out, err) && left.out.flushed == out.len() && left.unread == 6
        }
        Err(_) => false,
    }
}

/// Whether a run of the line with this input ends so.
pub fn ends_with_input<D: Disk>(
    alloc: Global,
    disk: &mut D,
    line: &str,
    input: &str,
    want: (Status, &str, &str),
) -> bool {
    let (status, out, err) = want;
    match run_input(alloc, line, disk, input.as_bytes()) {
        Ok(left) => left.is(status, out, err),
        Err(_) => false,
    }
}

/// Whether a run of the line with this input ends well, and prints this.
pub fn is_done<D: Disk>(alloc: Global, disk: &mut D, line: &str, input: &str, out: &str) -> bool {
    ends_with_input(alloc, disk, line, input, (Status::Done, out, ""))
}

/// The bytes of all files of the archive.
pub fn files_of<D: Disk>(alloc: Global, disk: &mut D) -> Option<Vec<Vec<u8>>> {
    let mut files = Vec::new(alloc);
    for file in FILES {
        files.push(file_bytes(alloc, disk, file)?).ok()?;
    }
    Some(files)
}

// Whether all files of the archive have these bytes; none where one of them cannot be read.
fn are_files<D: Disk>(alloc: Global, disk: &mut D, files: &[Vec<u8>]) -> Option<bool> {
    let mut same = true;
    for (bytes, file) in files.iter().zip(FILES) {
        let found = file_bytes(alloc, disk, file)?;
        same = same && found.as_slice() == bytes.as_slice();
    }
    Some(same)
}

/// Whether all files of the archive have these bytes. No test asks for its negation, which is true where memory runs out too.
pub fn has_files<D: Disk>(alloc: Global, disk: &mut D, files: &[Vec<u8>]) -> bool {
    are_files(alloc, disk, files) == Some(true)
}

/// Whether a run of the line ends so, and leaves all files of the archive as they are.
pub fn leaves_files<D: Disk>(
    alloc: Global,
    disk: &mut D,
    line: &str,
    want: (Status, &str, &str),
) -> bool {
    match files_of(alloc, disk) {
        Some(files) => ends(alloc, disk, line, want) && has_files(alloc, disk, files.as_slice()),
        None => false,
    }
}

/// Whether the files of the archive are others than these, and are these once a run of the line has ended so.
pub fn mends_files<D: Disk>(
    alloc: Global,
    disk: &mut D,
    files: &[Vec<u8>],
    line: &str,
    want: (Status, &str, &str),
) -> bool {
    are_files(alloc, disk, files) == Some(false)
        && ends(alloc, disk, line, want)
        && has_files(alloc, disk, files)
}

// Gives this file of a disk the bytes that it has on another one.
fn take_file<D: Disk, E: Disk>(alloc: Global, disk: &mut D, from: &mut E, file: u8) -> bool {
    match file_bytes(alloc, from, file) {
        Some(bytes) => fill_file(disk, file, bytes.as_slice()).is_ok(),
        None => false,
    }
}

/// Gives these files of a disk the bytes that they have on another one.
pub fn take_from<D: Disk, E: Disk>(
    alloc: Global,
    disk: &mut D,
    from: &mut E,
    files: &[u8],
) -> bool {
    let mut are_taken = true;
    for file in files {
        are_taken = are_taken && take_file(alloc, disk, from, *file);
    }
    are_taken
}
