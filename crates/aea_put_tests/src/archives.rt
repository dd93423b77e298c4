//! Archives in memory, and what runs over them print and leave.

use aea_cli::Status;
use aea_disk::{Disk, SureDisk};
use aea_runs::{Left, all_bytes, has_bytes, run_over, run_put, run_words};
use std::alloc::Global;

/// The line that makes an archive of AE(3,2,5) with blocks of 64 bytes, so cells of 112, on four sites.
pub const LINE: &str = "create 3 2 5 64 4";

/// What is printed of the object `a` of the bytes `abc`, stored in blocks of 64 bytes.
pub const STORED_ABC: &str =
    "stored 1 3 ba7816bf8f01cfea414140de5dae2223b00361a396177a9cb410ff61f20015ad a\n";

/// What is printed of the object `a` of 1,048,576 equal bytes, stored in blocks of 16 bytes: in all nodes that there may be.
pub const STORED_ALL: &str =
    "stored 65536 1048576 51b12eb838732b786b4d45c660a974ddf3860ae09084fd293fa6e5df46581a6c a\n";

/// What is printed of the empty object `e`.
pub const STORED_EMPTY: &str =
    "stored 0 0 e3b0c44298fc1c149afbf4c8996fb92427ae41e4649b934ca495991b7852b855 e\n";

/// Whether a run of the line over the disk ends with this status, whatever it prints.
pub fn ends_as<D: Disk>(alloc: Global, disk: &mut D, line: &str, status: Status) -> bool {
    run_over(alloc, line, disk, 9999).is_ok_and(|left| left.status == status)
}

/// Whether a run of the line over the disk is done.
pub fn is_done<D: Disk>(alloc: Global, disk: &mut D, line: &str) -> bool {
    ends_as(alloc, disk, line, Status::Done)
}

/// The archive that a line makes on a disk of so many sites, whose ledger and whose sites have so much space. None where it makes
/// none.
pub fn archive_of(
    alloc: Global,
    line: &str,
    sites: u8,
    ledger: usize,
    site: usize,
) -> Option<SureDisk> {
    let mut disk = SureDisk::new(alloc, sites, ledger, site).ok()?;
    is_done(alloc, &mut disk, line).then_some(disk)
}

/// The archive of that line with the object `a` of the bytes `abc`. None where it is not stored.
pub fn with_abc(alloc: Global) -> Option<SureDisk> {
    let mut disk = archive_of(alloc, LINE, 4, 1024, 1024)?;
    takes(alloc, &mut disk, "a", b"abc").then_some(disk)
}

// Whether a run left this, flushed what it printed, and left so many bytes of its input.
fn has_left(left: &Left, want: (Status, &str, &str), unread: usize) -> bool {
    let (status, out, err) = want;
    left.is(status, out, err) && left.out.flushed == out.len() && left.unread == unread
}

/// Whether `put` ends so, flushes what it prints, and leaves so many bytes of its input.
pub fn puts<D: Disk>(
    alloc: Global,
    disk: &mut D,
    object: (&str, &[u8]),
    want: (Status, &str, &str),
    unread: usize,
) -> bool {
    let (name, bytes) = object;
    run_put(alloc, disk, name, bytes).is_ok_and(|left| has_left(&left, want, unread))
}

/// Whether `put` stores this object, and prints this.
pub fn stores<D: Disk>(alloc: Global, disk: &mut D, name: &str, bytes: &[u8], out: &str) -> bool {
    puts(alloc, disk, (name, bytes), (Status::Done, out, ""), 0)
}

/// Whether `put` refuses this object with this line, leaves so many bytes of its input, and leaves the files as they are.
pub fn refuses<D: Disk>(
    alloc: Global,
    disk: &mut D,
    name: &str,
    bytes: &[u8],
    line: &str,
    unread: usize,
) -> bool {
    let want = (Status::Refused, "", line);
    match all_bytes(alloc, disk) {
        Some(before) => {
            puts(alloc, disk, (name, bytes), want, unread)
                && has_bytes(alloc, disk, before.as_slice())
        }
        None => false,
    }
}

/// Whether `put` of the object is done.
pub fn takes<D: Disk>(alloc: Global, disk: &mut D, name: &str, bytes: &[u8]) -> bool {
    run_put(alloc, disk, name, bytes).is_ok_and(|left| left.status == Status::Done)
}

/// Whether a run of the line ends so, and flushes what it prints.
pub fn ends<D: Disk>(alloc: Global, disk: &mut D, line: &str, want: (Status, &str, &str)) -> bool {
    let (status, out, err) = want;
    match run_over(alloc, line, disk, 400) {
        Ok(left) => left.is(status, out, err) && left.out.flushed == out.len(),
        Err(_) => false,
    }
}

/// Whether `stat` prints this.
pub fn counts<D: Disk>(alloc: Global, disk: &mut D, out: &str) -> bool {
    ends(alloc, disk, "stat", (Status::Done, out, ""))
}

/// Whether `ingest` of this stream ends so, flushes what it prints, and leaves so many bytes unread.
pub fn ingests<D: Disk>(
    alloc: Global,
    disk: &mut D,
    stream: &[u8],
    want: (Status, &str, &str),
    unread: usize,
) -> bool {
    run_words(alloc, &["ingest"], disk, stream, 400).is_ok_and(|left| has_left(&left, want, unread))
}

/// Whether `ingest` of this stream is refused with this line, prints nothing else, and leaves so many bytes unread.
pub fn refuses_stream<D: Disk>(
    alloc: Global,
    disk: &mut D,
    stream: &[u8],
    line: &str,
    unread: usize,
) -> bool {
    ingests(alloc, disk, stream, (Status::Refused, "", line), unread)
}
