//! Runs of the program over streams and disks in memory, and what is compared with what they leave, for the tests.
#![tactic(auto)]

mod clashes;
mod failing;
mod files;
mod pages;
mod parts;
mod random;
mod slow;

use aea_cli::{Status, run, run_surely};
use aea_disk::{Disk, SureDisk};
use aea_io::{SureSink, SureSource};
pub use clashes::{FIRST_DIGEST, cell_of, clash_line, digest_of};
pub use failing::{Ended, Faults, NONE, run_failing};
pub use files::{all_bytes, has_bytes};
pub use pages::{PAGE, archive_of_pages, bytes_of_pages};
pub use parts::share_parts;
pub use random::step;
pub use slow::run_slowly;
use std::alloc::{AllocError, Global};
use std::str::{self, Utf8Error};

/// What a run leaves.
#[derive(Drop)]
pub struct Left {
    pub status: Status,
    pub out: SureSink,
    pub err: SureSink,
    /// How many bytes of the input were not read.
    pub unread: usize,
}

impl Left {
    /// Whether the run ended with this status, and printed this, and this on the errors. One comparison of all three costs the
    /// proof of a test least.
    pub fn is(&self, status: Status, out: &str, err: &str) -> bool {
        self.status == status
            && self.out.bytes() == out.as_bytes()
            && self.err.bytes() == err.as_bytes()
    }
}

/// The words of a line, parted by spaces. An error is lack of memory, here and below.
pub fn words_of(alloc: Global, line: &str) -> Result<Vec<String>, AllocError> {
    let mut words = Vec::new(alloc);
    for word in line.split_whitespace() {
        words.push(String::from_str(alloc, word)?)?;
    }
    Ok(words)
}

/// The text of these bytes.
pub fn text_of(bytes: &[u8]) -> Result<&str, Utf8Error> {
    str::from_utf8(bytes)
}

/// Runs the command of a line over a disk without space and streams that do not fail.
pub fn run_line(alloc: Global, line: &str, list: &[u8]) -> Result<Left, AllocError> {
    let words = words_of(alloc, line)?;
    let mut disk = SureDisk::new(alloc, 0, 0, 0)?;
    let mut input = SureSource::new(list);
    let mut out = SureSink::new(alloc, 4_194_304)?;
    let mut err = SureSink::new(alloc, 64)?;
    let status = run_surely(
        alloc,
        words.as_slice(),
        &mut disk,
        &mut input,
        &mut out,
        &mut err,
    );
    let unread = input.rest.len();
    Ok(Left {
        status,
        out,
        err,
        unread,
    })
}

// Runs the command of these words over this disk and input, with so many bytes of space on `out` and 64 on `err`.
fn run_with<D: Disk>(
    alloc: Global,
    words: &[String],
    disk: &mut D,
    bytes: &[u8],
    room: usize,
) -> Result<Left, AllocError> {
    let mut input = SureSource::new(bytes);
    let mut out = SureSink::new(alloc, room)?;
    let mut err = SureSink::new(alloc, 64)?;
    let status = run(alloc, words, disk, &mut input, &mut out, &mut err);
    let unread = input.rest.len();
    Ok(Left {
        status,
        out,
        err,
        unread,
    })
}

/// Runs the command of a line over this disk, with so many bytes of space on `out` and an input that no such command reads.
pub fn run_over<D: Disk>(
    alloc: Global,
    line: &str,
    disk: &mut D,
    room: usize,
) -> Result<Left, AllocError> {
    let words = words_of(alloc, line)?;
    run_with(alloc, words.as_slice(), disk, b"unread", room)
}

/// Runs the command of a line over this disk and input.
pub fn run_input<D: Disk>(
    alloc: Global,
    line: &str,
    disk: &mut D,
    bytes: &[u8],
) -> Result<Left, AllocError> {
    let words = words_of(alloc, line)?;
    run_with(alloc, words.as_slice(), disk, bytes, 999)
}

/// Runs the command of these words over this disk and input, with so many bytes of space on `out`.
pub fn run_words<D: Disk>(
    alloc: Global,
    texts: &[&str],
    disk: &mut D,
    bytes: &[u8],
    room: usize,
) -> Result<Left, AllocError> {
    let mut words = Vec::new(alloc);
    for text in texts {
        words.push(String::from_str(alloc, text)?)?;
    }
    run_with(alloc, words.as_slice(), disk, bytes, room)
}

/// Runs `get` with this name over this disk, with so many bytes of space on `out`.
pub fn run_get<D: Disk>(
    alloc: Global,
    disk: &mut D,
    name: &str,
    room: usize,
) -> Result<Left, AllocError> {
    run_words(alloc, &["get", name], disk, b"unread", room)
}

/// Runs `fetch` with this name over this disk, with so many bytes of space on `out`.
pub fn run_fetch<D: Disk>(
    alloc: Global,
    disk: &mut D,
    name: &str,
    room: usize,
) -> Result<Left, AllocError> {
    run_words(alloc, &["fetch", name], disk, b"unread", room)
}

/// Runs `put` with this name over this disk and input.
pub fn run_put<D: Disk>(
    alloc: Global,
    disk: &mut D,
    name: &str,
    bytes: &[u8],
) -> Result<Left, AllocError> {
    run_words(alloc, &["put", name], disk, bytes, 400)
}
