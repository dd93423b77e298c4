//! What a run leaves whose input ends early.

use crate::cases::Case;
use crate::standing::printed;
use aea_cli::Status;
use aea_runs::{Left, run_line, text_of};
use aea_test_helpers::digits_of;
use sha2::{Digest, Sha256};
use std::alloc::{AllocError, Global};

/// What an input is.
#[derive(Clone, Copy, PartialEq, Eq)]
pub enum Kind {
    DamageList,
    Object,
    Frames,
    Report,
}

/// What a run says.
#[derive(Drop)]
pub struct Revealed {
    status: Status,
    out: String,
    err: String,
}

impl Revealed {
    /// Whether it is what this run left.
    pub fn is_of(&self, left: &Left) -> bool {
        left.status == self.status
            && left.out.bytes() == self.out.as_bytes()
            && left.err.bytes() == self.err.as_bytes()
            && left.unread == 0
    }
}

// What a run says that ends with this status, and prints this, and this on the errors. None where memory runs out, here and below.
fn says(alloc: Global, status: Status, out: &str, err: &str) -> Option<Revealed> {
    let out = String::from_str(alloc, out).ok()?;
    let err = String::from_str(alloc, err).ok()?;
    Some(Revealed { status, out, err })
}

// What a run says that has printed this, and is refused for this and the number behind it.
fn refused(alloc: Global, out: &str, cause: &str, number: usize) -> Option<Revealed> {
    match format!(in alloc; "refused: {cause} {number}\n") {
        Ok(err) => says(alloc, Status::Refused, out, err.as_str()),
        Err(_) => None,
    }
}

// What a run says that was not refused, and has left this.
fn ended(alloc: Global, left: &Left) -> Option<Revealed> {
    match text_of(left.out.bytes()) {
        Ok(out) => says(alloc, left.status, out, ""),
        Err(_) => None,
    }
}

// Of a damage list whose last line ends with a newline: what the run itself does.
fn revealed_of_whole_list(alloc: Global, case: &Case, list: &str) -> Option<Revealed> {
    match run_line(alloc, case.line, list.as_bytes()) {
        Ok(left) => ended(alloc, &left),
        Err(_) => None,
    }
}

// Of a damage list: its last line need not end with a newline, but it has to be the text of a block.
fn revealed_of_list(alloc: Global, case: &Case, part: &str) -> Option<Revealed> {
    let last = match part.rsplit_once('\n') {
        Some((_lines, last)) => last,
        None => part,
    };
    if last.len() == 1 {
        refused(alloc, "", "bad block at line", part.lines().count())
    } else if last.is_empty() {
        revealed_of_whole_list(alloc, case, part)
    } else {
        match format!(in alloc; "{part}\n") {
            Ok(list) => revealed_of_whole_list(alloc, case, list.as_str()),
            Err(_) => None,
        }
    }
}

// What is printed of an object of these bytes, in blocks of 16 bytes.
fn stored_line(alloc: Global, bytes: &[u8]) -> Result<String, AllocError> {
    let count = bytes.len();
    let nodes = count.div_ceil(16);
    let digits = digits_of(alloc, &Sha256::digest(bytes))?;
    format!(in alloc; "stored {nodes} {count} {digits} b\n")
}

// Of an object: each part of it is one.
fn revealed_of_object(alloc: Global, part: &[u8]) -> Option<Revealed> {
    match stored_line(alloc, part) {
        Ok(line) => says(alloc, Status::Done, line.as_str(), ""),
        Err(_) => None,
    }
}

/// How many lines end in these bytes.
pub fn lines_in(bytes: &[u8]) -> usize {
    bytes.iter().filter(|byte| **byte == b'\n').count()
}

/// How many commits of a stream of frames are made after so many of its bytes.
pub fn commits_in(case: &Case, bytes: usize) -> usize {
    case.commits
        .iter()
        .filter(|commit| commit.reads <= bytes)
        .count()
}

// Of frames whose stream ends behind so many of them: what is printed of them, and how many they are.
fn revealed_of_whole_frames(alloc: Global, out: &str, commits: usize) -> Option<Revealed> {
    match format!(in alloc; "{out}end {commits}\n") {
        Ok(out) => says(alloc, Status::Done, out.as_str(), ""),
        Err(_) => None,
    }
}

// Of frames: those that are whole are stored, and the stream may end after each.
fn revealed_of_frames(alloc: Global, case: &Case, end: usize) -> Option<Revealed> {
    let commits = commits_in(case, end);
    let out = printed(alloc, case, commits).ok()?;
    if end == 0 || case.commits.iter().any(|commit| commit.reads == end) {
        revealed_of_whole_frames(alloc, out.as_str(), commits)
    } else {
        refused(alloc, out.as_str(), "bad stream at", end)
    }
}

// Of a report of restored blocks alone: it may end after the fourth line and each later one, but it is short of blocks then.
fn revealed_of_report(alloc: Global, part: &str, is_whole: bool) -> Option<Revealed> {
    let lines = lines_in(part.as_bytes());
    if lines < 4 || !part.ends_with('\n') {
        refused(alloc, "", "bad line", lines.saturating_add(1))
    } else if is_whole {
        says(alloc, Status::Done, "accepted\n", "")
    } else {
        says(alloc, Status::Damage, "rejected 4 wrong-count\n", "")
    }
}

// What the run of this case says whose input, a damage list or a report, is this first part of the whole.
fn revealed_of_text(alloc: Global, case: &Case, kind: Kind, part: &str) -> Option<Revealed> {
    if kind == Kind::DamageList {
        revealed_of_list(alloc, case, part)
    } else {
        revealed_of_report(alloc, part, part.len() == case.input.len())
    }
}

/// What the run of this case says whose input is this first part of the whole.
pub fn revealed_of(alloc: Global, case: &Case, kind: Kind, part: &[u8]) -> Option<Revealed> {
    match kind {
        Kind::Object => revealed_of_object(alloc, part),
        Kind::Frames => revealed_of_frames(alloc, case, part.len()),
        Kind::DamageList | Kind::Report => match text_of(part) {
            Ok(text) => revealed_of_text(alloc, case, kind, text),
            Err(_) => None,
        },
    }
}
