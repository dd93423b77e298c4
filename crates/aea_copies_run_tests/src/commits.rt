//! Runs that commit once, over an archive whose ledger has copies, and what is there after one that did not end.

use crate::archives::{B, LISTED, ends, ends_with_input, is_done};
use crate::harms::remove_both;
use aea_cli::Status;
use aea_disk::Disk;
use aea_runs::{Left, run_input, run_over};
use std::alloc::Global;

/// A run that commits once.
#[derive(Clone, Copy)]
pub struct Commit {
    pub line: &'static str,
    pub input: &'static str,
    /// What it prints.
    pub out: &'static str,
    /// What it is refused with once it has committed.
    pub again: &'static str,
    /// What `list` prints after it.
    pub listed: &'static str,
    /// What `scrub` prints after it.
    pub scrubbed: &'static str,
    /// The lines that get the objects after it, and their bytes.
    pub gets: &'static [(&'static str, &'static str)],
    /// It is the run that begins the copies, over an archive without them.
    pub begins: bool,
}

// These runs are given by functions, so that the proof of a test does not carry their texts.
const PUT: Commit = Commit {
    line: "put b",
    input: B,
    out: "stored 2 91 ccca942e180af1ab7d5fee21aeb1fc578016597ab6b5379ad04ff480db729d4a b\n",
    again: "refused: name taken\n",
    listed: "3 ba7816bf8f01cfea414140de5dae2223b00361a396177a9cb410ff61f20015ad a\n\
        91 ccca942e180af1ab7d5fee21aeb1fc578016597ab6b5379ad04ff480db729d4a b\n",
    scrubbed: "total 12 damaged 0\n",
    gets: &[("get a", "abc"), ("get b", B)],
    begins: false,
};

const FENCE: Commit = Commit {
    line: "fence",
    input: "",
    out: "fence 1\n",
    again: "refused: already fenced at 1\n",
    listed: LISTED,
    scrubbed: "total 4 damaged 0\n",
    gets: &[("get a", "abc")],
    begins: false,
};

const UPGRADE: Commit = Commit {
    line: "upgrade",
    out: "upgraded 1048576\n",
    again: "refused: already upgraded\n",
    ..FENCE
};

const COPIES: Commit = Commit {
    line: "copies",
    out: "copies on\n",
    again: "refused: copies are on\n",
    begins: true,
    ..FENCE
};

/// The put of an object of two nodes.
pub fn put() -> Commit {
    PUT
}

/// A fence, and a raise of the limit.
pub fn records() -> [Commit; 2] {
    [FENCE, UPGRADE]
}

/// The copies themselves.
pub fn copies() -> Commit {
    COPIES
}

/// Whether the run ends as where nothing fails.
pub fn commits<D: Disk>(alloc: Global, disk: &mut D, commit: &Commit) -> bool {
    is_done(alloc, disk, commit.line, commit.input, commit.out)
}

// Whether the run is refused, since it has committed, and `list` prints what it does after it.
fn has_committed<D: Disk>(alloc: Global, disk: &mut D, commit: &Commit) -> bool {
    let refused = (Status::Refused, "", commit.again);
    ends_with_input(alloc, disk, commit.line, commit.input, refused)
        && ends(alloc, disk, "list", (Status::Done, commit.listed, ""))
}

// Whether each object of after the run is got, and no block is damaged.
fn has_objects<D: Disk>(alloc: Global, disk: &mut D, commit: &Commit) -> bool {
    let mut are_got = true;
    for (line, bytes) in commit.gets {
        are_got = are_got && is_done(alloc, disk, line, "", bytes);
    }
    are_got && ends(alloc, disk, "scrub", (Status::Done, commit.scrubbed, ""))
}

// Whether the archive is the one after the run where these two of the three files are removed.
fn is_kept_by_one<D: Disk>(alloc: Global, disk: &mut D, commit: &Commit, removed: [u8; 2]) -> bool {
    remove_both(disk, removed) && has_committed(alloc, disk, commit)
}

// Whether each of the three files alone keeps the archive after the run. Copies are begun again where both are removed.
fn is_kept_by_each<D: Disk>(alloc: Global, disk: &mut D, commit: &Commit) -> bool {
    is_kept_by_one(alloc, disk, commit, [0, 65])
        && is_kept_by_one(alloc, disk, commit, [0, 66])
        && (commit.begins || is_kept_by_one(alloc, disk, commit, [65, 66]))
}

// Whether the archive is listed as before the run, which is then made and ends as where nothing fails; or as after it, when it is
// refused. Only the latter where this is said. These are what the list leaves and what the run leaves.
fn are_before_or_after(found: &Left, left: &Left, commit: &Commit, is_sure: bool) -> bool {
    if left.status == Status::Done {
        !is_sure && left.is(Status::Done, commit.out, "") && found.is(Status::Done, LISTED, "")
    } else {
        left.is(Status::Refused, "", commit.again) && found.is(Status::Done, commit.listed, "")
    }
}

// Whether the run is made, or refused, as this says beside what the list left before it.
fn is_made_or_refused<D: Disk>(
    alloc: Global,
    disk: &mut D,
    found: &Left,
    commit: &Commit,
    is_sure: bool,
) -> bool {
    match run_input(alloc, commit.line, disk, commit.input.as_bytes()) {
        Ok(left) => are_before_or_after(found, &left, commit, is_sure),
        Err(_) => false,
    }
}

// Whether this is so of the list, and of the run that is made after it.
fn is_found<D: Disk>(alloc: Global, disk: &mut D, commit: &Commit, is_sure: bool) -> bool {
    match run_over(alloc, "list", disk, 999) {
        Ok(found) => is_made_or_refused(alloc, disk, &found, commit, is_sure),
        Err(_) => false,
    }
}

/// Whether the archive is the one before the run or the one after it, only the one after it where this is said; and whether, once
/// the run was made again, it is the one after it, and each of the three files alone keeps it.
pub fn stands<D: Disk>(alloc: Global, disk: &mut D, commit: &Commit, is_sure: bool) -> bool {
    is_found(alloc, disk, commit, is_sure)
        && has_objects(alloc, disk, commit)
        && is_kept_by_each(alloc, disk, commit)
}
