//! What is there before a run and after it.

use crate::cases::{
    CREATE_LINE, Case, HEAD_REFUSED, MORE, Object, STORED_MORE, TORN_HEAD, TORN_LINES,
};
use aea_cli::Status;
use aea_disk::{Disk, SureDisk};
use aea_runs::{Left, run_input, run_over, run_put, run_words, text_of};
use aea_test_helpers::spoil;
use std::alloc::{AllocError, Global};

/// Makes what is there before the run of this case. Says whether the disk did not fail, and there was memory.
pub fn prepare<D: Disk>(alloc: Global, case: &Case, disk: &mut D) -> bool {
    let mut is_made = true;
    for (line, bytes) in case.before {
        is_made = is_made && run_input(alloc, line, disk, bytes.as_bytes()).is_ok();
    }
    for (file, at) in case.flipped {
        is_made = is_made && spoil(disk, *file, *at).is_ok();
    }
    is_made && disk.sync().is_ok()
}

/// A disk on which that is made. None where it is not.
pub fn prepared(alloc: Global, case: &Case) -> Option<SureDisk> {
    match SureDisk::new(alloc, 4, 2048, 1024) {
        Ok(mut disk) => prepare(alloc, case, &mut disk).then_some(disk),
        Err(_) => None,
    }
}

/// Runs this case over this disk.
pub fn run_case<D: Disk>(alloc: Global, case: &Case, disk: &mut D) -> Result<Left, AllocError> {
    run_input(alloc, case.line, disk, case.input.as_bytes())
}

/// Whether a run of this case has ended as where nothing fails.
pub fn is_whole(case: &Case, status: Status, out: &[u8], err: &[u8]) -> bool {
    status == case.status && out == case.out.as_bytes() && err.is_empty()
}

/// What is printed of the first commits of this case.
pub fn printed(alloc: Global, case: &Case, commits: usize) -> Result<String, AllocError> {
    let mut text = String::new(alloc);
    for commit in case.commits.iter().take(commits) {
        text.push_str(commit.line)?;
    }
    Ok(text)
}

/// Whether this is what is printed of the first commits of this case.
pub fn is_printed(alloc: Global, case: &Case, commits: usize, out: &[u8]) -> bool {
    printed(alloc, case, commits).is_ok_and(|text| out == text.as_bytes())
}

// What a scrub finds.
#[derive(Clone, Copy, PartialEq, Eq)]
enum Found {
    Nothing,
    /// An archive whose last parities are intact.
    Sound,
    /// An archive of whose last parities one is damaged.
    HeadDamaged,
    /// Damage of other blocks than those that were damaged before, no text, or no memory.
    Wrong,
}

// What this text of a scrub says, where those blocks may be damaged or may not.
fn found_by(text: &str, is_torn: bool) -> Found {
    let is_known = text.lines().all(|line| {
        line.starts_with("total ") || is_torn && TORN_LINES.iter().any(|torn| *torn == line)
    });
    if !is_known || text.is_empty() {
        Found::Wrong
    } else if text.contains(TORN_HEAD) {
        Found::HeadDamaged
    } else {
        Found::Sound
    }
}

// What a scrub that left this has found.
fn found_in(left: &Left, is_torn: bool) -> Found {
    if left.err.bytes() == b"refused: no archive\n".as_slice() {
        Found::Nothing
    } else {
        match text_of(left.out.bytes()) {
            Ok(text) => found_by(text, is_torn),
            Err(_) => Found::Wrong,
        }
    }
}

// What a scrub over this disk finds.
fn find<D: Disk>(alloc: Global, disk: &mut D, is_torn: bool) -> Found {
    match run_over(alloc, "scrub", disk, 400) {
        Ok(left) => found_in(&left, is_torn),
        Err(_) => Found::Wrong,
    }
}

/// Whether an object is got as it was put.
pub fn is_got<D: Disk>(alloc: Global, disk: &mut D, name: &str, bytes: &[u8]) -> bool {
    run_words(alloc, &["get", name], disk, b"", 99).is_ok_and(|left| {
        left.status == Status::Done && left.out.bytes() == bytes
    })
}

// Whether so many of the objects are got.
fn are_got<D: Disk>(alloc: Global, disk: &mut D, objects: &[Object], count: usize) -> bool {
    let mut got = true;
    for (name, bytes) in objects.iter().take(count) {
        got = got && is_got(alloc, disk, name, bytes);
    }
    got
}

// Puts one more object. Whether this is reported.
fn stores_more<D: Disk>(alloc: Global, disk: &mut D) -> bool {
    let (name, bytes) = MORE;
    run_put(alloc, disk, name, bytes).is_ok_and(|left| {
        left.status == Status::Done && left.out.bytes() == STORED_MORE.as_bytes()
    })
}

// Puts one more object. Whether this is reported, and the object is got.
fn takes_more<D: Disk>(alloc: Global, disk: &mut D) -> bool {
    let (name, bytes) = MORE;
    stores_more(alloc, disk) && is_got(alloc, disk, name, bytes)
}

// Whether one more object is refused, since a last parity is damaged.
fn takes_none<D: Disk>(alloc: Global, disk: &mut D) -> bool {
    let (name, bytes) = MORE;
    run_put(alloc, disk, name, bytes).is_ok_and(|left| {
        left.status == Status::Refused && left.err.bytes() == HEAD_REFUSED.as_bytes()
    })
}

/// Whether a run of the line is done, with so many bytes of space for what it prints.
pub fn is_done<D: Disk>(alloc: Global, disk: &mut D, line: &str, room: usize) -> bool {
    run_over(alloc, line, disk, room).is_ok_and(|left| left.status == Status::Done)
}

// Puts one more object into what was found, where nothing is there into an archive that is made now.
fn goes_on<D: Disk>(alloc: Global, disk: &mut D, found: Found) -> bool {
    match found {
        Found::Sound => takes_more(alloc, disk),
        Found::HeadDamaged => takes_none(alloc, disk),
        Found::Nothing => is_done(alloc, disk, CREATE_LINE, 99) && takes_more(alloc, disk),
        Found::Wrong => false,
    }
}

// Whether a repair prints this.
fn reports<D: Disk>(alloc: Global, disk: &mut D, report: &str) -> bool {
    run_over(alloc, "repair", disk, 400).is_ok_and(|left| left.out.bytes() == report.as_bytes())
}

// Repairs the archive, and where it took no object before puts one now. Whether all is intact then, and this is reported.
fn is_mended<D: Disk>(alloc: Global, disk: &mut D, found: Found, report: &str) -> bool {
    is_done(alloc, disk, "repair", 400)
        && (found != Found::HeadDamaged || takes_more(alloc, disk))
        && is_done(alloc, disk, "scrub", 400)
        && reports(alloc, disk, report)
}

/// Whether what is on this disk is, by runs over it, what so many commits leave, of which so many are durable: no block is
/// damaged that was intact; one more object is put and got; a repair makes all intact; the objects that were acknowledged are
/// got; and the archive is the one of these objects to the byte of its ledger.
pub fn stands<D: Disk>(
    alloc: Global,
    disk: &mut D,
    case: &Case,
    sure: usize,
    commits: usize,
) -> bool {
    let is_torn = !case.flipped.is_empty() && (sure == 0 || case.commits.is_empty());
    let is_none = case.before.is_empty() && commits == 0;
    let count = case.kept.saturating_add(sure);
    let found = find(alloc, disk, is_torn);
    match case.stands.get(commits) {
        Some(report) => {
            is_none == (found == Found::Nothing)
                && goes_on(alloc, disk, found)
                && is_mended(alloc, disk, found, report)
                && are_got(alloc, disk, case.objects, count)
        }
        None => false,
    }
}
