//! Repairs that are refused, words that mean none, and a site without space.

use crate::archives::{archive_of_four, files_of_four, fill_files};
use aea_cli::Status;
use aea_disk::{Disk, SureDisk};
use aea_runs::{all_bytes, has_bytes, run_over, run_words};
use aea_test_helpers::{shorten, spoil};
use std::alloc::Global;

// Words that are no command.
fn no_commands() -> [&'static [&'static str]; 12] {
    [
        &["repair", ""],
        &["", "repair"],
        &["repair", "x"],
        &["repair", "repair"],
        &["Repair", "a"],
        &["Repair"],
        &["repairs"],
        &["repai"],
        &["repair "],
        &[" repair"],
        &["REPAIR"],
        &["repair\n"],
    ]
}

// Whether these words are told to be no command, and nothing is read.
fn is_no_command<D: Disk>(alloc: Global, disk: &mut D, words: &[&str]) -> bool {
    match run_words(alloc, words, disk, b"unread", 99) {
        Ok(left) => left.is(Status::Words, "", "words: no such command\n") && left.unread == 6,
        Err(_) => false,
    }
}

// An archive whose third site is damaged.
fn with_bad_site(alloc: Global) -> Option<SureDisk> {
    let mut disk = archive_of_four(alloc, b"abc")?;
    spoil(&mut disk, 3, 20).is_ok().then_some(disk)
}

// The first words that are taken for a command.
fn taken_words<D: Disk>(alloc: Global, disk: &mut D) -> Option<&'static [&'static str]> {
    for words in no_commands() {
        if !is_no_command(alloc, disk, words) {
            return Some(words);
        }
    }
    None
}

// The same over that archive, or what else is wrong: a file changes, or there is no archive.
fn wrong_words(alloc: Global) -> Option<&'static [&'static str]> {
    if let Some(mut disk) = with_bad_site(alloc)
        && let Some(stands) = all_bytes(alloc, &mut disk)
    {
        let taken = taken_words(alloc, &mut disk);
        if taken.is_some() || has_bytes(alloc, &mut disk, stands.as_slice()) {
            taken
        } else {
            Some(&["a file"])
        }
    } else {
        Some(&["no archive"])
    }
}

#[test]
fn words_beside_it_are_no_command(rt: HostRuntime) {
    let wrong = wrong_words(rt.alloc());
    assert!(rt; wrong.is_none(), "{wrong:?}");
}

// Bad ledgers: how many bytes of the ledger are kept, a byte that is then written, and the line.
fn bad_ledgers() -> [(u64, u8, u8, &'static str); 5] {
    [
        (203, 9, 4, "refused: ledger bad at 9\n"),
        (202, 0, 1, "refused: ledger bad at 202\n"),
        (150, 0, 1, "refused: ledger bad at 74\n"),
        (17, 0, 1, "refused: no archive\n"),
        (203, 0, 7, "refused: no archive\n"),
    ]
}

// Damages the first site, cuts the ledger to this length, and writes a byte of it. Whether all of it is done.
fn harms<D: Disk>(disk: &mut D, end: u64, place: u8, value: u8) -> bool {
    spoil(disk, 1, 20).is_ok()
        && shorten(disk, 0, end) == Ok(true)
        && disk.write(0, u64::from(place), &[value]).is_ok()
}

// Whether a repair over this disk is refused with this line, and leaves the files and the input.
fn is_refused<D: Disk>(alloc: Global, disk: &mut D, line: &str) -> bool {
    if let Some(stands) = all_bytes(alloc, disk)
        && let Ok(left) = run_over(alloc, "repair", disk, 999)
    {
        let is_revealed = left.is(Status::Refused, "", line) && left.unread == 6;
        is_revealed && has_bytes(alloc, disk, stands.as_slice())
    } else {
        false
    }
}

// Whether a repair over an empty disk is refused so.
fn is_empty_refused(alloc: Global) -> bool {
    match SureDisk::new(alloc, 4, 4096, 4096) {
        Ok(mut disk) => is_refused(alloc, &mut disk, "refused: no archive\n"),
        Err(_) => false,
    }
}

// Whether a repair of an archive that is harmed so is refused with this line.
fn is_harmed_refused(alloc: Global, end: u64, place: u8, value: u8, line: &str) -> bool {
    match archive_of_four(alloc, b"abc") {
        Some(mut disk) => {
            harms(&mut disk, end, place, value) && is_refused(alloc, &mut disk, line)
        }
        None => false,
    }
}

// The length of the first ledger that is not refused so, and the place of its byte; both are 0 for an empty disk.
fn wrong_ledger(alloc: Global) -> Option<(u64, u8)> {
    let mut wrong = None;
    if !is_empty_refused(alloc) {
        wrong = Some((0, 0));
    }
    for (end, place, value, line) in bad_ledgers() {
        if wrong.is_none() && !is_harmed_refused(alloc, end, place, value, line) {
            wrong = Some((end, place));
        }
    }
    wrong
}

#[test]
fn what_is_no_archive_is_not_repaired(rt: HostRuntime) {
    let wrong = wrong_ledger(rt.alloc());
    assert!(rt; wrong.is_none(), "{wrong:?}");
}

// Whether the files of this disk can be read, and are these; or are others, where `others` says so.
fn has_these<D: Disk>(alloc: Global, disk: &mut D, files: &[Vec<u8>], others: bool) -> bool {
    all_bytes(alloc, disk).is_some_and(|found| (found.as_slice() == files) != others)
}

// Whether a repair of an archive whose fourth site is lost, with a cell of each of three nodes, ends so on a disk with so many
// sites, and has restored all and printed something where it is done.
fn ends_so(alloc: Global, whole: &[Vec<u8>], sites: u8, status: Status) -> bool {
    let is_done = status == Status::Done;
    if let Some(kept) = whole.get(..4)
        && let Ok(mut disk) = SureDisk::new(alloc, sites, 4096, 4096)
        && fill_files(&mut disk, kept)
        && let Ok(left) = run_over(alloc, "repair", &mut disk, 999)
    {
        let is_revealed = left.status == status && left.out.bytes().is_empty() != is_done;
        is_revealed && has_these(alloc, &mut disk, whole, !is_done)
    } else {
        false
    }
}

// How many sites the first disk has where a repair of the archive with these files does not end so.
fn wrong_sites(alloc: Global, whole: &[Vec<u8>]) -> Option<u8> {
    let mut wrong = None;
    // there is space for the fourth site, or none
    for (sites, status) in [(3u8, Status::Disk), (4, Status::Done)] {
        if wrong.is_none() && !ends_so(alloc, whole, sites, status) {
            wrong = Some(sites);
        }
    }
    wrong
}

// The same of an archive of three nodes; 0 where there is none.
fn wrong_sites_of_three(alloc: Global) -> Option<u8> {
    match files_of_four(alloc, &[7; 150]) {
        Some(whole) => wrong_sites(alloc, whole.as_slice()),
        None => Some(0),
    }
}

#[test]
fn a_site_without_room_is_at_fault(rt: HostRuntime) {
    let wrong = wrong_sites_of_three(rt.alloc());
    assert!(rt; wrong.is_none(), "{wrong:?}");
}
