//! Damage of the ledger and its copies beside which one copy is good: each run ends as without it, and mends it.

use crate::archives::{B, LISTED, THREE, copied, ends, files_of, has_files};
use crate::harms::{Harm, inflict, inflict_all};
use aea_cli::Status;
use aea_disk::Disk;
use aea_runs::{Left, run_input};
use std::alloc::Global;
use std::test::Fail;

// Damage, a run over the archive with it, and its status, what it prints, and what it prints on the errors.
type Row = (
    &'static [Harm],
    &'static str,
    (Status, &'static str, &'static str),
);

const GETS: (Status, &str, &str) = (Status::Done, "abc", "");

const LISTS: (Status, &str, &str) = (Status::Done, LISTED, "");

const OCCUPIED: (Status, &str, &str) = (Status::Refused, "", "refused: occupied\n");

const ARE_ON: (Status, &str, &str) = (Status::Refused, "", "refused: copies are on\n");

const ROWS: &[Row] = &[
    (&[Harm::Cut(0, 0)], "get a", GETS),
    (&[Harm::Byte(0, 9, 4)], "get a", GETS),
    (&[Harm::Flip(65, 100)], "list", LISTS),
    (&[Harm::Flip(66, 100)], "list", LISTS),
    (&[Harm::Cut(0, 0)], "create 1 1 0 16 1", OCCUPIED),
    (&[Harm::Byte(0, 0, 0)], "create 3 2 5 64 4", OCCUPIED),
    (&[Harm::Cut(0, 0)], "copies", ARE_ON),
    (&[Harm::Cut(65, 0)], "copies", ARE_ON),
    (&[Harm::Cut(66, 0)], "copies", ARE_ON),
    // the ledger and one copy
    (&[Harm::Cut(0, 0), Harm::Cut(65, 0)], "get a", GETS),
    (&[Harm::Cut(0, 0), Harm::Cut(66, 0)], "get a", GETS),
    (&[Harm::Flip(0, 100), Harm::Flip(65, 9)], "list", LISTS),
    (&[Harm::Cut(0, 100), Harm::Flip(66, 1)], "list", LISTS),
];

// It is a function, so that the proof of a test does not carry the table.
fn rows() -> &'static [Row] {
    ROWS
}

// Whether the run of this row over this archive ends so, and leaves all files as they were before the damage.
fn mends<D: Disk>(alloc: Global, disk: &mut D, row: &Row) -> bool {
    let (harms, line, want) = row;
    match files_of(alloc, disk) {
        Some(whole) => {
            inflict_all(disk, harms)
                && ends(alloc, disk, line, *want)
                && has_files(alloc, disk, whole.as_slice())
        }
        None => false,
    }
}

// The same of an archive whose ledger has copies.
fn is_mended(alloc: Global, row: &Row) -> bool {
    match copied(alloc) {
        Some(mut disk) => mends(alloc, &mut disk, row),
        None => false,
    }
}

#[test]
fn one_good_copy_mends_the_others(rt: HostRuntime) -> Result<(), Fail> {
    for row in rows() {
        assert!(rt; is_mended(rt.alloc(), row), "{}", row.1);
    }
    Ok(())
}

// A run: its line, and its input.
type Run = (&'static str, &'static str);

// What a run leaves, and the files after it.
#[derive(Drop)]
struct Whole {
    left: Left,
    files: Vec<Vec<u8>>,
}

// The same of a run over a whole archive.
fn whole_run(alloc: Global, run: Run) -> Option<Whole> {
    let mut disk = copied(alloc)?;
    let left = run_input(alloc, run.0, &mut disk, run.1.as_bytes()).ok()?;
    let files = files_of(alloc, &mut disk)?;
    Some(Whole { left, files })
}

// Whether a run ended with the same status as another one, and printed the same.
fn are_same(left: &Left, other: &Left) -> bool {
    left.status == other.status
        && left.out.bytes() == other.out.bytes()
        && left.err.bytes() == other.err.bytes()
}

// Whether the run over this disk ends as that one, and leaves the same files.
fn leaves_the_same<D: Disk>(alloc: Global, disk: &mut D, run: Run, whole: &Whole) -> bool {
    match run_input(alloc, run.0, disk, run.1.as_bytes()) {
        Ok(left) => {
            are_same(&left, &whole.left) && has_files(alloc, disk, whole.files.as_slice())
        }
        Err(_) => false,
    }
}

// Whether this is so of an archive after this damage.
fn is_as_whole(alloc: Global, run: Run, damage: Harm, whole: &Whole) -> bool {
    match copied(alloc) {
        Some(mut disk) => {
            inflict(&mut disk, damage) && leaves_the_same(alloc, &mut disk, run, whole)
        }
        None => false,
    }
}

// The length of a file of such an archive.
fn length_of(alloc: Global, file: u8) -> Option<u64> {
    let mut disk = copied(alloc)?;
    disk.len(file.min(66)).ok()
}

// Of a file the places are tried that are multiples of this, and those where a gate is in the ledger or in a copy.
const STEP: u64 = 17;

const GATES: [u64; 5] = [9, 17, 63, 202, 285];

// Whether a flipped bit at this place, and a cut there, are mended by the run, which leaves this over a whole archive.
fn is_place_mended(alloc: Global, run: Run, file: u8, at: u64, whole: &Whole) -> bool {
    is_as_whole(alloc, run, Harm::Flip(file, at), whole)
        && is_as_whole(alloc, run, Harm::Cut(file, at), whole)
}

// Whether this is so of each of the places that are tried of the file.
fn is_file_mended(alloc: Global, run: Run, file: u8, whole: &Whole) -> bool {
    match length_of(alloc, file) {
        Some(long) => (0..long).all(|at| {
            at % STEP != 0 && !GATES.contains(&at) || is_place_mended(alloc, run, file, at, whole)
        }),
        None => false,
    }
}

// Whether this is so of each of the three files.
fn are_files_mended(alloc: Global, run: Run) -> bool {
    match whole_run(alloc, run) {
        Some(whole) => THREE
            .iter()
            .all(|file| is_file_mended(alloc, run, *file, &whole)),
        None => false,
    }
}

#[test]
fn each_place_of_each_file_is_mended(rt: HostRuntime) -> Result<(), Fail> {
    for run in [("list", ""), ("get a", ""), ("put b", B), ("scrub", "")] {
        assert!(rt; are_files_mended(rt.alloc(), run), "{}", run.0);
    }
    Ok(())
}
