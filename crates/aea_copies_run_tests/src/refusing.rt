//! Copies that are refused: where both are bad, and where they differ.

use crate::archives::{
    LINE, LISTED, begin_copies, copied, ends, ends_with_input, files_of, has_files, leaves_files,
    other, store, take_from,
};
use crate::harms::{Harm, inflict_all};
use aea_cli::Status;
use aea_disk::{Disk, SureDisk};
use std::alloc::Global;
use std::test::Fail;

// A line for each command that uses the disk.
const LINES: &[&str] = &[
    "create 1 1 0 16 1",
    "stat",
    "list",
    "put b",
    "ingest",
    "get a",
    "fetch a",
    "fence",
    "upgrade",
    "scrub",
    "repair",
    "explain d1",
    "verify",
    "sites",
    "session",
    "copies",
];

// It is a function, so that the proof of a test does not carry the lines; so are the rows below.
fn lines() -> &'static [&'static str] {
    LINES
}

// Whether each of these lines is refused so, and leaves its input and the files, which have these bytes, as they are.
fn are_lines_refused<D: Disk>(alloc: Global, disk: &mut D, files: &[Vec<u8>], err: &str) -> bool {
    let mut are_refused = true;
    for line in lines() {
        are_refused = are_refused
            && ends(alloc, disk, line, (Status::Refused, "", err))
            && has_files(alloc, disk, files);
    }
    are_refused
}

// Whether this is so of the files as they are, once they are harmed.
fn refuses_all<D: Disk>(alloc: Global, disk: &mut D, harms: &[Harm], err: &str) -> bool {
    let are_harmed = inflict_all(disk, harms);
    match files_of(alloc, disk) {
        Some(files) => are_harmed && are_lines_refused(alloc, disk, files.as_slice(), err),
        None => false,
    }
}

// Whether each line is refused so once this is done to the files.
fn is_refused_past_harms(alloc: Global, harms: &[Harm], err: &str) -> bool {
    match copied(alloc) {
        Some(mut disk) => refuses_all(alloc, &mut disk, harms, err),
        None => false,
    }
}

// Damage of both copies, and its line.
type Row = (&'static [Harm], &'static str);

const BOTH_AT_63: &str = "refused: copies bad at 63 and 63\n";

const ROWS: &[Row] = &[
    (&[Harm::Flip(65, 100), Harm::Flip(66, 100)], BOTH_AT_63),
    // with a ledger that is bad, and with none
    (
        &[
            Harm::Flip(65, 100),
            Harm::Flip(66, 100),
            Harm::Byte(0, 9, 4),
        ],
        BOTH_AT_63,
    ),
    (
        &[Harm::Flip(65, 100), Harm::Flip(66, 100), Harm::Cut(0, 0)],
        BOTH_AT_63,
    ),
    (
        &[Harm::Cut(65, 0), Harm::Flip(66, 280)],
        "refused: copies bad at 0 and 63\n",
    ),
    (
        &[Harm::Flip(65, 20), Harm::Byte(66, 0, 2)],
        "refused: copies bad at 9 and 0\n",
    ),
    (
        &[Harm::Flip(65, 8), Harm::Byte(66, 9, 0)],
        "refused: copies bad at 1 and 9\n",
    ),
    (
        &[Harm::Flip(65, 285), Harm::Cut(66, 285)],
        "refused: copies bad at 285 and 285\n",
    ),
    (
        &[Harm::Cut(65, 200), Harm::Cut(66, 63)],
        "refused: copies bad at 63 and 63\n",
    ),
];

fn rows() -> &'static [Row] {
    ROWS
}

#[test]
fn two_bad_copies_refuse_each_command(rt: HostRuntime) -> Result<(), Fail> {
    for (harms, err) in rows() {
        assert!(rt; is_refused_past_harms(rt.alloc(), harms, err), "{err}");
    }
    Ok(())
}

// The example's archive with another object, of the same length and with a name that is as long.
fn twin(alloc: Global) -> Option<SureDisk> {
    let mut disk = SureDisk::new(alloc, 4, 1024, 1024).ok()?;
    let is_made = store(alloc, &mut disk, LINE, "b", b"abc") && begin_copies(alloc, &mut disk);
    is_made.then_some(disk)
}

// Whether each line is refused so where this file is that of another archive, whatever the ledger is.
fn is_refused_past_other(
    alloc: Global,
    from: &mut SureDisk,
    file: u8,
    harms: &[Harm],
    err: &str,
) -> bool {
    match copied(alloc) {
        Some(mut disk) => {
            take_from(alloc, &mut disk, from, &[file]) && refuses_all(alloc, &mut disk, harms, err)
        }
        None => false,
    }
}

// Whether each line is refused so where this copy is that of another archive; with the ledger, a bad one, and none.
fn is_refused_past_copy(alloc: Global, from: &mut SureDisk, file: u8, err: &str) -> bool {
    is_refused_past_other(alloc, from, file, &[], err)
        && is_refused_past_other(alloc, from, file, &[Harm::Byte(0, 9, 4)], err)
        && is_refused_past_other(alloc, from, file, &[Harm::Cut(0, 0)], err)
}

// Whether this is so of either copy.
fn is_refused_past_each_copy(alloc: Global, other: Option<SureDisk>, err: &str) -> bool {
    match other {
        Some(mut from) => {
            is_refused_past_copy(alloc, &mut from, 65, err)
                && is_refused_past_copy(alloc, &mut from, 66, err)
        }
        None => false,
    }
}

// Whether each line is refused where the texts differ first in the shape, at place 9, and where in the name of the object, at 25.
fn are_differences_refused(alloc: Global) -> bool {
    is_refused_past_each_copy(alloc, other(alloc), "refused: copies differ at 9\n")
        && is_refused_past_each_copy(alloc, twin(alloc), "refused: copies differ at 25\n")
}

#[test]
fn two_copies_that_differ_refuse_each_command(rt: HostRuntime) -> Result<(), Fail> {
    assert!(rt; are_differences_refused(rt.alloc()));
    Ok(())
}

// Whether a line of a command that uses no disk, with a block on its input, ends so over two bad copies, without errors.
fn is_not_refused(alloc: Global, line: &str, status: Status, out: &str) -> bool {
    let harms = [Harm::Flip(65, 100), Harm::Flip(66, 100)];
    match copied(alloc) {
        Some(mut disk) => {
            inflict_all(&mut disk, &harms)
                && ends_with_input(alloc, &mut disk, line, "d1\n", (status, out, ""))
        }
        None => false,
    }
}

const DRILLED: &str = "aea-report 1\nlattice 1 1 0 3\nledger none\ncounts 1 1 0 0\npeeled d1\n";

const REHEARSED: &str = "nodes 1 blocks 4 damaged 4 peeled 0 solved 0 lost 4 accepted\n";

// Whether this is so of both such commands.
fn are_not_refused(alloc: Global) -> bool {
    is_not_refused(alloc, "drill 1 1 0 3", Status::Done, DRILLED)
        && is_not_refused(alloc, "rehearse 7 1 1000", Status::Damage, REHEARSED)
}

#[test]
fn a_command_that_uses_no_disk_is_not_refused(rt: HostRuntime) -> Result<(), Fail> {
    assert!(rt; are_not_refused(rt.alloc()));
    Ok(())
}

// Whether `list` ends so where neither copy is begun, with this damage of the ledger.
fn is_of_the_ledger(alloc: Global, harms: &[Harm], want: (Status, &str, &str)) -> bool {
    let gone = [Harm::Cut(65, 9), Harm::Byte(66, 0, 255)];
    match copied(alloc) {
        Some(mut disk) => {
            inflict_all(&mut disk, &gone)
                && inflict_all(&mut disk, harms)
                && leaves_files(alloc, &mut disk, "list", want)
        }
        None => false,
    }
}

#[test]
fn copies_that_are_gone_refuse_nothing(rt: HostRuntime) -> Result<(), Fail> {
    let rows = [
        ([].as_slice(), (Status::Done, LISTED, "")),
        (
            [Harm::Byte(0, 9, 4)].as_slice(),
            (Status::Refused, "", "refused: ledger bad at 9\n"),
        ),
        (
            [Harm::Cut(0, 0)].as_slice(),
            (Status::Refused, "", "refused: no archive\n"),
        ),
    ];
    for (harms, want) in rows {
        assert!(rt; is_of_the_ledger(rt.alloc(), harms, want), "{}", want.2);
    }
    Ok(())
}
