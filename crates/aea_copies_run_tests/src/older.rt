//! Files that are as they were before a run, or are those of another archive.

use crate::archives::{THREE, copied, files_of, has_files, mends_files, other, take_from};
use crate::commits::{Commit, commits, put};
use aea_cli::Status;
use aea_disk::Disk;
use aea_test_helpers::fill_file;
use std::alloc::Global;
use std::test::Fail;

// Gives these files of a disk the bytes that they had before the put.
fn make_older<D: Disk>(alloc: Global, disk: &mut D, older: &[u8]) -> bool {
    match copied(alloc) {
        Some(mut before) => take_from(alloc, disk, &mut before, older),
        None => false,
    }
}

// Whether this is listed once these files are made as they were before the put, and all files are then as they are now.
fn catches_up<D: Disk>(alloc: Global, disk: &mut D, older: &[u8], listed: &str) -> bool {
    let want = (Status::Done, listed, "");
    match files_of(alloc, disk) {
        Some(files) => {
            make_older(alloc, disk, older)
                && mends_files(alloc, disk, files.as_slice(), "list", want)
        }
        None => false,
    }
}

// Whether the objects of after a put are listed where these files are as they were before it, and all files are as after it then.
fn is_caught_up(alloc: Global, older: &[u8]) -> bool {
    let put = put();
    match copied(alloc) {
        Some(mut disk) => {
            commits(alloc, &mut disk, &put) && catches_up(alloc, &mut disk, older, put.listed)
        }
        None => false,
    }
}

#[test]
fn an_older_file_is_made_whole(rt: HostRuntime) -> Result<(), Fail> {
    let rows = [[0u8].as_slice(), &[65], &[66], &[0, 65], &[0, 66]];
    for older in rows {
        assert!(rt; is_caught_up(rt.alloc(), older), "{}", older.len());
    }
    Ok(())
}

// Whether this put is made once more where all three files are as they were before it, and all files are then as they are now.
fn commits_again<D: Disk>(alloc: Global, disk: &mut D, put: &Commit) -> bool {
    match files_of(alloc, disk) {
        Some(files) => {
            make_older(alloc, disk, &THREE)
                && commits(alloc, disk, put)
                && has_files(alloc, disk, files.as_slice())
        }
        None => false,
    }
}

// Whether the archive is the one before a put where all three files are so, and the put is made again.
fn is_put_again(alloc: Global) -> bool {
    let put = put();
    match copied(alloc) {
        Some(mut disk) => {
            commits(alloc, &mut disk, &put) && commits_again(alloc, &mut disk, &put)
        }
        None => false,
    }
}

#[test]
fn three_older_files_are_the_older_archive(rt: HostRuntime) -> Result<(), Fail> {
    assert!(rt; is_put_again(rt.alloc()));
    Ok(())
}

// Makes the ledger that of another archive.
fn take_other_ledger<D: Disk>(alloc: Global, disk: &mut D) -> bool {
    match other(alloc) {
        Some(mut from) => take_from(alloc, disk, &mut from, &[0]),
        None => false,
    }
}

// Makes these files empty.
fn empty<D: Disk>(disk: &mut D, files: &[u8]) -> bool {
    let mut are_emptied = true;
    for file in files {
        are_emptied = are_emptied && fill_file(disk, *file, b"").is_ok();
    }
    are_emptied
}

// Whether the archive over this disk is the one of its copies where the ledger is that of another one, with these files gone too.
fn stays_its_own<D: Disk>(alloc: Global, disk: &mut D, removed: &[u8]) -> bool {
    let want = (Status::Done, "abc", "");
    match files_of(alloc, disk) {
        Some(files) => {
            take_other_ledger(alloc, disk)
                && empty(disk, removed)
                && mends_files(alloc, disk, files.as_slice(), "get a", want)
        }
        None => false,
    }
}

// The same of an archive whose ledger has copies.
fn is_its_own(alloc: Global, removed: &[u8]) -> bool {
    match copied(alloc) {
        Some(mut disk) => stays_its_own(alloc, &mut disk, removed),
        None => false,
    }
}

#[test]
fn the_ledger_of_another_archive_is_put_right(rt: HostRuntime) -> Result<(), Fail> {
    let rows = [[].as_slice(), &[65], &[66]];
    for removed in rows {
        assert!(rt; is_its_own(rt.alloc(), removed), "{}", removed.len());
    }
    Ok(())
}
