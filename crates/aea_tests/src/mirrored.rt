//! The one table of runs, over archives whose ledger has copies.

use crate::cases::{Case, MORE, cases};
use crate::standing::{is_done, is_got, is_whole, prepared, run_case, stands};
use aea_disk::Disk;
use aea_test_helpers::shorten;
use std::alloc::Global;
use std::test::Fail;

// Whether the object that was put last is got where one copy alone is left, either of them, and then where the ledger alone is.
fn is_kept_by_each<D: Disk>(alloc: Global, disk: &mut D) -> bool {
    let (name, bytes) = MORE;
    let mut is_kept = true;
    for (one, other) in [(0, 65), (0, 66), (65, 66)] {
        is_kept = is_kept
            && shorten(disk, one, 0).is_ok()
            && shorten(disk, other, 0).is_ok()
            && is_got(alloc, disk, name, bytes);
    }
    is_kept
}

// How many bytes of its input the run without copies does not read. None where memory runs out or the disk fails.
fn unread_without(alloc: Global, case: &Case) -> Option<usize> {
    match prepared(alloc, case) {
        Some(mut disk) => run_case(alloc, case, &mut disk)
            .ok()
            .map(|left| left.unread),
        None => None,
    }
}

// Whether the run over this disk ends as where nothing fails, and does not read so many bytes.
fn ends_whole<D: Disk>(alloc: Global, disk: &mut D, case: &Case, unread: usize) -> bool {
    run_case(alloc, case, disk).is_ok_and(|left| {
        is_whole(case, left.status, left.out.bytes(), left.err.bytes()) && left.unread == unread
    })
}

// Whether copies are begun on this disk, and the run then ends as where nothing fails, and does not read so many bytes; and whether
// the archive is then the one of its commits, and each of the three files alone keeps it.
fn goes_over_copies<D: Disk>(alloc: Global, disk: &mut D, case: &Case, unread: usize) -> bool {
    let commits = case.commits.len();
    is_done(alloc, disk, "copies", 99)
        && ends_whole(alloc, disk, case, unread)
        && stands(alloc, disk, case, commits, commits)
        && is_kept_by_each(alloc, disk)
}

// Whether the run is so over a new disk, and reads as much as without copies.
fn is_as_without(alloc: Global, case: &Case) -> bool {
    match unread_without(alloc, case) {
        Some(unread) => match prepared(alloc, case) {
            Some(mut disk) => goes_over_copies(alloc, &mut disk, case, unread),
            None => false,
        },
        None => false,
    }
}

// The runs that have no archive before them have no copies either.
#[test]
fn each_run_ends_over_copies_as_without(rt: HostRuntime) -> Result<(), Fail> {
    for case in cases() {
        if !case.before.is_empty() {
            assert!(rt; is_as_without(rt.alloc(), case), "{}", case.line);
        }
    }
    Ok(())
}
