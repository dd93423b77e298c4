//! The three cases of the ledger: it stays, one gate is closed, or it is written whole.

use crate::example::{closed, example_copy, fenced, ledger, other_text};
use crate::plain::part;
use crate::three::{EXAMPLE, Three, adopts, disk_of, has_all, leaves, whole};
use crate::watched::Watched;
use aea_disk::SureDisk;
use std::alloc::Global;
use std::test::Fail;

// Whether this ledger, beside two copies with these bytes, becomes that one, and they stay.
fn becomes_beside<'a>(alloc: Global, ledger: &'a [u8], copy: &'a [u8], want: &'a [u8]) -> bool {
    leaves(alloc, &whole(ledger, copy), EXAMPLE, &whole(want, copy))
}

// Whether this ledger, beside two whole copies, becomes that one.
fn becomes(alloc: Global, ledger: &[u8], want: &[u8]) -> bool {
    match example_copy(alloc) {
        Some(copy) => becomes_beside(alloc, ledger, copy.as_slice(), want),
        None => false,
    }
}

// Whether a ledger with another byte at this place becomes the example's. Behind the text any byte but 1 may stand.
fn is_change_mended(alloc: Global, at: usize, flips: u8) -> bool {
    let changed = other_text(at, flips);
    let stays = at == 202 && flips != 1;
    let want = if stays { changed } else { ledger() };
    becomes(alloc, &changed, &want)
}

// Whether this is so of each place.
fn is_each_byte_mended(alloc: Global, flips: u8) -> bool {
    (0..203usize).all(|at| is_change_mended(alloc, at, flips))
}

#[test]
fn each_byte_of_the_ledger_is_mended(rt: HostRuntime) -> Result<(), Fail> {
    for flips in [1u8, 4, 255] {
        assert!(rt; is_each_byte_mended(rt.alloc(), flips), "flips {flips}");
    }
    Ok(())
}

// Whether a ledger that is cut to this length becomes the example's.
fn is_cut_mended(alloc: Global, long: u64) -> bool {
    let want = ledger();
    becomes(alloc, part(&want, 0, long), &want)
}

// Whether this is so of each length.
fn is_each_cut_mended(alloc: Global) -> bool {
    (0..203u64).all(|long| is_cut_mended(alloc, long))
}

#[test]
fn each_cut_of_the_ledger_is_mended(rt: HostRuntime) -> Result<(), Fail> {
    assert!(rt; is_each_cut_mended(rt.alloc()));
    Ok(())
}

// How many writes and cuts adopting this disk takes, where it is adopted as the example and these are left. None where not.
fn changes_of(disk: &mut Watched<SureDisk>, want: &Three) -> Option<(u64, u64)> {
    let is_right = adopts(disk) == EXAMPLE && has_all(disk, want);
    is_right.then_some((disk.writes, disk.cuts))
}

// The same where the ledger is this one and both copies are whole, and it becomes that one.
fn changes(alloc: Global, ledger: &[u8], want: &[u8]) -> Option<(u64, u64)> {
    let copy = example_copy(alloc)?;
    let inner = disk_of(alloc, &whole(ledger, copy.as_slice()))?;
    changes_of(&mut Watched::new(inner), &whole(want, copy.as_slice()))
}

// Whether the example's ledger, and this one with a closed gate, are not written, and one byte of the one where the gate is open.
fn writes_one_byte(alloc: Global, longer: &[u8], closed: &[u8]) -> bool {
    changes(alloc, &ledger(), &ledger()) == Some((0, 0))
        && changes(alloc, longer, closed) == Some((1, 0))
        && changes(alloc, closed, closed) == Some((0, 0))
}

// The same of this ledger, which has a record more behind an open gate.
fn closes_one_gate(alloc: Global, longer: &[u8]) -> bool {
    match closed(alloc) {
        Some(closed) => writes_one_byte(alloc, longer, closed.as_slice()),
        None => false,
    }
}

// The same where this record is a fence.
fn writes_no_byte_that_stands(alloc: Global) -> bool {
    match fenced(alloc) {
        Some(longer) => closes_one_gate(alloc, longer.as_slice()),
        None => false,
    }
}

// A ledger that is kept is not written; of one with a record more behind an open gate one byte is, and what is behind it stays.
#[test]
fn no_byte_is_written_that_stands(rt: HostRuntime) -> Result<(), Fail> {
    assert!(rt; writes_no_byte_that_stands(rt.alloc()));
    Ok(())
}
