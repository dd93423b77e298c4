//! Damage lists of the greatest length, and the greatest lattice of a drill.

use aea_cli::Status;
use aea_lattice::{BlockId, Lattice};
use aea_runs::run_line;
use aea_test_helpers::add_line;
use std::alloc::{AllocError, Global};
use std::test::Fail;

// A damage list of 4,194,304 bytes: the line d1 so often, and d10 once.
fn longest_list(alloc: Global) -> Result<String, AllocError> {
    let mut list = String::new(alloc);
    for _ in 0..1_398_100 {
        list.push_str("d1\n")?;
    }
    list.push_str("d10\n")?;
    Ok(list)
}

// How many bytes a drill of ten nodes does not read of this list, none where it ends otherwise.
fn unread_of(alloc: Global, list: &str, status: Status, out: &str, err: &str) -> Option<usize> {
    match run_line(alloc, "drill 1 1 0 10", list.as_bytes()) {
        Ok(left) => left.is(status, out, err).then_some(left.unread),
        Err(_) => None,
    }
}

// Adds this to the list. The answer is how many bytes of it are not read then, none where it is not refused as too long.
fn unread_with(alloc: Global, list: &mut String, more: &str) -> Option<usize> {
    let err = "refused: input too long\n";
    match list.push_str(more) {
        Ok(()) => unread_of(alloc, list.as_str(), Status::Refused, "", err),
        Err(_) => None,
    }
}

// Whether the longest list is read to its end, and longer ones are refused.
fn is_longest(alloc: Global, list: &mut String) -> bool {
    let want =
        "aea-report 1\nlattice 1 1 0 10\nledger none\ncounts 2 2 0 0\npeeled d1\npeeled d10\n";
    list.len() == 4_194_304
        && unread_of(alloc, list.as_str(), Status::Done, want, "") == Some(0)
        // The line past the limit is not judged, though it names no block.
        && unread_with(alloc, list, "x").is_some()
        // No byte is read past the first that is too many.
        && unread_with(alloc, list, "\nd1\n") == Some(4)
}

// The same of the list of 4,194,304 bytes.
fn is_limit_kept(alloc: Global) -> bool {
    match longest_list(alloc) {
        Ok(mut list) => is_longest(alloc, &mut list),
        Err(_) => false,
    }
}

#[test]
fn one_byte_too_many_is_refused(rt: HostRuntime) -> Result<(), Fail> {
    assert!(rt; is_limit_kept(rt.alloc()));
    Ok(())
}

/// The blocks of one of four sites as a damage list, and the report in which each of them is peeled.
#[derive(Drop)]
pub struct LostSite {
    pub list: String,
    pub want: String,
}

impl LostSite {
    // Adds a block to both; false where memory runs out.
    fn add(&mut self, b: BlockId) -> bool {
        add_line(&mut self.list, "", b).is_ok() && add_line(&mut self.want, "peeled ", b).is_ok()
    }
}

/// The lost site of AE(3,2,5) with so many nodes, whose report begins so; none where memory runs out.
pub fn lost_site(alloc: Global, nodes: u32, head: &str) -> Option<LostSite> {
    let lattice = Lattice::new(3, 2, 5, nodes)?;
    let list = String::new(alloc);
    let want = String::from_str(alloc, head).ok()?;
    let mut site = LostSite { list, want };
    let mut is_whole = true;
    for k in 0..lattice.blocks() {
        if (k % 4 + k / 4) % 4 == 1 {
            is_whole = is_whole && site.add(lattice.block(k));
        }
    }
    is_whole.then_some(site)
}

// Whether the drill of this list is done, with this report.
fn is_peeled(alloc: Global, list: &str, want: &str) -> bool {
    let left = run_line(alloc, "drill 3 2 5 65536", list.as_bytes());
    left.is_ok_and(|left| left.is(Status::Done, want, ""))
}

// Whether the drill of a lost site of the greatest lattice is done, with this head of its report.
fn is_greatest_peeled(alloc: Global) -> bool {
    let head = "aea-report 1\nlattice 3 2 5 65536\nledger none\ncounts 65536 65536 0 0\n";
    match lost_site(alloc, 65_536, head) {
        Some(site) => is_peeled(alloc, site.list.as_str(), site.want.as_str()),
        None => false,
    }
}

#[test]
fn a_lost_site_of_the_greatest_drill_is_peeled(rt: HostRuntime) -> Result<(), Fail> {
    assert!(rt; is_greatest_peeled(rt.alloc()));
    Ok(())
}
