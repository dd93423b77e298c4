//! Archives in memory, and how runs over them end.

use aea_cli::Status;
use aea_disk::{Disk, SureDisk};
use aea_runs::run_over;
use std::alloc::Global;

/// Whether a run of the line ends so, and flushes what it prints.
pub fn ends<D: Disk>(alloc: Global, disk: &mut D, line: &str, want: (Status, &str, &str)) -> bool {
    let (status, out, err) = want;
    match run_over(alloc, line, disk, 99) {
        Ok(left) => left.is(status, out, err) && left.out.flushed == out.len(),
        Err(_) => false,
    }
}

/// Whether a run of the line is done, and prints this and no more.
pub fn says<D: Disk>(alloc: Global, disk: &mut D, line: &str, out: &str) -> bool {
    ends(alloc, disk, line, (Status::Done, out, ""))
}

/// Whether a run of the line is refused with this line.
pub fn refuses<D: Disk>(alloc: Global, disk: &mut D, line: &str, refusal: &str) -> bool {
    ends(alloc, disk, line, (Status::Refused, "", refusal))
}

/// Whether a run of the line is done, whatever it prints.
pub fn is_done<D: Disk>(alloc: Global, disk: &mut D, line: &str) -> bool {
    run_over(alloc, line, disk, 99).is_ok_and(|left| left.status == Status::Done)
}

/// The archive that a line makes on a disk of so many sites, whose ledger and whose sites have so much space. None where it makes
/// none.
pub fn archive_of(
    alloc: Global,
    line: &str,
    sites: u8,
    ledger: usize,
    site: usize,
) -> Option<SureDisk> {
    let mut disk = SureDisk::new(alloc, sites, ledger, site).ok()?;
    is_done(alloc, &mut disk, line).then_some(disk)
}
