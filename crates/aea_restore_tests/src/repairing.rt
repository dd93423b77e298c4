//! Repairs from the scan to the report: what they print and restore, faults of the disk and of the output, and stops.

use crate::archives::{
    archive, begin, damaged, damaged_archive, puts, same_files, spoil_blocks, spoil_digest,
};
use aea_append::PutFault;
use aea_disk::{Disk, FailDisk, Loss, MemDisk, SureDisk};
use aea_envelope::digest_of;
use aea_io::MemSink;
use aea_lattice::{BlockId, Class, Lattice};
use aea_ledger::{Ledger, open_ledger};
use aea_repair::{Outcome, RepairFault, repair};
use aea_test_helpers::{NINETEEN, PLAIN, TWO_CODEWORDS, WIDE, WOVEN, add_line, report_of, shorten};
use std::alloc::Global;
use std::test::Fail;

// The bytes of an object that takes eleven blocks.
const BYTES: [u8; 176] = [97; 176];

// Opens the archive and repairs it, with these calls of the output failing. It says whether the answer is the wanted one, and
// this is printed.
fn repairs<D: Disk>(
    alloc: Global,
    disk: &mut D,
    fails: &[u32],
    want: Result<Outcome, RepairFault>,
    printed: &[u8],
) -> bool {
    let Ok(mut out) = MemSink::new(alloc, 65_536, fails) else {
        return false;
    };
    let Ok(ledger) = open_ledger(alloc, disk) else {
        return false;
    };
    repair(alloc, &ledger, disk, &mut out) == want && out.bytes() == printed
}

// Whether the archive with these numbers is repaired to this outcome, and these lines are printed in its report.
fn reveals<D: Disk>(
    alloc: Global,
    disk: &mut D,
    numbers: &str,
    lines: &str,
    outcome: Outcome,
) -> bool {
    match report_of(alloc, disk, numbers, lines) {
        Some(report) => repairs(alloc, disk, &[], Ok(outcome), report.as_bytes()),
        None => false,
    }
}

// Opens the archive and repairs it. It says whether the answer is a report, and the files are those of the whole one then.
fn is_mended<D: Disk>(alloc: Global, disk: &mut D, whole: &mut SureDisk) -> bool {
    let Ok(mut out) = MemSink::new(alloc, 65_536, &[]) else {
        return false;
    };
    let Ok(ledger) = open_ledger(alloc, disk) else {
        return false;
    };
    repair(alloc, &ledger, disk, &mut out).is_ok() && same_files(disk, whole)
}

// Whether the archive of all the bytes is whole once it is repaired.
fn is_mended_whole<D: Disk>(alloc: Global, disk: &mut D) -> bool {
    match archive(alloc, &WOVEN, &BYTES) {
        Some(mut whole) => is_mended(alloc, disk, &mut whole),
        None => false,
    }
}

// The first lines of the report of the site, as they are spelled by hand.
const FIRST_LINES: &str =
    "counts 40 40 0 0\npeeled h1\npeeled d2\npeeled l3\npeeled r4\npeeled h5\n";

// The lines of the report where all blocks on the second of four sites are peeled.
fn lines_of_site(alloc: Global) -> Result<String, Fail> {
    let lattice = Lattice::new(3, 2, 5, 40).ok_or("no lattice")?;
    let mut lines = String::from_str(alloc, "counts 40 40 0 0\n")?;
    for k in 0..lattice.blocks() {
        if (k % 4 + k / 4) % 4 == 1 {
            add_line(&mut lines, "peeled ", lattice.block(k))?;
        }
    }
    Ok(lines)
}

// Whether the second of four sites, once it is lost, is told with these lines and restored as the whole archive has it.
fn is_site_peeled(alloc: Global, disk: &mut SureDisk, whole: &mut SureDisk, lines: &str) -> bool {
    let is_lost = shorten(disk, 2, 0) == Ok(true) && damaged(alloc, disk) == Some(40);
    let outcome = Outcome {
        peeled: 40,
        solved: 0,
        lost: 0,
    };
    is_lost
        && reveals(alloc, disk, "3 2 5 40", lines, outcome)
        && damaged(alloc, disk) == Some(0)
        && same_files(disk, whole)
}

// The same of an archive of forty nodes.
fn is_peeled_of_forty(alloc: Global, lines: &str) -> bool {
    let Some(mut whole) = archive(alloc, &WIDE, &[98; 640]) else {
        return false;
    };
    let Some(mut disk) = archive(alloc, &WIDE, &[98; 640]) else {
        return false;
    };
    is_site_peeled(alloc, &mut disk, &mut whole, lines)
}

#[test]
fn a_lost_site_is_peeled(rt: HostRuntime) -> Result<(), Fail> {
    let lines = lines_of_site(rt.alloc())?;
    assert!(rt; lines.as_str().starts_with(FIRST_LINES));
    assert!(rt; is_peeled_of_forty(rt.alloc(), lines.as_str()));
    Ok(())
}

// Whether an object is refused since this block is damaged, and put once the archive is repaired.
fn is_put_later(alloc: Global, disk: &mut SureDisk, block: BlockId) -> bool {
    let outcome = Outcome {
        peeled: 1,
        solved: 0,
        lost: 0,
    };
    let fault = Err(PutFault::HeadDamaged { block });
    let lines = "counts 1 1 0 0\npeeled r1\n";
    puts(alloc, disk, b"two", b"abc", fault)
        && reveals(alloc, disk, "3 2 5 1", lines, outcome)
        && puts(alloc, disk, b"two", b"abc", Ok(()))
}

#[test]
fn a_damaged_head_is_repaired_before_the_next_put(rt: HostRuntime) -> Result<(), Fail> {
    let mut disk = damaged_archive(rt.alloc(), &WIDE, b"abc", &[2]).ok_or("no archive")?;
    let block = BlockId {
        node: 1,
        class: Class::Right,
    };
    assert!(rt; is_put_later(rt.alloc(), &mut disk, block));
    Ok(())
}

// Whether of nineteen damaged blocks three are told as solved and sixteen as lost, and these stay damaged.
fn are_solved_and_lost(alloc: Global, disk: &mut SureDisk) -> bool {
    let outcome = Outcome {
        peeled: 0,
        solved: 3,
        lost: 16,
    };
    reveals(alloc, disk, "2 2 2 11", TWO_CODEWORDS, outcome) && damaged(alloc, disk) == Some(16)
}

#[test]
fn what_is_solved_and_lost_is_reported(rt: HostRuntime) -> Result<(), Fail> {
    let mut disk = damaged_archive(rt.alloc(), &WOVEN, &BYTES, &NINETEEN).ok_or("no archive")?;
    assert!(rt; are_solved_and_lost(rt.alloc(), &mut disk));
    Ok(())
}

// Whether the answer is a clash of the first datum, which has this payload, where the ledger has another digest of it, and the block
// stays damaged. The digests of the datum and of its parity come before the gate that ends the ledger.
fn is_clash(alloc: Global, disk: &mut SureDisk, payload: &[u8; 16]) -> bool {
    let block = BlockId {
        node: 1,
        class: Class::Datum,
    };
    let computed = digest_of(block, payload);
    let mut recorded = computed;
    recorded[0] ^= 255;
    let clash = RepairFault::Clash {
        block,
        recorded,
        computed,
    };
    spoil_digest(disk)
        && shorten(disk, 1, 0) == Ok(true)
        && repairs(alloc, disk, &[], Err(clash), b"")
        && damaged(alloc, disk) == Some(1)
}

#[test]
fn a_sum_with_another_digest_is_a_clash(rt: HostRuntime) -> Result<(), Fail> {
    let payload = [77; 16];
    let mut disk = archive(rt.alloc(), &PLAIN, &payload).ok_or("no archive")?;
    assert!(rt; is_clash(rt.alloc(), &mut disk, &payload));
    Ok(())
}

// What comes of a repair over a disk of which one call fails.
enum Came {
    /// The call comes after all of them.
    Repaired,
    /// The disk is at fault, nothing is printed, and a later repair leaves the whole archive.
    RepairedLater,
    Otherwise,
}

// Repairs four blocks of an archive over a disk of which this call fails, counted from 1 once the archive is opened.
fn repaired_at(alloc: Global, call: u64) -> Came {
    let Some(mut disk) = damaged_archive(alloc, &WOVEN, &BYTES, &[0, 12, 13, 14]) else {
        return Came::Otherwise;
    };
    let Ok(ledger) = open_ledger(alloc, &mut disk) else {
        return Came::Otherwise;
    };
    let Ok(mut failing) = FailDisk::new(alloc, disk, &[call]) else {
        return Came::Otherwise;
    };
    repaired_over(alloc, &ledger, &mut failing)
}

// Repairs this archive over this disk.
fn repaired_over(alloc: Global, ledger: &Ledger, disk: &mut FailDisk<SureDisk>) -> Came {
    let Ok(mut out) = MemSink::new(alloc, 65_536, &[]) else {
        return Came::Otherwise;
    };
    match repair(alloc, ledger, disk, &mut out) {
        Ok(_) => Came::Repaired,
        Err(RepairFault::DiskFault) => later(out.bytes(), is_mended_whole(alloc, disk)),
        Err(_) => Came::Otherwise,
    }
}

// What came of it after a fault, where this is printed, and what is left is repaired or is not.
fn later(printed: &[u8], is_whole: bool) -> Came {
    if printed.is_empty() && is_whole {
        Came::RepairedLater
    } else {
        Came::Otherwise
    }
}

#[test]
fn a_disk_that_fails_is_at_fault_and_is_repaired_later(rt: HostRuntime) -> Result<(), Fail> {
    let mut calls = 0u64;
    for k in 1..400u64 {
        match repaired_at(rt.alloc(), k) {
            Came::Repaired => break,
            Came::RepairedLater => calls = k,
            Came::Otherwise => panic!(rt; "call {k}"),
        }
    }
    // more than 32 calls failed, and not each did
    assert!(rt; 33 <= calls && calls < 399);
    Ok(())
}

// Makes an archive of three nodes. The cells of the first site are gone past the first one, which makes their file grow, and one
// parity is rotten. It says whether it did.
fn damages<D: Disk>(alloc: Global, disk: &mut D) -> bool {
    begin(alloc, disk, &WOVEN, &BYTES[..48])
        && shorten(disk, 1, 100) == Ok(true)
        && spoil_blocks(disk, &WOVEN, &[4])
        && disk.sync().is_ok()
}

// After how many calls, from so many on, a stop leaves what is not repaired to the whole archive, the fewest; 0 where there is none.
fn first_wrong_stop(alloc: Global, disk: &MemDisk, begun: u64, whole: &mut SureDisk) -> u64 {
    for after in begun..=disk.calls() {
        for loss in [Loss::Kept, Loss::Dropped, Loss::Ones, Loss::Zeros] {
            let Ok(mut stopped) = disk.image(alloc, after, loss) else {
                return after;
            };
            if !is_mended(alloc, &mut stopped, whole) {
                return after;
            }
        }
    }
    0
}

// Whether the archive is repaired over its disk.
fn is_repaired(alloc: Global, disk: &mut MemDisk) -> bool {
    let Ok(mut out) = MemSink::new(alloc, 65_536, &[]) else {
        return false;
    };
    match open_ledger(alloc, disk) {
        Ok(ledger) => repair(alloc, &ledger, disk, &mut out).is_ok(),
        Err(_) => false,
    }
}

// Makes that archive on the disk, and repairs it. It returns after how many calls the repair began; none where it failed.
fn repaired_from(alloc: Global, disk: &mut MemDisk) -> Option<u64> {
    if !damages(alloc, disk) {
        return None;
    }
    let begun = disk.calls();
    if is_repaired(alloc, disk) {
        return Some(begun);
    }
    None
}

// After how many calls such a stop comes in the repair of that archive, 0 where there is none; an error where it is not repaired.
fn wrong_stop_of_three(alloc: Global) -> Result<u64, Fail> {
    let mut disk = MemDisk::new(alloc, 4, 8192, 4096, 256, 4096)?;
    let begun = repaired_from(alloc, &mut disk).ok_or("not repaired")?;
    let mut whole = archive(alloc, &WOVEN, &BYTES[..48]).ok_or("no archive")?;
    Ok(first_wrong_stop(alloc, &disk, begun, &mut whole))
}

#[test]
fn each_stop_leaves_what_can_be_repaired(rt: HostRuntime) -> Result<(), Fail> {
    let after = wrong_stop_of_three(rt.alloc())?;
    assert!(rt; after == 0, "after {after}");
    Ok(())
}

// Whether the files are those of the archive of all the bytes.
fn is_whole(alloc: Global, disk: &mut SureDisk) -> bool {
    match archive(alloc, &WOVEN, &BYTES) {
        Some(mut whole) => same_files(disk, &mut whole),
        None => false,
    }
}

// Whether a repair whose output fails at this call has printed its report, where it says so, or nothing of it, and restored all.
fn is_restored_unsaid(alloc: Global, disk: &mut SureDisk, call: u32, is_printed: bool) -> bool {
    let fault = Err(RepairFault::WriteFault);
    match report_of(alloc, disk, "2 2 2 11", "counts 1 1 0 0\npeeled d1\n") {
        Some(report) => {
            let printed = if is_printed { report.as_bytes() } else { b"" };
            repairs(alloc, disk, &[call], fault, printed) && is_whole(alloc, disk)
        }
        None => false,
    }
}

// The same of an archive whose first datum is damaged.
fn is_datum_restored(alloc: Global, call: u32, is_printed: bool) -> bool {
    match damaged_archive(alloc, &WOVEN, &BYTES, &[0]) {
        Some(mut disk) => is_restored_unsaid(alloc, &mut disk, call, is_printed),
        None => false,
    }
}

#[test]
fn an_output_that_fails_leaves_all_restored(rt: HostRuntime) -> Result<(), Fail> {
    // the report is one write, and then a flush
    for (call, is_printed) in [(1, false), (2, true)] {
        assert!(rt; is_datum_restored(rt.alloc(), call, is_printed), "{call}");
    }
    Ok(())
}
