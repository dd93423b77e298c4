//! Blocks that steps and sums give are written back: each file byte for byte, clashes, and each call of a disk failing in turn.

ghost use Rattle.std.specs.Prelude.{◌≡◌, IfOk};
ghost use Rattle.aea_view.specs.Marked.{Marked, is_marked};
ghost use Rattle.aea_restore.specs.Given.{CanBeRestored};

use crate::archives::{archive, damaged, damaged_archive, same_files, spoil_blocks, spoil_digest};
use aea_disk::{Disk, FailDisk, SureDisk};
use aea_envelope::digest_of;
use aea_gauss::{FateList, solve};
use aea_lattice::{BlockId, Class};
use aea_ledger::{Ledger, open_ledger};
use aea_peel::{StepList, peel_marks};
use aea_restore::{RestoreFault, plans_can_be_restored, restore};
use aea_scrub::scan;
use aea_test_helpers::{NINETEEN, SMALL, WOVEN, shorten};
use aea_view::Marks;
use std::alloc::{AllocError, Global};
use std::test::Fail;

// The bytes of an object that takes eleven blocks.
const BYTES: &str =
    "Alpha entanglement codes weave each datum into strands: a parity is the XOR of the datum with the parity before it. What is lost is read back from what is left, strand by strand.";

// Steps, and fates of what they leave.
#[derive(Drop)]
struct Planned {
    steps: StepList,
    fates: FateList,
}

// The same marks once more.
fn copy(alloc: Global, marks: &Marks) -> Result<Marks, AllocError>
    ensures { IfOk result (λ m. m ≡ marks.now) }
{
    let flipped = marks.complement(alloc)?;
    let back = flipped.complement(alloc)?;
    Ok(back)
}

// What restores all that the marked blocks determine.
fn plan_of(alloc: Global, marks: &Marks) -> Result<Planned, AllocError>
    ensures { IfOk result (λ p. CanBeRestored marks.now.lattice (is_marked marks.now) p.steps p.fates) }
{
    plans_can_be_restored();
    let peeled = peel_marks(alloc, copy(alloc, marks)?)?;
    let fates = solve(alloc, marks.lattice(), &peeled.marks)?;
    Ok(Planned {
        steps: peeled.plan.steps,
        fates,
    })
}

// Restores what the marked blocks determine.
fn restore_from<D: Disk>(
    alloc: Global,
    ledger: &Ledger,
    disk: &mut D,
    marks: &mut Marks,
) -> Result<Result<(), RestoreFault>, AllocError>
    requires { marks.old.lattice ≡ ledger.now.lattice }
{
    let planned = plan_of(alloc, marks)?;
    let size = ledger.shape().block() as usize;
    let mut sum = vec![in alloc; 7; size]?;
    let mut read = vec![in alloc; 7; size + 48]?;
    let mut write = vec![in alloc; 7; size + 48]?;
    Ok(restore(
        ledger,
        disk,
        marks,
        &planned.steps,
        &planned.fates,
        sum.as_mut_slice(),
        read.as_mut_slice(),
        write.as_mut_slice(),
    ))
}

// Opens and scans the archive, and restores what the survivors determine. It says whether the answer is the wanted one.
fn restores<D: Disk>(alloc: Global, disk: &mut D, want: Result<(), RestoreFault>) -> bool {
    let Ok(ledger) = open_ledger(alloc, disk) else {
        return false;
    };
    let Ok(mut marks) = scan(alloc, &ledger, disk) else {
        return false;
    };
    match restore_from(alloc, &ledger, disk, &mut marks) {
        Ok(answer) => answer == want,
        Err(_) => false,
    }
}

// Blocks that are damaged, and how many of them are lost: blocks that steps alone restore, blocks that take sums, and blocks of
// which some are lost.
fn damages() -> [(&'static str, &'static [u32], u32); 4] {
    [
        ("none", &[], 0),
        ("three apart", &[0, 13, 32], 0),
        ("a datum and its parities", &[12, 13, 14], 0),
        ("sums", &NINETEEN, 16),
    ]
}

// Whether of so many damaged blocks all but those that are lost are restored, and the files are the whole ones then where none is.
fn is_restored(
    alloc: Global,
    disk: &mut SureDisk,
    whole: &mut SureDisk,
    count: u32,
    lost: u32,
) -> bool {
    damaged(alloc, disk) == Some(count)
        && restores(alloc, disk, Ok(()))
        && damaged(alloc, disk) == Some(lost)
        && same_files(disk, whole) == (lost == 0)
}

// The same for the blocks of these numbers.
fn are_restored(alloc: Global, numbers: &[u32], lost: u32) -> bool {
    let Ok(count) = u32::try_from(numbers.len()) else {
        return false;
    };
    let Some(mut whole) = archive(alloc, &WOVEN, BYTES.as_bytes()) else {
        return false;
    };
    let Some(mut disk) = damaged_archive(alloc, &WOVEN, BYTES.as_bytes(), numbers) else {
        return false;
    };
    is_restored(alloc, &mut disk, &mut whole, count, lost)
}

#[test]
fn cells_are_restored_byte_for_byte(rt: HostRuntime) -> Result<(), Fail> {
    for (name, numbers, lost) in damages() {
        assert!(rt; are_restored(rt.alloc(), numbers, lost), "{name}");
    }
    Ok(())
}

// Whether what is on the disk is restored to the whole woven archive.
fn is_made_whole<D: Disk>(alloc: Global, disk: &mut D) -> bool {
    match archive(alloc, &WOVEN, BYTES.as_bytes()) {
        Some(mut whole) => restores(alloc, disk, Ok(())) && same_files(disk, &mut whole),
        None => false,
    }
}

// Whether a woven archive is restored once the file of a site was cut to this length.
fn is_site_restored(alloc: Global, file: u8, to: u64) -> bool {
    match archive(alloc, &WOVEN, BYTES.as_bytes()) {
        Some(mut disk) => {
            shorten(&mut disk, file, to) == Ok(true) && is_made_whole(alloc, &mut disk)
        }
        None => false,
    }
}

#[test]
fn a_lost_site_is_restored(rt: HostRuntime) -> Result<(), Fail> {
    for (file, to) in [(1, 0), (2, 0), (3, 0), (2, 100), (3, 703)] {
        assert!(rt; is_site_restored(rt.alloc(), file, to), "{file} {to}");
    }
    Ok(())
}

// The clash of a block whose recorded digest and whose computed one are of these payloads.
fn clash_of(block: BlockId, recorded: &[u8; 16], computed: &[u8; 16]) -> RestoreFault {
    RestoreFault::Clash {
        block,
        recorded: digest_of(block, recorded),
        computed: digest_of(block, computed),
    }
}

// Restores once a scan has found one block damaged, and then the parity of the first node is flipped. It says whether the
// answer is this fault.
fn clashes(alloc: Global, disk: &mut SureDisk, want: RestoreFault) -> bool {
    let Ok(ledger) = open_ledger(alloc, disk) else {
        return false;
    };
    let Ok(mut marks) = scan(alloc, &ledger, disk) else {
        return false;
    };
    if marks.unmarked() != 1 || !spoil_blocks(disk, &SMALL, &[1]) {
        return false;
    }
    match restore_from(alloc, &ledger, disk, &mut marks) {
        Ok(answer) => answer == Err(want),
        Err(_) => false,
    }
}

// Whether the answer is a clash of that parity, nothing is written, and with both damaged both are restored.
fn is_revealed_of_parity(alloc: Global, disk: &mut SureDisk) -> bool {
    let parity = BlockId {
        node: 1,
        class: Class::Horiz,
    };
    let mut payload = [0; 16];
    if disk.read(1, 80, &mut payload) != Ok(16) {
        return false;
    }
    let mut other = payload;
    other[0] ^= 255;
    clashes(alloc, disk, clash_of(parity, &payload, &other))
        && damaged(alloc, disk) == Some(2)
        && restores(alloc, disk, Ok(()))
        && damaged(alloc, disk) == Some(0)
}

#[test]
fn a_survivor_that_changes_is_a_clash(rt: HostRuntime) -> Result<(), Fail> {
    let bytes = &BYTES.as_bytes()[..48];
    let mut disk = damaged_archive(rt.alloc(), &SMALL, bytes, &[0]).ok_or("no archive")?;
    assert!(rt; is_revealed_of_parity(rt.alloc(), &mut disk));
    Ok(())
}

// Whether the answer is a clash of the first datum, which has this payload, where the ledger has another digest of it, and the block
// stays damaged. The digests of the datum and of its parity come before the gate that ends the ledger.
fn is_revealed_of_datum(alloc: Global, disk: &mut SureDisk, payload: &[u8; 16]) -> bool {
    let block = BlockId {
        node: 1,
        class: Class::Datum,
    };
    let computed = digest_of(block, payload);
    let mut recorded = computed;
    recorded[0] ^= 255;
    let clash = RestoreFault::Clash {
        block,
        recorded,
        computed,
    };
    spoil_digest(disk)
        && spoil_blocks(disk, &SMALL, &[0])
        && restores(alloc, disk, Err(clash))
        && damaged(alloc, disk) == Some(1)
}

#[test]
fn a_sum_with_another_digest_is_a_clash(rt: HostRuntime) -> Result<(), Fail> {
    let payload = [77; 16];
    let mut disk = archive(rt.alloc(), &SMALL, &payload).ok_or("no archive")?;
    assert!(rt; is_revealed_of_datum(rt.alloc(), &mut disk, &payload));
    Ok(())
}

// What comes of restoring over a disk of which one call fails.
enum Came {
    /// The call comes after all of them.
    Restored,
    /// The disk is at fault, and what is left is restored to the whole archive later.
    RestoredLater,
    Otherwise,
}

// Restores four blocks of a woven archive over a disk of which this call fails, counted from 1 after the scan.
fn restored_at(alloc: Global, call: u64) -> Came {
    let numbers = [0, 12, 13, 14];
    let Some(mut disk) = damaged_archive(alloc, &WOVEN, BYTES.as_bytes(), &numbers) else {
        return Came::Otherwise;
    };
    let Ok(ledger) = open_ledger(alloc, &mut disk) else {
        return Came::Otherwise;
    };
    let Ok(mut marks) = scan(alloc, &ledger, &mut disk) else {
        return Came::Otherwise;
    };
    let Ok(mut failing) = FailDisk::new(alloc, disk, &[call]) else {
        return Came::Otherwise;
    };
    restored_over(alloc, &ledger, &mut failing, &mut marks)
}

// Restores what the marked blocks determine over this disk. It returns what came of it.
fn restored_over(
    alloc: Global,
    ledger: &Ledger,
    disk: &mut FailDisk<SureDisk>,
    marks: &mut Marks,
) -> Came
    requires { marks.old.lattice ≡ ledger.now.lattice }
{
    match restore_from(alloc, ledger, disk, marks) {
        Ok(Ok(())) => Came::Restored,
        Ok(Err(RestoreFault::DiskFault)) => later(is_made_whole(alloc, disk)),
        _ => Came::Otherwise,
    }
}

// What came of it after a fault, where what is left is restored or is not.
fn later(is_whole: bool) -> Came {
    if is_whole {
        Came::RestoredLater
    } else {
        Came::Otherwise
    }
}

#[test]
fn a_disk_that_fails_is_at_fault_and_can_be_restored_later(rt: HostRuntime) -> Result<(), Fail> {
    let mut calls = 0u64;
    for k in 1..400u64 {
        match restored_at(rt.alloc(), k) {
            Came::Restored => break,
            Came::RestoredLater => calls = k,
            Came::Otherwise => panic!(rt; "call {k}"),
        }
    }
    // at least eight calls failed, and not each did
    assert!(rt; 8 <= calls && calls < 399);
    Ok(())
}
