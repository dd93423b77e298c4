//! Payloads of damaged blocks are computed, and nothing is written: each one that the intact blocks determine, and clashes.

ghost use Rattle.std.specs.Prelude.{◌≡◌, length};
ghost use Rattle.aea_view.specs.Marked.{is_marked};
ghost use Rattle.aea_shelf.specs.Places.{cell_size};
ghost use Rattle.aea_gauss.specs.Fates.{AreFates};

use crate::archives::{archive, damaged, damaged_archive, spoil_blocks, spoil_digest};
use aea_degraded::{PayloadFault, fates_are_sums, payload};
use aea_disk::{Disk, FailDisk, SureDisk};
use aea_envelope::digest_of;
use aea_gauss::{Fate, FateList, solve};
use aea_lattice::{BlockId, Class};
use aea_ledger::{Ledger, open_ledger};
use aea_restore::read_payload;
use aea_scrub::scan;
use aea_test_helpers::{NINETEEN, SMALL, WOVEN, spoil_block};
use aea_view::Marks;
use std::alloc::{AllocError, Global};
use std::test::Fail;

// The bytes of an object that takes eleven blocks.
const BYTES: &str =
    "Alpha entanglement codes weave each datum into strands: a parity is the XOR of the datum with the parity before it. What is lost is read back from what is left, strand by strand.";

// Makes the sum the payload of the block of this fate, and returns the block; none where the fate is no Sum.
fn computed<D: Disk>(
    ledger: &Ledger,
    disk: &mut D,
    marks: &Marks,
    fates: &FateList,
    k: usize,
    cell: &mut [u8],
    sum: &mut [u8],
) -> Option<Result<BlockId, PayloadFault>>
    requires fates { AreFates ledger.now.lattice (is_marked marks.now) fates.now }
    requires cell { length cell.old ≡ cell_size ledger.now.shape }
    requires sum { length sum.old ≡ ledger.now.shape.block }
{
    fates_are_sums();
    let fate = fates.get(k)?;
    match fate {
        Fate::Word { block: _, nodes: _ } => None,
        Fate::Sum { block, eqs: _ } => match payload(ledger, disk, fate, cell, sum) {
            Ok(()) => Some(Ok(*block)),
            Err(fault) => Some(Err(fault)),
        },
    }
}

// Whether the bytes are the payload that an archive has of a block.
fn has_payload<D: Disk>(
    ledger: &Ledger,
    disk: &mut D,
    b: BlockId,
    cell: &mut [u8],
    sum: &[u8],
) -> bool
    requires { length cell.old ≡ cell_size ledger.now.shape }
{
    if !ledger.lattice().contains(b) || read_payload(ledger, disk, b, cell).is_err() {
        return false;
    }
    &cell[16..cell.len() - 32] == sum
}

// How many payloads the fate of this number gives, none or one, as the whole archive has it; no count where another one comes, or a
// fault.
fn count_of_fate<D: Disk, E: Disk>(
    ledger: &Ledger,
    disk: &mut D,
    whole: &mut E,
    marks: &Marks,
    fates: &FateList,
    k: usize,
    cell: &mut [u8],
    sum: &mut [u8],
) -> Option<usize>
    requires fates { AreFates ledger.now.lattice (is_marked marks.now) fates.now }
    requires cell { length cell.old ≡ cell_size ledger.now.shape }
    requires sum { length sum.old ≡ ledger.now.shape.block }
{
    match computed(ledger, disk, marks, fates, k, cell, sum) {
        None => Some(0),
        Some(Err(_)) => None,
        Some(Ok(b)) if !has_payload(ledger, whole, b, cell, sum) => None,
        Some(Ok(_)) => Some(1),
    }
}

// How many payloads are computed, each as the whole archive has it; none where another one comes, or a fault.
fn count_right<D: Disk, E: Disk>(
    alloc: Global,
    disk: &mut D,
    whole: &mut E,
) -> Result<Option<usize>, AllocError> {
    let Ok(ledger) = open_ledger(alloc, disk) else {
        return Ok(None);
    };
    let Ok(marks) = scan(alloc, &ledger, disk) else {
        return Ok(None);
    };
    let fates = solve(alloc, &ledger.lattice(), &marks)?;
    let size = ledger.shape().block() as usize;
    let mut cell = vec![in alloc; 7; size + 48]?;
    let mut sum = vec![in alloc; 7; size]?;
    let cell = cell.as_mut_slice();
    let sum = sum.as_mut_slice();
    let mut right = 0usize;
    for k in 0..fates.len() {
        match count_of_fate(&ledger, disk, whole, &marks, &fates, k, cell, sum) {
            Some(count) => right = right.saturating_add(count),
            None => return Ok(None),
        }
    }
    Ok(Some(right))
}

// Damaged blocks of a woven archive, and how many payloads are computed: of single equations, of several, and beside blocks
// that are lost.
fn damages() -> [(&'static str, &'static [u32], usize); 4] {
    [
        ("none", &[], 0),
        ("three apart", &[0, 13, 32], 3),
        ("a datum and its parities", &[12, 13, 14], 3),
        ("nineteen", &NINETEEN, 3),
    ]
}

// Whether so many payloads are computed where these blocks are damaged, each as it was stored, and the blocks stay damaged.
fn are_computed(alloc: Global, numbers: &[u32], sums: usize) -> bool {
    let Ok(count) = u32::try_from(numbers.len()) else {
        return false;
    };
    let Some(mut whole) = archive(alloc, &WOVEN, BYTES.as_bytes()) else {
        return false;
    };
    let Some(mut disk) = damaged_archive(alloc, &WOVEN, BYTES.as_bytes(), numbers) else {
        return false;
    };
    are_right(alloc, &mut disk, &mut whole, sums) && damaged(alloc, &mut disk) == Some(count)
}

// Whether so many payloads are computed, each as the whole archive has it.
fn are_right(alloc: Global, disk: &mut SureDisk, whole: &mut SureDisk, sums: usize) -> bool {
    match count_right(alloc, disk, whole) {
        Ok(right) => right == Some(sums),
        Err(_) => false,
    }
}

#[test]
fn payloads_are_those_that_were_stored(rt: HostRuntime) -> Result<(), Fail> {
    for (name, numbers, sums) in damages() {
        assert!(rt; are_computed(rt.alloc(), numbers, sums), "{name}");
    }
    Ok(())
}

// Damages the block of this number of a small archive, where there is a number. It says whether it did, or there is no number.
fn spoil_one<D: Disk>(disk: &mut D, number: Option<u32>) -> bool {
    match number {
        Some(number) => spoil_block(disk, &SMALL, number) == Ok(true),
        None => true,
    }
}

// Computes the payload of the first fate of a small archive with this object, whose datum is damaged, after one more block was
// damaged that the scan found intact. Returns the answer and the payload; none where it could not be tried.
fn first_of<D: Disk>(
    alloc: Global,
    disk: &mut D,
    number: Option<u32>,
    sum: &mut [u8; 16],
) -> Result<Option<Result<BlockId, PayloadFault>>, AllocError> {
    let Ok(ledger) = open_ledger(alloc, disk) else {
        return Ok(None);
    };
    let Ok(marks) = scan(alloc, &ledger, disk) else {
        return Ok(None);
    };
    let fates = solve(alloc, &ledger.lattice(), &marks)?;
    if !spoil_one(disk, number) || ledger.shape().block() != 16 {
        return Ok(None);
    }
    let mut cell = [7; 64];
    Ok(computed(&ledger, disk, &marks, &fates, 0, &mut cell, sum))
}

// The same, and whether the answer is the wanted one.
fn gives(
    alloc: Global,
    disk: &mut SureDisk,
    number: Option<u32>,
    sum: &mut [u8; 16],
    want: Result<BlockId, PayloadFault>,
) -> bool {
    match first_of(alloc, disk, number, sum) {
        Ok(answer) => answer == Some(want),
        Err(_) => false,
    }
}

// The block of this class of the first node.
fn first_block(class: Class) -> BlockId {
    BlockId { node: 1, class }
}

// Whether the datum is computed, and then, where its parity is flipped once it was scanned, the answer is a clash of that.
fn is_parity_revealed(alloc: Global, disk: &mut SureDisk, payload: &[u8; 16]) -> bool {
    let mut sum = [0; 16];
    let datum = Ok(first_block(Class::Datum));
    if !gives(alloc, disk, None, &mut sum, datum) || sum != *payload {
        return false;
    }
    let block = first_block(Class::Horiz);
    let mut other = *payload;
    other[0] ^= 255;
    let clash = PayloadFault::Clash {
        block,
        recorded: digest_of(block, payload),
        computed: digest_of(block, &other),
    };
    gives(alloc, disk, Some(1), &mut sum, Err(clash))
}

#[test]
fn a_summand_that_changes_is_a_clash(rt: HostRuntime) -> Result<(), Fail> {
    let payload = [77; 16];
    let mut disk = damaged_archive(rt.alloc(), &SMALL, &payload, &[0]).ok_or("no archive")?;
    assert!(rt; is_parity_revealed(rt.alloc(), &mut disk, &payload));
    Ok(())
}

// Whether the answer is a clash of the datum where the ledger has another digest of it.
fn is_datum_revealed(alloc: Global, disk: &mut SureDisk, payload: &[u8; 16]) -> bool {
    if !spoil_digest(disk) || !spoil_blocks(disk, &SMALL, &[0]) {
        return false;
    }
    let block = first_block(Class::Datum);
    let computed = digest_of(block, payload);
    let mut recorded = computed;
    recorded[0] ^= 255;
    let clash = PayloadFault::Clash {
        block,
        recorded,
        computed,
    };
    gives(alloc, disk, None, &mut [0; 16], Err(clash))
}

#[test]
fn a_sum_with_another_digest_is_a_clash(rt: HostRuntime) -> Result<(), Fail> {
    let payload = [77; 16];
    let mut disk = archive(rt.alloc(), &SMALL, &payload).ok_or("no archive")?;
    assert!(rt; is_datum_revealed(rt.alloc(), &mut disk, &payload));
    Ok(())
}

// What comes of computing over a disk of which one call fails.
enum Came {
    /// The call comes after all of them.
    Computed,
    /// The payload is not computed, since the disk is at fault.
    AtFault,
    /// The ledger or a cell is not read before that.
    Unread,
    Otherwise,
}

// Computes a payload of a small archive over a disk of which this call fails, counted from 1.
fn computed_at(alloc: Global, call: u64) -> Came {
    let Some(disk) = damaged_archive(alloc, &SMALL, &[77; 16], &[0]) else {
        return Came::Otherwise;
    };
    let Ok(mut failing) = FailDisk::new(alloc, disk, &[call]) else {
        return Came::Otherwise;
    };
    match first_of(alloc, &mut failing, None, &mut [0; 16]) {
        Ok(None) => Came::Unread,
        Ok(Some(Err(PayloadFault::DiskFault))) => Came::AtFault,
        Ok(Some(Ok(_))) => Came::Computed,
        _ => Came::Otherwise,
    }
}

#[test]
fn a_disk_that_fails_is_at_fault(rt: HostRuntime) -> Result<(), Fail> {
    let mut faults = 0u32;
    let mut is_last = false;
    for k in 1..100u64 {
        match computed_at(rt.alloc(), k) {
            Came::Unread => (),
            Came::AtFault => faults = faults.saturating_add(1),
            Came::Otherwise => break,
            Came::Computed => {
                is_last = true;
                break;
            }
        }
    }
    assert!(rt; is_last && faults == 1);
    Ok(())
}
