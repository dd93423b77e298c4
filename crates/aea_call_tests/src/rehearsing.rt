//! Rehearsals: their numbers beside those that another program counted, and what they leave on the disk.

ghost use Rattle.std.specs.Prelude.{◌≤◌};

use crate::archives::open_and_scan;
use aea_archive::read_block;
use aea_disk::{Disk, SureDisk};
use aea_lattice::{BlockId, Class};
use aea_ledger::{Ledger, open_ledger};
use aea_rehearse::{Rehearsal, rehearse};
use std::alloc::{AllocError, Global};
use std::test::Fail;

// A disk after a rehearsal, and the answer.
#[derive(Drop)]
struct Trial {
    disk: SureDisk,
    answer: Result<Rehearsal, AllocError>,
}

// A rehearsal on a disk that is made for it.
fn run_once(alloc: Global, number: u64, nodes: u32, permille: u32) -> Result<Trial, AllocError>
    requires some { 1 ≤ nodes }
    requires few { nodes ≤ 2000 }
    requires part { permille ≤ 1000 }
{
    let mut disk = SureDisk::new(alloc, 10, 83 + 128 * nodes as usize, 14_680_400)?;
    let answer = rehearse(alloc, &mut disk, number, nodes, permille);
    Ok(Trial { disk, answer })
}

// The rehearsal of a number, of so many nodes, with so many blocks in a thousand struck; none where it is not possible.
fn run_of(alloc: Global, words: [u32; 3]) -> Option<Trial> {
    let [number, nodes, permille] = words;
    if 1 <= nodes && nodes <= 2000 && permille <= 1000 {
        run_once(alloc, u64::from(number), nodes, permille).ok()
    } else {
        None
    }
}

// The numbers, in their order.
fn numbers_of(answer: Result<Rehearsal, AllocError>) -> Option<[u32; 5]> {
    match answer {
        Ok(r) => Some([r.blocks, r.damaged, r.peeled, r.solved, r.lost]),
        Err(_) => None,
    }
}

// Whether blocks have 512 bytes, and this is the first byte of the first datum.
fn begins_with<D: Disk>(disk: &mut D, ledger: &Ledger, byte: u8) -> bool {
    let first = BlockId {
        node: 1,
        class: Class::Datum,
    };
    let mut cell = [0; 560];
    ledger.shape().block() == 512
        && ledger.lattice().contains(first)
        && read_block(disk, ledger, first, &mut cell).is_ok()
        && cell[16] == byte
}

// Whether the catalog has the object with so many bytes.
fn has_length(ledger: &Ledger, length: u64) -> bool {
    match ledger.catalog().find(b"rehearsal") {
        Some(found) => found.length == length,
        None => false,
    }
}

// Whether the object is there with so many bytes, the first of which is this.
fn has_object<D: Disk>(alloc: Global, disk: &mut D, length: u64, byte: u8) -> bool {
    match open_ledger(alloc, disk) {
        Ok(ledger) => has_length(&ledger, length) && begins_with(disk, &ledger, byte),
        Err(_) => false,
    }
}

// How many blocks are not intact.
fn damaged<D: Disk>(alloc: Global, disk: &mut D) -> Option<u32> {
    match open_and_scan(alloc, disk) {
        Some(found) => Some(found.marks.unmarked()),
        None => None,
    }
}

// Whether the rehearsal gave these numbers, and so many blocks are not intact after it.
fn has_left(alloc: Global, trial: &mut Trial, numbers: [u32; 5], lost: u32) -> bool {
    numbers_of(trial.answer) == Some(numbers) && damaged(alloc, &mut trial.disk) == Some(lost)
}

// Whether a rehearsal of three nodes without damage leaves them whole, with the object.
fn is_kept(alloc: Global) -> bool {
    match run_of(alloc, [7, 3, 0]) {
        Some(mut trial) => {
            has_left(alloc, &mut trial, [12, 0, 0, 0, 0], 0)
                && has_object(alloc, &mut trial.disk, 1536, 126)
        }
        None => false,
    }
}

#[test]
fn a_rehearsal_without_damage_keeps_its_object(rt: HostRuntime) -> Result<(), Fail> {
    assert!(rt; is_kept(rt.alloc()));
    Ok(())
}

// Whether the rehearsal of these words is possible, gives these numbers, and leaves so many blocks not intact.
fn leaves(alloc: Global, words: [u32; 3], numbers: [u32; 5], lost: u32) -> bool {
    match run_of(alloc, words) {
        Some(mut trial) => has_left(alloc, &mut trial, numbers, lost),
        None => false,
    }
}

#[test]
fn a_rehearsal_that_strikes_each_block_loses_all(rt: HostRuntime) -> Result<(), Fail> {
    assert!(rt; leaves(rt.alloc(), [7, 1, 1000], [4, 4, 0, 0, 4], 4));
    Ok(())
}

// Rehearsals and their numbers, counted by another program from the definitions: the number, the nodes, the blocks in a
// thousand that are struck; and how many blocks there are, are damaged, peeled, solved and lost.
fn counted() -> [([u32; 3], [u32; 5]); 3] {
    [
        ([7, 20, 750], [80, 58, 42, 5, 11]),
        ([1, 12, 750], [48, 37, 9, 8, 20]),
        ([8, 40, 300], [160, 39, 39, 0, 0]),
    ]
}

// Whether the rehearsal of these words is possible, and gives these numbers.
fn gives(alloc: Global, words: [u32; 3], numbers: [u32; 5]) -> bool {
    match run_of(alloc, words) {
        Some(trial) => numbers_of(trial.answer) == Some(numbers),
        None => false,
    }
}

#[test]
fn rehearsals_give_the_numbers_that_another_program_counted(rt: HostRuntime) -> Result<(), Fail> {
    for (words, numbers) in counted() {
        let [number, nodes, permille] = words;
        assert!(rt;
            gives(rt.alloc(), words, numbers),
            "{number} {nodes} {permille}"
        );
    }
    Ok(())
}

#[test]
fn a_number_gives_one_rehearsal(rt: HostRuntime) -> Result<(), Fail> {
    for time in 1..=2u32 {
        assert!(rt;
            leaves(rt.alloc(), [7, 20, 750], [80, 58, 42, 5, 11], 11),
            "{time}"
        );
    }
    Ok(())
}
