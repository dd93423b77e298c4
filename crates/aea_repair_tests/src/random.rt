//! Random damage, against the plain repair of the files.

use crate::archives::{fill_files, run_repair};
use crate::lines::{counts_of, drilled_report};
use crate::plain::{Losses, SITES, is_restored, losses_of, status_of};
use aea_disk::{Disk, DiskFault, SureDisk};
use aea_lattice::{BlockId, Lattice};
use aea_runs::{all_bytes, run_over, run_put, step, text_of};
use aea_test_helpers::{shorten, spoil_cell};
use std::alloc::{AllocError, Global};

// α, s and p of an archive, how many bytes its three objects have, and whether a fence follows the first and the
// second.
type Row = ((u8, u8, u8), [u32; 3], bool);

fn one_class() -> [Row; 2] {
    [
        ((1, 1, 0), [100, 1, 100], false),
        ((1, 1, 0), [100, 1, 100], true),
    ]
}

fn two_classes() -> [Row; 3] {
    [
        ((2, 2, 2), [120, 33, 16], false),
        ((2, 2, 5), [17, 100, 48], true),
        ((2, 3, 7), [120, 0, 90], false),
    ]
}

fn three_classes() -> [Row; 3] {
    [
        ((3, 2, 2), [33, 100, 20], false),
        ((3, 2, 5), [50, 50, 80], true),
        ((3, 5, 5), [120, 60, 20], false),
    ]
}

// How many of a hundred cells are changed, and how many of a hundred sites are cut or emptied.
const PERCENTS: [(u64, u64); 5] = [(3, 0), (20, 0), (0, 50), (40, 25), (80, 0)];

// An archive of random objects, the lattice that it has, and its files.
#[derive(Drop)]
struct Archive {
    disk: SureDisk,
    lattice: Lattice,
    whole: Vec<Vec<u8>>,
}

// So many random bytes.
fn random_bytes(alloc: Global, count: u32, seed: u64) -> Result<Vec<u8>, AllocError> {
    let mut bytes = Vec::new(alloc);
    let mut x = seed;
    for _ in 0..count {
        x = step(x);
        bytes.push((x >> 56) as u8)?;
    }
    Ok(bytes)
}

// The lattice with a fence after its last node, or as it is.
fn behind(lattice: &Lattice, fenced: bool) -> Option<Lattice> {
    if fenced {
        lattice.fenced()
    } else {
        Some(*lattice)
    }
}

// An archive of this shape without objects.
fn fresh(alloc: Global, shape: (u8, u8, u8)) -> Option<SureDisk> {
    let (alpha, s, p) = shape;
    if let Ok(line) = format!(in alloc; "create {alpha} {s} {p} 16 {SITES}")
        && let Ok(mut disk) = SureDisk::new(alloc, SITES, 1 << 14, 1 << 13)
        && run_over(alloc, line.as_str(), &mut disk, 99).is_ok()
    {
        Some(disk)
    } else {
        None
    }
}

// Puts an object of so many random bytes. Whether there was memory.
fn puts_random<D: Disk>(alloc: Global, disk: &mut D, object: (u32, &str)) -> bool {
    let (count, name) = object;
    match random_bytes(alloc, count, u64::from(count)) {
        Ok(bytes) => run_put(alloc, disk, name, bytes.as_slice()).is_ok(),
        Err(_) => false,
    }
}

// Puts an object of so many random bytes, and a fence after it or none. The answer is the lattice then.
fn grow<D: Disk>(
    alloc: Global,
    disk: &mut D,
    lattice: &Lattice,
    object: (u32, &str),
    fences: bool,
) -> Option<Lattice> {
    let nodes = lattice.n().saturating_add(object.0.div_ceil(16)).min(64);
    if puts_random(alloc, disk, object)
        && (!fences || run_over(alloc, "fence", disk, 99).is_ok())
        && let Some(grown) = lattice.grown(nodes)
    {
        behind(&grown, fences)
    } else {
        None
    }
}

// Puts the objects of a row into an archive without objects. The answer is the lattice then.
fn grow_all<D: Disk>(alloc: Global, disk: &mut D, row: Row) -> Option<Lattice> {
    let ((alpha, s, p), counts, fenced) = row;
    let mut lattice = Lattice::new(alpha, s, p, 0)?;
    for (count, name) in counts.iter().zip(["a", "b", "c"]) {
        let fences = fenced && name != "c";
        lattice = grow(alloc, disk, &lattice, (*count, name), fences)?;
    }
    Some(lattice)
}

// Makes the archive of a row.
fn random_archive(alloc: Global, row: Row) -> Option<Archive> {
    if let Some(mut disk) = fresh(alloc, row.0)
        && let Some(lattice) = grow_all(alloc, &mut disk, row)
        && let Some(whole) = all_bytes(alloc, &mut disk)
    {
        Some(Archive {
            disk,
            lattice,
            whole,
        })
    } else {
        None
    }
}

// Flips a byte of each of so many percent of the cells, by the generator that begins with the seed. The answer is its state then.
fn flip_cells<D: Disk>(
    disk: &mut D,
    blocks: u32,
    percent: u64,
    seed: u64,
) -> Result<u64, DiskFault> {
    let mut x = seed;
    for k in 0..blocks {
        x = step(x);
        if (x >> 32) % 100 < percent {
            spoil_cell(disk, SITES, 64, k, (x >> 50) % 64)?;
        }
    }
    Ok(x)
}

// Empties or cuts a site, by a number of the generator. Whether it is done.
fn cuts<D: Disk>(disk: &mut D, site: u8, x: u64) -> bool {
    match disk.len(site.min(64)) {
        Ok(long) => {
            let to = if long == 0 || (x >> 60) % 2 == 0 {
                0
            } else {
                (x >> 40) % long
            };
            shorten(disk, site, to).is_ok()
        }
        Err(_) => false,
    }
}

// Empties or cuts each of so many percent of the sites, by the generator in this state. Whether it is done.
fn cuts_sites<D: Disk>(disk: &mut D, percent: u64, state: u64) -> bool {
    let mut is_each = true;
    let mut x = state;
    for site in 1..5u8 {
        x = step(x);
        if (x >> 32) % 100 < percent {
            is_each = is_each && cuts(disk, site, x);
        }
    }
    is_each
}

// Damages so many percent of the cells and of the sites, by the generator that begins with the seed: a byte of a cell is
// flipped, and a site is emptied or cut. Whether the disk did not fail.
fn damages<D: Disk>(disk: &mut D, blocks: u32, percents: (u64, u64), seed: u64) -> bool {
    let (cells, sites) = percents;
    match flip_cells(disk, blocks, cells, seed) {
        Ok(state) => cuts_sites(disk, sites, state),
        Err(_) => false,
    }
}

// Whether a report has the counts of these losses.
fn is_counted(alloc: Global, lattice: &Lattice, losses: &Losses, revealed: &str) -> bool {
    let (lost, restored) = (losses.lost.as_slice(), losses.restored.as_slice());
    match counts_of(alloc, lattice, lost, restored) {
        Some(counts) => revealed.contains(counts.as_str()),
        None => false,
    }
}

// Whether a report has the lines of a drill with these numbers where these blocks are lost; there is none to compare where there
// are no numbers.
fn is_drilled<D: Disk>(
    alloc: Global,
    disk: &mut D,
    numbers: Option<&str>,
    lost: &[BlockId],
    revealed: &str,
) -> bool {
    match numbers {
        Some(numbers) => {
            let report = drilled_report(alloc, disk, numbers, lost);
            report.is_some_and(|report| revealed == report.as_str())
        }
        None => true,
    }
}

// What differs of a printed report from the plain one of these losses, if anything does.
fn report_difference<D: Disk>(
    alloc: Global,
    disk: &mut D,
    lattice: &Lattice,
    losses: &Losses,
    numbers: Option<&str>,
    printed: &[u8],
) -> Option<&'static str> {
    if let Ok(revealed) = text_of(printed)
        && is_counted(alloc, lattice, losses, revealed)
    {
        if is_drilled(alloc, disk, numbers, losses.lost.as_slice(), revealed) {
            None
        } else {
            Some("the report")
        }
    } else {
        Some("the counts")
    }
}

// Repairs the archive as it is damaged, and compares the status, the files and the report with the plain ones; the numbers of
// the lattice are those of a drill, none where it has a fence. The answer says what differs.
fn first_difference<D: Disk>(
    alloc: Global,
    disk: &mut D,
    lattice: &Lattice,
    whole: &[Vec<u8>],
    numbers: Option<&str>,
) -> Option<&'static str> {
    if let Some(losses) = losses_of(alloc, disk, lattice, whole)
        && let Ok(left) = run_repair(alloc, disk, 1 << 15, 0, 64)
    {
        if left.status != status_of(&losses) {
            Some("the status")
        } else if !is_restored(alloc, disk, lattice, whole, &losses) {
            Some("a file")
        } else {
            report_difference(alloc, disk, lattice, &losses, numbers, left.out.bytes())
        }
    } else {
        Some("no repair")
    }
}

// What differs first from the plain repair, and the number of the generator that the damage begins with.
type Fault = (&'static str, u64);

// Damages the whole archive in each way, and repairs it. The answer says what differs first from the plain repair.
fn first_fault(alloc: Global, archive: Archive, numbers: Option<&str>, seed: u64) -> Option<Fault> {
    let Archive {
        mut disk,
        lattice,
        whole,
    } = archive;
    let whole = whole.as_slice();
    let mut x = seed;
    for percents in PERCENTS {
        x = step(x);
        let is_whole = fill_files(&mut disk, whole);
        let found = if is_whole && damages(&mut disk, lattice.blocks(), percents, x) {
            first_difference(alloc, &mut disk, &lattice, whole, numbers)
        } else {
            Some("no damage")
        };
        if let Some(what) = found {
            return Some((what, x));
        }
    }
    None
}

// The numbers of a lattice of this shape with so many nodes.
fn numbers_of(alloc: Global, shape: (u8, u8, u8), nodes: u32) -> Result<String, AllocError> {
    let (alpha, s, p) = shape;
    format!(in alloc; "{alpha} {s} {p} {nodes}")
}

// What differs first of the archive of a row.
fn fault_of(alloc: Global, row: Row, seed: u64) -> Option<Fault> {
    let (shape, _counts, fenced) = row;
    if let Some(archive) = random_archive(alloc, row)
        && let Ok(numbers) = numbers_of(alloc, shape, archive.lattice.n())
    {
        let drill = if fenced { None } else { Some(numbers.as_str()) };
        first_fault(alloc, archive, drill, seed)
    } else {
        Some(("no archive", seed))
    }
}

// The first of these rows whose archive is not repaired as plainly, and what differs.
fn faulty_row(alloc: Global, rows: &[Row], seed: u64) -> Option<(Row, Fault)> {
    for row in rows {
        if let Some(fault) = fault_of(alloc, *row, seed) {
            return Some((*row, fault));
        }
    }
    None
}

#[test]
fn repairs_of_one_class_agree_with_the_plain_one(rt: HostRuntime) {
    let found = faulty_row(rt.alloc(), &one_class(), 1);
    assert!(rt; found.is_none(), "{found:?}");
}

#[test]
fn repairs_of_two_classes_agree_with_the_plain_one(rt: HostRuntime) {
    let found = faulty_row(rt.alloc(), &two_classes(), 2);
    assert!(rt; found.is_none(), "{found:?}");
}

#[test]
fn repairs_of_three_classes_agree_with_the_plain_one(rt: HostRuntime) {
    let found = faulty_row(rt.alloc(), &three_classes(), 3);
    assert!(rt; found.is_none(), "{found:?}");
}
