//! Random damage, against a plain elimination among the sets of nodes whose codewords contain no intact block: an object is fetched
//! exactly where it gives all its data blocks. A set of nodes is a word, node i its bit i - 1.

use crate::archives::{archive_of, is_done, is_fetched, is_refused, takes};
use aea_disk::SureDisk;
use aea_lattice::{BlockId, Class, Lattice};
use aea_runs::step;
use aea_test_helpers::{Mask, ends_of, escapes, masks_of, set_of, some_bytes, spoil_cell};
use std::alloc::Global;
use std::test::Fail;

// α, s and p of an archive with blocks of 16 bytes on four sites, how many bytes its three objects have, and whether a fence
// follows each.
type Row = ((u8, u8, u8), [u32; 3], bool);

// The rows of archives of one class, of two and of three.
fn one_class() -> [Row; 2] {
    [
        ((1, 1, 0), [100, 1, 100], false),
        ((1, 1, 0), [100, 1, 100], true),
    ]
}

fn two_classes() -> [Row; 3] {
    [
        ((2, 2, 2), [120, 33, 16], false),
        ((2, 2, 5), [17, 100, 48], true),
        ((2, 3, 7), [120, 0, 90], false),
    ]
}

fn three_classes() -> [Row; 3] {
    [
        ((3, 2, 2), [33, 100, 20], false),
        ((3, 2, 5), [50, 50, 80], true),
        ((3, 5, 5), [120, 60, 20], false),
    ]
}

// How many of a hundred cells are changed.
const PERCENTS: [u64; 6] = [5, 20, 40, 55, 65, 80];

// An object: its nodes, from the first to the one before the last of these two, and its bytes.
#[derive(Drop)]
struct Stored {
    name: &'static str,
    nodes: (u32, u32),
    bytes: Vec<u8>,
}

// An archive of three objects, and the lattice that it has.
#[derive(Drop)]
struct Archive {
    disk: SureDisk,
    lattice: Lattice,
    objects: Vec<Stored>,
}

// How many objects were fetched, and how many refused.
#[derive(Clone, Copy)]
struct Tally {
    fetched: u32,
    refused: u32,
}

// What is fetched wrongly: the object, or what could not be made in its place, α, s and p of the archive, how many percent of the cells are damaged, and by which seed.
type Wrong = (&'static str, (u8, u8, u8), u64, u64);

// The archive of a row before its first object.
fn empty_archive(alloc: Global, widths: (u8, u8, u8)) -> Option<Archive> {
    let (alpha, s, p) = widths;
    let line = format!(in alloc; "create {alpha} {s} {p} 16 4").ok()?;
    let lattice = Lattice::new(alpha, s, p, 0)?;
    let disk = archive_of(alloc, line.as_str(), 4, 1 << 14, 1 << 13)?;
    Some(Archive {
        disk,
        lattice,
        objects: Vec::new(alloc),
    })
}

// Puts an object of these bytes, of which there are `count`, into the archive. Whether that is done.
fn store(
    alloc: Global,
    archive: &mut Archive,
    name: &'static str,
    count: u32,
    bytes: Vec<u8>,
) -> bool {
    let lattice = archive.lattice;
    let first = lattice.n().saturating_add(1);
    let last = lattice.n().saturating_add(count.div_ceil(16)).min(64);
    let nodes = (first, last.saturating_add(1));
    match lattice.grown(last) {
        Some(grown) => {
            archive.lattice = grown;
            let is_put = takes(alloc, &mut archive.disk, name, bytes.as_slice());
            archive.objects.push(Stored { name, nodes, bytes }).is_ok() && is_put
        }
        None => false,
    }
}

// Puts an object of so many bytes into the archive.
fn store_some(alloc: Global, archive: &mut Archive, name: &'static str, count: u32) -> bool {
    match some_bytes(alloc, count, count) {
        Ok(bytes) => store(alloc, archive, name, count, bytes),
        Err(_) => false,
    }
}

// Puts a fence behind the last node of the archive.
fn fence(alloc: Global, archive: &mut Archive) -> bool {
    match archive.lattice.fenced() {
        Some(fenced) => {
            archive.lattice = fenced;
            is_done(alloc, &mut archive.disk, "fence")
        }
        None => false,
    }
}

// Makes the archive of a row.
fn archive_of_row(alloc: Global, row: Row) -> Option<Archive> {
    let (widths, counts, fenced) = row;
    let mut archive = empty_archive(alloc, widths)?;
    let mut is_full = true;
    for (count, name) in counts.iter().zip(["a", "b", "c"]) {
        is_full = is_full
            && store_some(alloc, &mut archive, name, *count)
            && (!fenced || fence(alloc, &mut archive));
    }
    is_full.then_some(archive)
}

// Flips a byte of each of so many percent of the cells, by the generator that begins with the seed, and says which blocks are theirs.
// A second call undoes it.
fn flip_cells(
    alloc: Global,
    disk: &mut SureDisk,
    lattice: &Lattice,
    percent: u64,
    seed: u64,
) -> Option<Vec<BlockId>> {
    let mut lost = Vec::new(alloc);
    let mut is_flipped = true;
    let mut x = seed;
    for k in 0..lattice.blocks() {
        x = step(x);
        if (x >> 32) % 100 < percent {
            is_flipped = is_flipped
                && spoil_cell(disk, 4, 64, k, (x >> 50) % 64) == Ok(true)
                && lost.push(lattice.block(k)).is_ok();
        }
    }
    is_flipped.then_some(lost)
}

// The line of a fetch where the datum of this node is not determined.
fn refusal_line(alloc: Global, node: u32, set: u64) -> Option<String> {
    let mut line = format!(in alloc; "refused: undetermined d{node} by").ok()?;
    let mut is_written = true;
    let mut bit = 1u64;
    for other in 1..65u32 {
        if set & bit != 0 {
            is_written = is_written && write!(line, " {other}").is_ok();
        }
        bit = bit.wrapping_mul(2);
    }
    is_written = is_written && line.push_str("\n").is_ok();
    is_written.then_some(line)
}

// The first of these nodes whose datum is not determined, and the set of nodes that a fetch names; none where all are determined.
fn undetermined(masks: &[Mask], ends: &[u64], nodes: (u32, u32)) -> Option<(u32, u64)> {
    let (first, end) = nodes;
    for mask in masks {
        let node = mask.block.node;
        let is_own = mask.block.class == Class::Datum && first <= node && node < end;
        if is_own && let Some(set) = set_of(ends, mask.nodes) {
            return Some((node, set));
        }
    }
    None
}

// Whether a fetch of the object is refused, since the datum of the node is not determined.
fn is_refused_by(alloc: Global, disk: &mut SureDisk, name: &str, node: u32, set: u64) -> bool {
    match refusal_line(alloc, node, set) {
        Some(line) => is_refused(alloc, disk, name, line.as_str()),
        None => false,
    }
}

// Whether a fetch of the object leaves what it should by these masks and these ends of what is damaged. The tally counts it.
fn is_right(
    alloc: Global,
    disk: &mut SureDisk,
    object: &Stored,
    masks: &[Mask],
    ends: &[u64],
    tally: &mut Tally,
) -> bool {
    match undetermined(masks, ends, object.nodes) {
        Some((node, set)) => {
            tally.refused = tally.refused.saturating_add(1);
            is_refused_by(alloc, disk, object.name, node, set)
        }
        None => {
            tally.fetched = tally.fetched.saturating_add(1);
            is_fetched(alloc, disk, object.name, object.bytes.as_slice())
        }
    }
}

// The ends of these masks of the lattice, where these blocks are damaged.
fn ends_among(
    alloc: Global,
    lattice: &Lattice,
    masks: &[Mask],
    lost: &[BlockId],
) -> Option<Vec<u64>> {
    match escapes(alloc, lattice, masks, lost) {
        Ok(sets) => ends_of(alloc, masks, sets).ok(),
        Err(_) => None,
    }
}

// The name of the first object of which a fetch leaves something else than it should by these masks and ends.
fn first_wrong(
    alloc: Global,
    archive: &mut Archive,
    masks: &[Mask],
    ends: &[u64],
    tally: &mut Tally,
) -> Option<&'static str> {
    for object in archive.objects.iter() {
        if !is_right(alloc, &mut archive.disk, object, masks, ends, tally) {
            return Some(object.name);
        }
    }
    None
}

// The same by these masks, where these blocks are damaged.
fn first_wrong_by(
    alloc: Global,
    archive: &mut Archive,
    masks: &[Mask],
    lost: &[BlockId],
    tally: &mut Tally,
) -> Option<&'static str> {
    match ends_among(alloc, &archive.lattice, masks, lost) {
        Some(ends) => first_wrong(alloc, archive, masks, ends.as_slice(), tally),
        None => Some("no ends"),
    }
}

// The same by the masks of the archive's lattice.
fn first_wrong_without(
    alloc: Global,
    archive: &mut Archive,
    lost: &[BlockId],
    tally: &mut Tally,
) -> Option<&'static str> {
    match masks_of(alloc, &archive.lattice) {
        Ok(masks) => first_wrong_by(alloc, archive, masks.as_slice(), lost, tally),
        Err(_) => Some("no masks"),
    }
}

// The same where so many percent of the cells are damaged, and whole again after it.
fn first_wrong_among(
    alloc: Global,
    archive: &mut Archive,
    percent: u64,
    seed: u64,
    tally: &mut Tally,
) -> Option<&'static str> {
    let lattice = archive.lattice;
    let found = match flip_cells(alloc, &mut archive.disk, &lattice, percent, seed) {
        Some(lost) => first_wrong_without(alloc, archive, lost.as_slice(), tally),
        None => Some("no cells"),
    };
    match flip_cells(alloc, &mut archive.disk, &lattice, percent, seed) {
        Some(_same) => found,
        None => Some("no cells"),
    }
}

// Damages the archive in each way, and fetches its objects. The answer says what is fetched wrongly first, and where.
fn first_wrong_of(
    alloc: Global,
    archive: &mut Archive,
    widths: (u8, u8, u8),
    seed: u64,
    tally: &mut Tally,
) -> Option<Wrong> {
    let mut x = seed;
    for percent in PERCENTS {
        x = step(x);
        if let Some(name) = first_wrong_among(alloc, archive, percent, x, tally) {
            return Some((name, widths, percent, x));
        }
    }
    None
}

// The same of the archive of a row.
fn first_wrong_in(alloc: Global, row: Row, seed: u64, tally: &mut Tally) -> Option<Wrong> {
    let (widths, ..) = row;
    match archive_of_row(alloc, row) {
        Some(mut archive) => first_wrong_of(alloc, &mut archive, widths, seed, tally),
        None => Some(("no archive", widths, 0, seed)),
    }
}

// What is fetched wrongly first of the archives of these rows; else how many objects were fetched and how many refused, where all
// were the one or the other.
fn wrong_of_rows(alloc: Global, rows: &[Row], seed: u64) -> Option<Wrong> {
    let mut tally = Tally {
        fetched: 0,
        refused: 0,
    };
    for row in rows {
        if let Some(wrong) = first_wrong_in(alloc, *row, seed, &mut tally) {
            return Some(wrong);
        }
    }
    let (fetched, refused) = (u64::from(tally.fetched), u64::from(tally.refused));
    let is_one_sided = fetched == 0 || refused == 0;
    is_one_sided.then_some(("fetched, refused:", (0, 0, 0), fetched, refused))
}

#[test]
fn fetches_of_one_class_agree_with_the_plain_elimination(rt: HostRuntime) -> Result<(), Fail> {
    let wrong = wrong_of_rows(rt.alloc(), &one_class(), 1);
    assert!(rt; wrong.is_none(), "{wrong:?}");
    Ok(())
}

#[test]
fn fetches_of_two_classes_agree_with_the_plain_elimination(rt: HostRuntime) -> Result<(), Fail> {
    let wrong = wrong_of_rows(rt.alloc(), &two_classes(), 2);
    assert!(rt; wrong.is_none(), "{wrong:?}");
    Ok(())
}

#[test]
fn fetches_of_three_classes_agree_with_the_plain_elimination(rt: HostRuntime) -> Result<(), Fail> {
    let wrong = wrong_of_rows(rt.alloc(), &three_classes(), 3);
    assert!(rt; wrong.is_none(), "{wrong:?}");
    Ok(())
}
