//! Reports of repaired archives of several shapes, with and without fences, which are accepted, and once more after a second
//! repair.

use crate::archives::{judges, put_only, run_only};
use aea_cli::Status;
use aea_disk::SureDisk;
use aea_runs::{Left, run_over, step, text_of};
use aea_test_helpers::{some_bytes, spoil_cell};
use std::alloc::Global;
use std::test::Fail;

// The line that makes an archive on four sites with blocks of 16 bytes, whether a fence follows each object, and how many
// blocks it has.
type Row = (&'static str, bool, u32);

fn one_class() -> [Row; 2] {
    [
        ("create 1 1 0 16 4", false, 30),
        ("create 1 1 0 16 4", true, 30),
    ]
}

fn two_classes() -> [Row; 2] {
    [
        ("create 2 2 2 16 4", true, 45),
        ("create 2 2 5 16 4", false, 45),
    ]
}

fn three_classes() -> [Row; 2] {
    [
        ("create 3 2 5 16 4", true, 60),
        ("create 3 5 5 16 4", false, 60),
    ]
}

// How many of a hundred cells are damaged.
const PERCENTS: [u64; 5] = [0, 5, 30, 60, 90];

// Stores an object of so many bytes, and a fence after it, if there is to be one.
fn put_one(alloc: Global, disk: &mut SureDisk, object: (&str, u32), fenced: bool) -> bool {
    let (name, count) = object;
    match some_bytes(alloc, count, 0) {
        Ok(bytes) => {
            put_only(alloc, disk, name, bytes.as_slice())
                && (!fenced || run_only(alloc, disk, "fence", 99))
        }
        Err(_) => false,
    }
}

// Stores three objects with fifteen nodes in the archive that this line makes.
fn put_three(alloc: Global, disk: &mut SureDisk, line: &str, fenced: bool) -> bool {
    run_only(alloc, disk, line, 99)
        && put_one(alloc, disk, ("a", 100), fenced)
        && put_one(alloc, disk, ("b", 17), fenced)
        && put_one(alloc, disk, ("c", 95), fenced)
}

// Damages so many percent of the cells, by the generator that begins with the seed.
fn damage(disk: &mut SureDisk, blocks: u32, percent: u64, seed: u64) -> bool {
    let mut goes_on = true;
    let mut x = seed;
    for k in 0..blocks {
        x = step(x);
        if (x >> 32) % 100 < percent {
            goes_on = goes_on && spoil_cell(disk, 4, 64, k, 20).is_ok();
        }
    }
    goes_on
}

// Whether what this run of a repair left is a report, and is accepted.
fn is_accepted(alloc: Global, disk: &mut SureDisk, left: &Left) -> bool {
    match text_of(left.out.bytes()) {
        Ok(report) => {
            (left.status == Status::Done || left.status == Status::Damage)
                && judges(alloc, disk, report, "accepted\n")
        }
        Err(_) => false,
    }
}

// Repairs the archive, and has its report judged. The answer is whether it is accepted.
fn is_repair_accepted(alloc: Global, disk: &mut SureDisk) -> bool {
    match run_over(alloc, "repair", disk, 16_384) {
        Ok(left) => is_accepted(alloc, disk, &left),
        Err(_) => false,
    }
}

// Whether the report of a repair is accepted, and that of a second one, after damage of so many percent to the archive of this
// row.
fn are_repairs_accepted(alloc: Global, row: Row, percent: u64, seed: u64) -> bool {
    let (line, fenced, blocks) = row;
    match SureDisk::new(alloc, 4, 8192, 4096) {
        Ok(mut disk) => {
            put_three(alloc, &mut disk, line, fenced)
                && damage(&mut disk, blocks, percent, seed)
                && is_repair_accepted(alloc, &mut disk)
                && is_repair_accepted(alloc, &mut disk)
        }
        Err(_) => false,
    }
}

// The same after damage of each degree.
fn are_all_accepted(alloc: Global, row: Row, seed: u64) -> bool {
    let mut goes_on = true;
    let mut x = seed;
    for percent in PERCENTS {
        x = step(x);
        goes_on = goes_on && are_repairs_accepted(alloc, row, percent, x);
    }
    goes_on
}

#[test]
fn reports_of_one_class_are_accepted(rt: HostRuntime) -> Result<(), Fail> {
    for row in one_class() {
        assert!(rt; are_all_accepted(rt.alloc(), row, 1));
    }
    Ok(())
}

#[test]
fn reports_of_two_classes_are_accepted(rt: HostRuntime) -> Result<(), Fail> {
    for row in two_classes() {
        assert!(rt; are_all_accepted(rt.alloc(), row, 2));
    }
    Ok(())
}

#[test]
fn reports_of_three_classes_are_accepted(rt: HostRuntime) -> Result<(), Fail> {
    for row in three_classes() {
        assert!(rt; are_all_accepted(rt.alloc(), row, 3));
    }
    Ok(())
}
