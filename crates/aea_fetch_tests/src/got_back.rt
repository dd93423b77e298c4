//! Random objects, each got back byte for byte and listed; and an object whose parts lie apart.

use crate::archives::{PARTS, archive_of, archive_of_parts, is_got, takes};
use aea_disk::{Disk, SureDisk};
use aea_runs::{run_over, step};
use aea_test_helpers::digits_of;
use sha2::{Digest, Sha256};
use std::alloc::{AllocError, Global};
use std::test::Fail;

// The words that make an archive, and the bytes of a block.
fn shapes() -> [(&'static str, usize); 6] {
    [
        ("create 1 1 0 16 1", 16),
        ("create 2 2 2 16 3", 16),
        ("create 2 3 5 17 64", 17),
        ("create 3 2 5 64 4", 64),
        ("create 3 5 5 100 10", 100),
        ("create 3 4 4 16 5", 16),
    ]
}

// How many objects are put into each.
const OBJECTS: u64 = 12;

// An object: its name, and its bytes.
#[derive(Drop)]
struct Object {
    name: String,
    bytes: Vec<u8>,
}

// Bytes of 0 to 5 blocks, whole ones or up to 16 bytes more.
fn random_bytes(alloc: Global, block: usize, seed: u64) -> Result<Vec<u8>, AllocError> {
    let mut bytes = Vec::new(alloc);
    let mut x = step(seed);
    let many = if (x >> 20) % 3 == 0 {
        block.saturating_mul(((x >> 33) % 6) as usize)
    } else {
        let rest = ((x >> 50) % 17) as usize;
        block
            .saturating_mul(((x >> 33) % 5) as usize)
            .saturating_add(rest)
    };
    for _ in 0..many {
        x = step(x);
        bytes.push((x >> 56) as u8)?;
    }
    Ok(bytes)
}

// The k-th object: names differ, and do not come in the order of their bytes.
fn random_object(alloc: Global, block: usize, k: u64) -> Result<Object, AllocError> {
    let number = k.wrapping_mul(7) % OBJECTS;
    Ok(Object {
        name: format!(in alloc; "{number}-{k}")?,
        bytes: random_bytes(alloc, block, k.wrapping_add(block as u64))?,
    })
}

// Adds the line that lists the object.
fn add_listed(alloc: Global, text: &mut String, object: &Object) -> Result<(), AllocError> {
    let (size, name) = (object.bytes.len(), object.name.as_str());
    let digits = digits_of(alloc, &Sha256::digest(object.bytes.as_slice()))?;
    writeln!(text, "{size} {digits} {name}")
}

// The objects of an archive with blocks of so many bytes.
fn random_objects(alloc: Global, block: usize) -> Result<Vec<Object>, AllocError> {
    let mut objects = Vec::new(alloc);
    for k in 0..OBJECTS {
        objects.push(random_object(alloc, block, k)?)?;
    }
    Ok(objects)
}

// The lines that list the objects.
fn listed(alloc: Global, objects: &[Object]) -> Option<String> {
    let mut text = String::new(alloc);
    let mut is_written = true;
    for object in objects {
        is_written = is_written && add_listed(alloc, &mut text, object).is_ok();
    }
    is_written.then_some(text)
}

// Puts the objects one after the other. The answer is the place of the first that is not stored.
fn first_unstored<D: Disk>(alloc: Global, disk: &mut D, objects: &[Object]) -> Option<usize> {
    for (k, object) in objects.iter().enumerate() {
        if !takes(alloc, disk, object.name.as_str(), object.bytes.as_slice()) {
            return Some(k);
        }
    }
    None
}

// The place of the first of the objects that is not got back.
fn first_ungot<D: Disk>(alloc: Global, disk: &mut D, objects: &[Object]) -> Option<usize> {
    for (k, object) in objects.iter().enumerate() {
        let (name, bytes) = (object.name.as_str(), object.bytes.as_slice());
        if !is_got(alloc, disk, name, bytes, 1024) {
            return Some(k);
        }
    }
    None
}

// Whether `list` prints this text.
fn lists<D: Disk>(alloc: Global, disk: &mut D, text: &str) -> bool {
    match run_over(alloc, "list", disk, 4096) {
        Ok(left) => left.out.bytes() == text.as_bytes(),
        Err(_) => false,
    }
}

// Whether `list` prints the lines of the objects.
fn are_listed<D: Disk>(alloc: Global, disk: &mut D, objects: &[Object]) -> bool {
    match listed(alloc, objects) {
        Some(text) => lists(alloc, disk, text.as_str()),
        None => false,
    }
}

// The place of the first object that is not stored, that of the first that is not got back, and whether all are listed.
type Outcome = (Option<usize>, Option<usize>, bool);

// Puts the objects, gets them back by their names, and lists them.
fn outcome_of(alloc: Global, disk: &mut SureDisk, objects: &mut Vec<Object>) -> Outcome {
    let unstored = first_unstored(alloc, disk, objects.as_slice());
    let is_sorted = objects
        .sort_by(|a, b| a.name.as_str().cmp(b.name.as_str()))
        .is_ok();
    let ungot = first_ungot(alloc, disk, objects.as_slice());
    let is_listed = is_sorted && are_listed(alloc, disk, objects.as_slice());
    (unstored, ungot, is_listed)
}

// What comes of it in the archive of this line, with blocks of so many bytes.
fn outcome_in(alloc: Global, line: &str, block: usize) -> Option<Outcome> {
    let mut disk = archive_of(alloc, line, 64, 65_536, 65_536)?;
    let mut objects = random_objects(alloc, block).ok()?;
    Some(outcome_of(alloc, &mut disk, &mut objects))
}

#[test]
fn random_objects_are_got_back_and_listed(rt: HostRuntime) -> Result<(), Fail> {
    for (line, block) in shapes() {
        let outcome = outcome_in(rt.alloc(), line, block);
        assert!(rt; outcome == Some((None, None, true)), "{line} {outcome:?}");
    }
    Ok(())
}

#[test]
fn an_object_in_parts_that_lie_apart_is_got(rt: HostRuntime) -> Result<(), Fail> {
    let mut disk = archive_of_parts(rt.alloc()).ok_or("no object in parts")?;
    assert!(rt; is_got(rt.alloc(), &mut disk, "x", PARTS, 20));
    Ok(())
}
