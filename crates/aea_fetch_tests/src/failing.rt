//! Disks whose calls fail, and outputs that fail or have too little space, while an object is got, or fetched from a damaged archive.

use crate::pages::{damaged_pages, ends_over, has_ended, run_pages};
use aea_cli::Status;
use aea_disk::{Disk, FailDisk, SureDisk};
use aea_runs::{Ended, PAGE, all_bytes, archive_of_pages, bytes_of_pages, has_bytes};
use aea_test_helpers::fill_file;
use std::alloc::Global;
use std::test::Fail;

// How a fetch ends over a disk of which a call fails: whole; with the fault after so many bytes, which are whole pages; or otherwise.
#[derive(Clone, Copy)]
enum Ending {
    Whole,
    Fault(usize),
    Wrong,
}

// The bytes of the files of an archive in which d1, d20 and h20 of the object of three pages and 7 bytes are damaged.
fn damaged_files(alloc: Global, bytes: &[u8]) -> Option<Vec<Vec<u8>>> {
    let mut disk = damaged_pages(alloc, bytes, &[0, 38, 39])?;
    all_bytes(alloc, &mut disk)
}

// A disk whose ledger and one site have these bytes.
fn disk_of(alloc: Global, files: &[Vec<u8>]) -> Option<SureDisk> {
    let mut disk = SureDisk::new(alloc, 1, 8192, 1 << 19).ok()?;
    let mut is_filled = true;
    for (file, bytes) in files.iter().take(2).enumerate() {
        let file = file.min(64) as u8;
        is_filled = is_filled && fill_file(&mut disk, file, bytes.as_slice()).is_ok();
    }
    is_filled.then_some(disk)
}

// How the fetch has ended that left this.
fn ending_of(left: &Ended, bytes: &[u8]) -> Ending {
    let written = left.out.bytes().len();
    let fault = (Status::Disk, "fault: disk\n", written);
    if has_ended(left, bytes, (Status::Done, "", bytes.len())) {
        Ending::Whole
    } else if written % PAGE == 0 && has_ended(left, bytes, fault) {
        Ending::Fault(written)
    } else {
        Ending::Wrong
    }
}

// How a fetch of the object ends over the disk.
fn ending_over<D: Disk>(alloc: Global, disk: &mut D, bytes: &[u8]) -> Ending {
    match run_pages(alloc, "fetch pages", disk, 0, bytes.len()) {
        Ok(left) => ending_of(&left, bytes),
        Err(_) => Ending::Wrong,
    }
}

// The same, but that a fault is wrong where a file is not as it stood.
fn ending_beside<D: Disk>(alloc: Global, disk: &mut D, bytes: &[u8], stands: &[Vec<u8>]) -> Ending {
    let ending = ending_over(alloc, disk, bytes);
    if matches!(ending, Ending::Fault(_)) && !has_bytes(alloc, disk, stands) {
        Ending::Wrong
    } else {
        ending
    }
}

// The same of the fetch whose call of the disk with this number fails, counted from 1.
fn ending_at(
    alloc: Global,
    inner: SureDisk,
    bytes: &[u8],
    stands: &[Vec<u8>],
    call: u64,
) -> Ending {
    match FailDisk::new(alloc, inner, &[call]) {
        Ok(mut disk) => ending_beside(alloc, &mut disk, bytes, stands),
        Err(_) => Ending::Wrong,
    }
}

// The same over a disk with these files.
fn ending_of_files(alloc: Global, bytes: &[u8], stands: &[Vec<u8>], call: u64) -> Ending {
    match disk_of(alloc, stands) {
        Some(inner) => ending_at(alloc, inner, bytes, stands, call),
        None => Ending::Wrong,
    }
}

// Lets each call of the disk fail in turn, until a fetch is whole or wrong. The answer is how many bytes the one before it has
// written, how many were before it, and whether it is whole. No fetch writes less than the one before it, nor more than two pages.
fn calls_until_whole(alloc: Global, bytes: &[u8], stands: &[Vec<u8>]) -> (usize, u64, bool) {
    let mut last = 0usize;
    for call in 1..200u64 {
        match ending_of_files(alloc, bytes, stands, call) {
            Ending::Fault(written) if last <= written && written <= 2 * PAGE => last = written,
            ending => {
                let is_whole = matches!(ending, Ending::Whole);
                return (last, call.saturating_sub(1), is_whole);
            }
        }
    }
    (last, 199, false)
}

#[test]
fn each_call_of_the_disk_fails(rt: HostRuntime) -> Result<(), Fail> {
    let alloc = rt.alloc();
    let bytes = bytes_of_pages(alloc)?;
    let stands = damaged_files(alloc, bytes.as_slice()).ok_or("no archive")?;
    let found = calls_until_whole(alloc, bytes.as_slice(), stands.as_slice());
    // three when copies of the ledger are looked for, and four when the archive is opened; the 49 cells of the object, and h1, h19,
    // h20 and h21 around them; h1, h19, d21 and h21 when d1 and d20 are computed; and in the second pass these and the other 47 cells
    assert!(rt; found == (2 * PAGE, 115, true), "{found:?}");
    Ok(())
}

// A call of the output that fails, its space, and how many bytes are written then.
type Output = (u32, usize, usize);

// Such calls for an object of so many bytes: four writes and a flush, and the sixth, which is not made; and too little space.
fn outputs(long: usize) -> [Output; 11] {
    let short = long.saturating_sub(1);
    [
        (1, long, 0),
        (2, long, PAGE),
        (3, long, 2 * PAGE),
        (4, long, 3 * PAGE),
        (5, long, long),
        (6, long, long),
        (0, 0, 0),
        (0, 1, 1),
        (0, PAGE, PAGE),
        (0, PAGE + 1, PAGE + 1),
        (0, short, short),
    ]
}

// Whether a run of the line over such an output is an output fault, and has written so many bytes of the object; at the sixth call
// whether it is done.
fn ends_at<D: Disk>(alloc: Global, line: &str, disk: &mut D, bytes: &[u8], output: Output) -> bool {
    let (call, room, written) = output;
    let want = if call == 6 {
        (Status::Done, "", written)
    } else {
        (Status::Output, "fault: output\n", written)
    };
    ends_over(alloc, line, disk, bytes, (call, room), want)
}

#[test]
fn each_write_of_the_output_fails(rt: HostRuntime) -> Result<(), Fail> {
    let alloc = rt.alloc();
    let bytes = bytes_of_pages(alloc)?;
    let mut disk = archive_of_pages(alloc, bytes.as_slice())?;
    for output in outputs(bytes.len()) {
        let (call, room, _) = output;
        assert!(rt;
            ends_at(alloc, "get pages", &mut disk, bytes.as_slice(), output),
            "{call} {room}"
        );
    }
    Ok(())
}

// Whether a fetch from the archive with these files ends so, and leaves them as they are.
fn is_fetched_over(alloc: Global, bytes: &[u8], stands: &[Vec<u8>], output: Output) -> bool {
    match disk_of(alloc, stands) {
        Some(mut disk) => {
            ends_at(alloc, "fetch pages", &mut disk, bytes, output)
                && has_bytes(alloc, &mut disk, stands)
        }
        None => false,
    }
}

#[test]
fn each_call_of_the_output_fails(rt: HostRuntime) -> Result<(), Fail> {
    let alloc = rt.alloc();
    let bytes = bytes_of_pages(alloc)?;
    let stands = damaged_files(alloc, bytes.as_slice()).ok_or("no archive")?;
    for output in outputs(bytes.len()) {
        let (call, room, _) = output;
        assert!(rt;
            is_fetched_over(alloc, bytes.as_slice(), stands.as_slice(), output),
            "{call} {room}"
        );
    }
    Ok(())
}
