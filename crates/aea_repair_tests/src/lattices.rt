//! Repairs of archives of many blocks.

use crate::archives::{ends, filled, gets, repairs, run_repair};
use crate::lines::drilled_report;
use aea_cli::Status;
use aea_disk::{Disk, SureDisk};
use aea_lattice::{BlockId, Lattice};
use aea_plain::codeword;
use aea_runs::{Ended, all_bytes, has_bytes};
use aea_test_helpers::{NINETEEN, TWO_CODEWORDS, add_line, shorten, some_bytes, spoil_cell};
use std::alloc::{AllocError, Global};

// Adds the lines of the blocks of a lattice whose homes are on this one of four sites, all of them peeled.
fn add_peeled(text: &mut String, lattice: &Lattice, site: u32) -> Result<(), AllocError> {
    for k in 0..lattice.blocks() {
        if (k % 4 + k / 4) % 4 == site {
            add_line(text, "peeled ", lattice.block(k))?;
        }
    }
    Ok(())
}

// The lines of the report where all blocks of a lattice whose homes are on this one of four sites are peeled.
fn lines_of_site(alloc: Global, lattice: &Lattice, site: u32) -> Option<String> {
    let count = lattice.n();
    let mut text = format!(in alloc; "counts {count} {count} 0 0\n").ok()?;
    add_peeled(&mut text, lattice, site).is_ok().then_some(text)
}

/// The file of a site that is lost, the number of the site from 0 on, and the first lines of the report.
pub type LostSite = (u8, u32, &'static str);

// Lost sites of an archive of forty nodes.
fn sites() -> [LostSite; 2] {
    let second = "counts 40 40 0 0\npeeled h1\npeeled d2\npeeled l3\npeeled r4\npeeled h5\n";
    let fourth = "counts 40 40 0 0\npeeled l1\npeeled r2\npeeled h3\n";
    [(2, 1, second), (4, 3, fourth)]
}

/// Whether this site of an archive on four sites, whose lattice has these numbers, is peeled once it is lost: its blocks are told,
/// and the files are then what they were.
pub fn restores_site<D: Disk>(
    alloc: Global,
    disk: &mut D,
    lattice: &Lattice,
    numbers: &str,
    lost: LostSite,
) -> bool {
    let (file, site, first) = lost;
    if let Some(lines) = lines_of_site(alloc, lattice, site)
        && let Some(whole) = all_bytes(alloc, disk)
    {
        let (lines, whole) = (lines.as_str(), whole.as_slice());
        shorten(disk, file, 0).is_ok()
            && lines.starts_with(first)
            && repairs(alloc, disk, numbers, lines, Status::Done, whole)
    } else {
        false
    }
}

// Whether this site of an archive of forty nodes is restored once it is lost, a scrub then finds no damage, and the object is got.
fn is_site_peeled(alloc: Global, lost: LostSite) -> bool {
    let space = (4, 8192, 4096);
    let sound = "total 160 damaged 0\n";
    if let Some(lattice) = Lattice::new(3, 2, 5, 40)
        && let Ok(bytes) = some_bytes(alloc, 640, 0)
        && let Some(mut disk) = filled(alloc, space, "create 3 2 5 16 4", bytes.as_slice())
    {
        restores_site(alloc, &mut disk, &lattice, "3 2 5 40", lost)
            && ends(alloc, &mut disk, "scrub", Status::Done, sound, "")
            && gets(alloc, &mut disk, "a", bytes.as_slice())
    } else {
        false
    }
}

// The file of the first site that is not peeled.
fn wrong_site(alloc: Global) -> Option<u8> {
    let mut wrong = None;
    for lost in sites() {
        if wrong.is_none() && !is_site_peeled(alloc, lost) {
            wrong = Some(lost.0);
        }
    }
    wrong
}

#[test]
fn a_lost_site_of_four_is_peeled(rt: HostRuntime) {
    let wrong = wrong_site(rt.alloc());
    assert!(rt; wrong.is_none(), "{wrong:?}");
}

// What a scrub prints after the repair of the nineteen blocks.
const STILL_DAMAGED: &str = "damaged d1\ndamaged h1\ndamaged r1\ndamaged d3\ndamaged r3\n\
    damaged d4\ndamaged h4\ndamaged d6\ndamaged d8\ndamaged h8\ndamaged r8\ndamaged d9\ndamaged h9\n\
    damaged d10\ndamaged r10\ndamaged d11\ntotal 33 damaged 16\n";

// The lines of the report of a second repair, where what was lost is lost still.
fn lines_of_lost(alloc: Global) -> Result<String, AllocError> {
    let mut text = String::from_str(alloc, "counts 16 0 0 16\n")?;
    for line in TWO_CODEWORDS.lines() {
        if line.starts_with("lost ") {
            writeln!(text, "{line}")?;
        }
    }
    Ok(text)
}

// Damages the nineteen blocks but these. Whether the disk did not fail.
fn spoils_but<D: Disk>(disk: &mut D, others: &[u32]) -> bool {
    let mut is_each = true;
    for number in NINETEEN {
        if !others.contains(&number) {
            is_each = is_each && spoil_cell(disk, 3, 64, number, 20).is_ok();
        }
    }
    is_each
}

// An archive in which the nineteen blocks but these are damaged.
fn nineteen_but(alloc: Global, others: &[u32]) -> Option<SureDisk> {
    let space = (4, 8192, 4096);
    let bytes = some_bytes(alloc, 176, 5).ok()?;
    let mut disk = filled(alloc, space, "create 2 2 2 16 3", bytes.as_slice())?;
    spoils_but(&mut disk, others).then_some(disk)
}

// Whether a repair of it reports these lines, and leaves these files.
fn reveals<D: Disk>(alloc: Global, disk: &mut D, lines: &str, files: &[Vec<u8>]) -> bool {
    repairs(alloc, disk, "2 2 2 11", lines, Status::Damage, files)
}

// Whether a repair of it tells what is solved and lost, a scrub what is damaged then, and a second repair, which changes nothing,
// what is lost still.
fn reveals_all<D: Disk>(alloc: Global, disk: &mut D, files: &[Vec<u8>]) -> bool {
    match lines_of_lost(alloc) {
        Ok(lost) => {
            reveals(alloc, disk, TWO_CODEWORDS, files)
                && ends(alloc, disk, "scrub", Status::Damage, STILL_DAMAGED, "")
                && reveals(alloc, disk, lost.as_str(), files)
        }
        Err(_) => false,
    }
}

// The files of that archive where h3, d5 and r5 are solved.
fn solved_files(alloc: Global) -> Option<Vec<Vec<u8>>> {
    all_bytes(alloc, &mut nineteen_but(alloc, &[7, 12, 14])?)
}

// Whether a repair of the archive whose nineteen blocks are damaged tells all, and leaves these files.
fn is_all_revealed(alloc: Global) -> bool {
    if let Some(solved) = solved_files(alloc)
        && let Some(mut disk) = nineteen_but(alloc, &[])
    {
        reveals_all(alloc, &mut disk, solved.as_slice())
    } else {
        false
    }
}

#[test]
fn what_is_solved_and_what_is_lost_is_reported(rt: HostRuntime) {
    assert!(rt; is_all_revealed(rt.alloc()));
}

// An archive of AE(3,3,7) and 60 nodes whose lost blocks are the codeword of all nodes, and the report, which lists two
// codewords in long lines.
#[derive(Drop)]
struct Long {
    disk: SureDisk,
    report: String,
}

// The codeword of the nodes 1 to 60.
fn word_of_all(alloc: Global, lattice: &Lattice) -> Result<Vec<BlockId>, AllocError> {
    let mut nodes = Vec::new(alloc);
    for node in 1..61u32 {
        nodes.push(node)?;
    }
    codeword(alloc, lattice, nodes.as_slice())
}

// Damages the blocks of this codeword. Whether the disk did not fail.
fn spoils_word<D: Disk>(disk: &mut D, lattice: &Lattice, word: &[BlockId]) -> bool {
    let mut is_each = true;
    for k in 0..lattice.blocks() {
        if word.contains(&lattice.block(k)) {
            is_each = is_each && spoil_cell(disk, 4, 64, k, 16).is_ok();
        }
    }
    is_each
}

// Damages the codeword of all nodes of this lattice. The answer is the report.
fn lose_word<D: Disk>(alloc: Global, disk: &mut D, lattice: &Lattice) -> Option<String> {
    if let Ok(word) = word_of_all(alloc, lattice)
        && spoils_word(disk, lattice, word.as_slice())
    {
        drilled_report(alloc, disk, "3 3 7 60", word.as_slice())
    } else {
        None
    }
}

// Makes that archive, and its report.
fn long_one(alloc: Global) -> Option<Long> {
    let space = (4, 1 << 15, 1 << 14);
    if let Some(lattice) = Lattice::new(3, 3, 7, 60)
        && let Ok(bytes) = some_bytes(alloc, 960, 0)
        && let Some(mut disk) = filled(alloc, space, "create 3 3 7 16 4", bytes.as_slice())
        && let Some(report) = lose_word(alloc, &mut disk, &lattice)
    {
        Some(Long { disk, report })
    } else {
        None
    }
}

// The call of the output that fails, and how many bytes it has taken then, at least and at most, of so many: there are three writes
// of at most 8,192 bytes, and a flush.
fn calls(long: usize) -> [(u32, usize, usize); 5] {
    [
        (1, 0, 0),
        (2, 7_900, 8_192),
        (3, 15_800, 16_384),
        (4, long, long),
        (5, long, long),
    ]
}

// Whether a repair whose output fails at this call says so, where there is such a call, and has printed between so many bytes of
// this report.
fn is_cut_so(left: &Ended, report: &str, call: (u32, usize, usize)) -> bool {
    let (call, least, most) = call;
    let (status, revealed) = if call < 5 {
        (Status::Output, "fault: output\n")
    } else {
        (Status::Damage, "")
    };
    let printed = left.out.bytes();
    left.status == status
        && left.err.bytes() == revealed.as_bytes()
        && least <= printed.len()
        && printed.len() <= most
        && report.as_bytes().starts_with(printed)
}

// Whether a repair whose output fails at this call is cut so, and leaves these files.
fn is_cut(alloc: Global, archive: &mut Long, call: (u32, usize, usize), files: &[Vec<u8>]) -> bool {
    match run_repair(alloc, &mut archive.disk, 1 << 15, call.0, 64) {
        Ok(left) => {
            is_cut_so(&left, archive.report.as_str(), call)
                && has_bytes(alloc, &mut archive.disk, files)
        }
        Err(_) => false,
    }
}

// The number of the first call that does not fail so, and leave these files.
fn wrong_call(alloc: Global, archive: &mut Long, files: &[Vec<u8>]) -> Option<u32> {
    let mut wrong = None;
    for call in calls(archive.report.len()) {
        if wrong.is_none() && !is_cut(alloc, archive, call, files) {
            wrong = Some(call.0);
        }
    }
    wrong
}

// The same of that archive; 0 where there is no such archive, or its report does not begin so.
fn wrong_call_of_long(alloc: Global) -> Option<u32> {
    let first = "\ncounts 154 0 0 154\nlost d1 by 1 2 3 4 5 6 7 8 9 10 11 ";
    if let Some(mut archive) = long_one(alloc)
        && archive.report.as_str().contains(first)
        && let Some(stands) = all_bytes(alloc, &mut archive.disk)
    {
        wrong_call(alloc, &mut archive, stands.as_slice())
    } else {
        Some(0)
    }
}

#[test]
fn each_write_of_a_long_report_fails(rt: HostRuntime) {
    let wrong = wrong_call_of_long(rt.alloc());
    assert!(rt; wrong.is_none(), "{wrong:?}");
}
