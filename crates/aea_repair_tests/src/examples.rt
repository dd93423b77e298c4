//! Worked examples of repairs.

use crate::archives::{archive_of_four, ends, files_of_four, gets, repairs, repairs_four};
use aea_cli::Status;
use aea_disk::Disk;
use aea_runs::{all_bytes, run_over};
use aea_test_helpers::{file_bytes, fill_file, shorten, spoil};
use std::alloc::Global;

// Damage of the archive of four blocks: the files that are cut, with their lengths, and the bytes that are flipped, with
// their files; what a scrub prints of it, and the lines of the report.
#[derive(Clone, Copy)]
struct Case {
    cuts: &'static [(u8, u64)],
    flipped: &'static [(u8, u64)],
    scrubbed: &'static str,
    lines: &'static str,
}

const CASES: &[Case] = &[
    Case {
        cuts: &[],
        flipped: &[],
        scrubbed: "total 4 damaged 0\n",
        lines: "counts 0 0 0 0\n",
    },
    Case {
        cuts: &[(1, 0)],
        flipped: &[],
        scrubbed: "damaged d1\ntotal 4 damaged 1\n",
        lines: "counts 1 1 0 0\npeeled d1\n",
    },
    Case {
        cuts: &[(1, 111)],
        flipped: &[],
        scrubbed: "damaged d1\ntotal 4 damaged 1\n",
        lines: "counts 1 1 0 0\npeeled d1\n",
    },
    Case {
        cuts: &[],
        flipped: &[(3, 16)],
        scrubbed: "damaged r1\ntotal 4 damaged 1\n",
        lines: "counts 1 1 0 0\npeeled r1\n",
    },
    Case {
        cuts: &[],
        flipped: &[(2, 0), (4, 111)],
        scrubbed: "damaged h1\ndamaged l1\ntotal 4 damaged 2\n",
        lines: "counts 2 2 0 0\npeeled h1\npeeled l1\n",
    },
    Case {
        cuts: &[(1, 0), (2, 5)],
        flipped: &[(4, 8)],
        scrubbed: "damaged d1\ndamaged h1\ndamaged l1\ntotal 4 damaged 3\n",
        lines: "counts 3 3 0 0\npeeled d1\npeeled h1\npeeled l1\n",
    },
    Case {
        cuts: &[(2, 0), (3, 0), (4, 0)],
        flipped: &[],
        scrubbed: "damaged h1\ndamaged r1\ndamaged l1\ntotal 4 damaged 3\n",
        lines: "counts 3 3 0 0\npeeled h1\npeeled r1\npeeled l1\n",
    },
    Case {
        cuts: &[(1, 0), (2, 0), (3, 0), (4, 0)],
        flipped: &[],
        scrubbed: "damaged d1\ndamaged h1\ndamaged r1\ndamaged l1\ntotal 4 damaged 4\n",
        lines: "counts 4 0 0 4\nlost d1 by 1\nlost h1 by 1\nlost r1 by 1\nlost l1 by 1\n",
    },
    Case {
        cuts: &[(1, 50)],
        flipped: &[(2, 16), (3, 79), (4, 80)],
        scrubbed: "damaged d1\ndamaged h1\ndamaged r1\ndamaged l1\ntotal 4 damaged 4\n",
        lines: "counts 4 0 0 4\nlost d1 by 1\nlost h1 by 1\nlost r1 by 1\nlost l1 by 1\n",
    },
];

// A function, so that the proof of the test does not carry the table.
fn cases() -> &'static [Case] {
    CASES
}

// Damages the disk as the case has it. Whether the disk did not fail.
fn damages<D: Disk>(disk: &mut D, case: &Case) -> bool {
    let mut is_each = true;
    for (file, to) in case.cuts {
        is_each = is_each && shorten(disk, *file, *to).is_ok();
    }
    for (file, at) in case.flipped {
        is_each = is_each && spoil(disk, *file, *at).is_ok();
    }
    is_each
}

// Whether a scrub prints this and no more.
fn scrubs<D: Disk>(alloc: Global, disk: &mut D, out: &str) -> bool {
    run_over(alloc, "scrub", disk, 99).is_ok_and(|left| left.out.bytes() == out.as_bytes())
}

// Whether the damage of the case is told by a scrub and by a repair, which leaves these files.
fn is_revealed<D: Disk>(
    alloc: Global,
    disk: &mut D,
    case: &Case,
    status: Status,
    files: &[Vec<u8>],
) -> bool {
    scrubs(alloc, disk, case.scrubbed) && repairs(alloc, disk, "3 2 5 1", case.lines, status, files)
}

// Whether the damage is told, the files are as they were, and nothing is got.
fn is_lost<D: Disk>(alloc: Global, disk: &mut D, case: &Case) -> bool {
    match all_bytes(alloc, disk) {
        Some(before) => {
            is_revealed(alloc, disk, case, Status::Damage, before.as_slice())
                && gets(alloc, disk, "a", b"")
        }
        None => false,
    }
}

// Whether the damage is told, and the files are then the whole ones and the object is got; where blocks are lost the files are as
// they were, and nothing is got.
fn is_lost_or_repaired<D: Disk>(
    alloc: Global,
    disk: &mut D,
    case: &Case,
    whole: &[Vec<u8>],
) -> bool {
    if case.lines.contains("lost") {
        is_lost(alloc, disk, case)
    } else {
        is_revealed(alloc, disk, case, Status::Done, whole) && gets(alloc, disk, "a", b"abc")
    }
}

// The same of an archive of four blocks, which is damaged as the case has it.
fn is_repaired(alloc: Global, case: &Case, whole: &[Vec<u8>]) -> bool {
    match archive_of_four(alloc, b"abc") {
        Some(mut disk) => {
            damages(&mut disk, case) && is_lost_or_repaired(alloc, &mut disk, case, whole)
        }
        None => false,
    }
}

// The lines of the first case that is not repaired so.
fn wrong_case(alloc: Global, whole: &[Vec<u8>]) -> Option<&'static str> {
    for case in cases() {
        if !is_repaired(alloc, case, whole) {
            return Some(case.lines);
        }
    }
    None
}

// The same with the whole files of that archive.
fn wrong_case_of_four(alloc: Global) -> Option<&'static str> {
    match files_of_four(alloc, b"abc") {
        Some(whole) => wrong_case(alloc, whole.as_slice()),
        None => Some("no archive"),
    }
}

#[test]
fn four_blocks_are_restored_or_reported_lost(rt: HostRuntime) {
    let wrong = wrong_case_of_four(rt.alloc());
    assert!(rt; wrong.is_none(), "{wrong:?}");
}

// What a scrub prints where the one block of the first site is damaged, and the lines of the report then.
const FIRST_DAMAGED: &str = "damaged d1\ntotal 4 damaged 1\n";

const FIRST_PEELED: &str = "counts 1 1 0 0\npeeled d1\n";

// Makes the file of the first site that of another archive. Whether it is done.
fn takes_other<D: Disk>(alloc: Global, disk: &mut D) -> bool {
    if let Some(mut other) = archive_of_four(alloc, b"abd")
        && let Some(bytes) = file_bytes(alloc, &mut other, 1)
    {
        fill_file(disk, 1, bytes.as_slice()).is_ok()
    } else {
        false
    }
}

// Whether the first site is told to be damaged where it is that of another archive, and restored.
fn is_other_revealed<D: Disk>(alloc: Global, disk: &mut D) -> bool {
    match all_bytes(alloc, disk) {
        Some(whole) => {
            takes_other(alloc, disk)
                && is_found(alloc, disk, FIRST_DAMAGED, FIRST_PEELED, whole.as_slice())
        }
        None => false,
    }
}

// The same of an archive of four blocks.
fn is_other_damage(alloc: Global) -> bool {
    match archive_of_four(alloc, b"abc") {
        Some(mut disk) => is_other_revealed(alloc, &mut disk),
        None => false,
    }
}

#[test]
fn cells_of_another_archive_are_damage(rt: HostRuntime) {
    assert!(rt; is_other_damage(rt.alloc()));
}

// Whether a scrub finds damage and prints this, and then a repair reports these lines and is done, and leaves these files.
fn is_found<D: Disk>(
    alloc: Global,
    disk: &mut D,
    scrubbed: &str,
    lines: &str,
    files: &[Vec<u8>],
) -> bool {
    ends(alloc, disk, "scrub", Status::Damage, scrubbed, "")
        && repairs_four(alloc, disk, lines, files)
}

// Exchanges the files of the first two sites. Whether it is done.
fn exchanges<D: Disk>(alloc: Global, disk: &mut D) -> bool {
    if let Some(first) = file_bytes(alloc, disk, 1)
        && let Some(second) = file_bytes(alloc, disk, 2)
    {
        fill_file(disk, 1, second.as_slice()).is_ok()
            && fill_file(disk, 2, first.as_slice()).is_ok()
    } else {
        false
    }
}

const BOTH_DAMAGED: &str = "damaged d1\ndamaged h1\ntotal 4 damaged 2\n";

const BOTH_PEELED: &str = "counts 2 2 0 0\npeeled d1\npeeled h1\n";

// Whether the files, once they are exchanged, are told to be damaged, and repaired.
fn is_exchange_revealed<D: Disk>(alloc: Global, disk: &mut D) -> bool {
    match all_bytes(alloc, disk) {
        Some(whole) => {
            exchanges(alloc, disk)
                && is_found(alloc, disk, BOTH_DAMAGED, BOTH_PEELED, whole.as_slice())
        }
        None => false,
    }
}

// Whether bytes past the last cell of a file, which are no block, stay where a cell before them is repaired.
fn are_more_kept<D: Disk>(alloc: Global, disk: &mut D) -> bool {
    if disk.write(1, 112, &[255; 1000]).is_ok()
        && let Some(longer) = all_bytes(alloc, disk)
    {
        spoil(disk, 1, 20).is_ok() && repairs_four(alloc, disk, FIRST_PEELED, longer.as_slice())
    } else {
        false
    }
}

// What goes wrong first where the files are exchanged, and then made longer.
fn wrong_files<D: Disk>(alloc: Global, disk: &mut D) -> Option<&'static str> {
    if !is_exchange_revealed(alloc, disk) {
        Some("exchanged files")
    } else if !are_more_kept(alloc, disk) {
        Some("more bytes")
    } else {
        None
    }
}

// The same of an archive of four blocks.
fn wrong_files_of_four(alloc: Global) -> Option<&'static str> {
    match archive_of_four(alloc, b"abc") {
        Some(mut disk) => wrong_files(alloc, &mut disk),
        None => Some("no archive"),
    }
}

#[test]
fn exchanged_files_are_damage_and_more_bytes_are_none(rt: HostRuntime) {
    let wrong = wrong_files_of_four(rt.alloc());
    assert!(rt; wrong.is_none(), "{wrong:?}");
}
