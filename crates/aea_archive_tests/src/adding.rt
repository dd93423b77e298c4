//! Fences and raises of the limit: the commands that add a record to the ledger.

use crate::runs::{archive_of, ends, is_done, refuses, says};
use aea_catalog::check_name;
use aea_cli::Status;
use aea_disk::{Disk, SureDisk};
use aea_ledger::open_ledger;
use aea_test_helpers::{fill_file, has_file};
use std::alloc::Global;
use std::test::Fail;

// The ledger of `create 1 1 0 16 1` and of the object `a` with the bytes `abc`: 139 bytes. It has one node, and the
// digests of its two blocks are given.
const ONE: &[u8; 139] = b"\x01AEALEDG1\x01\x01\0\x01\0\0\0\x10\
\x01\x01\0\0\0\x73\0\x01a\0\0\0\0\0\0\0\x03\
\xba\x78\x16\xbf\x8f\x01\xcf\xea\x41\x41\x40\xde\x5d\xae\x22\x23\xb0\x03\x61\xa3\x96\x17\x7a\x9c\xb4\x10\xff\x61\xf2\x00\x15\xad\
\0\0\0\x01\0\0\0\x01\
ddddddddddddddddddddddddddddddddhhhhhhhhhhhhhhhhhhhhhhhhhhhhhhhh\0";

// What a fence after its node, and what a raise of the limit, writes from its ending gate on.
const FENCE: &[u8; 11] = b"\x01\x02\0\0\0\x04\0\0\0\x01\0";

const RAISE: &[u8; 11] = b"\x01\x04\0\0\0\x04\0\x10\0\0\0";

// Each command that adds a record, its line, the record, and the line of its refusal where it is run again.
type Command = (&'static str, &'static str, &'static [u8; 11], &'static str);

fn commands() -> [Command; 2] {
    [
        (
            "fence",
            "fence 1\n",
            FENCE,
            "refused: already fenced at 1\n",
        ),
        (
            "upgrade",
            "upgraded 1048576\n",
            RAISE,
            "refused: already upgraded\n",
        ),
    ]
}

// Makes that of one node the whole ledger file, and syncs all files. Whether no call fails.
fn fill<D: Disk>(disk: &mut D) -> bool {
    fill_file(disk, 0, ONE).is_ok() && disk.sync().is_ok()
}

// An archive of one node, with space for a ledger of so many bytes. None where it is not written.
fn filled(alloc: Global, room: usize) -> Option<SureDisk> {
    let mut disk = SureDisk::new(alloc, 0, room, 0).ok()?;
    fill(&mut disk).then_some(disk)
}

// Whether the ledger file is that of one node, with this record from its ending gate on.
fn has_added<D: Disk>(disk: &mut D, record: &[u8; 11]) -> bool {
    let mut bytes = [9u8; 160];
    disk.read(0, 0, &mut bytes) == Ok(149)
        && bytes.starts_with(&ONE[..138])
        && bytes[138..].starts_with(record)
}

// Whether the ledger file is that of an archive without nodes, with a raise of the limit from its ending gate on.
fn has_raise<D: Disk>(disk: &mut D) -> bool {
    let mut bytes = [9u8; 32];
    disk.read(0, 0, &mut bytes) == Ok(28)
        && bytes.starts_with(b"\x01AEALEDG1\x01\x01\0\x01\0\0\0\x10")
        && bytes[17..].starts_with(RAISE)
}

// Whether an archive without nodes takes no fence, which leaves the ledger as long as it is, and one raise of the limit.
fn takes_one_raise(alloc: Global) -> bool {
    match archive_of(alloc, "create 1 1 0 16 1", 0, 28, 0) {
        Some(mut disk) => {
            refuses(alloc, &mut disk, "fence", "refused: already fenced at 0\n")
                && disk.len(0) == Ok(18)
                && says(alloc, &mut disk, "upgrade", "upgraded 1048576\n")
                && has_raise(&mut disk)
                && refuses(alloc, &mut disk, "upgrade", "refused: already upgraded\n")
        }
        None => false,
    }
}

#[test]
fn a_fresh_archive_takes_no_fence_and_one_raise(rt: HostRuntime) -> Result<(), Fail> {
    assert!(rt; takes_one_raise(rt.alloc()));
    Ok(())
}

// Whether a command adds its record, which a second run of it is refused and leaves; `stat` is done then.
fn is_added_once(alloc: Global, command: Command) -> bool {
    let (command, line, record, again) = command;
    match filled(alloc, 149) {
        Some(mut disk) => {
            says(alloc, &mut disk, command, line)
                && has_added(&mut disk, record)
                && refuses(alloc, &mut disk, command, again)
                && has_added(&mut disk, record)
                && is_done(alloc, &mut disk, "stat")
        }
        None => false,
    }
}

#[test]
fn each_command_adds_its_record_once(rt: HostRuntime) -> Result<(), Fail> {
    for command in commands() {
        assert!(rt; is_added_once(rt.alloc(), command), "{}", command.0);
    }
    Ok(())
}

// Commands, a place in the ledger and a byte that is then written there, and the line of the refusal.
fn bad_bytes() -> [(&'static str, u8, u8, &'static str); 7] {
    [
        ("fence", 147, 2, "refused: ledger bad at 144\n"),
        ("fence", 139, 3, "refused: ledger bad at 139\n"),
        ("fence", 143, 5, "refused: ledger bad at 140\n"),
        ("upgrade", 139, 3, "refused: ledger bad at 139\n"),
        ("upgrade", 145, 32, "refused: ledger bad at 144\n"),
        ("fence", 9, 4, "refused: ledger bad at 9\n"),
        ("fence", 0, 7, "refused: no archive\n"),
    ]
}

// An archive of one node after this command, which is done, with this byte in its ledger.
fn with_bad_byte(alloc: Global, command: &str, place: u8, value: u8) -> Option<SureDisk> {
    let mut disk = filled(alloc, 160)?;
    let is_bad = is_done(alloc, &mut disk, command)
        && disk.write(0, u64::from(place), &[value]).is_ok();
    is_bad.then_some(disk)
}

// The first of three commands that is not refused with this line; `the length` where the ledger has another one then.
fn first_taken<D: Disk>(alloc: Global, disk: &mut D, line: &str) -> Option<&'static str> {
    for command in ["stat", "fence", "upgrade"] {
        if !refuses(alloc, disk, command, line) {
            return Some(command);
        }
    }
    (disk.len(0) != Ok(149)).then_some("the length")
}

// The same of the archive after this command, with this byte in its ledger.
fn taken(alloc: Global, command: &str, place: u8, value: u8, line: &str) -> Option<&'static str> {
    match with_bad_byte(alloc, command, place, value) {
        Some(mut disk) => first_taken(alloc, &mut disk, line),
        None => Some("no archive"),
    }
}

#[test]
fn an_added_record_that_is_bad_is_named(rt: HostRuntime) -> Result<(), Fail> {
    for (command, place, value, refusal) in bad_bytes() {
        let wrong = taken(rt.alloc(), command, place, value, refusal);
        assert!(rt; wrong == None, "{wrong:?} {place}");
    }
    Ok(())
}

// Opens the archive and adds an object of one node to its ledger; the digests of its blocks are given. False where it
// may not be there, or is not added.
fn add_node<D: Disk>(alloc: Global, disk: &mut D, name: &[u8]) -> bool {
    let Ok(mut ledger) = open_ledger(alloc, disk) else {
        return false;
    };
    let block = u64::from(ledger.shape().block());
    let count = (1 + block - 1) / block;
    if count != 1
        || ledger.limit() <= ledger.lattice().n()
        || ledger.shape().alpha() != 1
        || !check_name(name)
        || ledger.catalog().find(name).is_some()
    {
        return false;
    }
    ledger
        .append(disk, name, 1, [7; 32], 1, &[[b'd'; 32], [b'h'; 32]])
        .is_ok()
}

// Whether a node of this number is added, and then a fence after it.
fn adds_fence<D: Disk>(alloc: Global, disk: &mut D, node: u8) -> bool {
    let name = [b'a'.wrapping_add(node)];
    match format!(in alloc; "fence {node}\n") {
        Ok(line) => add_node(alloc, disk, &name) && says(alloc, disk, "fence", line.as_str()),
        Err(_) => false,
    }
}

// Whether a fence is refused with this line, and leaves the ledger as long as it is.
fn leaves_length<D: Disk>(alloc: Global, disk: &mut D, line: &str) -> bool {
    match disk.len(0) {
        Ok(before) => refuses(alloc, disk, "fence", line) && disk.len(0) == Ok(before),
        Err(_) => false,
    }
}

// The number of the first of sixteen nodes that is not added with its fence; 17 where a fence more is not refused, or the limit not
// raised then.
fn first_unfenced<D: Disk>(alloc: Global, disk: &mut D) -> Option<u8> {
    for node in 1..17u8 {
        if !adds_fence(alloc, disk, node) {
            return Some(node);
        }
    }
    let takes_no_more = refuses(alloc, disk, "fence", "refused: already fenced at 16\n")
        && add_node(alloc, disk, b"a")
        && leaves_length(alloc, disk, "refused: too many fences\n")
        && is_done(alloc, disk, "upgrade");
    (!takes_no_more).then_some(17)
}

// The same of an archive with space for them.
fn unfenced(alloc: Global) -> Option<u8> {
    match archive_of(alloc, "create 1 1 0 16 1", 0, 4096, 0) {
        Some(mut disk) => first_unfenced(alloc, &mut disk),
        None => Some(0),
    }
}

#[test]
fn sixteen_fences_and_no_more(rt: HostRuntime) -> Result<(), Fail> {
    let wrong = unfenced(rt.alloc());
    assert!(rt; wrong == None, "{wrong:?}");
    Ok(())
}

// Whether a command is at fault where the disk lacks one byte, and `stat` is done then.
fn is_at_fault(alloc: Global, command: &str) -> bool {
    let fault = (Status::Disk, "", "fault: disk\n");
    match filled(alloc, 148) {
        Some(mut disk) => {
            ends(alloc, &mut disk, command, fault) && is_done(alloc, &mut disk, "stat")
        }
        None => false,
    }
}

#[test]
fn a_disk_that_lacks_one_byte_is_at_fault(rt: HostRuntime) -> Result<(), Fail> {
    for command in commands() {
        assert!(rt; is_at_fault(rt.alloc(), command.0), "{}", command.0);
    }
    Ok(())
}

// Whether a line is told to be no command, and the ledger stays.
fn is_no_command(alloc: Global, line: &str) -> bool {
    let revealed = (Status::Words, "", "words: no such command\n");
    match filled(alloc, 149) {
        Some(mut disk) => {
            ends(alloc, &mut disk, line, revealed) && has_file(&mut disk, 0, ONE) == Ok(true)
        }
        None => false,
    }
}

#[test]
fn words_beside_them_are_no_command(rt: HostRuntime) -> Result<(), Fail> {
    for line in [
        "fence 1",
        "fences",
        "Fence",
        "upgrade 1048576",
        "upgrades",
        "up",
    ] {
        assert!(rt; is_no_command(rt.alloc(), line), "{line}");
    }
    Ok(())
}
