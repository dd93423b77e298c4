//! Frames that are taken one by one: streams that end or are cut, refusals, and reads that fail.

use crate::archives::fresh;
use aea_append::{Ingest, IngestFault, ingest_one};
use aea_disk::{Disk, SureDisk};
use aea_io::MemSource;
use aea_lattice::{BlockId, Class, Shape};
use aea_ledger::open_ledger;
use aea_test_helpers::{SMALL, WIDE};
use std::alloc::Global;
use std::test::Fail;

// The frames of `a` with the bytes `abc`, and of `b` with none.
const TWO: &[u8; 25] = b"\0\x01a\0\0\0\0\0\0\0\x03abc\0\x01b\0\0\0\0\0\0\0\0";

// These, and the frame of `c` with the bytes `xyz`, of which one is there.
const CUT: &[u8; 37] =
    b"\0\x01a\0\0\0\0\0\0\0\x03abc\0\x01b\0\0\0\0\0\0\0\0\0\x01c\0\0\0\0\0\0\0\x03x";

/// What a call returned: of a name its first byte.
#[derive(Clone, Copy, PartialEq, Eq)]
pub enum Answer {
    Stored { first: u8, nodes: u32, length: u64 },
    End,
    Fault(IngestFault),
    NoLedger,
}

/// What is answered of the frame of `a` with the bytes `abc`.
pub const A: Answer = Answer::Stored {
    first: b'a',
    nodes: 1,
    length: 3,
};

// What is answered of the frame of `b` with no bytes.
const B: Answer = Answer::Stored {
    first: b'b',
    nodes: 0,
    length: 0,
};

// What the call answered.
fn answer_of(taken: Result<Ingest, IngestFault>) -> Answer {
    match taken {
        Ok(Ingest::Stored { name, stored }) => Answer::Stored {
            first: name.get(0).unwrap_or(0),
            nodes: stored.nodes,
            length: stored.length,
        },
        Ok(Ingest::End) => Answer::End,
        Err(fault) => Answer::Fault(fault),
    }
}

/// Opens the archive, and takes one frame, where at most 1,000 bytes are taken before it.
pub fn take_one<D: Disk>(
    alloc: Global,
    disk: &mut D,
    source: &mut MemSource,
    at: &mut u64,
) -> Answer {
    match open_ledger(alloc, disk) {
        Ok(mut ledger) => {
            if *at <= 1000 {
                answer_of(ingest_one(alloc, &mut ledger, disk, source, at))
            } else {
                Answer::NoLedger
            }
        }
        Err(_) => Answer::NoLedger,
    }
}

/// How many objects the archive has, and how many nodes; none where it is not opened.
pub fn count<D: Disk>(alloc: Global, disk: &mut D) -> Option<(usize, u32)> {
    match open_ledger(alloc, disk) {
        Ok(ledger) => Some((ledger.catalog().len(), ledger.lattice().n())),
        Err(_) => None,
    }
}

/// Takes one frame. It says whether the answer is the wanted one, and so many bytes are taken of the source then.
pub fn takes<D: Disk>(
    alloc: Global,
    disk: &mut D,
    source: &mut MemSource,
    at: &mut u64,
    want: Answer,
    taken: u64,
) -> bool {
    take_one(alloc, disk, source, at) == want && *at == taken
}

// Takes frames of the source, one after the other. It says whether the answers are these, and so many bytes are taken after each.
fn takes_each(
    alloc: Global,
    disk: &mut SureDisk,
    source: &mut MemSource,
    answers: &[(Answer, u64)],
) -> bool {
    let mut are_so = true;
    let mut at = 0;
    for (want, taken) in answers {
        are_so = are_so && takes(alloc, disk, source, &mut at, *want, *taken);
    }
    are_so
}

// The same of these bytes.
fn takes_all(alloc: Global, disk: &mut SureDisk, bytes: &[u8], answers: &[(Answer, u64)]) -> bool {
    match MemSource::new(alloc, bytes, &[]) {
        Ok(mut source) => takes_each(alloc, disk, &mut source, answers),
        Err(_) => false,
    }
}

// The same in a fresh archive.
fn takes_fresh(alloc: Global, shape: &Shape, bytes: &[u8], answers: &[(Answer, u64)]) -> bool {
    match fresh(alloc, 4, shape) {
        Some(mut disk) => takes_all(alloc, &mut disk, bytes, answers),
        None => false,
    }
}

// Whether two frames are stored, and the third one is cut.
fn are_two_stored(alloc: Global, disk: &mut SureDisk) -> bool {
    let bad = Answer::Fault(IngestFault::BadStream { at: 37 });
    takes_all(alloc, disk, CUT, &[(A, 14), (B, 25), (bad, 37)])
        && count(alloc, disk) == Some((2, 1))
}

#[test]
fn frames_are_stored_one_by_one(rt: HostRuntime) -> Result<(), Fail> {
    let mut disk = fresh(rt.alloc(), 4, &WIDE).ok_or("no archive")?;
    assert!(rt; are_two_stored(rt.alloc(), &mut disk));
    Ok(())
}

#[test]
fn the_end_is_before_a_frame(rt: HostRuntime) -> Result<(), Fail> {
    let answers = [(A, 14), (B, 25), (Answer::End, 25), (Answer::End, 25)];
    assert!(rt; takes_fresh(rt.alloc(), &WIDE, TWO, &answers));
    Ok(())
}

// What the first frame of two is where the stream is cut behind so many bytes, at most 14.
fn answer_at(cut: usize) -> Answer {
    if cut == 0 {
        Answer::End
    } else if cut == 14 {
        A
    } else {
        Answer::Fault(IngestFault::BadStream { at: cut as u64 })
    }
}

#[test]
fn a_stream_is_cut_at_each_byte(rt: HostRuntime) -> Result<(), Fail> {
    for cut in 0..=14usize {
        let answers = [(answer_at(cut), cut as u64)];
        assert!(rt;
            takes_fresh(rt.alloc(), &WIDE, &TWO[..cut], &answers),
            "{cut}"
        );
    }
    Ok(())
}

// Streams that are refused by their heads, with the bytes that are taken of each. An archive of AE(1) with blocks of 16 bytes can hold
// 1,048,576 bytes.
fn heads() -> [(&'static [u8], IngestFault, u64); 4] {
    [
        (b"\0\0", IngestFault::BadName, 2),
        (b"\x01\0abc", IngestFault::BadName, 2),
        (b"\0\x01\x7f\0\0\0\0\0\0\0\0", IngestFault::BadName, 11),
        (
            b"\0\x01a\0\0\0\0\0\x10\0\x01xyz",
            IngestFault::Full { nodes: 0 },
            11,
        ),
    ]
}

#[test]
fn heads_are_refused(rt: HostRuntime) -> Result<(), Fail> {
    for (bytes, fault, taken) in heads() {
        let answers = [(Answer::Fault(fault), taken)];
        assert!(rt;
            takes_fresh(rt.alloc(), &SMALL, bytes, &answers),
            "{bytes:?}"
        );
    }
    Ok(())
}

// A frame of `b` with one byte more than that archive can hold, and one of `a`.
const TOO_LONG: &[u8; 11] = b"\0\x01b\0\0\0\0\0\x0f\xff\xf1";

// Whether the head of these bytes is refused with this fault.
fn is_head_refused(alloc: Global, disk: &mut SureDisk, bytes: &[u8], fault: IngestFault) -> bool {
    takes_all(alloc, disk, bytes, &[(Answer::Fault(fault), 11)])
}

// Whether a frame is stored, refused since its name is taken, and another one since it is too long, or a head damaged.
fn are_refused(alloc: Global, disk: &mut SureDisk) -> bool {
    let block = BlockId {
        node: 1,
        class: Class::Horiz,
    };
    takes_all(alloc, disk, TWO, &[(A, 14)])
        && is_head_refused(alloc, disk, TWO, IngestFault::NameTaken)
        && is_head_refused(alloc, disk, TOO_LONG, IngestFault::Full { nodes: 1 })
        // h1, the last parity, is damaged
        && disk.write(1, 64, &[7; 64]).is_ok()
        && is_head_refused(alloc, disk, TOO_LONG, IngestFault::HeadDamaged { block })
}

#[test]
fn refusals_come_in_their_order(rt: HostRuntime) -> Result<(), Fail> {
    let mut disk = fresh(rt.alloc(), 1, &SMALL).ok_or("no archive")?;
    assert!(rt; are_refused(rt.alloc(), &mut disk));
    Ok(())
}

// Whether this read of a source fails, once so many bytes are taken, and nothing is stored.
fn is_read_fault(alloc: Global, disk: &mut SureDisk, read: u32, taken: u64) -> bool {
    let answers = [(Answer::Fault(IngestFault::ReadFault), taken)];
    match MemSource::new(alloc, TWO, &[read]) {
        Ok(mut source) => {
            takes_each(alloc, disk, &mut source, &answers) && count(alloc, disk) == Some((0, 0))
        }
        Err(_) => false,
    }
}

// The same in a fresh archive.
fn is_fault_at_read(alloc: Global, read: u32, taken: u64) -> bool {
    match fresh(alloc, 4, &WIDE) {
        Some(mut disk) => is_read_fault(alloc, &mut disk, read, taken),
        None => false,
    }
}

#[test]
fn each_read_fails(rt: HostRuntime) -> Result<(), Fail> {
    // how many bytes were taken before each read of the first frame
    for (read, taken) in [(1, 0), (2, 2), (3, 11)] {
        assert!(rt; is_fault_at_read(rt.alloc(), read, taken), "read {read}");
    }
    Ok(())
}
