//! Cells that change while an object is got or fetched.

use crate::clashes::line_of_payloads;
use crate::pages::{Change, ends_changed};
use aea_cli::Status;
use aea_runs::{PAGE, bytes_of_pages};
use std::alloc::Global;
use std::test::Fail;

// The bytes of a block.
const BLOCK: usize = 4096;

// The read from which on cells are changed for a get, its status and line, and how many of so many bytes are written: 49 cells are
// read in each pass, the first read of the second pass is the 50th, and a page that is full is written when the next block comes.
fn changes(long: usize) -> [(u64, Status, &'static str, usize); 7] {
    [
        (1, Status::Refused, "refused: damaged d1\n", 0),
        (49, Status::Refused, "refused: damaged d49\n", 0),
        (50, Status::Refused, "refused: damaged d1\n", 0),
        (66, Status::Refused, "refused: damaged d17\n", 0),
        (67, Status::Refused, "refused: damaged d18\n", PAGE),
        (98, Status::Refused, "refused: damaged d49\n", 2 * PAGE),
        (99, Status::Done, "", long),
    ]
}

// The change of the first byte of what is read, from this read of a cell on.
fn from_read(from: u64) -> Change {
    Change {
        is_damaged: false,
        byte: 0,
        from,
    }
}

#[test]
fn a_cell_that_changes_between_the_passes_is_damaged(rt: HostRuntime) -> Result<(), Fail> {
    let bytes = bytes_of_pages(rt.alloc())?;
    for (from, status, line, written) in changes(bytes.len()) {
        let (change, want) = (from_read(from), (status, line, written));
        assert!(rt;
            ends_changed(rt.alloc(), "get pages", bytes.as_slice(), change, want),
            "{from}"
        );
    }
    Ok(())
}

// The payload of the datum of this node of the object of these bytes, whose fifth byte is flipped in these bits.
fn payload_of(alloc: Global, bytes: &[u8], node: u32, bits: u8) -> Option<Vec<u8>> {
    let datum = bytes.chunks(BLOCK).nth((node as usize).saturating_sub(1))?;
    let mut payload = Vec::from_slice(alloc, datum).ok()?;
    let is_whole = payload.resize(BLOCK, 0).is_ok();
    if let Some(byte) = payload.as_mut_slice().get_mut(4) {
        *byte ^= bits;
    }
    is_whole.then_some(payload)
}

// The line of the clash of the block of this node and class, whose payload is the datum of the node, where the fifth byte of the
// payload is flipped in its last bit.
fn line_of_changed(
    alloc: Global,
    bytes: &[u8],
    block: &str,
    class: u8,
    node: u32,
) -> Option<String> {
    let recorded = payload_of(alloc, bytes, node, 0)?;
    let computed = payload_of(alloc, bytes, node, 1)?;
    let payloads = (recorded.as_slice(), computed.as_slice());
    line_of_payloads(alloc, block, class, u64::from(node), payloads)
}

// Whether a fetch of the object ends with this status and line, and with this many bytes of it, where d1 is damaged if it says so,
// and a payload byte of what is read is flipped from this read of a cell on.
fn fetch_ends(
    alloc: Global,
    bytes: &[u8],
    is_damaged: bool,
    from: u64,
    want: (Status, &str, usize),
) -> bool {
    let change = Change {
        is_damaged,
        byte: 20,
        from,
    };
    ends_changed(alloc, "fetch pages", bytes, change, want)
}

// Whether d1 is damaged, the read of a cell from which on they are changed, the block of the clash with its class and node, and how
// many bytes are on the output then.
type Clash = (bool, u64, &'static str, u8, u32, usize);

// The 49 cells of the object are read in each pass; where d1 is damaged h1 is read after them and once more when d1 is computed, and
// in the second pass in the place of d1. A page that is full is written when the next block comes.
fn clashes() -> [Clash; 9] {
    [
        (false, 50, "d1", 0, 1, 0),
        (false, 66, "d17", 0, 17, 0),
        (false, 67, "d18", 0, 18, PAGE),
        (false, 98, "d49", 0, 49, 2 * PAGE),
        (true, 51, "h1", 1, 1, 0),
        (true, 52, "h1", 1, 1, 0),
        (true, 53, "d2", 0, 2, 0),
        (true, 69, "d18", 0, 18, PAGE),
        (true, 100, "d49", 0, 49, 2 * PAGE),
    ]
}

// Whether such a fetch is a clash with the line of the block, and has written this many bytes of the object.
fn is_clash_of(alloc: Global, bytes: &[u8], clash: Clash) -> bool {
    let (is_damaged, from, block, class, node, written) = clash;
    match line_of_changed(alloc, bytes, block, class, node) {
        Some(line) => {
            let want = (Status::Clash, line.as_str(), written);
            fetch_ends(alloc, bytes, is_damaged, from, want)
        }
        None => false,
    }
}

#[test]
fn a_cell_that_changes_between_the_passes_is_a_clash(rt: HostRuntime) -> Result<(), Fail> {
    let bytes = bytes_of_pages(rt.alloc())?;
    for clash in clashes() {
        let (is_damaged, from, ..) = clash;
        assert!(rt;
            is_clash_of(rt.alloc(), bytes.as_slice(), clash),
            "{is_damaged} {from}"
        );
    }
    Ok(())
}

// Whether d1 is damaged, the read from which on cells are changed, the status, the line, and how many bytes are on the output.
type Other = (bool, u64, Status, &'static str, usize);

// Fetches of so many bytes over cells that change at a read: before they begin, within them, or after they have ended.
fn others(long: usize) -> [Other; 6] {
    let (first, last) = (
        "refused: undetermined d1 by 1 2\n",
        "refused: undetermined d49 by 49\n",
    );
    let (both, alone) = (
        "refused: undetermined d1 by 1 49\n",
        "refused: undetermined d1 by 1\n",
    );
    [
        (false, 99, Status::Done, "", long),
        (true, 101, Status::Done, "", long),
        (false, 1, Status::Refused, first, 0),
        (false, 49, Status::Refused, last, 0),
        (true, 49, Status::Refused, both, 0),
        (true, 50, Status::Refused, alone, 0),
    ]
}

#[test]
fn cells_that_change_before_it_are_damaged(rt: HostRuntime) -> Result<(), Fail> {
    let bytes = bytes_of_pages(rt.alloc())?;
    for (is_damaged, from, status, line, written) in others(bytes.len()) {
        let want = (status, line, written);
        assert!(rt;
            fetch_ends(rt.alloc(), bytes.as_slice(), is_damaged, from, want),
            "{is_damaged} {from}"
        );
    }
    Ok(())
}
