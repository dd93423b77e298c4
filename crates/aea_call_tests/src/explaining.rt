//! Explained blocks: in words, and beside the fates of the whole lattice; and each read failing in turn.

ghost use Rattle.aea_lattice.specs.Blocks.{HasBlock};

use crate::archives::{Failing, archive, open_to_fail, store};
use aea_disk::{Disk, SureDisk};
use aea_explain::{ExplainFault, explain};
use aea_gauss::{Fate, FateList, solve};
use aea_lattice::{BlockId, Class, EqList, NodeList, Shape, parse_block};
use aea_ledger::{Ledger, open_ledger};
use aea_scrub::scan;
use aea_test_helpers::{NINETEEN, PLAIN, WIDE, WOVEN, shorten, spoil_block};
use std::alloc::Global;
use std::test::Fail;

// The bytes of an object that takes eleven blocks.
const BYTES: [u8; 176] = [97; 176];

// Sets a fence after the last node; false where it could not be set.
fn fence<D: Disk>(alloc: Global, disk: &mut D) -> bool {
    match open_ledger(alloc, disk) {
        Ok(mut ledger) => ledger.append_fence(disk).is_ok(),
        Err(_) => false,
    }
}

// An archive of the shape with two objects of these bytes, and a fence between them.
fn fenced(alloc: Global, shape: &Shape, bytes: &[u8]) -> Option<SureDisk> {
    let mut disk = archive(alloc, shape, bytes)?;
    let is_fenced = fence(alloc, &mut disk) && store(alloc, &mut disk, b"two", bytes);
    is_fenced.then_some(disk)
}

// Flips the first payload byte of each block of these numbers. It says whether they are there.
fn spoil_blocks<D: Disk>(disk: &mut D, shape: &Shape, numbers: &[u32]) -> bool {
    let mut are_there = true;
    for number in numbers {
        are_there = are_there && spoil_block(disk, shape, *number) == Ok(true);
    }
    are_there
}

// An archive of the shape in which the blocks of these numbers are damaged.
fn damaged_archive(
    alloc: Global,
    shape: &Shape,
    bytes: &[u8],
    numbers: &[u32],
) -> Option<SureDisk> {
    let mut disk = archive(alloc, shape, bytes)?;
    spoil_blocks(&mut disk, shape, numbers).then_some(disk)
}

// Writes the equations of a sum after a text; false where memory runs out, here and below.
fn write_sum(text: &mut String, eqs: &EqList) -> bool {
    let mut is_written = text.push_str(" sum").is_ok();
    for k in 0..eqs.len() {
        if let Some(e) = eqs.get(k) {
            let letter = char::from(e.class.letter());
            is_written = is_written && write!(text, " {letter}{}", e.node).is_ok();
        }
    }
    is_written
}

// Writes the nodes of a codeword after a text.
fn write_word(text: &mut String, nodes: &NodeList) -> bool {
    let mut is_written = text.push_str(" word").is_ok();
    for k in 0..nodes.len() {
        if let Some(node) = nodes.get(k) {
            is_written = is_written && write!(text, " {node}").is_ok();
        }
    }
    is_written
}

// Writes a fate after a text.
fn write_fate(text: &mut String, fate: &Fate) -> bool {
    match fate {
        Fate::Sum { block: _, eqs } => write_sum(text, eqs),
        Fate::Word { block: _, nodes } => write_word(text, nodes),
    }
}

// An explanation in words, with the block that it is of; none where memory runs out.
fn words(alloc: Global, intact: bool, fate: &Fate) -> Option<String> {
    let mut text = String::new(alloc);
    let block = fate.block();
    let is = if intact { "intact" } else { "damaged" };
    let letter = char::from(block.class.letter());
    let is_written = write!(text, "{is} {letter}{}", block.node).is_ok()
        && write_fate(&mut text, fate);
    is_written.then_some(text)
}

// The explanation in words of the block by the fates of all blocks that are not known; none where it is none of them.
fn listed(alloc: Global, intact: bool, fates: &FateList, block: BlockId) -> Option<String> {
    for k in 0..fates.len() {
        if let Some(fate) = fates.get(k) {
            if fate.block() == block {
                return words(alloc, intact, fate);
            }
        }
    }
    None
}

// The explanation in words that the fates of the whole lattice give of the block; none where there is none.
fn solved<D: Disk>(alloc: Global, ledger: &Ledger, disk: &mut D, block: BlockId) -> Option<String>
    requires { HasBlock ledger.now.lattice block }
{
    let mut marks = scan(alloc, ledger, disk).ok()?;
    let intact = marks.get(block);
    marks.set(block, false);
    let fates = solve(alloc, &ledger.lattice(), &marks).ok()?;
    listed(alloc, intact, &fates, block)
}

// Whether the explanation of the block in words is this one.
fn has_words<D: Disk>(
    alloc: Global,
    ledger: &Ledger,
    disk: &mut D,
    block: BlockId,
    want: &str,
) -> bool
    requires { HasBlock ledger.now.lattice block }
{
    match explain(alloc, ledger, disk, block) {
        Ok(e) => words(alloc, e.intact, &e.fate).is_some_and(|text| text.as_str() == want),
        Err(_) => false,
    }
}

// Whether the archive has the block, and its explanation in words is this one.
fn explains<D: Disk>(alloc: Global, disk: &mut D, block: BlockId, want: &str) -> bool {
    match open_ledger(alloc, disk) {
        Ok(ledger) => {
            ledger.lattice().contains(block) && has_words(alloc, &ledger, disk, block, want)
        }
        Err(_) => false,
    }
}

// Whether the block of this text is explained by these words.
fn is_explained<D: Disk>(alloc: Global, disk: &mut D, text: &str, want: &str) -> bool {
    match parse_block(text.as_bytes()) {
        Some(block) => explains(alloc, disk, block, want),
        None => false,
    }
}

// Whether the text is of a block that the archive of this ledger does not have.
fn lacks(ledger: &Ledger, text: &str) -> bool {
    match parse_block(text.as_bytes()) {
        Some(block) => !ledger.lattice().contains(block),
        None => false,
    }
}

// The same of the archive on the disk.
fn is_absent<D: Disk>(alloc: Global, disk: &mut D, text: &str) -> bool {
    open_ledger(alloc, disk).is_ok_and(|ledger| lacks(&ledger, text))
}

// Whether the explanation of the block is the one that the fates of the whole lattice give.
fn agrees<D: Disk>(alloc: Global, ledger: &Ledger, disk: &mut D, block: BlockId) -> bool
    requires { HasBlock ledger.now.lattice block }
{
    match solved(alloc, ledger, disk, block) {
        Some(want) => has_words(alloc, ledger, disk, block, want.as_str()),
        None => false,
    }
}

// Whether there are so many blocks, and each explanation is the one that the fates of the whole lattice give.
fn each_agrees<D: Disk>(alloc: Global, ledger: &Ledger, disk: &mut D, blocks: u32) -> bool {
    let lattice = ledger.lattice();
    let mut are_alike = lattice.blocks() == blocks;
    for k in 0..lattice.blocks() {
        are_alike = are_alike && agrees(alloc, ledger, disk, lattice.block(k));
    }
    are_alike
}

// The same of the archive on the disk.
fn all_agree<D: Disk>(alloc: Global, disk: &mut D, blocks: u32) -> bool {
    match open_ledger(alloc, disk) {
        Ok(ledger) => each_agrees(alloc, &ledger, disk, blocks),
        Err(_) => false,
    }
}

// Blocks of an archive of which nineteen blocks are damaged, and their explanations in words.
fn explanations() -> [(&'static str, &'static str); 4] {
    [
        ("d5", "damaged d5 sum h1 r1 h3 r3 h4 r4 h5 h6 r6"),
        ("d1", "damaged d1 word 1 3 4 6"),
        ("d9", "damaged d9 word 8 9 10 11"),
        ("d2", "intact d2 sum h2"),
    ]
}

// The first of these blocks that is not explained so. All blocks come last, and before them that there is no twelfth datum.
fn first_unexplained(alloc: Global, disk: &mut SureDisk) -> Option<&'static str> {
    for (block, want) in explanations() {
        if !is_explained(alloc, disk, block, want) {
            return Some(block);
        }
    }
    let are_all = is_absent(alloc, disk, "d12") && all_agree(alloc, disk, 33);
    (!are_all).then_some("all")
}

#[test]
fn blocks_of_two_codewords(rt: HostRuntime) -> Result<(), Fail> {
    let mut disk = damaged_archive(rt.alloc(), &WOVEN, &BYTES, &NINETEEN).ok_or("no archive")?;
    let wrong = first_unexplained(rt.alloc(), &mut disk);
    assert!(rt; wrong == None, "{wrong:?}");
    Ok(())
}

// Whether a datum and a parity are explained by an equation, and all blocks, so many, as the fates of the whole lattice say.
fn are_explained(alloc: Global, disk: &mut SureDisk, blocks: u32) -> bool {
    is_explained(alloc, disk, "d5", "intact d5 sum h5")
        && is_explained(alloc, disk, "h11", "intact h11 sum h11")
        && all_agree(alloc, disk, blocks)
}

// The same of an undamaged archive of the shape.
fn are_explained_of(alloc: Global, shape: &Shape) -> bool {
    match archive(alloc, shape, &BYTES) {
        Some(mut disk) => are_explained(alloc, &mut disk, 11 * (1 + u32::from(shape.alpha))),
        None => false,
    }
}

#[test]
fn an_undamaged_archive(rt: HostRuntime) -> Result<(), Fail> {
    for shape in [PLAIN, WOVEN, WIDE] {
        assert!(rt; are_explained_of(rt.alloc(), &shape));
    }
    Ok(())
}

// Damages some of so many blocks, here and there. It says whether they are there.
fn spoil_some<D: Disk>(disk: &mut D, shape: &Shape, blocks: u32) -> bool {
    let mut are_there = true;
    for k in 0..blocks {
        if k.wrapping_mul(k) % 7 < 3 {
            are_there = are_there && spoil_block(disk, shape, k) == Ok(true);
        }
    }
    are_there
}

// Whether all blocks of two objects are explained as the fates of the whole lattice say, where some are damaged.
fn agree_beside_damage(alloc: Global, shape: &Shape) -> bool {
    let blocks = 22 * (1 + u32::from(shape.alpha));
    match fenced(alloc, shape, &BYTES) {
        Some(mut disk) => {
            spoil_some(&mut disk, shape, blocks) && all_agree(alloc, &mut disk, blocks)
        }
        None => false,
    }
}

#[test]
fn damage_here_and_there(rt: HostRuntime) -> Result<(), Fail> {
    for shape in [PLAIN, WOVEN, WIDE] {
        assert!(rt; agree_beside_damage(rt.alloc(), &shape));
    }
    Ok(())
}

// Whether all blocks are explained as the fates of the whole lattice say once the bytes of this file are gone.
fn agree_without(alloc: Global, disk: &mut SureDisk, file: u8) -> bool {
    shorten(disk, file, 0) == Ok(true) && all_agree(alloc, disk, 33)
}

// The first of three files without which they are not, one gone after the other. The last datum comes last, where nothing is left.
fn first_missed(alloc: Global, disk: &mut SureDisk) -> Option<&'static str> {
    for (file, name) in [(1, "file 1"), (2, "file 2"), (3, "file 3")] {
        if !agree_without(alloc, disk, file) {
            return Some(name);
        }
    }
    let is_last = is_explained(alloc, disk, "d11", "damaged d11 word 3 11");
    (!is_last).then_some("d11")
}

#[test]
fn files_that_are_missing(rt: HostRuntime) -> Result<(), Fail> {
    let mut disk = archive(rt.alloc(), &WOVEN, &BYTES).ok_or("no archive")?;
    let wrong = first_missed(rt.alloc(), &mut disk);
    assert!(rt; wrong == None, "{wrong:?}");
    Ok(())
}

// Whether the archive has the block, and explaining it ends so on a disk of which this read fails, counted from 1 once the archive is
// opened.
fn ends_on(
    alloc: Global,
    disk: SureDisk,
    block: BlockId,
    read: u64,
    want: Option<ExplainFault>,
) -> bool {
    match open_to_fail(alloc, disk, read) {
        Some(Failing { ledger, mut disk }) => {
            ledger.lattice().contains(block)
                && explain(alloc, &ledger, &mut disk, block).err() == want
        }
        None => false,
    }
}

// The same of a parity of an archive of two nodes.
fn ends(alloc: Global, read: u64, want: Option<ExplainFault>) -> bool {
    let block = BlockId {
        node: 2,
        class: Class::Horiz,
    };
    match archive(alloc, &PLAIN, &[97; 32]) {
        Some(disk) => ends_on(alloc, disk, block, read, want),
        None => false,
    }
}

#[test]
fn a_read_that_fails_is_a_fault(rt: HostRuntime) -> Result<(), Fail> {
    for k in 1..=5u64 {
        let want = if k <= 3 {
            Some(ExplainFault::DiskFault)
        } else {
            None
        };
        assert!(rt; ends(rt.alloc(), k, want), "read {k}");
    }
    Ok(())
}

// The same of the datum of node 150 of an archive of 300 nodes, in which the blocks of these numbers are damaged.
fn ends_inside(
    alloc: Global,
    bytes: &[u8],
    damaged: &[u32],
    read: u64,
    want: Option<ExplainFault>,
) -> bool {
    let block = BlockId {
        node: 150,
        class: Class::Datum,
    };
    match damaged_archive(alloc, &WIDE, bytes, damaged) {
        Some(disk) => ends_on(alloc, disk, block, read, want),
        None => false,
    }
}

// Whether explaining that datum reads so many cells: the last of these reads is made, and no other one.
fn takes_reads(alloc: Global, bytes: &[u8], damaged: &[u32], reads: u64) -> bool {
    let next = reads.saturating_add(1);
    ends_inside(alloc, bytes, damaged, reads, Some(ExplainFault::DiskFault))
        && ends_inside(alloc, bytes, damaged, next, None)
}

// Damaged blocks, and how many cells are read beside them. The blocks of a node have four numbers, its datum and its parities:
// those of node 150 begin with 596.
fn readings() -> [(&'static [u32], u64); 4] {
    [
        // the datum and six parities
        (&[], 7),
        (&[596], 7),
        // beside them the two of the next equation of a damaged parity
        (&[596, 597], 9),
        // a damaged block elsewhere is not read
        (&[596, 9, 777], 7),
    ]
}

#[test]
fn only_cells_around_a_part_are_read(rt: HostRuntime) -> Result<(), Fail> {
    let bytes = vec![in rt.alloc(); 97; 4800]?;
    for (damaged, reads) in readings() {
        assert!(rt;
            takes_reads(rt.alloc(), bytes.as_slice(), damaged, reads),
            "{damaged:?}, {reads} reads"
        );
    }
    Ok(())
}
