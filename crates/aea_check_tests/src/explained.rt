//! What `explain` says of each block of damaged archives, against drills and plain sums.

use crate::archives::{archive_with, run_explain};
use crate::lines::{text_in, text_of_block};
use aea_disk::SureDisk;
use aea_lattice::{BlockId, EqId, Lattice, parse_block};
use aea_plain::sum;
use aea_runs::{run_line, text_of};
use aea_test_helpers::{NINETEEN, spoil_cell};
use std::alloc::Global;
use std::test::Fail;

// What is known of a damaged archive on three sites whose blocks have 16 bytes: the line of its drill, its lattice, and the
// blocks that are damaged.
#[derive(Drop)]
struct Damaged {
    drill: &'static str,
    lattice: Lattice,
    damaged: Vec<BlockId>,
}

// Damages the blocks with these numbers. The answer is these blocks.
fn spoil_blocks(
    alloc: Global,
    disk: &mut SureDisk,
    lattice: &Lattice,
    numbers: &[u32],
) -> Option<Vec<BlockId>> {
    let mut blocks = Vec::new(alloc);
    let mut goes_on = true;
    for k in 0..lattice.blocks() {
        if numbers.contains(&k) {
            goes_on = goes_on
                && spoil_cell(disk, 3, 64, k, 20).is_ok()
                && blocks.push(lattice.block(k)).is_ok();
        }
    }
    goes_on.then_some(blocks)
}

// Makes the archive of these two lines, which make and drill it, and damages the blocks with these numbers.
fn make_damaged(
    alloc: Global,
    lines: (&str, &'static str),
    lattice: Option<Lattice>,
    numbers: &[u32],
) -> Option<(SureDisk, Damaged)> {
    let (line, drill) = lines;
    let lattice = lattice?;
    let count = lattice.n().min(1_000).saturating_mul(16);
    let mut disk = archive_with(alloc, line, count)?;
    let damaged = spoil_blocks(alloc, &mut disk, &lattice, numbers)?;
    let known = Damaged {
        drill,
        lattice,
        damaged,
    };
    Some((disk, known))
}

// Adds the line of this block behind the list.
fn add_block(alloc: Global, list: &mut String, block: BlockId) -> bool {
    match text_of_block(alloc, block) {
        Some(text) => write!(list, "\n{text}").is_ok(),
        None => false,
    }
}

// The damage list of the block with this text beside what is damaged.
fn list_with(alloc: Global, known: &Damaged, text: &str) -> Option<String> {
    let mut list = String::from_str(alloc, text).ok()?;
    let mut goes_on = true;
    for b in known.damaged.iter() {
        goes_on = goes_on && add_block(alloc, &mut list, *b);
    }
    goes_on.then_some(list)
}

// The report of the drill where the block with this text is lost beside what is damaged.
fn drilled(alloc: Global, known: &Damaged, text: &str) -> Option<String> {
    let list = list_with(alloc, known, text)?;
    match run_line(alloc, known.drill, list.as_bytes()) {
        Ok(left) => text_in(alloc, left.out.bytes()),
        Err(_) => None,
    }
}

// Whether this line of a report is that of the block with this text.
fn is_line_of(line: &str, text: &str) -> bool {
    let mut words = line.split(' ');
    let _kind = words.next();
    words.next() == Some(text)
}

// The line of the block with this text in a report.
fn line_in(alloc: Global, report: &str, text: &str) -> Option<String> {
    let line = report.lines().find(|line| is_line_of(line, text))?;
    String::from_str(alloc, line).ok()
}

// The line of the block with this text in the drill where it is lost beside what is damaged.
fn drilled_line(alloc: Global, known: &Damaged, text: &str) -> Option<String> {
    match drilled(alloc, known, text) {
        Some(report) => line_in(alloc, report.as_str(), text),
        None => None,
    }
}

// The equations that these words name by their parities, none where a word names none.
fn equations_of(alloc: Global, text: &str) -> Option<Vec<EqId>> {
    let mut equations = Vec::new(alloc);
    for word in text.split(' ') {
        let BlockId { node, class } = parse_block(word.as_bytes())?;
        equations.push(EqId { node, class }).ok()?;
    }
    Some(equations)
}

// The blocks that these equations add up to.
fn sum_of(alloc: Global, lattice: &Lattice, text: &str) -> Option<Vec<BlockId>> {
    match equations_of(alloc, text) {
        Some(equations) => sum(alloc, lattice, equations.as_slice()).ok(),
        None => None,
    }
}

// Whether the equations add up to the block, and to others that are intact alone.
fn gives(alloc: Global, known: &Damaged, block: BlockId, text: &str) -> bool {
    match sum_of(alloc, &known.lattice, text) {
        Some(blocks) => {
            blocks.as_slice().contains(&block)
                && blocks
                    .iter()
                    .all(|b| *b == block || !known.damaged.as_slice().contains(b))
        }
        None => false,
    }
}

// Whether this line is that of the word of these nodes.
fn is_word(alloc: Global, line: &str, nodes: &str) -> bool {
    format!(in alloc; "word {nodes}\n").is_ok_and(|word| line == word.as_str())
}

// Whether this line says of the block with this text that it is damaged, or intact.
fn stands_so(alloc: Global, line: &str, is_damaged: bool, text: &str) -> bool {
    let standing = if is_damaged { "damaged" } else { "intact" };
    format!(in alloc; "{standing} {text}").is_ok_and(|want| line == want.as_str())
}

// Whether this second line about a block goes with its line of the drill: a sum where the drill brings it back, and the drill's
// nodes where it is lost.
fn goes_with(alloc: Global, known: &Damaged, block: BlockId, second: &str, drilled: &str) -> bool {
    match drilled.split_once(" by ") {
        Some((_lost, nodes)) => is_word(alloc, second, nodes),
        None => match second.strip_prefix("sum ") {
            Some(rest) => gives(alloc, known, block, rest.trim_end()),
            None => false,
        },
    }
}

// Whether what is said of the block with this text is so.
fn is_so(alloc: Global, known: &Damaged, block: BlockId, text: &str, revealed: &str) -> bool {
    let is_damaged = known.damaged.as_slice().contains(&block);
    match (drilled_line(alloc, known, text), revealed.split_once('\n')) {
        (Some(line), Some((first, second))) => {
            stands_so(alloc, first, is_damaged, text)
                && goes_with(alloc, known, block, second, line.as_str())
        }
        _ => false,
    }
}

// Whether what `explain` says of the block with this text is so.
fn is_text_explained(
    alloc: Global,
    disk: &mut SureDisk,
    known: &Damaged,
    block: BlockId,
    text: &str,
) -> bool {
    match run_explain(alloc, disk, text) {
        Ok(left) => text_of(left.out.bytes()).is_ok_and(|revealed| is_so(
            alloc, known, block, text, revealed,
        )),
        Err(_) => false,
    }
}

// The same of the block.
fn is_explained(alloc: Global, disk: &mut SureDisk, known: &Damaged, block: BlockId) -> bool {
    match text_of_block(alloc, block) {
        Some(text) => is_text_explained(alloc, disk, known, block, text.as_str()),
        None => false,
    }
}

// The same of each block.
fn are_explained(alloc: Global, disk: &mut SureDisk, known: &Damaged) -> bool {
    let lattice = known.lattice;
    let mut goes_on = true;
    for k in 0..lattice.blocks() {
        goes_on = goes_on && is_explained(alloc, disk, known, lattice.block(k));
    }
    goes_on
}

// The same in the archive of these two lines, which make and drill it, once the blocks with these numbers are damaged.
fn are_explained_in(
    alloc: Global,
    lines: (&str, &'static str),
    lattice: Option<Lattice>,
    numbers: &[u32],
) -> bool {
    match make_damaged(alloc, lines, lattice, numbers) {
        Some((mut disk, known)) => are_explained(alloc, &mut disk, &known),
        None => false,
    }
}

#[test]
fn each_block_of_a_chain_is_explained(rt: HostRuntime) -> Result<(), Fail> {
    let lines = ("create 1 1 0 16 3", "drill 1 1 0 8");
    for numbers in [[20u32, 20], [4, 5], [5, 6], [8, 11], [0, 15]] {
        let lattice = Lattice::new(1, 1, 0, 8);
        assert!(rt;
            are_explained_in(rt.alloc(), lines, lattice, &numbers),
            "{numbers:?}"
        );
    }
    Ok(())
}

#[test]
fn each_block_around_two_codewords_is_explained(rt: HostRuntime) -> Result<(), Fail> {
    let lines = ("create 2 2 2 16 3", "drill 2 2 2 11");
    let lattice = Lattice::new(2, 2, 2, 11);
    assert!(rt; are_explained_in(rt.alloc(), lines, lattice, &NINETEEN));
    Ok(())
}

#[test]
fn each_block_of_three_classes_is_explained(rt: HostRuntime) -> Result<(), Fail> {
    let lines = ("create 3 2 5 16 3", "drill 3 2 5 12");
    let lattice = Lattice::new(3, 2, 5, 12);
    // a third of the blocks, and the whole last node
    let numbers = [
        0, 3, 5, 8, 11, 13, 16, 18, 22, 25, 27, 30, 33, 36, 39, 44, 45, 46, 47,
    ];
    assert!(rt; are_explained_in(rt.alloc(), lines, lattice, &numbers));
    Ok(())
}
