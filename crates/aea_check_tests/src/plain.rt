//! A plain judge of reports, as docs/FORMATS.md has them: the lines as text, and the damaged blocks as a list.

use crate::lines::{Kind, Revealed, number_in, revealed_of, text_of_block};
use aea_lattice::{BlockId, Lattice};
use aea_plain::codeword;
use std::alloc::Global;

/// An archive that a report is about: its lattice, and the blocks that are damaged.
#[derive(Clone, Copy)]
pub struct Facts<'a> {
    pub lattice: &'a Lattice,
    pub damaged: &'a [BlockId],
}

// Why a report is rejected: the word that a check says, and the block of which it says it.
type Why = (&'static str, BlockId);

// The number of a block, none where the lattice has no such block.
fn number_of(lattice: &Lattice, b: BlockId) -> Option<u32> {
    lattice.contains(b).then(|| lattice.number(b))
}

// The least number that may come after this block.
fn number_after(lattice: &Lattice, b: BlockId) -> u32 {
    number_of(lattice, b).unwrap_or(0).saturating_add(1)
}

// Whether these are nodes of the lattice, one or more, each greater than the one before.
fn rise(lattice: &Lattice, nodes: &str) -> bool {
    let mut is_rising = true;
    let mut last = 0;
    for word in nodes.split(' ') {
        let node = number_in(word).unwrap_or(0);
        is_rising = is_rising && last < node && node <= lattice.n();
        last = node;
    }
    is_rising
}

// Whether a line may say this where the block of the one before it has a number below this one.
fn may_stand(lattice: &Lattice, least: u32, revealed: &Revealed) -> bool {
    match number_of(lattice, revealed.block) {
        Some(number) => {
            least <= number && (revealed.kind != Kind::Lost || rise(lattice, revealed.nodes))
        }
        None => false,
    }
}

// What this line says, none where it is no line of a report there.
fn read_line<'a>(lattice: &Lattice, least: u32, line: &'a str) -> Option<Revealed<'a>> {
    match revealed_of(line) {
        Some(revealed) if may_stand(lattice, least, &revealed) => Some(revealed),
        _ => None,
    }
}

// The number in the report of the first of these lines that is no line of a report where the block of the one before has a
// number; none where there is none.
fn first_bad(lattice: &Lattice, lines: &str) -> Option<usize> {
    let mut least = 0;
    for (k, line) in lines.lines().enumerate() {
        match read_line(lattice, least, line) {
            Some(revealed) => least = number_after(lattice, revealed.block),
            None => return Some(k.saturating_add(5)),
        }
    }
    None
}

// The damaged block with the least number in this range.
fn missing(facts: Facts, from: u32, to: u32) -> Option<BlockId> {
    for k in 0..facts.lattice.blocks() {
        let b = facts.lattice.block(k);
        if from <= k && k < to && facts.damaged.contains(&b) {
            return Some(b);
        }
    }
    None
}

// The codeword of these nodes. None where memory runs out.
fn word_of(alloc: Global, lattice: &Lattice, nodes: &str) -> Option<Vec<BlockId>> {
    let mut numbers = Vec::new(alloc);
    for word in nodes.split(' ') {
        numbers.push(number_in(word).unwrap_or(0)).ok()?;
    }
    codeword(alloc, lattice, numbers.as_slice()).ok()
}

// What is wrong with this word of a lost block.
fn wrong_in_word(facts: Facts, block: BlockId, word: &[BlockId]) -> Option<Why> {
    if word.contains(&block) {
        let intact = word.iter().find(|&b| !facts.damaged.contains(b));
        intact.map(|b| ("word-touches", *b))
    } else {
        Some(("word-misses", block))
    }
}

// What is wrong with the nodes of a lost block; "no-memory", which no check says, where memory runs out.
fn wrong_word(alloc: Global, facts: Facts, revealed: &Revealed) -> Option<Why> {
    match word_of(alloc, facts.lattice, revealed.nodes) {
        Some(word) => wrong_in_word(facts, revealed.block, word.as_slice()),
        None => Some(("no-memory", revealed.block)),
    }
}

// What is wrong with what a line says of its block.
fn wrong_block(alloc: Global, facts: Facts, revealed: &Revealed) -> Option<Why> {
    let is_damaged = facts.damaged.contains(&revealed.block);
    match revealed.kind {
        Kind::Lost if is_damaged => wrong_word(alloc, facts, revealed),
        Kind::Lost => Some(("not-damaged", revealed.block)),
        _ if is_damaged => Some(("still-bad", revealed.block)),
        _ => None,
    }
}

// What is wrong with a line where the block of the one before has a number below this.
fn wrong_line(alloc: Global, facts: Facts, least: u32, revealed: &Revealed) -> Option<Why> {
    let number = number_of(facts.lattice, revealed.block).unwrap_or(0);
    match missing(facts, least, number) {
        Some(b) => Some(("missing", b)),
        None => wrong_block(alloc, facts, revealed),
    }
}

// What is wrong with this line, which is one of a report, where the block of the one before has a number below this; and the
// least number that may come after it.
fn wrong_and_next(alloc: Global, facts: Facts, least: u32, line: &str) -> (Option<Why>, u32) {
    match revealed_of(line) {
        Some(revealed) => (
            wrong_line(alloc, facts, least, &revealed),
            number_after(facts.lattice, revealed.block),
        ),
        None => (None, least),
    }
}

// The first of these lines of a report that is wrong, and why.
fn first_wrong(alloc: Global, facts: Facts, lines: &str) -> Option<(usize, Why)> {
    let mut least = 0;
    for (k, line) in lines.lines().enumerate() {
        let (wrong, next) = wrong_and_next(alloc, facts, least, line);
        if let Some(why) = wrong {
            return Some((k.saturating_add(5), why));
        }
        least = next;
    }
    let behind = lines.lines().count().saturating_add(5);
    missing(facts, least, facts.lattice.blocks()).map(|b| (behind, ("missing", b)))
}

// Whether this line is of this kind.
fn is_of(line: &str, kind: Kind) -> bool {
    revealed_of(line).is_some_and(|revealed| revealed.kind == kind)
}

// How many of the lines are of this kind.
fn count(lines: &str, kind: Kind) -> usize {
    lines.lines().filter(|line| is_of(line, kind)).count()
}

// What a check says of these lines of a report, which are right, behind this line of counts.
fn verdict_on_counts(alloc: Global, counts: &str, lines: &str) -> Option<String> {
    let (all, peeled) = (lines.lines().count(), count(lines, Kind::Peeled));
    let (solved, lost) = (count(lines, Kind::Solved), count(lines, Kind::Lost));
    let right = format!(in alloc; "counts {all} {peeled} {solved} {lost}").ok()?;
    let text = if counts == right.as_str() {
        "accepted\n"
    } else {
        "rejected 4 wrong-count\n"
    };
    String::from_str(alloc, text).ok()
}

// What a check says of a report that it rejects at this line.
fn rejection(alloc: Global, line: usize, why: Why) -> Option<String> {
    let (word, b) = why;
    let block = text_of_block(alloc, b)?;
    format!(in alloc; "rejected {line} {word} {block}\n").ok()
}

// What a check says where the lines after the fourth one are these, which are lines of a report.
fn verdict_on(alloc: Global, facts: Facts, counts: &str, lines: &str) -> Option<String> {
    match first_wrong(alloc, facts, lines) {
        Some((line, why)) => rejection(alloc, line, why),
        None => verdict_on_counts(alloc, counts, lines),
    }
}

/// What a check says of the report with the head of this archive, this fourth line, which is a line of counts, and these lines
/// after it. None where memory runs out.
pub fn plain_verdict(alloc: Global, facts: Facts, counts: &str, lines: &str) -> Option<String> {
    match first_bad(facts.lattice, lines) {
        Some(line) => format!(in alloc; "refused: bad line {line}\n").ok(),
        None => verdict_on(alloc, facts, counts, lines),
    }
}
