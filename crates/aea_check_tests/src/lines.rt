//! Lines of reports as text, and changes of single ones. Where memory runs out, each answer here is no, or none.

use aea_lattice::{BlockId, parse_block, print_block};
use aea_runs::text_of;
use std::alloc::Global;

/// What a line of a report says of its block.
#[derive(Clone, Copy, PartialEq, Eq)]
pub enum Kind {
    Peeled,
    Solved,
    Lost,
}

/// A line of a report. Only a lost block has nodes: their numbers, parted by spaces.
#[derive(Clone, Copy)]
pub struct Revealed<'a> {
    pub kind: Kind,
    pub block: BlockId,
    pub nodes: &'a str,
}

/// The number of this decimal text, none where it has no digit or another byte; 4,294,967,295 where it is too large.
pub fn number_in(text: &str) -> Option<u32> {
    let mut number = 0u32;
    let mut is_number = !text.is_empty();
    for digit in text.as_bytes() {
        is_number = is_number && b'0' <= *digit && *digit <= b'9';
        number = number
            .saturating_mul(10)
            .saturating_add(u32::from(digit.wrapping_sub(b'0')));
    }
    is_number.then_some(number)
}

// Whether this text is of numbers, parted by spaces.
fn are_numbers(text: &str) -> bool {
    text.split(' ').all(|word| number_in(word).is_some())
}

// A line of this kind about the block with this text, none where this is no block.
fn revealed_with<'a>(kind: Kind, text: &str, nodes: &'a str) -> Option<Revealed<'a>> {
    let block = parse_block(text.as_bytes())?;
    Some(Revealed { kind, block, nodes })
}

// What the line of a lost block says behind its first word.
fn lost_of(rest: &str) -> Option<Revealed<'_>> {
    match rest.split_once(" by ") {
        Some((text, nodes)) if are_numbers(nodes) => revealed_with(Kind::Lost, text, nodes),
        _ => None,
    }
}

/// What this line says, none where it is no line of a report. It is not looked at here whether the lattice has its block and its
/// nodes, and whether these rise.
pub fn revealed_of(line: &str) -> Option<Revealed<'_>> {
    let (word, rest) = line.split_once(' ')?;
    match word {
        "peeled" => revealed_with(Kind::Peeled, rest, ""),
        "solved" => revealed_with(Kind::Solved, rest, ""),
        "lost" => lost_of(rest),
        _ => None,
    }
}

/// How a text is changed at one of its lines.
#[derive(Clone, Copy)]
pub enum Change<'a> {
    LeftOut,
    Doubled,
    ExchangedWithNext,
    ReplacedBy(&'a str),
}

// Adds a line, changed, where the next one is this.
fn add_changed(text: &mut String, line: &str, next: Option<&str>, change: Change) -> bool {
    let written = match change {
        Change::LeftOut => Ok(()),
        Change::Doubled => writeln!(text, "{line}\n{line}"),
        Change::ReplacedBy(other) => writeln!(text, "{other}"),
        Change::ExchangedWithNext => match next {
            Some(next) => writeln!(text, "{next}\n{line}"),
            None => writeln!(text, "{line}"),
        },
    };
    written.is_ok()
}

/// The text in which the line with this number, counted from 0, is changed.
pub fn changed_text(alloc: Global, text: &str, number: usize, change: Change) -> Option<String> {
    let mut changed = String::new(alloc);
    let mut goes_on = true;
    let next = number.wrapping_add(1);
    for (k, line) in text.lines().enumerate() {
        if k == number {
            let next_line = text.lines().nth(next);
            goes_on = goes_on && add_changed(&mut changed, line, next_line, change);
        } else if k != next || !matches!(change, Change::ExchangedWithNext) {
            goes_on = goes_on && writeln!(changed, "{line}").is_ok();
        }
    }
    goes_on.then_some(changed)
}

// Adds a line of each kind for the block of this line, the lost one by the first node and by the last node n, and the line with
// this node besides.
fn add_kinds(lines: &mut String, line: &str, block: &str, n: u32) -> bool {
    writeln!(
        lines,
        "peeled {block}\nsolved {block}\nlost {block} by 1\nlost {block} by {n}\n{line} {n}"
    )
    .is_ok()
}

// Adds the line of a lost block, whose nodes are changed by one: a number is added to the one at this place, counted from 0, and
// where that number is 0 it is left out.
fn add_other_node(lines: &mut String, block: &str, nodes: &str, at: usize, more: u32) -> bool {
    let mut goes_on = write!(lines, "lost {block} by").is_ok();
    for (k, word) in nodes.split(' ').enumerate() {
        let node = number_in(word).unwrap_or(0);
        let other = node.saturating_add(more);
        if k != at {
            goes_on = goes_on && write!(lines, " {node}").is_ok();
        } else if more != 0 {
            goes_on = goes_on && write!(lines, " {other}").is_ok();
        }
    }
    goes_on && write!(lines, "\n").is_ok()
}

// Adds the lines of this lost block with one of its nodes left out, and with one of them one more.
fn add_other_nodes(lines: &mut String, block: &str, nodes: &str) -> bool {
    let mut goes_on = true;
    for k in 0..nodes.split(' ').count() {
        goes_on = goes_on
            && add_other_node(lines, block, nodes, k, 0)
            && add_other_node(lines, block, nodes, k, 1);
    }
    goes_on
}

// The same, if the line is that of a lost block.
fn add_of_lost(lines: &mut String, line: &str, block: &str) -> bool {
    match revealed_of(line) {
        Some(revealed) if revealed.kind == Kind::Lost => {
            add_other_nodes(lines, block, revealed.nodes)
        }
        _ => true,
    }
}

// The text of the block of a line behind its first word.
fn text_before_nodes(rest: &str) -> &str {
    match rest.split_once(' ') {
        Some((block, _nodes)) => block,
        None => rest,
    }
}

// Adds the other lines in place of this one, which has this behind its first word.
fn add_others(lines: &mut String, line: &str, rest: &str, n: u32) -> bool {
    let block = text_before_nodes(rest);
    add_kinds(lines, line, block, n) && add_of_lost(lines, line, block)
}

/// Other lines in place of this one: of each kind for its block, and with one of its nodes left out, one more, or the last node n
/// besides.
pub fn other_lines(alloc: Global, line: &str, n: u32) -> Option<String> {
    let mut lines = String::new(alloc);
    let goes_on = match line.split_once(' ') {
        Some((_word, rest)) => add_others(&mut lines, line, rest, n),
        None => true,
    };
    goes_on.then_some(lines)
}

/// A text of these bytes, none where they are no text.
pub fn text_in(alloc: Global, bytes: &[u8]) -> Option<String> {
    match text_of(bytes) {
        Ok(text) => String::from_str(alloc, text).ok(),
        Err(_) => None,
    }
}

/// The text of a block; an empty one where there is no such block, since nodes are counted from 1.
pub fn text_of_block(alloc: Global, b: BlockId) -> Option<String> {
    if b.node == 0 {
        String::from_str(alloc, "").ok()
    } else {
        let text = print_block(b);
        text_in(alloc, text.bytes())
    }
}
