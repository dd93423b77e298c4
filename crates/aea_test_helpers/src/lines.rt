//! The lines of damage lists and reports.

use aea_lattice::BlockId;
use std::alloc::AllocError;

/// Adds a line to the text: the word, and the block. An error is lack of memory.
pub fn add_line(text: &mut String, word: &str, b: BlockId) -> Result<(), AllocError> {
    let letter = char::from(b.class.letter());
    let node = b.node;
    writeln!(text, "{word}{letter}{node}")
}
