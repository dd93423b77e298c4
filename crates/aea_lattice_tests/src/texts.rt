//! Texts of blocks, there and back, and others, which are refused.

use crate::names::first_wrong_name;
use aea_lattice::{BlockId, Class, parse_block, print_block};

// Texts, each with the node and the class of its block.
fn texts() -> [(&'static [u8], u32, Class); 5] {
    [
        (b"d1", 1, Class::Datum),
        (b"h12", 12, Class::Horiz),
        (b"r4294967295", 4_294_967_295, Class::Right),
        (b"l2", 2, Class::Left),
        (b"d1048576", 1_048_576, Class::Datum),
    ]
}

// Whether the text of the block is this one.
fn is_printed(block: BlockId, text: &[u8]) -> bool {
    1 <= block.node && print_block(block).bytes() == text
}

#[test]
fn texts_of_blocks_go_there_and_back(rt: HostRuntime) {
    for (text, node, class) in texts() {
        let block = BlockId { node, class };
        let wrong = first_wrong_name(&[
            ("parse", parse_block(text) == Some(block)),
            ("print", is_printed(block, text)),
        ]);
        assert!(rt; wrong == None, "{wrong:?} {node}");
    }
}

#[test]
fn other_texts_are_refused(rt: HostRuntime) {
    let table: [&[u8]; 13] = [
        b"",
        b"d",
        b"d0",
        b"d012",
        b"D1",
        b"x1",
        b"d+1",
        b"d 1",
        b"d1\n",
        b"d1\r",
        b"d4294967296",
        b"1d",
        b"d\xc2\xb9",
    ];
    for text in table {
        assert!(rt; parse_block(text).is_none());
    }
}
