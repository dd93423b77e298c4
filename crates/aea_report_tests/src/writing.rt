//! The text of a report: a head, lines of each kind and a seal, spelled by hand.

use crate::reading::is_written;
use aea_io::{SureSink, WriteFault};
use aea_lattice::{BlockId, Class, NodeList};
use aea_report::{Head, Line, write_head};
use std::alloc::Global;
use std::test::Fail;

// A head without a seal.
fn some_head() -> Head {
    Head {
        alpha: 2,
        s: 2,
        p: 2,
        n: 11,
        seal: None,
        damaged: 19,
        peeled: 0,
        solved: 3,
        lost: 16,
    }
}

// Whether this is the text of the head.
fn is_head(alloc: Global, head: &Head, text: &[u8]) -> Result<bool, Fail> {
    let mut sink = SureSink::new(alloc, 200)?;
    Ok(write_head(&mut sink, head) == Ok(()) && sink.bytes() == text)
}

#[test]
fn a_head_has_its_text(rt: HostRuntime) -> Result<(), Fail> {
    let text = b"aea-report 1\nlattice 2 2 2 11\nledger none\ncounts 19 0 3 16\n";
    assert!(rt; is_head(rt.alloc(), &some_head(), text)?);
    Ok(())
}

// The line of d1, which is lost.
fn lost_line(alloc: Global) -> Result<Line, Fail> {
    let mut nodes = NodeList::new(alloc);
    for node in [1, 3, 4, 6] {
        nodes.push(node)?;
    }
    let block = BlockId {
        node: 1,
        class: Class::Datum,
    };
    Ok(Line::Lost { block, nodes })
}

// The line of h3, which is solved.
fn solved_line() -> Line {
    Line::Solved {
        block: BlockId {
            node: 3,
            class: Class::Horiz,
        },
    }
}

// The line of r11, which is peeled.
fn peeled_line() -> Line {
    Line::Peeled {
        block: BlockId {
            node: 11,
            class: Class::Right,
        },
    }
}

// Whether all three are written, as this text.
fn are_lines(alloc: Global, text: &[u8]) -> Result<bool, Fail> {
    let mut sink = SureSink::new(alloc, 200)?;
    let is_first = is_written(&mut sink, &lost_line(alloc)?);
    let are_others = is_written(&mut sink, &solved_line()) && is_written(&mut sink, &peeled_line());
    Ok(is_first && are_others && sink.bytes() == text)
}

#[test]
fn lines_have_their_texts(rt: HostRuntime) -> Result<(), Fail> {
    assert!(rt; are_lines(rt.alloc(), b"lost d1 by 1 3 4 6\nsolved h3\npeeled r11\n")?);
    Ok(())
}

// The same head with a seal, the digest of `abc` in FIPS 180-4.
fn sealed_head() -> Head {
    let mut head = some_head();
    head.seal = Some([
        0xba, 0x78, 0x16, 0xbf, 0x8f, 0x01, 0xcf, 0xea, 0x41, 0x41, 0x40, 0xde, 0x5d, 0xae, 0x22,
        0x23, 0xb0, 0x03, 0x61, 0xa3, 0x96, 0x17, 0x7a, 0x9c, 0xb4, 0x10, 0xff, 0x61, 0xf2, 0x00,
        0x15, 0xad,
    ]);
    head
}

#[test]
fn a_seal_is_written_in_lower_case(rt: HostRuntime) -> Result<(), Fail> {
    let text = b"aea-report 1\nlattice 2 2 2 11\nledger \
ba7816bf8f01cfea414140de5dae2223b00361a396177a9cb410ff61f20015ad\ncounts 19 0 3 16\n";
    assert!(rt; is_head(rt.alloc(), &sealed_head(), text)?);
    Ok(())
}

// Whether a head into a space of 20 bytes is a fault, which is counted, and these bytes are there then.
fn is_fault(alloc: Global, head: &Head, text: &[u8]) -> Result<bool, Fail> {
    let mut sink = SureSink::new(alloc, 20)?;
    let written = write_head(&mut sink, head);
    Ok(written == Err(WriteFault) && sink.bytes() == text && sink.faults == 1)
}

#[test]
fn a_first_part_stands_after_a_fault(rt: HostRuntime) -> Result<(), Fail> {
    assert!(rt; is_fault(rt.alloc(), &some_head(), b"aea-report 1\nlattice")?);
    Ok(())
}
