//! A line whose nodes are lent as a text.

use aea_io::{Page, SureSink, send};
use aea_lattice::{BlockId, Class, NodeList};
use aea_report::{print_lost, print_lost_with};
use std::alloc::Global;
use std::test::Fail;

// The nodes of the line.
fn some_nodes(alloc: Global) -> Result<NodeList, Fail> {
    let mut nodes = NodeList::new(alloc);
    for node in [8, 9, 10, 1048576] {
        nodes.push(node)?;
    }
    Ok(nodes)
}

// Whether the line of l8 with these nodes, and with this text of them, is printed so.
fn are_printed(alloc: Global, nodes: &NodeList, lent: &[u8], text: &[u8]) -> Result<bool, Fail> {
    let mut sink = SureSink::new(alloc, 200)?;
    let mut page = Page::new();
    let block = BlockId {
        node: 8,
        class: Class::Left,
    };
    Ok(
        print_lost(&mut sink, &mut page, block, nodes) == Ok(())
            && print_lost_with(&mut sink, &mut page, block, lent) == Ok(())
            && send(&mut sink, &mut page) == Ok(())
            && sink.bytes() == text,
    )
}

#[test]
fn nodes_may_be_lent_as_text(rt: HostRuntime) -> Result<(), Fail> {
    let nodes = some_nodes(rt.alloc())?;
    let text = b"lost l8 by 8 9 10 1048576\nlost l8 by 8 9 10 1048576\n";
    assert!(rt; are_printed(rt.alloc(), &nodes, b" 8 9 10 1048576", text)?);
    Ok(())
}
