//! What the smallest lattices lose with sites, call by call.

use aea_lattice::{BlockId, Class, Lattice};
use aea_sites::{SiteLoss, loss, without};
use aea_view::View;
use std::alloc::{AllocError, Global};
use std::test::Fail;

// Whether so many blocks are lost, and first the datum of this node, by it and the next one; node 0 where none is.
fn is(loss: &SiteLoss, lost: u32, node: u32, next: Option<u32>) -> bool {
    let first = match &loss.first {
        None => node == 0,
        Some(first) => {
            first.block.class == Class::Datum
                && first.block.node == node
                && first.nodes.get(0) == Some(node)
                && first.nodes.get(1) == next
        }
    };
    first && loss.lost == lost
}

// Whether so many blocks are lost without two of three sites, and first the datum of this node, by it alone.
fn is_lost_without(alloc: Global, lattice: &Lattice, a: u8, b: u8, lost: u32, node: u32) -> bool {
    1 <= a
        && a <= 3
        && 1 <= b
        && b <= 3
        && without(alloc, lattice, 3, a, b).is_ok_and(|loss| is(&loss, lost, node, None))
}

// Two nodes of one strand over three sites: d1 is on site 1, h1 and h2 are on site 2, and d2 is on site 3.
#[test]
fn two_nodes_over_three_sites(rt: HostRuntime) -> Result<(), Fail> {
    let lattice = Lattice::new(1, 1, 0, 2).ok_or("no lattice")?;
    for (a, b, lost, node) in [(2, 2, 0, 0), (1, 2, 3, 1), (1, 3, 0, 0), (2, 3, 2, 2)] {
        assert!(rt; is_lost_without(rt.alloc(), &lattice, a, b, lost, node));
    }
    Ok(())
}

// What is lost where the blocks of the last node of a strand are gone.
fn without_last(alloc: Global, lattice: &Lattice) -> Result<SiteLoss, AllocError> {
    let last = lattice.n();
    let view = View::new(lattice, |b: BlockId| b.node != last);
    loss(alloc, lattice, &view)
}

// Whether the two blocks of the last of so many nodes are lost then, and no other one.
fn is_last_lost(alloc: Global, n: u32) -> bool {
    match Lattice::new(1, 1, 0, n) {
        Some(lattice) => without_last(alloc, &lattice).is_ok_and(|loss| is(&loss, 2, n, None)),
        None => false,
    }
}

// The last node's two blocks are more than one in 128 of the blocks of 127 nodes, and no more than that of the blocks of 128: so the
// one loss is told by `losses`, and the other by the fates of the two.
#[test]
fn the_last_node_is_lost_both_ways(rt: HostRuntime) -> Result<(), Fail> {
    assert!(rt; is_last_lost(rt.alloc(), 127) && is_last_lost(rt.alloc(), 128));
    Ok(())
}

// Where the view has no block of the lattice, all is lost.
#[test]
fn a_view_that_leaves_nothing(rt: HostRuntime) -> Result<(), Fail> {
    let lattice = Lattice::new(1, 1, 0, 2).ok_or("no lattice")?;
    let view = View::new(&lattice, |b: BlockId| b.node == 3);
    let loss = loss(rt.alloc(), &lattice, &view);
    assert!(rt; loss.is_ok_and(|loss| is(&loss, 4, 1, Some(2))));
    Ok(())
}
