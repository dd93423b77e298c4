//! Fences that are set, and the numbers of the greatest lattice.

use crate::names::first_wrong_name;
use aea_lattice::{BlockId, Class, Lattice};

// The lattice with one node more and a fence after it.
fn with_fence(lattice: &Lattice) -> Option<Lattice> {
    lattice
        .grown(lattice.n() + 1)
        .and_then(|longer| longer.fenced())
}

// The lattice of so many nodes with a fence after each.
fn with_fences(count: u8) -> Option<Lattice> {
    let mut lattice = Lattice::new(3, 2, 5, 0);
    for _k in 0..count {
        lattice = lattice.and_then(|shorter| with_fence(&shorter));
    }
    lattice
}

// Whether the lattice has sixteen fences, the first after its first node and the last after the sixteenth.
fn is_full(lattice: &Lattice) -> bool {
    lattice.fence_count() == 16 && lattice.fence(0) == 1 && lattice.fence(15) == 16
}

// The first wrong thing of the lattice of sixteen nodes with sixteen fences and of the one with a node more.
fn wrong_at_sixteen(lattice: &Lattice) -> Option<&'static str> {
    let more = lattice.grown(17);
    first_wrong_name(&[
        ("twice at the last node", lattice.fenced() == None),
        ("no room", more.is_some()),
        (
            "a seventeenth",
            more.is_some_and(|more| more.fenced() == None),
        ),
        (
            "fewer nodes",
            more.is_some_and(|more| more.grown(16) == None),
        ),
        ("sixteen fences", more.is_some_and(|more| is_full(&more))),
    ])
}

// Whether the lattice has so many fences, and none stands without a node, and no second one at the same node.
fn has_no_more(lattice: &Lattice, count: u8) -> bool {
    lattice.fenced() == None && lattice.fence_count() == count
}

// The first number of fences with which another one can stand at once, or which are not so many.
fn wrong_count() -> Option<u8> {
    let mut wrong = None;
    for k in 0..16 {
        let is_right = with_fences(k).is_some_and(|lattice| has_no_more(&lattice, k));
        wrong = wrong.or((!is_right).then_some(k));
    }
    wrong
}

#[test]
fn fences_stand_at_the_last_node_and_once(rt: HostRuntime) {
    let count = wrong_count();
    let wrong = with_fences(16).map(|lattice| wrong_at_sixteen(&lattice));
    assert!(rt;
        count == None && wrong == Some(None),
        "{count:?} fences, {wrong:?}"
    );
}

// Whether the horizontal parity of the last node of the greatest lattice of this shape has its number and its neighbours, and more
// nodes have no room.
fn has_last_horiz(alpha: u8, s: u8, p: u8) -> Option<bool> {
    let node = 1_048_576;
    let class = Class::Horiz;
    let lattice = Lattice::new(alpha, s, p, node)?;
    let blocks = 1_048_576 * (1 + u32::from(alpha));
    let number = blocks - u32::from(alpha);
    let last = BlockId { node, class };
    Some(
        lattice.blocks() == blocks
            && lattice.contains(last)
            && lattice.number(last) == number
            && lattice.block(number) == last
            && lattice.next(node, class) == None
            && lattice.input(node, class) == Some(node - u32::from(s))
            && lattice.grown(1_048_577) == None,
    )
}

// The first shape whose greatest lattice is wrong, α 0 where there is a greater one.
fn wrong_greatest() -> Option<(u8, u8, u8)> {
    let mut wrong = Lattice::new(1, 1, 0, 1_048_577).map(|_lattice| (0, 0, 0));
    for (alpha, s, p) in [(1, 1, 0), (2, 16, 64), (3, 5, 5)] {
        let is_right = has_last_horiz(alpha, s, p) == Some(true);
        wrong = wrong.or((!is_right).then_some((alpha, s, p)));
    }
    wrong
}

#[test]
fn blocks_of_the_greatest_lattice_have_their_numbers(rt: HostRuntime) {
    let wrong = wrong_greatest();
    assert!(rt; wrong == None, "{wrong:?}");
}
