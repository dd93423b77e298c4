//! Lists of nodes and equations.

use crate::names::first_wrong_name;
use aea_lattice::{Class, EqId, EqList, NodeList};
use std::alloc::Global;

// Whether a list of nodes has nothing first, and then what was pushed and no more.
fn are_nodes_kept(alloc: Global) -> bool {
    let mut nodes = NodeList::new(alloc);
    let is_empty = nodes.get(0) == None;
    let are_pushed = nodes.push(9).is_ok() && nodes.push(3).is_ok() && nodes.push(9).is_ok();
    let first = [nodes.get(0), nodes.get(1), nodes.get(2), nodes.get(3)];
    is_empty && are_pushed && nodes.len() == 3 && first == [Some(9), Some(3), Some(9), None]
}

// The equation of the node.
fn equation(node: u32) -> EqId {
    let class = Class::Left;
    EqId { node, class }
}

// Whether a list of equations has what was pushed and no more.
fn are_equations_kept(alloc: Global) -> bool {
    let mut equations = EqList::new(alloc);
    let are_pushed = equations.push(equation(9)).is_ok()
        && equations.push(equation(3)).is_ok()
        && equations.push(equation(9)).is_ok();
    are_pushed
        && equations.len() == 3
        && equations.get(1) == Some(equation(3))
        && equations.get(3) == None
}

#[test]
fn lists_have_what_was_pushed(rt: HostRuntime) {
    let wrong = first_wrong_name(&[
        ("nodes", are_nodes_kept(rt.alloc())),
        ("equations", are_equations_kept(rt.alloc())),
    ]);
    assert!(rt; wrong == None, "{wrong:?}");
}
