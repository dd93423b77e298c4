//! The last nodes of strands, beside a walk through all nodes.

ghost use Rattle.aea_lattice.specs.Blocks.{HasParity};

use aea_lattice::{Class, Lattice};

// The greatest node on the strand, by a walk through all nodes.
fn scanned(lattice: &Lattice, class: Class, strand: u32) -> Option<u32>
    requires { HasParity lattice.now class }
{
    let mut last = None;
    for node in 1..lattice.n + 1 {
        if lattice.strand(node, class) == strand {
            last = Some(node);
        }
    }
    last
}

// Whether each strand of the class has the last node that a walk finds.
fn has_lasts(lattice: &Lattice, class: Class) -> bool
    requires { HasParity lattice.now class }
{
    let mut are_right = true;
    for strand in 0..lattice.strands(class) {
        are_right = are_right && lattice.last_on(class, strand) == scanned(lattice, class, strand);
    }
    are_right
}

// The first class of which a strand has another last node than a walk finds.
fn first_wrong(lattice: &Lattice) -> Option<Class> {
    if !has_lasts(lattice, Class::Horiz) {
        Some(Class::Horiz)
    } else if lattice.alpha >= 2 && !has_lasts(lattice, Class::Right) {
        Some(Class::Right)
    } else if lattice.alpha >= 3 && !has_lasts(lattice, Class::Left) {
        Some(Class::Left)
    } else {
        None
    }
}

// α, s and p of the lattices.
fn shapes() -> [(u8, u8, u8); 12] {
    [
        (1, 1, 0),
        (2, 2, 2),
        (2, 3, 7),
        (2, 16, 16),
        (2, 2, 64),
        (3, 2, 2),
        (3, 2, 5),
        (3, 5, 5),
        (3, 5, 6),
        (3, 4, 9),
        (3, 16, 17),
        (3, 7, 64),
    ]
}

#[test]
fn the_last_node_of_a_strand_is_the_one_that_a_walk_finds(rt: HostRuntime) {
    for (alpha, s, p) in shapes() {
        for n in [0, 1, 5, 26, 200] {
            let wrong = Lattice::new(alpha, s, p, n).map(|lattice| first_wrong(&lattice));
            assert!(rt;
                wrong == Some(None),
                "{wrong:?}, {n} of AE({alpha},{s},{p})"
            );
        }
    }
}
