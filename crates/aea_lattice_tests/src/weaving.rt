//! Parities that are woven node by node, beside plain sums over their prefixes.

ghost use Rattle.std.specs.Prelude.{◌≡◌, ◌<◌, ◌≤◌, ◌+◌, IfSome};
ghost use Rattle.aea_lattice.specs.Blocks.{HasNode, HasParity};
ghost use Rattle.aea_lattice.specs.Growth.{SameShape, IsGrown};

use aea_lattice::{Class, Lattice};
use aea_weave::Heads;
use std::alloc::Global;
use std::process::Abort;
use std::test::Fail;

// A payload of the node.
fn datum(node: u32) -> [u8; 16] {
    let mut bytes = [0; 16];
    for (k, byte) in bytes.iter_mut().enumerate() {
        *byte = ((node as usize % 1000 * 37 + k * 11) % 251) as u8;
    }
    bytes
}

fn add_datum(sum: &mut [u8; 16], node: u32) {
    for (a, b) in sum.iter_mut().zip(datum(node)) {
        *a ^= b;
    }
}

// The parity of the node by its definition: the sum of the payloads of the nodes up to it on its strand that no fence
// parts from it.
fn plain(lattice: &Lattice, node: u32, class: Class) -> [u8; 16]
    requires node { HasNode lattice.now node }
    requires class { HasParity lattice.now class }
{
    let strand = lattice.strand(node, class);
    let mut sum = [0; 16];
    for k in 1..node + 1 {
        if lattice.strand(k, class) == strand && !lattice.fences.parts(k, node) {
            add_datum(&mut sum, k);
        }
    }
    sum
}

// Whether the head of the class is the plain sum of the node.
fn is_plain(heads: &Heads, lattice: &Lattice, node: u32, class: Class) -> bool
    requires heads { 1 ≤ heads.now.lattice.n }
    requires shape { SameShape heads.now.lattice lattice.now }
    requires node { HasNode lattice.now node }
    requires class { HasParity lattice.now class }
{
    heads.parity(class) == plain(lattice, node, class).as_slice()
}

// The first class whose head is not the plain sum of the node.
fn first_wrong(heads: &Heads, lattice: &Lattice, node: u32) -> Option<Class>
    requires heads { 1 ≤ heads.now.lattice.n }
    requires shape { SameShape heads.now.lattice lattice.now }
    requires node { HasNode lattice.now node }
{
    if !is_plain(heads, lattice, node, Class::Horiz) {
        Some(Class::Horiz)
    } else if lattice.alpha >= 2 && !is_plain(heads, lattice, node, Class::Right) {
        Some(Class::Right)
    } else if lattice.alpha >= 3 && !is_plain(heads, lattice, node, Class::Left) {
        Some(Class::Left)
    } else {
        None
    }
}

// Weaves the next node, and compares its parities with the plain sums.
fn weave(rt: &impl Abort, heads: &mut Heads, lattice: &Lattice)
    requires shape { SameShape heads.old.lattice lattice.now }
    requires room { heads.old.lattice.n < lattice.now.n }
    requires size { heads.old.size ≡ 16 }
    ensures lattice { IsGrown heads.old.lattice (heads.old.lattice.n + 1) heads.new.lattice }
    ensures size { heads.new.size ≡ 16 }
{
    let node = heads.next_node();
    heads.step(&datum(node));
    let wrong = first_wrong(heads, lattice, node);
    assert!(rt; wrong == None, "{wrong:?} of {node} in {lattice:?}");
}

fn weave_all(rt: &impl Abort, heads: &mut Heads, lattice: &Lattice)
    requires shape { SameShape heads.old.lattice lattice.now }
    requires size { heads.old.size ≡ 16 }
{
    while heads.next_node() <= lattice.n {
        weave(rt, heads, lattice);
    }
}

// Makes the parities of the last nodes the heads.
fn set_all(heads: &mut Heads, lattice: &Lattice, class: Class)
    requires lattice { heads.old.lattice ≡ lattice.now }
    requires size { heads.old.size ≡ 16 }
    requires class { HasParity lattice.now class }
    ensures lattice { heads.new.lattice ≡ lattice.now }
    ensures size { heads.new.size ≡ 16 }
{
    for strand in 0..lattice.strands(class) {
        if let Some(last) = lattice.last_on(class, strand) {
            heads.set_head(class, strand, &plain(lattice, last, class));
        }
    }
}

// Weaves the nodes of the longer lattice with new heads of the shorter one, and says whether its last node is reached.
fn weave_anew(rt: &impl Abort, alloc: Global, before: &Lattice, after: &Lattice) -> bool
    requires { SameShape before.now after.now }
{
    match Heads::new(alloc, before, 16) {
        Ok(mut heads) => {
            weave_all(rt, &mut heads, after);
            heads.next_node() == after.n + 1
        }
        Err(_) => false,
    }
}

#[test]
fn each_parity_is_the_sum_over_its_prefix(rt: HostRuntime) -> Result<(), Fail> {
    for (alpha, s, p) in [(1, 1, 0), (3, 2, 5), (3, 5, 5), (2, 3, 7)] {
        let none = Lattice::new(alpha, s, p, 0).ok_or("no lattice")?;
        let lattice = Lattice::new(alpha, s, p, 200).ok_or("no lattice")?;
        assert!(rt; weave_anew(&rt, rt.alloc(), &none, &lattice));
    }
    Ok(())
}

#[test]
fn new_heads_go_on_after_a_fence(rt: HostRuntime) -> Result<(), Fail> {
    for (alpha, s, p, fences) in [
        (1, 1, 0, [1, 2, 30, 40]),
        (3, 2, 5, [13, 25, 26, 90]),
        (3, 5, 5, [7, 40, 41, 200]),
        (2, 3, 7, [1, 50, 120, 200]),
    ] {
        let mut lattice = Lattice::new(alpha, s, p, 0).ok_or("no lattice")?;
        for fence in fences {
            let after = lattice.grown(fence).ok_or("no lattice")?;
            assert!(rt; weave_anew(&rt, rt.alloc(), &lattice, &after));
            lattice = after.fenced().ok_or("no fence")?;
        }
    }
    Ok(())
}

// AE(3,5,6) of n nodes with two fences.
fn with_fences(first: u32, second: u32, n: u32) -> Option<Lattice>
    ensures { IfSome result (λ l. l.alpha ≡ 3) }
{
    let lattice = Lattice::new(3, 5, 6, first)?.fenced()?;
    lattice.grown(second)?.fenced()?.grown(n)
}

// Makes the last parities of all strands the heads of new ones, weaves the nodes of the longer lattice, and says whether its
// last node is reached.
fn go_on(rt: &impl Abort, alloc: Global, before: &Lattice, after: &Lattice) -> bool
    requires shape { SameShape before.now after.now }
    requires alpha { before.now.alpha ≡ 3 }
{
    match Heads::new(alloc, before, 16) {
        Ok(mut heads) => {
            set_all(&mut heads, before, Class::Horiz);
            set_all(&mut heads, before, Class::Right);
            set_all(&mut heads, before, Class::Left);
            weave_all(rt, &mut heads, after);
            heads.next_node() == after.n + 1
        }
        Err(_) => false,
    }
}

// The same up to this number of nodes.
fn go_on_to(rt: &impl Abort, alloc: Global, before: &Lattice, more: u32) -> bool
    requires { before.now.alpha ≡ 3 }
{
    match before.grown(more) {
        Some(after) => go_on(rt, alloc, before, &after),
        None => false,
    }
}

#[test]
fn heads_from_the_last_parities_go_on(rt: HostRuntime) -> Result<(), Fail> {
    for (n, more) in [(3, 60), (7, 60), (77, 200)] {
        let before = Lattice::new(3, 5, 6, n).ok_or("no lattice")?;
        assert!(rt; go_on_to(&rt, rt.alloc(), &before, more));
    }
    Ok(())
}

#[test]
fn heads_from_the_last_parities_after_a_fence_go_on(rt: HostRuntime) -> Result<(), Fail> {
    for (first, second, n, more) in [
        (1, 2, 2, 60),
        (3, 40, 41, 120),
        (13, 30, 100, 200),
        (13, 77, 77, 200),
    ] {
        let before = with_fences(first, second, n).ok_or("no lattice")?;
        assert!(rt; go_on_to(&rt, rt.alloc(), &before, more));
    }
    Ok(())
}
