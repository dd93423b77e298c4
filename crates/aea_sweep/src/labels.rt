//! The labels of blocks: for each the first word whose codeword contains it.

ghost use Rattle.std.specs.Prelude.{◌≡◌, ◌≢◌, ◌==◌, ◌+◌, ◌<◌, ◌≤◌, true, length};
ghost use Rattle.aea_lattice.specs.declared.blocks.Class.TheVariants.{Datum};
ghost use Rattle.aea_lattice.specs.Blocks.{HasNode, HasParity, block_of, same_block, blocks_count};
ghost use Rattle.aea_sweep.specs.Labels.{label_of, is_along, is_stretch, IsBehind, AreLabels, Labels, IsDone};

use aea_lattice::{BlockId, Class, Lattice};

// The node after this one on the strand, the one after the last of the lattice where there is none.
fn behind(lattice: &Lattice, node: u32, class: Class) -> u32
    requires node { HasNode lattice.now node }
    requires class { HasParity lattice.now class }
    ensures { IsBehind lattice.now class node result }
{
    match lattice.next(node, class) {
        Some(next) => next,
        None => lattice.n() + 1,
    }
}

// Gives the datum of the node the label, if it has none.
pub(crate) fn label_datum(lattice: &Lattice, first: &mut [u32], skip: &[u32], node: u32, label: u32)
    requires node { HasNode lattice.now node }
    requires label { label ≢ 0 }
    requires labels { AreLabels lattice.now first.old skip.now }
    ensures labels { AreLabels lattice.now first.new skip.now }
    ensures labelled { Labels lattice.now (same_block (block_of node Datum)) label first.old first.new }
{
    let k = lattice.number(BlockId {
        node,
        class: Class::Datum,
    }) as usize;
    if first[k] == 0 {
        first[k] = label;
    }
}

// Gives the parity of the node the label, if it has none, and goes on to the node to which it skips.
fn label_parity(
    lattice: &Lattice,
    first: &mut [u32],
    skip: &mut [u32],
    node: u32,
    class: Class,
    label: u32,
) -> u32
    requires node { HasNode lattice.now node }
    requires class { HasParity lattice.now class }
    requires label { label ≢ 0 }
    requires labels { AreLabels lattice.now first.old skip.old }
    ensures labels { AreLabels lattice.now first.new skip.new }
    ensures labelled { Labels lattice.now (same_block (block_of node class)) label first.old first.new }
    ensures skips { result ≡ label_of lattice.now skip.new (block_of node class) }
{
    let k = lattice.number(BlockId { node, class }) as usize;
    if first[k] == 0 {
        first[k] = label;
        skip[k] = behind(lattice, node, class);
    }
    skip[k]
}

// Lets the parity of the node skip to another node, and gives that to which it did.
fn shorten_one(
    lattice: &Lattice,
    first: &[u32],
    skip: &mut [u32],
    from: u32,
    node: u32,
    end: u32,
    class: Class,
) -> u32
    requires node { HasNode lattice.now node }
    requires class { HasParity lattice.now class }
    requires labels { AreLabels lattice.now first.now skip.old }
    requires done { IsDone lattice.now first.now class from end }
    requires along { is_along lattice.now class from node ≡ true }
    requires before { node < end }
    ensures labels { AreLabels lattice.now first.now skip.new }
    ensures later { node < result }
    ensures along { result ≤ lattice.now.n → is_along lattice.now class from result ≡ true }
{
    let k = lattice.number(BlockId { node, class }) as usize;
    let next = skip[k];
    skip[k] = end;
    next
}

// Lets the parities that were met from a node to before a limit skip to where the way has led.
fn shorten(
    lattice: &Lattice,
    first: &[u32],
    skip: &mut [u32],
    from: u32,
    limit: u32,
    end: u32,
    class: Class,
)
    requires from { HasNode lattice.now from }
    requires limit { limit ≤ lattice.now.n + 1 }
    requires past { limit ≤ end }
    requires class { HasParity lattice.now class }
    requires labels { AreLabels lattice.now first.now skip.old }
    requires done { IsDone lattice.now first.now class from end }
    ensures { AreLabels lattice.now first.now skip.new }
{
    let mut node = from;
    while node < limit {
        node = shorten_one(lattice, first, skip, from, node, end, class);
    }
}

// Gives each parity of the strand from a node to before a limit the label, if it has none, and returns where the way has led.
fn label_way(
    lattice: &Lattice,
    first: &mut [u32],
    skip: &mut [u32],
    from: u32,
    limit: u32,
    class: Class,
    label: u32,
) -> u32
    requires from { HasNode lattice.now from }
    requires limit { limit ≤ lattice.now.n + 1 }
    requires class { HasParity lattice.now class }
    requires label { label ≢ 0 }
    requires labels { AreLabels lattice.now first.old skip.old }
    ensures labels { AreLabels lattice.now first.new skip.new }
    ensures labelled { Labels lattice.now (is_stretch lattice.now class from limit) label first.old first.new }
    ensures past { limit ≤ result }
    ensures done { IsDone lattice.now first.new class from result }
{
    let mut node = from;
    while node < limit {
        node = label_parity(lattice, first, skip, node, class, label);
    }
    node
}

// Gives each parity of the strand from a node to before a limit the label, if it has none.
pub(crate) fn label_stretch(
    lattice: &Lattice,
    first: &mut [u32],
    skip: &mut [u32],
    from: u32,
    limit: u32,
    class: Class,
    label: u32,
)
    requires from { HasNode lattice.now from }
    requires limit { limit ≤ lattice.now.n + 1 }
    requires class { HasParity lattice.now class }
    requires label { label ≢ 0 }
    requires labels { AreLabels lattice.now first.old skip.old }
    ensures labels { AreLabels lattice.now first.new skip.new }
    ensures labelled { Labels lattice.now (is_stretch lattice.now class from limit) label first.old first.new }
{
    let end = label_way(lattice, first, skip, from, limit, class, label);
    shorten(lattice, first, skip, from, limit, end, class);
}
