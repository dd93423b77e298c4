//! The lists of all wanted blocks, by one walk over the table.

ghost use Rattle.std.specs.Prelude.{◌≡◌, ◌++◌, ◌∷◌, [], ◌<◌, ◌≤◌, ℕ, true, false, length, get_or, replicate, slice_set, map, IfOk, OnOk, IfSome, IfNone};
ghost use Rattle.aea_lattice.specs.Blocks.{HasNode, blocks_count, classes};
ghost use Rattle.aea_lattice.specs.Equations.{HasEquation, equation_of, equations_of};
ghost use Rattle.aea_view.specs.Bits.{has_bit};
ghost use Rattle.aea_sums.specs.Sums.{equations_in};
ghost use Rattle.aea_sums.specs.Lists.{PutsWhere, Puts};

use aea_lattice::{BlockId, Class, EqId, EqList, Lattice};
use std::alloc::{AllocError, Global};

// The place of the first bit of the word that is 1 at this place or above it, None where there is none.
fn next_bit(word: u64, place: u32) -> Option<u32>
    ensures inside { IfSome result (λ k. (place ≤ k) × (k < 64)) }
    ensures set { IfSome result (λ k. has_bit word k ≡ true) }
    ensures before { IfSome result (λ k. (j : ℕ) → place ≤ j → j < k → has_bit word j ≡ false) }
    ensures none { IfNone result ((j : ℕ) → place ≤ j → j < 64 → has_bit word j ≡ false) }
{
    if place >= 64 {
        return None;
    }
    let rest = word >> place;
    if rest == 0 {
        None
    } else {
        Some(place + rest.trailing_zeros())
    }
}

// So many empty lists.
fn empty_lists(alloc: Global, count: usize) -> Result<Vec<EqList>, AllocError>
    ensures { IfOk result (λ lists. lists.items ≡ replicate count []) }
{
    let mut lists = Vec::with_capacity(alloc, count)?;
    for _at in 0..count {
        lists.push(EqList::new(alloc))?;
    }
    Ok(lists)
}

// Puts the equation last in the list at this place.
fn put_in(lists: &mut [EqList], k: usize, e: EqId) -> Result<(), AllocError>
    requires { k < length lists.old }
    ensures { OnOk result (lists.new ≡ slice_set lists.old k (get_or lists.old k [] ++ e ∷ [])) }
{
    lists[k].push(e)?;
    Ok(())
}

// Puts the equation last in each list whose bit of the word is 1. It looks at these bits alone.
fn put_where(lists: &mut [EqList], word: u64, e: EqId) -> Result<(), AllocError>
    requires { length lists.old ≤ 64 }
    ensures { OnOk result (PutsWhere word e lists.old lists.new) }
{
    let mut from = 0;
    while let Some(k) = next_bit(word, from) {
        if k as usize >= lists.len() {
            return Ok(());
        }
        put_in(lists, k as usize, e)?;
        from = k + 1;
    }
    Ok(())
}

// Puts the equation last in the list of each wanted block for which the table has it.
fn put_equation(
    lattice: &Lattice,
    table: &[u64],
    lists: &mut [EqList],
    node: u32,
    class: Class,
) -> Result<(), AllocError>
    requires equation { HasEquation lattice.now (equation_of node class) }
    requires long { length table.now ≡ blocks_count lattice.now }
    requires few { length lists.old ≤ 64 }
    ensures { OnOk result (Puts lattice.now table.now (equation_of node class ∷ []) lists.old lists.new) }
{
    let number = lattice.number(BlockId { node, class });
    put_where(lists, table[number as usize], EqId { node, class })
}

// Puts the equations of the node last, each in the lists of the wanted blocks for which the table has it.
fn put_node(
    lattice: &Lattice,
    table: &[u64],
    lists: &mut [EqList],
    node: u32,
) -> Result<(), AllocError>
    requires node { HasNode lattice.now node }
    requires long { length table.now ≡ blocks_count lattice.now }
    requires few { length lists.old ≤ 64 }
    ensures { OnOk result (Puts lattice.now table.now (map (equation_of node) (classes lattice.now)) lists.old lists.new) }
{
    put_equation(lattice, table, lists, node, Class::Horiz)?;
    if lattice.alpha() < 2 {
        return Ok(());
    }
    put_equation(lattice, table, lists, node, Class::Right)?;
    if lattice.alpha() < 3 {
        return Ok(());
    }
    put_equation(lattice, table, lists, node, Class::Left)
}

// Puts all equations last, each in the lists of the wanted blocks for which the table has it.
fn put_all(lattice: &Lattice, table: &[u64], lists: &mut [EqList]) -> Result<(), AllocError>
    requires long { length table.now ≡ blocks_count lattice.now }
    requires few { length lists.old ≤ 64 }
    ensures { OnOk result (Puts lattice.now table.now (equations_of lattice.now) lists.old lists.new) }
{
    for node in 1..lattice.n() + 1 {
        put_node(lattice, table, lists, node)?;
    }
    Ok(())
}

/// The equations that the table has for each of the first wanted blocks, in equation order.
pub(crate) fn lists_in(
    alloc: Global,
    lattice: &Lattice,
    table: &[u64],
    count: usize,
) -> Result<Vec<EqList>, AllocError>
    requires long { length table.now ≡ blocks_count lattice.now }
    requires few { count ≤ 64 }
    ensures long { IfOk result (λ lists. length lists.items ≡ count) }
    ensures each { IfOk result (λ lists. (k : ℕ) → k < count → get_or lists.items k [] ≡ equations_in lattice.now table.now k) }
{
    let mut lists = empty_lists(alloc, count)?;
    put_all(lattice, table, lists.as_mut_slice())?;
    Ok(lists)
}
