//! The sums of blocks, up to 64 at a time.

ghost use Rattle.std.specs.Prelude.{◌≡◌, ◌++◌, ◌∷◌, [], ◌≤◌, ◌<◌, ℕ, false, length, filter, map, get_or, IfOk, OnOk};
ghost use Rattle.aea_lattice.specs.Blocks.{HasNode, HasBlock, blocks_count, classes};
ghost use Rattle.aea_lattice.specs.Equations.{HasEquation, equation_of};
ghost use Rattle.aea_view.specs.Marked.{is_marked};
ghost use Rattle.aea_view.specs.Bits.{has_bit};
ghost use Rattle.aea_sums.specs.Places.{places_of};
ghost use Rattle.aea_sums.specs.Vectors.{parities_count};
ghost use Rattle.aea_sums.specs.Sums.{AreWanted, AreSums, has_equation, equations_in, IsFound, HasSpace};

use crate::backward::back_all;
use crate::forward::pass_all;
use crate::lists::lists_in;
use crate::place::places;
use crate::row::{Row, bit};
use crate::tags::fill_tags;
use aea_lattice::{BlockId, Class, EqId, EqList, Lattice};
use aea_view::Marks;
use std::alloc::{AllocError, Global};

/// Space for the sums of up to 64 wanted blocks at a time, and the last ones that were found. Bit k of a word speaks of wanted
/// block k.
#[derive(Drop)]
pub struct SumTable {
    pub(crate) rows: Vec<Row>,
    pub(crate) records: Vec<Row>,
    pub(crate) words: Vec<u64>,
    /// For each parity, by its number, in which sums its equation is. A word of a datum means nothing.
    pub table: Vec<u64>,
    /// Which of the wanted blocks the known blocks do not determine.
    pub lost: u64,
}

// So many rows without bits.
fn empty_rows(alloc: Global, count: usize) -> Result<Vec<Row>, AllocError>
    ensures { IfOk result (λ rows. length rows.items ≡ count) }
{
    let mut rows = Vec::with_capacity(alloc, count)?;
    for _at in 0..count {
        rows.push(Row::none())?;
    }
    Ok(rows)
}

// Puts the equation last, if the table has it for wanted block k.
fn keep(
    lattice: &Lattice,
    table: &[u64],
    k: u32,
    equations: &mut EqList,
    e: EqId,
) -> Result<(), AllocError>
    requires k { k < 64 }
    requires equation { HasEquation lattice.now e }
    requires long { length table.now ≡ blocks_count lattice.now }
    ensures { OnOk result (equations.new ≡ equations.old ++ filter (has_equation lattice.now table.now k) (e ∷ [])) }
{
    let number = lattice.number(BlockId {
        node: e.node,
        class: e.class,
    });
    if bit(table[number as usize], k) {
        equations.push(e)?;
    }
    Ok(())
}

// Puts those equations of the node last that the table has for wanted block k.
fn keep_node(
    lattice: &Lattice,
    table: &[u64],
    k: u32,
    equations: &mut EqList,
    node: u32,
) -> Result<(), AllocError>
    requires k { k < 64 }
    requires node { HasNode lattice.now node }
    requires long { length table.now ≡ blocks_count lattice.now }
    ensures { OnOk result (equations.new ≡ equations.old ++ filter (has_equation lattice.now table.now k) (map (equation_of node) (classes lattice.now))) }
{
    let class = Class::Horiz;
    keep(lattice, table, k, equations, EqId { node, class })?;
    if lattice.alpha() < 2 {
        return Ok(());
    }
    let class = Class::Right;
    keep(lattice, table, k, equations, EqId { node, class })?;
    if lattice.alpha() < 3 {
        return Ok(());
    }
    let class = Class::Left;
    keep(lattice, table, k, equations, EqId { node, class })
}

// The equations that the table has for wanted block k, in equation order.
fn equations_in(
    alloc: Global,
    lattice: &Lattice,
    table: &[u64],
    k: u32,
) -> Result<EqList, AllocError>
    requires k { k < 64 }
    requires long { length table.now ≡ blocks_count lattice.now }
    ensures { IfOk result (λ equations. equations ≡ equations_in lattice.now table.now k) }
{
    let mut equations = EqList::new(alloc);
    for node in 1..lattice.n() + 1 {
        keep_node(lattice, table, k, &mut equations, node)?;
    }
    Ok(equations)
}

// Finds the sums of the wanted blocks, whatever the rows, the records, the words and the table had before. It gives which of the
// blocks are lost.
fn find_in(
    lattice: &Lattice,
    known: &Marks,
    wanted: &[BlockId],
    rows: &mut [Row],
    records: &mut [Row],
    words: &mut [u64],
    table: &mut [u64],
) -> u64
    requires same { known.now.lattice ≡ lattice.now }
    requires few { length wanted.now ≤ 64 }
    requires wanted { AreWanted lattice.now (is_marked known.now) wanted.now }
    requires rows { length rows.old ≡ places_of lattice.now }
    requires records { length records.old ≡ parities_count lattice.now }
    requires words { length words.old ≡ places_of lattice.now }
    requires table { length table.old ≡ blocks_count lattice.now }
    ensures rows { length rows.new ≡ length rows.old }
    ensures records { length records.new ≡ length records.old }
    ensures words { length words.new ≡ length words.old }
    ensures table { length table.new ≡ length table.old }
    ensures sums { AreSums lattice.now (is_marked known.now) wanted.now table.new result }
{
    fill_tags(lattice, wanted, table);
    let lost = pass_all(lattice, known, table, rows, records);
    back_all(lattice, known, records, words, table);
    lost
}

impl SumTable {
    /// Space for the sums of this lattice: 8 bytes for each of its blocks, 32 for each parity, and 40 for each strand. An error is
    /// out of memory.
    pub fn new(alloc: Global, lattice: &Lattice) -> Result<SumTable, AllocError>
        ensures { IfOk result (HasSpace lattice.now) }
    {
        let rows = empty_rows(alloc, places(lattice) as usize)?;
        let records = empty_rows(alloc, (lattice.blocks() - lattice.n()) as usize)?;
        let words = vec![in alloc; 0; places(lattice) as usize]?;
        let table = vec![in alloc; 0; lattice.blocks() as usize]?;
        Ok(SumTable {
            rows,
            records,
            words,
            table,
            lost: 0,
        })
    }

    /// Finds the sums of up to 64 blocks that are not known, in the place of those that it had. Its time grows with the blocks
    /// of the lattice times its strands, however large the damage is, and it takes no memory.
    pub fn find(&mut self, lattice: &Lattice, known: &Marks, wanted: &[BlockId])
        requires same { known.now.lattice ≡ lattice.now }
        requires few { length wanted.now ≤ 64 }
        requires wanted { AreWanted lattice.now (is_marked known.now) wanted.now }
        requires space { HasSpace lattice.now self.old }
        ensures space { HasSpace lattice.now self.new }
        ensures sums { AreSums lattice.now (is_marked known.now) wanted.now self.new.table.items self.new.lost }
    {
        self.lost = find_in(
            lattice,
            known,
            wanted,
            self.rows.as_mut_slice(),
            self.records.as_mut_slice(),
            self.words.as_mut_slice(),
            self.table.as_mut_slice(),
        );
    }

    /// Whether the known blocks do not determine wanted block k.
    pub fn is_lost(&self, k: u32) -> bool
        requires { k < 64 }
        ensures { result ≡ has_bit self.now.lost k }
    {
        bit(self.lost, k)
    }

    /// The equations of wanted block k, in equation order. It goes over all equations of the lattice; an error is out of
    /// memory.
    pub fn equations(&self, alloc: Global, lattice: &Lattice, k: u32) -> Result<EqList, AllocError>
        requires k { k < 64 }
        requires space { HasSpace lattice.now self.now }
        ensures { IfOk result (λ equations. equations ≡ equations_in lattice.now self.now.table.items k) }
    {
        equations_in(alloc, lattice, self.table.as_slice(), k)
    }

    /// The equations of each of the first `count` wanted blocks, in equation order. It goes over the table once, so its time
    /// grows with the lattice and with the equations in the lists; an error is out of memory.
    pub fn lists(
        &self,
        alloc: Global,
        lattice: &Lattice,
        count: usize,
    ) -> Result<Vec<EqList>, AllocError>
        requires few { count ≤ 64 }
        requires space { HasSpace lattice.now self.now }
        ensures long { IfOk result (λ lists. length lists.items ≡ count) }
        ensures each { IfOk result (λ lists. (k : ℕ) → k < count → get_or lists.items k [] ≡ equations_in lattice.now self.now.table.items k) }
    {
        lists_in(alloc, lattice, self.table.as_slice(), count)
    }
}

/// The listed equations of a block that is not known, or None where the known blocks do not determine it. It takes memory as
/// `SumTable::new` does, and for the list; an error is out of memory.
pub fn find_sum(
    alloc: Global,
    lattice: &Lattice,
    known: &Marks,
    b: BlockId,
) -> Result<Option<EqList>, AllocError>
    requires same { known.now.lattice ≡ lattice.now }
    requires block { HasBlock lattice.now b }
    requires unknown { is_marked known.now b ≡ false }
    ensures { IfOk result (IsFound lattice.now (is_marked known.now) b) }
{
    let wanted = [b];
    let mut found = SumTable::new(alloc, lattice)?;
    found.find(lattice, known, &wanted);
    if found.is_lost(0) {
        return Ok(None);
    }
    Ok(Some(found.equations(alloc, lattice, 0)?))
}
