//! A plain, slow elimination, column by column, with rows that are sets of columns.

use crate::bench::{add_sum, add_word};
use aea_lattice::{BlockId, Class, EqId, EqList, Lattice, NodeList};
use std::alloc::{AllocError, Global};

// A row: its columns below 192, a bit each, and the one that no other row has, once it is chosen.
#[derive(Clone, Copy)]
struct Row {
    columns: [u64; 3],
    pivot: Option<usize>,
}

impl Row {
    fn has(&self, column: usize) -> bool {
        match self.columns.get(column / 64) {
            Some(word) => (*word >> (column % 64)) & 1 == 1,
            None => false,
        }
    }

    // Puts the column in.
    fn put(&mut self, column: usize) {
        if let Some(word) = self.columns.get_mut(column / 64) {
            *word |= 1 << (column % 64);
        }
    }

    // Leaves the columns of exactly one of two rows.
    fn add(&mut self, other: &Row) {
        for (word, added) in self.columns.iter_mut().zip(other.columns) {
            *word ^= added;
        }
    }
}

// The rows of a lattice: its lost blocks in number order, and the equations that have one, in equation order.
#[derive(Drop)]
struct Table {
    lost: Vec<BlockId>,
    equations: Vec<EqId>,
    rows: Vec<Row>,
}

impl Table {
    // The column of the equation at this place: those of later equations come first.
    fn equation_column(&self, at: usize) -> usize {
        let after = self.equations.len().saturating_sub(at);
        self.lost.len().saturating_add(after)
    }

    // The equations of the row, in equation order.
    fn equations_of(&self, alloc: Global, row: &Row) -> Result<EqList, AllocError> {
        let mut list = EqList::new(alloc);
        for (at, e) in self.equations.as_slice().iter().enumerate() {
            if row.has(self.equation_column(at)) {
                list.push(*e)?;
            }
        }
        Ok(list)
    }

    // The nodes of the word of a column that leads no row.
    fn nodes_of(&self, alloc: Global, end: usize) -> Result<NodeList, AllocError> {
        let mut list = NodeList::new(alloc);
        for (at, b) in self.lost.as_slice().iter().enumerate() {
            let led = self
                .rows
                .as_slice()
                .iter()
                .any(|row| row.pivot == Some(at) && row.has(end));
            if b.class == Class::Datum && (at == end || led) {
                list.push(b.node)?;
            }
        }
        Ok(list)
    }

    // The least column of a lost block after this one.
    fn next_of(&self, row: &Row, column: usize) -> Option<usize> {
        (0..self.lost.len()).find(|k| column < *k && row.has(*k))
    }
}

// Adds the chosen row to each other one that has the column.
fn clear(rows: &mut [Row], chosen: usize, column: usize) {
    if let Some(added) = rows.get(chosen).copied() {
        for (at, row) in rows.iter_mut().enumerate() {
            if at == chosen {
                row.pivot = Some(column);
            } else if row.has(column) {
                row.add(&added);
            }
        }
    }
}

// The blocks of an equation that are lost, as columns, and the equation's own column.
fn row_of(lattice: &Lattice, table: &Table, at: usize, e: EqId) -> Row {
    let mut row = Row {
        columns: [0; 3],
        pivot: None,
    };
    for (column, b) in table.lost.as_slice().iter().enumerate() {
        if stands_in(lattice, e, *b) {
            row.put(column);
        }
    }
    row.put(table.equation_column(at));
    row
}

// Whether the block is in the equation, of a lattice that has it.
fn stands_in(lattice: &Lattice, e: EqId, b: BlockId) -> bool {
    if e.class == Class::Datum
        || !lattice.contains(BlockId {
            node: e.node,
            class: e.class,
        })
    {
        return false;
    }
    let equation = lattice.equation(e);
    equation.input == Some(b) || equation.datum == b || equation.output == b
}

// The lost blocks of the lattice, in number order.
fn in_order(
    alloc: Global,
    lattice: &Lattice,
    lost: &[BlockId],
) -> Result<Vec<BlockId>, AllocError> {
    let mut blocks = Vec::new(alloc);
    for k in 0..lattice.blocks() {
        let b = lattice.block(k);
        if lost.contains(&b) {
            blocks.push(b)?;
        }
    }
    Ok(blocks)
}

// The equations that have a lost block, in equation order.
fn equations_with(
    alloc: Global,
    lattice: &Lattice,
    lost: &[BlockId],
) -> Result<Vec<EqId>, AllocError> {
    let mut equations = Vec::new(alloc);
    for k in 0..lattice.blocks() {
        let BlockId { node, class } = lattice.block(k);
        let e = EqId { node, class };
        if lost.iter().any(|b| stands_in(lattice, e, *b)) {
            equations.push(e)?;
        }
    }
    Ok(equations)
}

// The rows of a table at first.
fn rows_of(alloc: Global, lattice: &Lattice, table: &Table) -> Result<Vec<Row>, AllocError> {
    let equations = table.equations.as_slice().iter().enumerate();
    equations
        .map(|(at, e)| row_of(lattice, table, at, *e))
        .collect(alloc)
}

// The table of a lattice at first.
fn table_of(alloc: Global, lattice: &Lattice, lost: &[BlockId]) -> Result<Table, AllocError> {
    let equations = equations_with(alloc, lattice, lost)?;
    let mut table = Table {
        lost: in_order(alloc, lattice, lost)?,
        equations,
        rows: Vec::new(alloc),
    };
    table.rows = rows_of(alloc, lattice, &table)?;
    Ok(table)
}

// Clears each column from all rows but one.
fn reduce(table: &mut Table) {
    for column in 0..table.equation_column(0).saturating_add(1) {
        let chosen = table
            .rows
            .as_slice()
            .iter()
            .position(|row| row.pivot.is_none() && row.has(column));
        if let Some(chosen) = chosen {
            clear(table.rows.as_mut_slice(), chosen, column);
        }
    }
}

// Puts the line of a lost block last, by the nodes of the word of a column that leads no row.
fn add_word_of(alloc: Global, text: &mut String, table: &Table, end: usize, b: BlockId) -> bool {
    match table.nodes_of(alloc, end) {
        Ok(nodes) => add_word(alloc, text, b, &nodes),
        Err(_) => false,
    }
}

// Puts the line of a lost block last, by the equations of its row.
fn add_sum_of(alloc: Global, text: &mut String, table: &Table, row: &Row, b: BlockId) -> bool {
    match table.equations_of(alloc, row) {
        Ok(equations) => add_sum(alloc, text, b, &equations),
        Err(_) => false,
    }
}

// Puts the line of the lost block at this place last.
fn add_fate(alloc: Global, text: &mut String, table: &Table, at: usize, b: BlockId) -> bool {
    let row = table
        .rows
        .as_slice()
        .iter()
        .find(|row| row.pivot == Some(at));
    match row {
        None => add_word_of(alloc, text, table, at, b),
        Some(row) => match table.next_of(row, at) {
            None => add_sum_of(alloc, text, table, row, b),
            Some(end) => add_word_of(alloc, text, table, end, b),
        },
    }
}

// The fates as text, none where the rows have no room for the columns.
fn text_of(alloc: Global, table: &Table) -> Option<String> {
    let mut text = String::new(alloc);
    let mut are_added = table.equation_column(0) < 192;
    for (at, b) in table.lost.as_slice().iter().enumerate() {
        are_added = are_added && add_fate(alloc, &mut text, table, at, *b);
    }
    are_added.then_some(text)
}

/// The fates as text where these blocks are lost.
pub fn plain_fates(alloc: Global, lattice: &Lattice, lost: &[BlockId]) -> Option<String> {
    match table_of(alloc, lattice, lost) {
        Ok(mut table) => {
            reduce(&mut table);
            text_of(alloc, &table)
        }
        Err(_) => None,
    }
}
