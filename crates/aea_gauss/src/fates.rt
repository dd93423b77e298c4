ghost use Rattle.std.specs.Prelude.{◌≡◌, ◌≢◌, ◌++◌, [], ◌∷◌, ◌<◌, ◌≤◌, length, slice_get, slice_set, All, IfOk, OnOk, OnErr, MatchOption, Some};
ghost use Rattle.std.specs.List.{swap_remove};
ghost use Rattle.aea_lattice.specs.Blocks.{HasBlock};
ghost use Rattle.aea_gauss.specs.declared.fates.Fate.{Fate};
ghost use Rattle.aea_gauss.specs.Fates.{AreFates, AreInOrder, block_of_fate};
ghost use Rattle.aea_view.specs.Marked.{is_marked};

use crate::buckets::{bucket_at, has_more_than};
use crate::determined::solve_part;
use crate::equations::unknown_blocks;
use crate::lost::lost_fates;
use crate::parts::{Parts, unknown_parts};
use crate::unknown::all_fates;
use aea_lattice::{BlockId, EqList, Lattice, NodeList};
use aea_readings::unknown_are_listed;
use aea_sweep::marked_losses;
use aea_view::Marks;
use std::alloc::{AllocError, Global};
use std::cmp::Ordering;
use std::marker::Model;

// A part of more blocks is not solved by its own rows, which would take some 300 megabytes.
const MOST: usize = 16_384;

/// What happens to a block that is not known: the sum of equations that gives it from known blocks, or the nodes of
/// a codeword that contains it and no known block.
#[derive(Debug, Drop)]
pub enum Fate {
    Sum { block: BlockId, eqs: EqList },
    Word { block: BlockId, nodes: NodeList },
}

/// Fates in order.
#[derive(Debug, Drop)]
pub struct FateList {
    items: Vec<Fate>,
}

impl Fate {
    /// The block whose fate it is.
    pub fn block(&self) -> BlockId
        ensures { result ≡ block_of_fate self.now }
    {
        match self {
            Fate::Sum { block, eqs: _ } => *block,
            Fate::Word { block, nodes: _ } => *block,
        }
    }
}

impl Model for FateList {
    ghost use Rattle.std.specs.Prelude.{List};
    ghost use Rattle.aea_gauss.specs.declared.fates.Fate.{Fate};

    ghost Value = { List Fate };

    ghost view = { λ fates. fates.items.items };
}

impl FateList {
    /// The empty list. It keeps its allocator.
    pub fn new(alloc: Global) -> FateList
        ensures { result ≡ [] }
    {
        FateList {
            items: Vec::new(alloc),
        }
    }

    /// The number of fates.
    pub fn len(&self) -> usize
        ensures { result ≡ length self.now }
    {
        self.items.len()
    }

    /// The fate at this place, counted from 0.
    pub fn get(&self, k: usize) -> Option<&Fate>
        ensures { MatchOption result (length self.now ≤ k) (λ fate. slice_get self.now k ≡ Some fate.now) }
    {
        self.items.get(k)
    }

    /// Puts the fate last. If memory runs out, nothing has changed.
    pub fn push(&mut self, fate: Fate) -> Result<(), AllocError>
        ensures ok { OnOk result (self.new ≡ self.old ++ fate ∷ []) }
        ensures err { OnErr result (self.new ≡ self.old) }
    {
        self.items.push(fate)?;
        Ok(())
    }

    /// The place of the block's fate, if there is one here. What is left of the list is halved by the numbers of the blocks, which
    /// rise.
    pub fn find(&self, lattice: &Lattice, b: BlockId) -> Option<usize>
        requires order { AreInOrder lattice.now self.now }
        requires block { HasBlock lattice.now b }
        ensures { MatchOption result (All (λ fate. block_of_fate fate ≢ b) self.now)
            (λ k. (fate : Fate) × (slice_get self.now k ≡ Some fate) × (block_of_fate fate ≡ b)) }
    {
        unknown_are_listed();
        let number = lattice.number(b);
        let mut low = 0;
        let mut high = self.items.len();
        while low < high {
            let middle = low + (high - low) / 2;
            match lattice.number(self.items[middle].block()).cmp(&number) {
                Ordering::Less => low = middle + 1,
                Ordering::Equal => return Some(middle),
                Ordering::Greater => high = middle,
            }
        }
        None
    }

    /// Takes the fate at this place, counted from 0, out of the list, and puts the last one into its place.
    pub fn take(&mut self, k: usize) -> Option<Fate>
        ensures { MatchOption result ((length self.old ≤ k) × (self.new ≡ self.old))
            (λ fate. (slice_get self.old k ≡ Some fate) × (self.new ≡ swap_remove self.old k fate)) }
    {
        if k < self.items.len() {
            Some(self.items.swap_remove(k))
        } else {
            None
        }
    }

    // Puts a fate in the place of another.
    pub(crate) fn put(&mut self, k: usize, fate: Fate)
        requires { k < length self.old }
        ensures { self.new ≡ slice_set self.old k fate }
    {
        self.items[k] = fate;
    }
}

// Whether a part has more than `MOST` blocks.
fn has_large_part(parts: &Parts) -> bool {
    has_more_than(parts.blocks.as_slice(), MOST)
}

/// The fate of each block that is not marked, in number order. What is lost, and by which nodes, `marked_losses` of `aea_sweep`
/// says, in time that grows with the lattice, and it marks the ends too: the sums stay the same, and less is unknown. The sums
/// are found part by part: blocks that are not marked then and that an equation has together are in one part, and each part in
/// which some block is determined by the known ones has an elimination of its own. Beside the fates it takes what `losses`
/// takes, a bit for each block of the lattice, some 150 bytes for each block that is not marked, some 16 bytes for each
/// equation, and the rows of one part at a time: of b blocks and e equations, (b + e) bits for each of the e equations. If a
/// part has more than 16,384 blocks, `all_fates` goes by sums instead, in memory that grows with the lattice. An error means
/// that memory ran out.
pub fn solve(alloc: Global, lattice: &Lattice, known: &Marks) -> Result<FateList, AllocError>
    requires same { known.now.lattice ≡ lattice.now }
    ensures { IfOk result (λ fates. AreFates lattice.now (is_marked known.now) fates) }
{
    unknown_are_listed();
    let blocks = unknown_blocks(alloc, lattice, known)?;
    if blocks.is_empty() {
        return Ok(FateList::new(alloc));
    }
    let blocks = blocks.as_slice();
    let marked = marked_losses(alloc, lattice, known)?;
    let lost = &marked.losses;
    let mut fates = lost_fates(alloc, lattice, lost, blocks)?;
    let parts = unknown_parts(alloc, lattice, &marked.marks)?;
    if has_large_part(&parts) {
        return all_fates(alloc, lattice, known);
    }
    for label in 0..parts.blocks.len() {
        let part_blocks = bucket_at(parts.blocks.as_slice(), label);
        let part_equations = bucket_at(parts.equations.as_slice(), label);
        solve_part(
            alloc,
            lattice,
            lost,
            blocks,
            part_blocks,
            part_equations,
            &mut fates,
        )?;
    }
    Ok(fates)
}
