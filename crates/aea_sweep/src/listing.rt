ghost use Rattle.std.specs.Prelude.{◌≡◌, ◌<◌, Some, None, length, slice_get, IfOk, MatchOption};
ghost use Rattle.aea_view.specs.Marked.{is_marked};
ghost use Rattle.aea_sweep.specs.Losses.{AreLosses};
ghost use Rattle.aea_sweep.specs.Ends.{AddsEnds};

use crate::ends::mark_ends;
use crate::marking::first_words;
use crate::sweep::sweep;
use crate::word_list::WordList;
use aea_lattice::Lattice;
use aea_view::Marks;
use std::alloc::{AllocError, Global};
use std::marker::Model;

/// For each block of a lattice, by its number, the nodes of the least end whose codeword contains it, if there is one. One
/// list of nodes an end is kept, which its blocks share.
#[derive(Drop)]
pub struct LossList {
    words: WordList,
    // 1 more than the place of the word of each block, 0 where it has none
    first: Vec<u32>,
}

impl Model for LossList {
    ghost use Rattle.std.specs.Prelude.{ℕ, ◌≤◌, List, Option, map, length, get_or};
    ghost use Rattle.aea_sweep.specs.Entries.{entry_of};

    ghost Value = { List (Option (List ℕ)) };

    ghost view = { λ s. map (entry_of s.words) s.first.items };

    ghost invariant = { λ s. (k : ℕ) → get_or s.first.items k 0 ≤ length s.words };
}

impl LossList {
    /// The number of blocks.
    pub fn len(&self) -> usize
        ensures { result ≡ length self.now }
    {
        self.first.len()
    }

    /// The nodes of the block of this number, in rising order; None where the known blocks determine it.
    pub fn nodes(&self, k: usize) -> Option<&[u32]>
        requires { k < length self.now }
        ensures { MatchOption result (slice_get self.now k ≡ Some None) (λ nodes. slice_get self.now k ≡ Some (Some nodes.now)) }
    {
        let word = self.first[k];
        if word == 0 {
            None
        } else {
            Some(self.words.get(word as usize - 1))
        }
    }
}

/// What happens to each block of the lattice where the marked ones are known: the nodes of its least end, or that it is
/// determined. One pass over the nodes keeps at most one open word a strand, and for each end its nodes are kept once, after
/// those of the ends before it. So time and memory grow with the lattice and with the nodes of the words: beside the open words
/// it asks for at most 12 bytes a block and 4 bytes a node of a word. The list of these nodes doubles when it is full: so it
/// takes up to twice its 4 bytes a node, and three times as much while it moves. An error means that memory ran out.
pub fn losses(alloc: Global, lattice: &Lattice, known: &Marks) -> Result<LossList, AllocError>
    requires { known.now.lattice ≡ lattice.now }
    ensures { IfOk result (λ list. AreLosses lattice.now (is_marked known.now) list) }
{
    let words = sweep(alloc, lattice, known)?;
    let first = first_words(alloc, lattice, &words)?;
    Ok(LossList { words, first })
}

/// What happens to each block of a lattice, and marks of the known blocks and of the ends.
#[derive(Drop)]
pub struct MarkedLosses {
    pub losses: LossList,
    pub marks: Marks,
}

/// The same as `losses`, and marks of the known blocks and of the ends: with these each block is determined, and the equations
/// that are listed for a block that the known ones determine are the same (`ends_stand_aside`). It takes a bit of memory a block
/// more than `losses`. An error means that memory ran out.
pub fn marked_losses(
    alloc: Global,
    lattice: &Lattice,
    known: &Marks,
) -> Result<MarkedLosses, AllocError>
    requires { known.now.lattice ≡ lattice.now }
    ensures losses { IfOk result (λ marked. AreLosses lattice.now (is_marked known.now) marked.losses) }
    ensures lattice { IfOk result (λ marked. marked.marks.lattice ≡ lattice.now) }
    ensures ends { IfOk result (λ marked. AddsEnds lattice.now (is_marked known.now) (is_marked marked.marks)) }
{
    let words = sweep(alloc, lattice, known)?;
    let first = first_words(alloc, lattice, &words)?;
    let marks = mark_ends(alloc, lattice, known, &words, first.as_slice())?;
    let losses = LossList { words, first };
    Ok(MarkedLosses { losses, marks })
}
