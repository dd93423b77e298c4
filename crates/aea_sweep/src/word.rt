//! Words: lists of nodes, and their sums.

ghost use Rattle.std.specs.Prelude.{◌≡◌, ◌++◌, ◌∷◌, [], ℕ, OnOk, length};
ghost use Rattle.aea_lattice.specs.Parity.{differ};
ghost use Rattle.aea_sweep.specs.Words.{has_odd, RiseWithin};

use std::alloc::{AllocError, Global};
use std::marker::Model;

/// The nodes of a word, in rising order.
#[derive(Debug, Drop)]
pub(crate) struct Word {
    nodes: Vec<u32>,
}

impl Model for Word {
    ghost use Rattle.std.specs.Prelude.{ℕ, List};

    ghost Value = { List ℕ };

    ghost view = { λ w. w.nodes.items };
}

impl Word {
    /// No node. It keeps its allocator.
    pub(crate) fn new(alloc: Global) -> Word
        ensures { result ≡ [] }
    {
        Word {
            nodes: Vec::new(alloc),
        }
    }

    /// The nodes.
    pub(crate) fn as_slice(&self) -> &[u32]
        ensures { result.now ≡ self.now }
    {
        self.nodes.as_slice()
    }

    /// Puts the node last.
    pub(crate) fn push(&mut self, node: u32) -> Result<(), AllocError>
        ensures { OnOk result (self.new ≡ self.old ++ node ∷ []) }
    {
        self.nodes.push(node)?;
        Ok(())
    }

    /// Puts these nodes last.
    pub(crate) fn push_all(&mut self, nodes: &[u32]) -> Result<(), AllocError>
        ensures { OnOk result (self.new ≡ self.old ++ nodes.now) }
    {
        self.nodes.extend_from_slice(nodes)?;
        Ok(())
    }

    /// Takes all nodes away.
    pub(crate) fn clear(&mut self)
        ensures { self.new ≡ [] }
    {
        self.nodes.clear();
    }
}

// Makes the word the nodes that are in exactly one of the two lists. All rise.
pub(crate) fn add_lists(first: &[u32], second: &[u32], sum: &mut Word) -> Result<(), AllocError>
    ensures sum { OnOk result ((i : ℕ) → has_odd sum.new i ≡ differ (has_odd first.now i) (has_odd second.now i)) }
    ensures rises { OnOk result ((top : ℕ) → RiseWithin 1 first.now top → RiseWithin 1 second.now top → RiseWithin 1 sum.new top) }
{
    sum.clear();
    let mut a = 0;
    let mut b = 0;
    'merge: while a < first.len() && b < second.len() {
        let x = first[a];
        let y = second[b];
        if x < y {
            sum.push(x)?;
            a += 1;
        } else if y < x {
            sum.push(y)?;
            b += 1;
        } else {
            a += 1;
            b += 1;
        }
    }
    sum.push_all(&first[a..])?;
    sum.push_all(&second[b..])?;
    Ok(())
}
