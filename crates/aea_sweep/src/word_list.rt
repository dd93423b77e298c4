//! Lists of nodes one after another in one list.

ghost use Rattle.std.specs.Prelude.{◌≡◌, ◌++◌, ◌∷◌, ◌<◌, [], OnOk, IfOk, length, get_or};

use std::alloc::{AllocError, Global};
use std::marker::Model;

/// Lists of nodes. All nodes are in one list, so one list more costs the space of its nodes and of one place.
#[derive(Debug, Drop)]
pub(crate) struct WordList {
    nodes: Vec<u32>,
    // where in `nodes` each list starts
    starts: Vec<usize>,
}

impl Model for WordList {
    ghost use Rattle.std.specs.Prelude.{ℕ, List, length};
    ghost use Rattle.aea_sweep.specs.Cuts.{lists_of, AreCuts};

    ghost Value = { List (List ℕ) };

    ghost view = { λ w. lists_of w.starts.items w.nodes.items };

    ghost invariant = { λ w. AreCuts 0 w.starts.items (length w.nodes.items) };
}

impl WordList {
    /// No list, with space for the starts of this many.
    pub(crate) fn with_capacity(alloc: Global, most: usize) -> Result<WordList, AllocError>
        ensures { IfOk result (λ w. w ≡ []) }
    {
        let starts = Vec::with_capacity(alloc, most)?;
        Ok(WordList {
            nodes: Vec::new(alloc),
            starts,
        })
    }

    /// The number of lists.
    pub(crate) fn len(&self) -> usize
        ensures { result ≡ length self.now }
    {
        self.starts.len()
    }

    /// The nodes of the list at this place.
    pub(crate) fn get(&self, r: usize) -> &[u32]
        requires { r < length self.now }
        ensures { result.now ≡ get_or self.now r [] }
    {
        let start = self.starts[r];
        if r + 1 < self.starts.len() {
            &self.nodes[start..self.starts[r + 1]]
        } else {
            &self.nodes[start..]
        }
    }

    /// Puts a list of these nodes last.
    pub(crate) fn push(&mut self, nodes: &[u32]) -> Result<(), AllocError>
        ensures { OnOk result (self.new ≡ self.old ++ nodes.now ∷ []) }
    {
        self.starts.push(self.nodes.len())?;
        self.nodes.extend_from_slice(nodes)?;
        Ok(())
    }
}
