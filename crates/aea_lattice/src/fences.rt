//! The fences of a lattice.

ghost use Rattle.std.specs.Prelude.{◌≡◌, ◌<◌, ◌++◌, ◌∷◌, [], Some, length, slice_get};
ghost use Rattle.aea_lattice.specs.Fences.{greatest_fences, last_fence, is_parted};

use std::marker::Model;

/// The greatest number of fences of a lattice.
pub const MAX_FENCES: u8 = 16;

/// Nodes after each of which every strand of a lattice begins anew, at most 16.
#[derive(Clone, Copy, Debug, PartialEq, Eq)]
pub struct Fences {
    // zeros after the last one
    nodes: [u32; 16],
    count: u8,
}

impl Model for Fences {
    ghost use Rattle.std.specs.Prelude.{◌≡◌, ◌≤◌, ◌-◌, ◌++◌, ℕ, List, length, take, drop, replicate};
    ghost use Rattle.std.proofs.Common.{◌∙◌, ap, sym};
    ghost use Rattle.std.proofs.lemmas.List.{length-take-le, take-append-drop};

    ghost Value = { List ℕ };

    ghost view = { λ f. take f.count f.nodes };

    ghost invariant = { λ f. (f.count ≤ length f.nodes) × (drop f.count f.nodes ≡ replicate (16 - f.count) 0) };

    ghost inverse = { λ nodes. record { nodes = nodes ++ replicate (16 - length nodes) 0; count = length nodes } };

    ghost inverse_ok = { λ a h. λ i. record { nodes = (ap (λ c. take a.count a.nodes ++ replicate (16 - c) 0) (length-take-le a.count a.nodes h.0) ∙ ap (λ rest. take a.count a.nodes ++ rest) (sym h.1) ∙ take-append-drop a.count a.nodes) i; count = length-take-le a.count a.nodes h.0 i } };
}

impl Fences {
    /// No fences.
    pub fn none() -> Fences
        ensures { result ≡ [] }
    {
        Fences {
            nodes: [0; 16],
            count: 0,
        }
    }

    /// How many there are.
    pub fn count(&self) -> u8
        ensures { result ≡ length self.now }
    {
        self.count
    }

    /// The fence at this place, in rising order from 0.
    pub fn at(&self, k: u8) -> u32
        requires { k < length self.now }
        ensures { slice_get self.now k ≡ Some result }
    {
        self.nodes[usize::from(k)]
    }

    /// The last one, 0 where there is none.
    pub fn last(&self) -> u32
        ensures { result ≡ last_fence self.now }
    {
        if self.count == 0 {
            return 0;
        }
        self.nodes[usize::from(self.count - 1)]
    }

    /// Whether one of them parts the first node from the second: it is at the first or later, and before the
    /// second.
    pub fn parts(&self, first: u32, second: u32) -> bool
        ensures { result ≡ is_parted self.now first second }
    {
        self.nodes[..usize::from(self.count)]
            .iter()
            .any(|f| first <= *f && *f < second)
    }

    /// These and one more.
    pub(crate) fn with(&self, node: u32) -> Fences
        requires { length self.now < greatest_fences }
        ensures { result ≡ self.now ++ node ∷ [] }
    {
        let mut nodes = self.nodes;
        nodes[usize::from(self.count)] = node;
        Fences {
            nodes,
            count: self.count + 1,
        }
    }
}
