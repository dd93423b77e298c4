//! The strands of a class, and where each of them ends.

ghost use Rattle.std.specs.Prelude.{◌≡◌, ℕ, ◌<◌, IfSome};

use crate::blocks::Class;
use crate::grid::Lattice;

impl Lattice {
    ghost use Rattle.aea_lattice.specs.Blocks.{HasNode, HasParity};
    ghost use Rattle.aea_lattice.specs.Strands.{strand_of};
    ghost use Rattle.aea_lattice.specs.Ends.{strands_of, last_open};

    /// The number of strands of the class: s for Horiz, and p for Right and for Left.
    pub fn strands(&self, class: Class) -> u32
        requires { HasParity self.now class }
        ensures count { result ≡ strands_of self.now class }
        ensures below { (node : ℕ) → strand_of self.now class node < result }
    {
        match class {
            Class::Datum => unreachable!(),
            Class::Horiz => u32::from(self.s),
            Class::Right | Class::Left => u32::from(self.p),
        }
    }

    /// The greatest node up to n on this strand of the class that is greater than the last fence, None where there is
    /// none. It looks at no more than s nodes for Horiz, and s·p for Right and Left, since each strand comes back
    /// within so many.
    pub fn last_on(&self, class: Class, strand: u32) -> Option<u32>
        requires class { HasParity self.now class }
        requires strand { strand < strands_of self.now class }
        ensures last { result ≡ last_open self.now class strand }
        ensures node { IfSome result (λ g. HasNode self.now g) }
        ensures on { IfSome result (λ g. strand_of self.now class g ≡ strand) }
    {
        let mut node = self.n;
        while 1 <= node && self.strand(node, class) != strand {
            node -= 1;
        }
        if node == 0 {
            return None;
        }
        if self.fences.parts(node, self.n + 1) {
            None
        } else {
            Some(node)
        }
    }
}
