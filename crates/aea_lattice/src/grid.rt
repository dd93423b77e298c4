ghost use Rattle.std.specs.Prelude.{◌≡◌, ◌+◌, ◌-◌, ◌*◌, ◌<◌, ◌≤◌, ◌↔◌, ◌&&◌, IsTrue, IsSome, IfSome, Some, [], length, nat_le, option_map, slice_get};
ghost use Rattle.aea_lattice.specs.Profile.{is_profile, greatest_nodes};
ghost use Rattle.aea_lattice.specs.Fences.{are_fences, last_fence, greatest_fences};

use crate::blocks::{BlockId, Class, EqId, Equation};
use crate::fences::{Fences, MAX_FENCES};

/// The greatest number of nodes of a lattice.
pub const MAX_NODES: u32 = 1_048_576;

/// The shape AE(α,s,p) of a lattice and its number n of nodes: α classes of strands, s rows, p strands of the
/// class Right and of the class Left. After each of its fences every strand begins anew.
#[derive(Clone, Copy, Debug, PartialEq, Eq)]
pub struct Lattice {
    pub alpha: u8,
    pub s: u8,
    pub p: u8,
    pub n: u32,
    pub fences: Fences,
    ghost in_profile: { IsTrue (is_profile alpha s p) },
    ghost in_range: { n ≤ greatest_nodes },
    ghost fenced: { IsTrue (are_fences n fences) },
}

// Whether α, s and p lie in the profile.
pub(crate) fn in_profile(alpha: u8, s: u8, p: u8) -> bool
    ensures { IsTrue result ↔ IsTrue (is_profile alpha s p) }
{
    let plain = alpha == 1 && s == 1 && p == 0;
    let woven = 2 <= alpha && alpha <= 3 && 2 <= s && s <= 16 && s <= p && p <= 64;
    plain || woven
}

// The node `back` before this one.
fn earlier(node: u32, back: u32) -> Option<u32>
    ensures found { back < node → result ≡ Some (node - back) }
    ensures none { node ≤ back → result ≡ None }
{
    if back < node { Some(node - back) } else { None }
}

impl Lattice {
    ghost use Rattle.aea_lattice.specs.Blocks.{HasNode, HasParity, HasBlock, block_of, blocks_count, blocks_of, number_of};
    ghost use Rattle.aea_lattice.specs.Strands.{previous, IsNext, strand_of};
    ghost use Rattle.aea_lattice.specs.Neighbours.{neighbour, IsNextNeighbour};
    ghost use Rattle.aea_lattice.specs.Growth.{IsGrown, IsFenced, Continues};
    ghost use Rattle.aea_lattice.specs.Equations.{HasEquation, equation_blocks, blocks_in, LiesInside, AreDistinct};

    /// A lattice of this shape and number of nodes without fences, None outside the profile of shapes or above
    /// `MAX_NODES`.
    pub fn new(alpha: u8, s: u8, p: u8, n: u32) -> Option<Lattice>
        ensures valid { IsSome result ↔ IsTrue (is_profile alpha s p && nat_le n greatest_nodes) }
        ensures alpha { IfSome result (λ l. l.alpha ≡ alpha) }
        ensures s { IfSome result (λ l. l.s ≡ s) }
        ensures p { IfSome result (λ l. l.p ≡ p) }
        ensures n { IfSome result (λ l. l.n ≡ n) }
        ensures fences { IfSome result (λ l. l.fences ≡ []) }
    {
        if in_profile(alpha, s, p) && n <= MAX_NODES {
            Some(Lattice {
                alpha,
                s,
                p,
                n,
                fences: Fences::none(),
            })
        } else {
            None
        }
    }

    /// This lattice with n nodes, None where it has more or n is above `MAX_NODES`.
    pub fn grown(&self, n: u32) -> Option<Lattice>
        ensures valid { IsSome result ↔ ((self.now.n ≤ n) × (n ≤ greatest_nodes)) }
        ensures grown { IfSome result (IsGrown self.now n) }
        ensures continues { IfSome result (Continues self.now) }
    {
        if self.n <= n && n <= MAX_NODES {
            Some(Lattice {
                alpha: self.alpha,
                s: self.s,
                p: self.p,
                n,
                fences: self.fences,
            })
        } else {
            None
        }
    }

    /// This lattice with a fence after its last node, None where it has no node, a fence is there, or it has
    /// `MAX_FENCES` fences.
    pub fn fenced(&self) -> Option<Lattice>
        ensures valid { IsSome result ↔ ((last_fence self.now.fences < self.now.n) × (length self.now.fences < greatest_fences)) }
        ensures fenced { IfSome result (IsFenced self.now) }
        ensures continues { IfSome result (Continues self.now) }
    {
        if self.fences.last() < self.n && self.fences.count() < MAX_FENCES {
            Some(Lattice {
                alpha: self.alpha,
                s: self.s,
                p: self.p,
                n: self.n,
                fences: self.fences.with(self.n),
            })
        } else {
            None
        }
    }

    /// How many fences it has.
    pub fn fence_count(&self) -> u8
        ensures { result ≡ length self.now.fences }
    {
        self.fences.count()
    }

    /// The fence at this place, in rising order from 0.
    pub fn fence(&self, k: u8) -> u32
        requires { k < length self.now.fences }
        ensures { slice_get self.now.fences k ≡ Some result }
    {
        self.fences.at(k)
    }

    /// The number α of classes of strands, 1 to 3.
    pub fn alpha(&self) -> u8
        ensures { result ≡ self.now.alpha }
    {
        self.alpha
    }

    /// The number s of rows.
    pub fn s(&self) -> u8
        ensures { result ≡ self.now.s }
    {
        self.s
    }

    /// The number p of Right strands, and of Left strands.
    pub fn p(&self) -> u8
        ensures { result ≡ self.now.p }
    {
        self.p
    }

    /// The number n of nodes.
    pub fn n(&self) -> u32
        ensures { result ≡ self.now.n }
    {
        self.n
    }

    /// The number of blocks, n·(1+α).
    pub fn blocks(&self) -> u32
        ensures count { result ≡ blocks_count self.now }
        ensures all { result ≡ length (blocks_of self.now) }
    {
        self.n * (1 + u32::from(self.alpha))
    }

    /// Whether the block is one of the lattice.
    pub fn contains(&self, b: BlockId) -> bool
        ensures { IsTrue result ↔ HasBlock self.now b }
    {
        1 <= b.node && b.node <= self.n && b.class as u8 <= self.alpha
    }

    /// The node just before this one on its strand of the class, None where the strand begins here, also after a fence.
    pub fn input(&self, node: u32, class: Class) -> Option<u32>
        requires node { HasNode self.now node }
        requires class { HasParity self.now class }
        ensures input { result ≡ previous self.now class node }
        ensures earlier { IfSome result (λ g. (1 ≤ g) × (g < node)) }
    {
        let before = self.neighbour_before(node, class)?;
        if self.fences.parts(before, node) {
            None
        } else {
            Some(before)
        }
    }

    // The node just before this one on its strand, with no regard to fences.
    fn neighbour_before(&self, node: u32, class: Class) -> Option<u32>
        requires node { HasNode self.now node }
        requires class { HasParity self.now class }
        ensures { result ≡ neighbour self.now class node }
    {
        match class {
            Class::Datum => unreachable!(),
            Class::Horiz => self.horiz_input(node),
            Class::Right => self.right_input(node),
            Class::Left => self.left_input(node),
        }
    }

    fn horiz_input(&self, node: u32) -> Option<u32>
        requires { HasNode self.now node }
        ensures { result ≡ neighbour self.now Class.Horiz node }
    {
        earlier(node, u32::from(self.s))
    }

    fn right_input(&self, node: u32) -> Option<u32>
        requires node { HasNode self.now node }
        requires woven { 2 ≤ self.now.alpha }
        ensures { result ≡ neighbour self.now Class.Right node }
    {
        let s = u32::from(self.s);
        if (node - 1) % s == 0 {
            return earlier(node, s * u32::from(self.p) + 1 - s * s);
        }
        earlier(node, s + 1)
    }

    fn left_input(&self, node: u32) -> Option<u32>
        requires node { HasNode self.now node }
        requires woven { 2 ≤ self.now.alpha }
        ensures { result ≡ neighbour self.now Class.Left node }
    {
        let s = u32::from(self.s);
        if (node - 1) % s == s - 1 {
            return earlier(node, s * u32::from(self.p) - (s - 1) * (s - 1));
        }
        earlier(node, s - 1)
    }

    /// The node of the lattice that has this one just before it on the class, None where it would be above n.
    pub fn next(&self, node: u32, class: Class) -> Option<u32>
        requires node { HasNode self.now node }
        requires class { HasParity self.now class }
        ensures next { IsNext self.now class node result }
        ensures later { IfSome result (λ j. (node < j) × (j ≤ self.now.n)) }
    {
        let after = self.neighbour_after(node, class)?;
        if self.fences.parts(node, after) {
            None
        } else {
            Some(after)
        }
    }

    // The node of the lattice that has this one just before it on the strand, with no regard to fences.
    fn neighbour_after(&self, node: u32, class: Class) -> Option<u32>
        requires node { HasNode self.now node }
        requires class { HasParity self.now class }
        ensures { IsNextNeighbour self.now class node result }
    {
        match class {
            Class::Datum => unreachable!(),
            Class::Horiz => self.horiz_output(node),
            Class::Right => self.right_output(node),
            Class::Left => self.left_output(node),
        }
    }

    // The node, where the lattice has it.
    fn later(&self, node: u32) -> Option<u32>
        ensures found { node ≤ self.now.n → result ≡ Some node }
        ensures none { self.now.n < node → result ≡ None }
    {
        if node <= self.n { Some(node) } else { None }
    }

    fn horiz_output(&self, node: u32) -> Option<u32>
        requires { HasNode self.now node }
        ensures { IsNextNeighbour self.now Class.Horiz node result }
    {
        self.later(node + u32::from(self.s))
    }

    fn right_output(&self, node: u32) -> Option<u32>
        requires node { HasNode self.now node }
        requires woven { 2 ≤ self.now.alpha }
        ensures { IsNextNeighbour self.now Class.Right node result }
    {
        let s = u32::from(self.s);
        if (node - 1) % s == s - 1 {
            return self.later(node + (s * u32::from(self.p) + 1 - s * s));
        }
        self.later(node + (s + 1))
    }

    fn left_output(&self, node: u32) -> Option<u32>
        requires node { HasNode self.now node }
        requires woven { 2 ≤ self.now.alpha }
        ensures { IsNextNeighbour self.now Class.Left node result }
    {
        let s = u32::from(self.s);
        if (node - 1) % s == 0 {
            return self.later(node + (s * u32::from(self.p) - (s - 1) * (s - 1)));
        }
        self.later(node + (s - 1))
    }

    /// The number of the node's strand of the class, counted from 0.
    pub fn strand(&self, node: u32, class: Class) -> u32
        requires node { HasNode self.now node }
        requires class { HasParity self.now class }
        ensures { result ≡ strand_of self.now class node }
    {
        let s = u32::from(self.s);
        let p = u32::from(self.p);
        let column = (node - 1) / s;
        let row = (node - 1) % s;
        match class {
            Class::Datum => unreachable!(),
            Class::Horiz => row,
            Class::Right => (column + (p - row)) % p,
            Class::Left => (column + row) % p,
        }
    }

    /// The blocks of an equation, which lie in the lattice and are distinct. Peeling asks it of each equation that it looks at,
    /// so it is laid into its callers.
    #[inline(always)]
    pub fn equation(&self, e: EqId) -> Equation
        requires { HasEquation self.now e }
        ensures datum { result.datum ≡ block_of e.node Class.Datum }
        ensures output { result.output ≡ block_of e.node e.class }
        ensures input { result.input ≡ option_map (λ g. block_of g e.class) (previous self.now e.class e.node) }
        ensures listed { blocks_in result ≡ equation_blocks self.now e }
        ensures earlier { IfSome result.input (λ g. g.node < e.node) }
        ensures inside { LiesInside self.now result }
        ensures distinct { AreDistinct result }
    {
        Equation {
            input: self.input(e.node, e.class).map(|node| BlockId {
                node,
                class: e.class,
            }),
            datum: BlockId {
                node: e.node,
                class: Class::Datum,
            },
            output: BlockId {
                node: e.node,
                class: e.class,
            },
        }
    }

    /// The place of the block in number order, counted from 0.
    pub fn number(&self, b: BlockId) -> u32
        requires { HasBlock self.now b }
        ensures value { result ≡ number_of self.now b }
        ensures below { result < blocks_count self.now }
    {
        (b.node - 1) * (1 + u32::from(self.alpha)) + u32::from(b.class as u8)
    }

    /// The block at this place in number order, counted from 0.
    pub fn block(&self, k: u32) -> BlockId
        requires { k < blocks_count self.now }
        ensures block { HasBlock self.now result }
        ensures number { number_of self.now result ≡ k }
        ensures place { slice_get (blocks_of self.now) k ≡ Some result }
    {
        self.numbered(k)
    }

    fn numbered(&self, k: u32) -> BlockId
        requires { k < blocks_count self.now }
        ensures block { HasBlock self.now result }
        ensures number { number_of self.now result ≡ k }
    {
        let wide = 1 + u32::from(self.alpha);
        let class = match k % wide {
            0 => Class::Datum,
            1 => Class::Horiz,
            2 => Class::Right,
            _ => Class::Left,
        };
        BlockId {
            node: k / wide + 1,
            class,
        }
    }
}
