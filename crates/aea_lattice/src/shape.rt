//! The shape of an archive: that of its lattices, the size of its blocks, and its sites.

ghost use Rattle.std.specs.Prelude.{◌≡◌, ◌↔◌, IsTrue, IsSome, IfSome};
ghost use Rattle.aea_lattice.specs.Profile.{is_shape};

use crate::grid::in_profile;

/// The shape of an archive: its lattices are AE(α,s,p), each of its blocks has `block` bytes, and its cells lie on
/// `sites` sites.
#[derive(Clone, Copy, Debug, PartialEq, Eq)]
pub struct Shape {
    pub alpha: u8,
    pub s: u8,
    pub p: u8,
    pub block: u32,
    pub sites: u8,
    ghost in_profile: { IsTrue (is_shape alpha s p block sites) },
}

impl Shape {
    /// An archive of this shape; None where α, s and p are no profile, the blocks have fewer than 16 bytes or more
    /// than 65,536, or the sites are none or more than 64.
    pub fn new(alpha: u8, s: u8, p: u8, block: u32, sites: u8) -> Option<Shape>
        ensures valid { IsSome result ↔ IsTrue (is_shape alpha s p block sites) }
        ensures alpha { IfSome result (λ shape. shape.alpha ≡ alpha) }
        ensures s { IfSome result (λ shape. shape.s ≡ s) }
        ensures p { IfSome result (λ shape. shape.p ≡ p) }
        ensures block { IfSome result (λ shape. shape.block ≡ block) }
        ensures sites { IfSome result (λ shape. shape.sites ≡ sites) }
    {
        if !in_profile(alpha, s, p) {
            return None;
        }
        if 16 <= block && block <= 65_536 && 1 <= sites && sites <= 64 {
            Some(Shape {
                alpha,
                s,
                p,
                block,
                sites,
            })
        } else {
            None
        }
    }

    /// The number α of classes of strands, 1 to 3.
    pub fn alpha(&self) -> u8
        ensures { result ≡ self.now.alpha }
    {
        self.alpha
    }

    /// The number s of rows.
    pub fn s(&self) -> u8
        ensures { result ≡ self.now.s }
    {
        self.s
    }

    /// The number p of Right strands, and of Left strands.
    pub fn p(&self) -> u8
        ensures { result ≡ self.now.p }
    {
        self.p
    }

    /// The bytes of a block, 16 to 65,536.
    pub fn block(&self) -> u32
        ensures { result ≡ self.now.block }
    {
        self.block
    }

    /// The number of sites, 1 to 64.
    pub fn sites(&self) -> u8
        ensures { result ≡ self.now.sites }
    {
        self.sites
    }
}
