//! The loss of one or two sites.

ghost use Rattle.std.specs.Prelude.{◌≡◌, ◌≤◌, IfOk};
ghost use Rattle.aea_view.specs.Marked.{AreMarks, IsWhole};
ghost use Rattle.aea_sites.specs.Losses.{IsLossOf};
ghost use Rattle.aea_sites.specs.Sites.{is_elsewhere};

use crate::lost::{SiteLoss, loss_of};
use crate::missing::mark_site;
use aea_lattice::Lattice;
use aea_view::Marks;
use std::alloc::{AllocError, Global};

// Marks of the blocks whose home is on neither of the two sites.
fn marks_left(
    alloc: Global,
    lattice: &Lattice,
    sites: u8,
    a: u8,
    b: u8,
) -> Result<Marks, AllocError>
    requires some { 1 ≤ sites }
    requires few { sites ≤ 64 }
    requires a { 1 ≤ a }
    requires a_last { a ≤ sites }
    requires b { 1 ≤ b }
    requires b_last { b ≤ sites }
    ensures lattice { IfOk result (λ m. m.lattice ≡ lattice.now) }
    ensures marks { IfOk result (λ m. AreMarks m (is_elsewhere lattice.now sites a b)) }
    ensures whole { IfOk result IsWhole }
{
    let mut missing = Marks::new(alloc, lattice)?;
    mark_site(&mut missing, sites, a);
    mark_site(&mut missing, sites, b);
    let left = missing.complement(alloc)?;
    Ok(left)
}

/// What is lost of a lattice over so many sites where two of them are gone, or one, where the two are the same: the blocks
/// whose home is on one of them and which the others do not determine. No block is asked for: those of a site are marked row by
/// row. Then it takes what `loss` takes. An error is a lack of memory.
pub fn without(
    alloc: Global,
    lattice: &Lattice,
    sites: u8,
    a: u8,
    b: u8,
) -> Result<SiteLoss, AllocError>
    requires some { 1 ≤ sites }
    requires few { sites ≤ 64 }
    requires a { 1 ≤ a }
    requires a_last { a ≤ sites }
    requires b { 1 ≤ b }
    requires b_last { b ≤ sites }
    ensures { IfOk result (IsLossOf lattice.now (is_elsewhere lattice.now sites a b)) }
{
    let left = marks_left(alloc, lattice, sites, a, b)?;
    loss_of(alloc, left)
}
