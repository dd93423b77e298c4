//! What follows of the definitions.

ghost use Rattle.aea_verify.specs.Shown.{AcceptedAreFitting, LostAreOpen};

use aea_lattice::changes_are_codewords;

/// A report of a lattice is accepted exactly where it fits.
pub fn accepted_are_fitting()
    ensures { AcceptedAreFitting }
{}

/// A report that fits shows of each lost block that the intact ones leave it open.
pub fn lost_are_open()
    ensures { LostAreOpen }
{
    changes_are_codewords();
}
