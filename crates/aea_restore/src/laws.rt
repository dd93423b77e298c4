//! What follows of the definitions.

ghost use Rattle.aea_restore.specs.Laws.{PlansCanBeRestored, GivenAreRestorable};

use aea_fates::{determined_stay, sums_are_determined, words_are_open};
use aea_lattice::{passing_are_among, reached_are_determined};

/// A plan of peeling, and the fates over what it reaches, can be carried out.
pub fn plans_can_be_restored()
    ensures { PlansCanBeRestored }
{}

/// What these give is exactly the damaged blocks that the known ones determine.
pub fn given_are_restorable()
    ensures { GivenAreRestorable }
{
    passing_are_among();
    reached_are_determined();
    sums_are_determined();
    words_are_open();
    determined_stay();
}
