//! Laws of runs of `session`.

ghost use Rattle.aea_command_session.specs.Chains.{RepliesStay};

use aea_disk::Disk;

/// From each step of a run on the blocks of X stay, up to the end. It is a law alone; nothing is done.
pub fn replies_stay<D: Disk>(_disk: &D)
    ensures { RepliesStay D.reveals }
{}
