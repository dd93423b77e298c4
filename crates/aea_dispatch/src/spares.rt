//! What holds of the runs that leave the ledger, for those that are stopped and gone on with.

ghost use Rattle.aea_dispatch.specs.Sparing.{RunsSpareBlocks};

use aea_archive::survivors_are_revealed;
use aea_disk::Disk;
use aea_records::ledgers_have_one_reading;

/// Over a disk of this kind, a run of a command that may change no file, and one of `repair`, leaves the ledger and every
/// intact block, as `stops_keep_puts` asks it of such a run. It is a law alone; nothing is done.
pub fn runs_spare_blocks<D: Disk>(_disk: &D)
    ensures { RunsSpareBlocks D.reveals D.state }
{
    ledgers_have_one_reading();
    survivors_are_revealed();
}
