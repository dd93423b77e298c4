//! What runs leave of the copies of the ledger.

ghost use Rattle.aea_cli.specs.Keeping.{CopiesStayGood, KeptIsAdopted};

use aea_disk::Disk;

/// Over a disk of this kind: where copies were adopted that are on, both are good in each image of each moment of the run from then on, and
/// at the end of a run that says that copies were begun; and over files of which pieces are kept a run adopts them. It is a law
/// alone; nothing is done.
pub fn copies_stay_good<D: Disk>(_disk: &D)
    ensures good { CopiesStayGood D.reveals D.state }
    ensures found { KeptIsAdopted D.reveals D.state }
{}
