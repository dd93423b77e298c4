//! The first object, got back.

ghost use Rattle.std.specs.Prelude.{◌≡◌, ◌∷◌, ◌≤◌, List, length, OnOk};
ghost use Rattle.aea_disk.specs.Frames.{OnlyReads};
ghost use Rattle.aea_archive.specs.Next.{NewObject};
ghost use Rattle.aea_rehearse.specs.Rooms.{IsWilling};
ghost use Rattle.aea_witness.specs.Objects.{HasPuts};
ghost use Rattle.aea_witness.specs.Rooms.{IsEmptySink};

use aea_disk::Disk;
use aea_fetch::{GetFault, get};
use aea_io::SureSink;
use aea_ledger::Ledger;
use std::alloc::{AllocError, Global};

/// Gets the first object that was put.
pub(crate) fn fetch<D: Disk>(
    alloc: Global,
    ledger: &Ledger,
    disk: &mut D,
    name: &[u8],
    out: &mut SureSink,
) -> Result<(), AllocError>
    requires reveals { D.reveals }
    requires willing { IsWilling (D.state disk.old) }
    requires puts { (o : NewObject) × (more : List NewObject) × HasPuts ledger.now (o ∷ more) (D.state disk.old).files × (o.name ≡ name.now) × (length o.bytes ≤ 512) }
    requires out { IsEmptySink 512 out.old }
    ensures got { OnOk result ((o : NewObject) (more : List NewObject) → HasPuts ledger.now (o ∷ more) (D.state disk.old).files → o.name ≡ name.now → out.new.bytes.items ≡ o.bytes) }
    ensures reads { OnlyReads D.reveals ⊥ (D.state disk.old) (D.state disk.new) }
{
    match get(alloc, ledger, disk, name, out) {
        Ok(_) => Ok(()),
        Err(GetFault::NoMemory) => Err(AllocError),
        Err(GetFault::UnknownName) => unreachable!(),
        Err(GetFault::Damaged { .. }) => unreachable!(),
        Err(GetFault::WriteFault) => unreachable!(),
        Err(GetFault::DiskFault) => unreachable!(),
    }
}
