//! The archive of the witness, made anew.

ghost use Rattle.std.specs.Prelude.{◌≡◌, ◌≤◌, true, List, [], ◌∷◌, ◌++◌, length, IfOk, OnOk};
ghost use Rattle.aea_disk.specs.State.{Passes, IsFixed};
ghost use Rattle.aea_archive.specs.Next.{NewObject};
ghost use Rattle.aea_witness.specs.Objects.{object_of, IsSmall, IsNewName, HasPuts};
ghost use Rattle.aea_witness.specs.Rooms.{HasWitnessRoom};
ghost use Rattle.aea_witness.specs.Witnessed.{IsFilled};

use crate::ingesting::ingest;
use aea_append::{PutFault, put};
use aea_archive::none_record_none;
use aea_disk::Disk;
use aea_fetch::puts_go_on;
use aea_io::SureSource;
use aea_ledger::Ledger;
use aea_records::{
    digests_are_counted, ledgers_have_one_reading, new_names_are_free, objects_are_counted,
};
use aea_rehearse::{create, open, rehearsal_shape};
use std::alloc::{AllocError, Global};

// Puts a small object into the archive, under a new name.
fn store<D: Disk>(
    alloc: Global,
    ledger: &mut Ledger,
    disk: &mut D,
    name: &[u8],
    bytes: &[u8],
) -> Result<(), AllocError>
    requires reveals { D.reveals }
    requires live { ledger.old.live ≡ true }
    requires fixed { IsFixed (D.state disk.old) 0 }
    requires room { HasWitnessRoom (D.state disk.old) }
    requires small { IsSmall (object_of name.now bytes.now) }
    requires puts { (puts : List NewObject) × HasPuts ledger.old puts (D.state disk.old).files × IsNewName name.now puts × (length puts ≤ 3) }
    ensures puts { OnOk result ((puts : List NewObject) → HasPuts ledger.old puts (D.state disk.old).files → HasPuts ledger.new (puts ++ object_of name.now bytes.now ∷ []) (D.state disk.new).files) }
    ensures live { OnOk result (ledger.new.live ≡ true) }
    ensures fixed { OnOk result (IsFixed (D.state disk.new) 0) }
    ensures time { Passes (D.state disk.old) (D.state disk.new) }
    ensures steady { (D.state disk.new).faults ≡ (D.state disk.old).faults }
{
    puts_go_on();
    new_names_are_free();
    objects_are_counted();
    digests_are_counted();
    let mut source = SureSource::new(bytes);
    match put(alloc, ledger, disk, name, &mut source) {
        Ok(_) => Ok(()),
        Err(PutFault::NoMemory) => Err(AllocError),
        Err(PutFault::BadName) => unreachable!(),
        Err(PutFault::NameTaken) => unreachable!(),
        Err(PutFault::CatalogFull) => unreachable!(),
        Err(PutFault::HeadDamaged { .. }) => unreachable!(),
        Err(PutFault::Full { .. }) => unreachable!(),
        Err(PutFault::ReadFault) => unreachable!(),
        Err(PutFault::DiskFault) => unreachable!(),
    }
}

/// Makes the archive on a disk whose ledger is empty, and puts the objects into it, the third from a stream. `at` counts the
/// bytes that are taken of that.
pub(crate) fn build<D: Disk>(
    alloc: Global,
    disk: &mut D,
    at: &mut u64,
) -> Result<Ledger, AllocError>
    requires reveals { D.reveals }
    requires empty { (D.state disk.old).files 0 ≡ [] }
    requires room { HasWitnessRoom (D.state disk.old) }
    requires none { at.old ≡ 0 }
    ensures built { IfOk result (λ v. IsFilled v (D.state disk.new).files at.new) }
    ensures time { Passes (D.state disk.old) (D.state disk.new) }
    ensures steady { (D.state disk.new).faults ≡ (D.state disk.old).faults }
{
    ledgers_have_one_reading();
    none_record_none();
    let shape = rehearsal_shape();
    create(disk, &shape);
    let mut ledger = open(alloc, disk)?;
    store(alloc, &mut ledger, disk, b"first", b"what was put first")?;
    store(
        alloc,
        &mut ledger,
        disk,
        b"second",
        b"what was put after it",
    )?;
    ingest(alloc, &mut ledger, disk, at)?;
    Ok(ledger)
}
