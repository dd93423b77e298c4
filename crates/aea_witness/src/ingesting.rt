//! The stream that is ingested: one whole frame, and one that is cut.

ghost use Rattle.std.specs.Prelude.{◌≡◌, ◌+◌, ◌≤◌, true, [], ◌∷◌, ◌++◌, length, OnOk};
ghost use Rattle.aea_disk.specs.State.{Passes, IsFixed};
ghost use Rattle.aea_append.specs.Frames.{EndsInside};
ghost use Rattle.aea_witness.specs.Objects.{first_object, second_object, HasPuts};
ghost use Rattle.aea_witness.specs.Rooms.{HasWitnessRoom};
ghost use Rattle.aea_witness.specs.Streams.{BeginsWithNew, IsCutShort};
ghost use Rattle.aea_witness.specs.Witnessed.{IsFilled};

use aea_append::{Ingest, IngestFault, ingest_one};
use aea_disk::Disk;
use aea_fetch::puts_go_on;
use aea_io::SureSource;
use aea_ledger::Ledger;
use aea_records::{digests_are_counted, new_names_are_free, objects_are_counted};
use std::alloc::{AllocError, Global};

// Takes the whole frame that the stream begins with, and puts its object. `at` counts the bytes that are taken.
fn take_in<D: Disk>(
    alloc: Global,
    ledger: &mut Ledger,
    disk: &mut D,
    source: &mut SureSource<'_>,
    at: &mut u64,
) -> Result<(), AllocError>
    requires reveals { D.reveals }
    requires live { ledger.old.live ≡ true }
    requires fixed { IsFixed (D.state disk.old) 0 }
    requires room { HasWitnessRoom (D.state disk.old) }
    requires frame { BeginsWithNew ledger.old (D.state disk.old).files source.old.rest.now }
    requires count { at.old ≤ 1000 }
    ensures taken { OnOk result ((b : BeginsWithNew ledger.old (D.state disk.old).files source.old.rest.now) → HasPuts ledger.new (b.puts ++ b.object ∷ []) (D.state disk.new).files × (source.new.rest.now ≡ b.rest)) }
    ensures live { OnOk result (ledger.new.live ≡ true) }
    ensures fixed { OnOk result (IsFixed (D.state disk.new) 0) }
    ensures counted { at.new + length source.new.rest.now ≡ at.old + length source.old.rest.now }
    ensures time { Passes (D.state disk.old) (D.state disk.new) }
    ensures steady { (D.state disk.new).faults ≡ (D.state disk.old).faults }
{
    puts_go_on();
    new_names_are_free();
    objects_are_counted();
    digests_are_counted();
    match ingest_one(alloc, ledger, disk, source, at) {
        Ok(Ingest::Stored { .. }) => Ok(()),
        Ok(Ingest::End) => unreachable!(),
        Err(IngestFault::NoMemory) => Err(AllocError),
        Err(IngestFault::BadName) => unreachable!(),
        Err(IngestFault::NameTaken) => unreachable!(),
        Err(IngestFault::HeadDamaged { .. }) => unreachable!(),
        Err(IngestFault::Full { .. }) => unreachable!(),
        Err(IngestFault::CatalogFull) => unreachable!(),
        Err(IngestFault::BadStream { .. }) => unreachable!(),
        Err(IngestFault::ReadFault) => unreachable!(),
        Err(IngestFault::DiskFault) => unreachable!(),
    }
}

// Takes what is left of the stream, which ends inside a frame: nothing is put. `at` counts the bytes that are taken: all.
fn meet_cut<D: Disk>(
    alloc: Global,
    ledger: &mut Ledger,
    disk: &mut D,
    source: &mut SureSource<'_>,
    at: &mut u64,
) -> Result<(), AllocError>
    requires reveals { D.reveals }
    requires live { ledger.old.live ≡ true }
    requires fixed { IsFixed (D.state disk.old) 0 }
    requires room { HasWitnessRoom (D.state disk.old) }
    requires cut { IsCutShort ledger.old (D.state disk.old).files source.old.rest.now }
    requires count { at.old ≤ 1000 }
    ensures counted { OnOk result (at.new ≡ at.old + length source.old.rest.now) }
    ensures cut { OnOk result (EndsInside ledger.new source.old.rest.now) }
    ensures stays { OnOk result ((b : IsCutShort ledger.old (D.state disk.old).files source.old.rest.now) → HasPuts ledger.new b.puts (D.state disk.new).files) }
    ensures time { Passes (D.state disk.old) (D.state disk.new) }
    ensures steady { (D.state disk.new).faults ≡ (D.state disk.old).faults }
{
    new_names_are_free();
    objects_are_counted();
    match ingest_one(alloc, ledger, disk, source, at) {
        Err(IngestFault::BadStream { .. }) => Ok(()),
        Err(IngestFault::NoMemory) => Err(AllocError),
        Ok(Ingest::Stored { .. }) => unreachable!(),
        Ok(Ingest::End) => unreachable!(),
        Err(IngestFault::BadName) => unreachable!(),
        Err(IngestFault::NameTaken) => unreachable!(),
        Err(IngestFault::HeadDamaged { .. }) => unreachable!(),
        Err(IngestFault::Full { .. }) => unreachable!(),
        Err(IngestFault::CatalogFull) => unreachable!(),
        Err(IngestFault::ReadFault) => unreachable!(),
        Err(IngestFault::DiskFault) => unreachable!(),
    }
}

/// Ingests the stream into the archive with the first two objects: the third is put, and the stream ends inside the fourth.
/// `at` counts the bytes that are taken.
pub(crate) fn ingest<D: Disk>(
    alloc: Global,
    ledger: &mut Ledger,
    disk: &mut D,
    at: &mut u64,
) -> Result<(), AllocError>
    requires reveals { D.reveals }
    requires live { ledger.old.live ≡ true }
    requires fixed { IsFixed (D.state disk.old) 0 }
    requires room { HasWitnessRoom (D.state disk.old) }
    requires puts { HasPuts ledger.old (first_object ∷ second_object ∷ []) (D.state disk.old).files }
    requires none { at.old ≡ 0 }
    ensures filled { OnOk result (IsFilled ledger.new (D.state disk.new).files at.new) }
    ensures time { Passes (D.state disk.old) (D.state disk.new) }
    ensures steady { (D.state disk.new).faults ≡ (D.state disk.old).faults }
{
    let mut source = SureSource::new(
        b"\0\x05third\0\0\0\0\0\0\0\x10what a frame had\0\x06fourth\0\0\0\0\0\0\0\x15what never",
    );
    take_in(alloc, ledger, disk, &mut source, at)?;
    meet_cut(alloc, ledger, disk, &mut source, at)?;
    Ok(())
}
