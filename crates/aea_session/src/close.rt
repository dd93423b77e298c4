//! The close of an upload.

ghost use Rattle.std.specs.Prelude.{◌≡◌, ◌≢◌, ◌+◌, ◌≤◌, true, List, length, Ok, Err, IfOk, OnOk};
ghost use Rattle.aea_lattice.specs.Profile.{greatest_nodes};
ghost use Rattle.aea_disk.specs.State.{IsFixed, IsReady, IsSynced};
ghost use Rattle.aea_disk.specs.Frames.{OnlyWrites};
ghost use Rattle.aea_shelf.specs.Places.{cell_size};
ghost use Rattle.aea_shelf.specs.Writes.{KeepsPadded};
ghost use Rattle.aea_records.specs.Format.{Record, nodes_for, raised_limit};
ghost use Rattle.aea_ledger.specs.Values.{HasRecords};
ghost use Rattle.aea_archive.specs.Blocks.{IsBlockIn};
ghost use Rattle.aea_archive.specs.Cells.{IsBesides, ChangesArchive, WritesCells};
ghost use Rattle.aea_append.specs.Puts.{LeavesLedger};
ghost use Rattle.aea_messages.specs.declared.message.Message.TheVariants.{Close};
ghost use Rattle.aea_machine.specs.Closings.{closing_in, ClosedArePlaced};
ghost use Rattle.aea_machine.specs.Machine.{Machine, step, stays};
ghost use Rattle.aea_machine.specs.Refusals.{refused_by};
ghost use Rattle.aea_uploads.specs.Gathering.{Finishes};
ghost use Rattle.aea_uploads.specs.Slots.{KeepsSome};
ghost use Rattle.aea_envelope.specs.Facts.{CellsHaveLengths, CellsHaveParts};
ghost use Rattle.aea_records.specs.Laws.{DigestsAreCounted, HasOneReading};
ghost use Rattle.aea_archive.specs.Laws.{PartsRecordMore};
ghost use Rattle.aea_machine.specs.Sound.{NamesStayOwn, LimitsStay};
ghost use Rattle.aea_machine.specs.Runs.{RunsAreLongest};
ghost use Rattle.aea_uploads.specs.Laws.{ClosedAreNext, ClosedAreParts, FilledAreCounted, KeepsMore, LastIsTheMachines};
ghost use Rattle.aea_session.specs.Closes.{GoesOn, HasClosed, MayHaveClosed, HasCloseRoom};
ghost use Rattle.aea_session.specs.May.{MayClose};
ghost use Rattle.aea_session.specs.Stands.{KeepsMachine, KeepsSomeMachine, IsTheSessions};
ghost use Rattle.aea_session.specs.Steps.{MakesStep, closed_by};

use crate::fault::StepFault;
use crate::work::Work;
use aea_append::{PutFault, Stored, commit_parts};
use aea_archive::parts_record_more;
use aea_disk::Disk;
use aea_envelope::{cells_have_lengths, cells_have_parts};
use aea_lattice::Shape;
use aea_ledger::AppendFault;
use aea_machine::{Refusal, closed_are_placed, limits_stay, names_stay_own, runs_are_longest};
use aea_records::{digests_are_counted, ledgers_have_one_reading};
use aea_uploads::{
    Slot, closed_are_next, closed_are_parts, filled_are_counted, finish_rest, kept_with_more,
    last_is_the_machines,
};
use aea_weave::Heads;
use sha2::Digest;

// The most objects of a ledger.
const MAX_OBJECTS: usize = 65_536;

// The most nodes of an archive whose limit was raised.
const MAX_NODES: u32 = 1_048_576;

// The first refusal that applies to a close, if one does.
fn decide(work: &Work, slot: u8) -> Result<(), Refusal>
    requires keeps { KeepsSomeMachine work.now }
    ensures refused { (refusal : Refusal) → result ≡ Err refusal → (m : Machine) → KeepsMachine work.now m → step work.now.ledger.shape m (Close slot) ≡ stays m (refused_by refusal) }
    ensures may { OnOk result (MayClose work.now slot) }
{
    filled_are_counted();
    if slot >= 16 {
        return Err(Refusal::BadSlot);
    }
    let have = match &work.slots[slot as usize] {
        Some(kept) => kept.have,
        None => return Err(Refusal::SlotFree),
    };
    if work.ledger.catalog().len() == MAX_OBJECTS {
        return Err(Refusal::CatalogFull);
    }
    let nodes = work.heads.next_node() - 1;
    if have > 0 && nodes >= MAX_NODES {
        return Err(Refusal::Full { nodes });
    }
    Ok(())
}

// How many nodes so many bytes take.
fn nodes_taken(shape: &Shape, length: u64) -> u32
    requires few { nodes_for shape.now length ≤ greatest_nodes }
    ensures { result ≡ nodes_for shape.now length }
{
    length.div_ceil(u64::from(shape.block())) as u32
}

// Weaves the rest of an upload that was taken out of its slot.
fn weave_rest<D: Disk>(
    disk: &mut D,
    shape: &Shape,
    heads: &mut Heads,
    digests: &mut Vec<[u8; 32]>,
    slot: &mut Slot,
    cell: &mut Vec<u8>,
) -> Result<(), StepFault>
    requires alpha { heads.old.lattice.alpha ≡ shape.now.alpha }
    requires size { heads.old.size ≡ shape.now.block }
    requires keeps { KeepsSome shape.now heads.old.lattice.n slot.old }
    requires fits { 1 ≤ slot.old.have → heads.old.lattice.n + 1 ≤ raised_limit }
    requires buffer { length cell.old.items ≡ cell_size shape.now }
    ensures finishes { OnOk result (Finishes D.reveals shape.now heads.old heads.new slot.old slot.new digests.old.items digests.new.items (D.state disk.old).files (D.state disk.new).files) }
    ensures cell { length cell.new.items ≡ length cell.old.items }
    ensures writes { WritesCells D.reveals shape.now raised_limit (λ a. a.node ≢ heads.old.lattice.n + 1) (result ≡ Err StepFault.DiskFault) (D.state disk.old) (D.state disk.new) }
    ensures padded { result ≢ Err StepFault.DiskFault → D.reveals → KeepsPadded shape.now (λ a. a.node ≢ heads.old.lattice.n + 1) (D.state disk.old).files (D.state disk.new).files }
{
    match finish_rest(disk, shape, heads, digests, slot, cell.as_mut_slice()) {
        Ok(()) => Ok(()),
        Err(PutFault::DiskFault) => Err(StepFault::DiskFault),
        Err(PutFault::NoMemory) => Err(StepFault::NoMemory),
        Err(_) => unreachable!(),
    }
}

// The laws by which a close is what its contract says.
fn close_laws()
    ensures cells_have_lengths { CellsHaveLengths }
    ensures cells_have_parts { CellsHaveParts }
    ensures digests_are_counted { DigestsAreCounted }
    ensures ledgers_have_one_reading { HasOneReading }
    ensures parts_record_more { PartsRecordMore }
    ensures closed_are_placed { ClosedArePlaced }
    ensures names_stay_own { NamesStayOwn }
    ensures limits_stay { LimitsStay }
    ensures runs_are_longest { RunsAreLongest }
    ensures closed_are_next { ClosedAreNext }
    ensures closed_are_parts { ClosedAreParts }
    ensures filled_are_counted { FilledAreCounted }
    ensures kept_with_more { KeepsMore }
    ensures last_is_the_machines { LastIsTheMachines }
{
    cells_have_lengths();
    cells_have_parts();
    digests_are_counted();
    ledgers_have_one_reading();
    parts_record_more();
    closed_are_placed();
    names_stay_own();
    limits_stay();
    runs_are_longest();
    closed_are_next();
    closed_are_parts();
    filled_are_counted();
    kept_with_more();
    last_is_the_machines();
}

// Closes an upload where no refusal applies.
fn close_open<D: Disk>(disk: &mut D, work: &mut Work, slot: u8) -> Result<Stored, StepFault>
    requires keeps { KeepsSomeMachine work.old }
    requires may { MayClose work.old slot }
    requires live { work.old.ledger.live ≡ true }
    requires this { D.reveals → IsTheSessions work.old (D.state disk.old).files }
    requires fixed { D.reveals → IsFixed (D.state disk.old) 0 }
    ensures steps { IfOk result (λ stored. MakesStep closed_by work.old work.new (Close slot) (Ok stored)) }
    ensures goes { OnOk result ((m : Machine) → KeepsMachine work.old m → (records : List Record) → HasRecords work.old.ledger records → GoesOn work.old.ledger work.new.ledger (closing_in work.old.ledger.shape m (Close slot)) records) }
    ensures closed { OnOk result (D.reveals → (m : Machine) → KeepsMachine work.old m → HasClosed work.old work.new m (closing_in work.old.ledger.shape m (Close slot)) (D.state disk.old) (D.state disk.new)) }
    ensures this { OnOk result (D.reveals → IsTheSessions work.new (D.state disk.new).files) }
    ensures live_on { OnOk result (work.new.ledger.live ≡ true) }
    ensures synced { OnOk result (D.reveals → IsSynced (D.state disk.new)) }
    ensures stopped { result ≡ Err StepFault.DiskFault → D.reveals → (m : Machine) → KeepsMachine work.old m → MayHaveClosed work.old m (closing_in work.old.ledger.shape m (Close slot)) (D.state disk.old) (D.state disk.new) }
    ensures quiet { result ≡ Err StepFault.NoMemory → D.reveals → LeavesLedger (D.state disk.old) (D.state disk.new) }
    ensures writes { OnlyWrites D.reveals (IsReady (D.state disk.old)) (HasCloseRoom work.old slot (D.state disk.old)) (result ≡ Err StepFault.DiskFault) (ChangesArchive work.old.ledger.shape raised_limit (IsBlockIn work.old.ledger.shape work.old.heads.lattice.n) (IsBesides work.old.ledger.shape)) (D.state disk.old) (D.state disk.new) }
    ensures padded { result ≢ Err StepFault.DiskFault → D.reveals → KeepsPadded work.old.ledger.shape (IsBlockIn work.old.ledger.shape work.old.heads.lattice.n) (D.state disk.old).files (D.state disk.new).files }
{
    close_laws();
    let shape = work.ledger.shape();
    let Some(mut kept) = work.slots[slot as usize].take() else {
        unreachable!()
    };
    match weave_rest(
        disk,
        &shape,
        &mut work.heads,
        &mut work.digests,
        &mut kept,
        &mut work.cell,
    ) {
        Ok(()) => (),
        Err(fault) => return Err(fault),
    }
    let count = work.heads.next_node() - 1 - work.ledger.lattice().n();
    let nodes = nodes_taken(&shape, kept.length);
    let digest = kept.hasher.finalize();
    match commit_parts(
        &mut work.ledger,
        disk,
        kept.name.bytes(),
        kept.length,
        digest,
        count,
        work.digests.as_slice(),
        kept.parts.as_slice(),
    ) {
        Ok(()) => {
            work.digests.clear();
            Ok(Stored {
                nodes,
                length: kept.length,
                digest,
            })
        }
        Err(AppendFault::DiskFault) => Err(StepFault::DiskFault),
        Err(AppendFault::NoMemory) => Err(StepFault::NoMemory),
        Err(AppendFault::CatalogFull) => unreachable!(),
    }
}

/// Closes the upload in the slot: its rest is filled with zeros and woven as its last block, and one record adds W and that block
/// to X, and the object to the archive. The slot is then free, and W is empty. Refused, in this order: a slot past the last one
/// (`BadSlot`), one without an upload (`SlotFree`), the most objects (`CatalogFull`), and a rest for which no node is left
/// (`Full`). At `Ok` with an object every file is synced. It takes memory for the digests of the last block, 32 bytes each, for a
/// part, for the name, and once more for what the record adds to the ledger's digests, all before the record's first write. After
/// a fault what the session keeps is of no use.
pub fn close_upload<D: Disk>(
    disk: &mut D,
    work: &mut Work,
    slot: u8,
) -> Result<Result<Stored, Refusal>, StepFault>
    requires keeps { KeepsSomeMachine work.old }
    requires live { work.old.ledger.live ≡ true }
    requires this { D.reveals → IsTheSessions work.old (D.state disk.old).files }
    requires fixed { D.reveals → IsFixed (D.state disk.old) 0 }

    // The step of the machine.
    ensures steps { IfOk result (λ stored. MakesStep closed_by work.old work.new (Close slot) stored) }
    ensures refused { (refusal : Refusal) → result ≡ Ok (Err refusal) → (work.new ≡ work.old) × (disk.new ≡ disk.old) }

    // The ledger goes on by the record of a close that is made. In each image it has the record, or, where the disk failed, it is
    // as it was or has the record.
    ensures goes { OnOk result ((m : Machine) → KeepsMachine work.old m → (records : List Record) → HasRecords work.old.ledger records → GoesOn work.old.ledger work.new.ledger (closing_in work.old.ledger.shape m (Close slot)) records) }
    ensures closed { (stored : Stored) → result ≡ Ok (Ok stored) → D.reveals → (m : Machine) → KeepsMachine work.old m → HasClosed work.old work.new m (closing_in work.old.ledger.shape m (Close slot)) (D.state disk.old) (D.state disk.new) }
    ensures this { OnOk result (D.reveals → IsTheSessions work.new (D.state disk.new).files) }
    ensures live_on { OnOk result (work.new.ledger.live ≡ true) }
    ensures synced { (stored : Stored) → result ≡ Ok (Ok stored) → D.reveals → IsSynced (D.state disk.new) }
    ensures stopped { result ≡ Err StepFault.DiskFault → D.reveals → (m : Machine) → KeepsMachine work.old m → MayHaveClosed work.old m (closing_in work.old.ledger.shape m (Close slot)) (D.state disk.old) (D.state disk.new) }
    ensures quiet { result ≡ Err StepFault.NoMemory → D.reveals → LeavesLedger (D.state disk.old) (D.state disk.new) }

    // The blocks that there were and the other files stay, and when the disk is at fault.
    ensures writes { OnlyWrites D.reveals (IsReady (D.state disk.old)) (HasCloseRoom work.old slot (D.state disk.old)) (result ≡ Err StepFault.DiskFault) (ChangesArchive work.old.ledger.shape raised_limit (IsBlockIn work.old.ledger.shape work.old.heads.lattice.n) (IsBesides work.old.ledger.shape)) (D.state disk.old) (D.state disk.new) }
    ensures padded { result ≢ Err StepFault.DiskFault → D.reveals → KeepsPadded work.old.ledger.shape (IsBlockIn work.old.ledger.shape work.old.heads.lattice.n) (D.state disk.old).files (D.state disk.new).files }
{
    match decide(work, slot) {
        Ok(()) => (),
        Err(refusal) => return Ok(Err(refusal)),
    }
    match close_open(disk, work, slot) {
        Ok(stored) => Ok(Ok(stored)),
        Err(fault) => Err(fault),
    }
}
