//! A chunk of an upload: its bytes, and the blocks that they fill.

ghost use Rattle.std.specs.Prelude.{◌≡◌, ◌≢◌, ◌↔◌, ◌+◌, ◌-◌, ◌*◌, ◌/◌, ◌^◌, ◌<◌, ◌≤◌, List, ℕ, length, nat_le, IfOk, IfErr, OnOk};
ghost use Rattle.aea_lattice.specs.Profile.{greatest_nodes};
ghost use Rattle.aea_shelf.specs.Places.{cell_size};
ghost use Rattle.aea_shelf.specs.Writes.{KeepsPadded};
ghost use Rattle.aea_records.specs.Format.{raised_limit};
ghost use Rattle.aea_archive.specs.Blocks.{IsBlockIn};
ghost use Rattle.aea_archive.specs.Cells.{WritesCells};
ghost use Rattle.aea_messages.specs.declared.message.Message.TheVariants.{Chunk};
ghost use Rattle.aea_machine.specs.Machine.{Machine};
ghost use Rattle.aea_machine.specs.declared.refusal.Refusal.{Refusal};
ghost use Rattle.aea_append.specs.Weaving.{IsStopping};
ghost use Rattle.aea_uploads.specs.Slots.{KeepsSome};
ghost use Rattle.aea_uploads.specs.Gathering.{Gathers};
ghost use Rattle.aea_session.specs.Chunks.{TakesChunk, IsDecided, AddsChunk};
ghost use Rattle.aea_session.specs.Stands.{KeepsMachine, KeepsSomeMachine, IsTheSessions};
ghost use Rattle.aea_session.specs.Steps.{MakesStep, made_by};

use crate::fault::StepFault;
use crate::work::Work;
use aea_append::PutFault;
use aea_disk::Disk;
use aea_lattice::Shape;
use aea_machine::{Refusal, limits_stay, names_stay_own};
use aea_uploads::{Slot, filled_are_counted, filled_are_the_machines, gather_all, kept_with_more};
use aea_weave::{Heads, longer_data_keep_values};

// Whether there are nodes for the blocks that the bytes fill with those that a slot has, where so many nodes are used.
fn are_left(nodes: u32, limit: u32, have: usize, bytes: &[u8], size: u32) -> bool
    requires have { have < size }
    ensures { result ≡ nat_le (nodes + (have + length bytes.now) / size) limit }
{
    let blocks = (have as u64 + bytes.len() as u64) / u64::from(size);
    u64::from(nodes) + blocks <= u64::from(limit)
}

// Why the machine refuses the chunk, if it does.
fn refusal_of(work: &Work, slot: u8, bytes: &[u8]) -> Option<Refusal>
    requires keeps { KeepsSomeMachine work.now }
    ensures { (m : Machine) → KeepsMachine work.now m → IsDecided work.now.ledger.shape m slot bytes.now result }
{
    filled_are_counted();
    let place = usize::from(slot);
    if place >= work.slots.len() {
        return Some(Refusal::BadSlot);
    }
    match &work.slots[place] {
        None => Some(Refusal::SlotFree),
        Some(held) => {
            let nodes = work.heads.next_node() - 1;
            let size = work.ledger.shape().block();
            if are_left(nodes, work.ledger.limit(), held.have, bytes, size) {
                None
            } else {
                Some(Refusal::Full { nodes })
            }
        }
    }
}

// Lets the bytes join the upload, and weaves the blocks that they fill. The digests of these are gathered in a list of their own,
// so that they are counted whatever the disk has, and put after the others at the end.
fn gather_counted<D: Disk>(
    disk: &mut D,
    shape: &Shape,
    heads: &mut Heads,
    digests: &mut Vec<[u8; 32]>,
    slot: &mut Slot,
    cell: &mut [u8],
    bytes: &[u8],
) -> Result<(), PutFault>
    requires alpha { heads.old.lattice.alpha ≡ shape.now.alpha }
    requires size { heads.old.size ≡ shape.now.block }
    requires keeps { KeepsSome shape.now heads.old.lattice.n slot.old }
    requires fits { heads.old.lattice.n * shape.now.block + slot.old.have + length bytes.now < (greatest_nodes + 1) * shape.now.block }
    requires small { slot.old.length + length bytes.now < 2 ^ 64 }
    requires buffer { length cell.old ≡ cell_size shape.now }
    ensures gathers { OnOk result (Gathers D.reveals shape.now bytes.now heads.old heads.new slot.old slot.new digests.old.items digests.new.items (D.state disk.old).files (D.state disk.new).files) }
    ensures counted { OnOk result (length digests.new.items ≡ length digests.old.items + (heads.new.lattice.n - heads.old.lattice.n) * (1 + shape.now.alpha)) }
    ensures writes { WritesCells D.reveals shape.now raised_limit (IsBlockIn shape.now heads.old.lattice.n) (result ≡ Err PutFault.DiskFault) (D.state disk.old) (D.state disk.new) }
    ensures padded { result ≢ Err PutFault.DiskFault → D.reveals → KeepsPadded shape.now (IsBlockIn shape.now heads.old.lattice.n) (D.state disk.old).files (D.state disk.new).files }
    ensures faults { IfErr result IsStopping }
{
    longer_data_keep_values();
    let mut fresh: Vec<[u8; 32]> = Vec::new(*digests.allocator());
    match gather_all(disk, shape, heads, &mut fresh, slot, cell, bytes) {
        Ok(()) => (),
        Err(fault) => return Err(fault),
    }
    match digests.append(&mut fresh) {
        Ok(()) => Ok(()),
        Err(_) => Err(PutFault::NoMemory),
    }
}

// The fault of the session for one of the disk or of memory.
fn step_fault(fault: PutFault) -> StepFault
    requires stopping { IsStopping fault }
    ensures disk { (result ≡ StepFault.DiskFault) ↔ (fault ≡ PutFault.DiskFault) }
{
    match fault {
        PutFault::DiskFault => StepFault::DiskFault,
        _ => StepFault::NoMemory,
    }
}

// Lets the bytes join the upload in the slot, where the machine takes the chunk.
fn join_bytes<D: Disk>(
    disk: &mut D,
    work: &mut Work,
    slot: u8,
    bytes: &[u8],
) -> Result<(), StepFault>
    requires keeps { KeepsSomeMachine work.old }
    requires takes { (m : Machine) → KeepsMachine work.old m → TakesChunk work.old.ledger.shape m slot bytes.now }
    ensures adds { OnOk result (AddsChunk D.reveals work.old work.new slot bytes.now (D.state disk.old).files (D.state disk.new).files) }
    ensures ledger { work.new.ledger ≡ work.old.ledger }
    ensures writes { WritesCells D.reveals work.old.ledger.shape raised_limit (IsBlockIn work.old.ledger.shape work.old.heads.lattice.n) (result ≡ Err StepFault.DiskFault) (D.state disk.old) (D.state disk.new) }
    ensures padded { result ≢ Err StepFault.DiskFault → D.reveals → KeepsPadded work.old.ledger.shape (IsBlockIn work.old.ledger.shape work.old.heads.lattice.n) (D.state disk.old).files (D.state disk.new).files }
{
    filled_are_counted();
    let shape = work.ledger.shape();
    match &mut work.slots[usize::from(slot)] {
        None => unreachable!(),
        Some(held) => match gather_counted(
            disk,
            &shape,
            &mut work.heads,
            &mut work.digests,
            held,
            work.cell.as_mut_slice(),
            bytes,
        ) {
            Ok(()) => Ok(()),
            Err(fault) => Err(step_fault(fault)),
        },
    }
}

/// Lets the bytes join the upload in the slot, and weaves each block that they fill, in order, at the nodes
/// that come next. A refusal is found before anything is woven, and then session and disk are as they were: BadSlot where there
/// is no such slot, SlotFree where it has no upload, Full where there are fewer nodes left than blocks are filled. Nothing is
/// synced. For each block it takes memory for its digests, 32 bytes each, first in a list of their own and then after the others,
/// and for a part, 8 bytes, where its node does not go on from the upload's last one; all in lists that grow by doubling. After a
/// fault the session is of no use.
pub fn add_chunk<D: Disk>(
    disk: &mut D,
    work: &mut Work,
    slot: u8,
    bytes: &[u8],
) -> Result<Result<(), Refusal>, StepFault>
    requires keeps { KeepsSomeMachine work.old }

    // The step of the machine.
    ensures steps { IfOk result (λ made. MakesStep made_by work.old work.new (Chunk slot bytes.now) made) }
    ensures ledger { work.new.ledger ≡ work.old.ledger }
    ensures refused { (refusal : Refusal) → result ≡ Ok (Err refusal) → (work.new ≡ work.old) × (disk.new ≡ disk.old) }

    // The disk is the session's where it was, and cells of new nodes alone are written.
    ensures this { OnOk result (D.reveals → IsTheSessions work.old (D.state disk.old).files → IsTheSessions work.new (D.state disk.new).files) }
    ensures writes { WritesCells D.reveals work.old.ledger.shape raised_limit (IsBlockIn work.old.ledger.shape work.old.heads.lattice.n) (result ≡ Err StepFault.DiskFault) (D.state disk.old) (D.state disk.new) }
    ensures padded { result ≢ Err StepFault.DiskFault → D.reveals → KeepsPadded work.old.ledger.shape (IsBlockIn work.old.ledger.shape work.old.heads.lattice.n) (D.state disk.old).files (D.state disk.new).files }
{
    filled_are_the_machines();
    kept_with_more();
    names_stay_own();
    limits_stay();
    match refusal_of(work, slot, bytes) {
        Some(refusal) => return Ok(Err(refusal)),
        None => (),
    }
    match join_bytes(disk, work, slot, bytes) {
        Ok(()) => Ok(Ok(())),
        Err(fault) => Err(fault),
    }
}
