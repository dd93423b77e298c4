//! The reply to a read: the bytes of an object, or the first of its data blocks that is damaged.

ghost use Rattle.std.specs.Prelude.{◌≡◌, ◌≢◌, ◌⊎◌, ◌↔◌, ◌+◌, ◌≤◌, ℕ, [], length, Some, IfOk, OnOk, IfErr, Err};
ghost use Rattle.std.specs.FinMap.{get};
ghost use Rattle.std.specs.Int.{w32, w64, to_be_bytes};
ghost use Rattle.aea_faults.specs.Faults.{Rose};
ghost use Rattle.aea_io.specs.Pages.{Prints};
ghost use Rattle.aea_io.specs.Written.{IsFlushed};
ghost use Rattle.aea_lattice.specs.declared.blocks.BlockId.{BlockId};
ghost use Rattle.aea_lattice.specs.Shapes.{number_in};
ghost use Rattle.aea_disk.specs.Frames.{OnlyReads};
ghost use Rattle.aea_shelf.specs.Places.{cell_size};
ghost use Rattle.aea_catalog.specs.Catalogs.{Placed};
ghost use Rattle.aea_archive.specs.Blocks.{IsIntactBy};
ghost use Rattle.aea_archive.specs.Objects.{data_under, IsOneOf};
ghost use Rattle.aea_fetch.specs.Payloads.{IsPayload};
ghost use Rattle.aea_fetch.specs.Copies.{HasCut};
ghost use Rattle.aea_fetch.specs.Gets.{IsCopyFault};
ghost use Rattle.aea_messages.specs.declared.message.Message.TheVariants.{Read};
ghost use Rattle.aea_machine.specs.Machine.{Machine, step};
ghost use Rattle.aea_machine.specs.Refusals.{refused_by};
ghost use Rattle.aea_machine.specs.Replies.{reply, body_of, code_of, damaged_code};
ghost use Rattle.aea_session.specs.Looks.{KeepsAllButCell, LooksKeep, HasSentBehind, IsReplyOfObject, MayBeginObject, IsReplyTo, MayBegin, Replies, RepliesPart, greatest_reply};
ghost use Rattle.aea_session.specs.Stands.{KeepsMachine, KeepsSomeMachine};

use crate::copy::send_blocks;
use crate::fault::TakeFault;
use crate::work::Work;
use aea_disk::Disk;
use aea_fetch::{GetFault, check_object};
use aea_io::{Page, Sink, WriteFault, finish, send};
use aea_lattice::BlockId;
use aea_ledger::Ledger;
use aea_machine::{Refusal, print_damaged, print_object_head, print_refusal};
use aea_messages::Message;
use std::alloc::Global;

/// What a session keeps where a message only looked.
pub fn looks_keep()
    ensures { LooksKeep }
{}

// Gives the reply to a message that is refused, and flushes it.
fn send_refusal<O: Sink>(out: &mut O, message: &Message, refusal: Refusal) -> Result<(), WriteFault>
    ensures flushed { OnOk result (IsFlushed (O.state out.new)) }
    ensures prints { Prints (O.state out.old) [] (O.state out.new) [] result (reply message.now (code_of (refused_by refusal)) (body_of (refused_by refusal))) }
{
    let mut page = Page::new();
    print_refusal(out, &mut page, message, refusal)?;
    finish(out, &mut page)?;
    Ok(())
}

/// Gives the reply to a message that is refused, flushes it, and returns its code.
pub(crate) fn put_refusal<O: Sink>(
    out: &mut O,
    message: &Message,
    refusal: Refusal,
) -> Result<u8, TakeFault>
    ensures code { IfOk result (λ code. code ≡ code_of (refused_by refusal)) }
    ensures fault { IfErr result (λ fault. fault ≡ TakeFault.WriteFault) }
    ensures flushed { OnOk result (IsFlushed (O.state out.new)) }
    ensures prints { Prints (O.state out.old) [] (O.state out.new) [] result (reply message.now (code_of (refused_by refusal)) (body_of (refused_by refusal))) }
{
    match send_refusal(out, message, refusal) {
        Ok(()) => Ok(refusal.code()),
        Err(_) => Err(TakeFault::WriteFault),
    }
}

// Gives the reply to a read of an object whose block of this number is damaged, and flushes it.
fn send_damaged<O: Sink>(out: &mut O, message: &Message, number: u32) -> Result<(), WriteFault>
    ensures flushed { OnOk result (IsFlushed (O.state out.new)) }
    ensures prints { Prints (O.state out.old) [] (O.state out.new) [] result (reply message.now damaged_code (to_be_bytes w32 number)) }
{
    let mut page = Page::new();
    print_damaged(out, &mut page, message, number)?;
    finish(out, &mut page)?;
    Ok(())
}

// The same, with its code.
fn put_damaged<O: Sink>(out: &mut O, message: &Message, number: u32) -> Result<u8, TakeFault>
    ensures code { IfOk result (λ code. code ≡ damaged_code) }
    ensures fault { IfErr result (λ fault. fault ≡ TakeFault.WriteFault) }
    ensures flushed { OnOk result (IsFlushed (O.state out.new)) }
    ensures prints { Prints (O.state out.old) [] (O.state out.new) [] result (reply message.now damaged_code (to_be_bytes w32 number)) }
{
    match send_damaged(out, message, number) {
        Ok(()) => Ok(10),
        Err(_) => Err(TakeFault::WriteFault),
    }
}

// Gives what the reply of an object begins with, through a page without bytes, which it leaves so.
fn send_head<O: Sink>(
    out: &mut O,
    page: &mut Page,
    message: &Message,
    size: u64,
) -> Result<(), WriteFault>
    requires empty { page.old ≡ [] }
    ensures empty { OnOk result (page.new ≡ []) }
    ensures prints { Prints (O.state out.old) [] (O.state out.new) [] result (reply message.now 0 (to_be_bytes w64 size)) }
{
    print_object_head(out, page, message, size)?;
    send(out, page)?;
    Ok(())
}

// The fault of the second pass as one of the reply.
fn pass_fault(fault: GetFault) -> TakeFault
    requires { IsCopyFault fault }
    ensures damaged { (b : BlockId) → result ≡ TakeFault.Damaged b → fault ≡ GetFault.Damaged b }
    ensures disk { (result ≡ TakeFault.DiskFault) ↔ (fault ≡ GetFault.DiskFault) }
    ensures output { (result ≡ TakeFault.WriteFault) ↔ (fault ≡ GetFault.WriteFault) }
    ensures memory { result ≢ TakeFault.NoMemory }
{
    match fault {
        GetFault::Damaged { block } => TakeFault::Damaged { block },
        GetFault::DiskFault => TakeFault::DiskFault,
        GetFault::WriteFault => TakeFault::WriteFault,
        _ => unreachable!(),
    }
}

// Gives the reply of an object of this length, whose data blocks the first pass found intact, and flushes it.
fn put_object<D: Disk, O: Sink>(
    disk: &mut D,
    ledger: &Ledger,
    cell: &mut [u8],
    page: &mut Page,
    message: &Message,
    name: &[u8],
    size: u64,
    out: &mut O,
) -> Result<u8, TakeFault>
    requires buffer { length cell.old ≡ cell_size ledger.now.shape }
    requires empty { page.old ≡ [] }
    ensures code { IfOk result (λ code. code ≡ 0) }
    ensures sent { OnOk result (HasSentBehind (IsPayload D.reveals ledger.now.shape ledger.now.digests (D.state disk.old).files) (data_under (get ledger.now.objects name.now)) size (reply message.now 0 (to_be_bytes w64 size)) (O.state out.old) (O.state out.new)) }
    ensures cut { IfErr result (λ fault. HasCut (IsPayload D.reveals ledger.now.shape ledger.now.digests (D.state disk.old).files) (data_under (get ledger.now.objects name.now)) size (O.state out.old) (reply message.now 0 (to_be_bytes w64 size)) (O.state out.new) (fault ≡ TakeFault.WriteFault)) }
    ensures damaged { (b : BlockId) → result ≡ Err (TakeFault.Damaged b) → IsOneOf (data_under (get ledger.now.objects name.now)) b × (D.reveals → IsIntactBy ledger.now.shape ledger.now.digests (D.state disk.old).files b → ⊥) }
    ensures memory { result ≢ Err TakeFault.NoMemory }
    ensures still { result ≢ Err TakeFault.WriteFault → (O.state out.new).faults ≡ (O.state out.old).faults }
    ensures flushed { OnOk result (IsFlushed (O.state out.new)) }
    ensures reads { OnlyReads D.reveals (result ≡ Err TakeFault.DiskFault) (D.state disk.old) (D.state disk.new) }
{
    match send_head(out, page, message, size) {
        Ok(()) => (),
        Err(_) => return Err(TakeFault::WriteFault),
    }
    match send_blocks(disk, ledger, name, size, cell, page, out) {
        Ok(()) => Ok(0),
        Err(fault) => Err(pass_fault(fault)),
    }
}

// The number of one of the data blocks of the object under the name.
fn data_number(ledger: &Ledger, name: &[u8], block: BlockId) -> u32
    requires { IsOneOf (data_under (get ledger.now.objects name.now)) block }
    ensures { result ≡ number_in ledger.now.shape block }
{
    // what it promises of the parts of its objects: that they lie within the nodes
    let _catalog = ledger.catalog();
    ledger.lattice().number(block)
}

// Gives the reply to a read of the object of this length under the name, and flushes it: a first pass reads the cells of its
// data blocks up to the first that is damaged.
fn look_at<D: Disk, O: Sink>(
    disk: &mut D,
    ledger: &Ledger,
    cell: &mut [u8],
    page: &mut Page,
    message: &Message,
    name: &[u8],
    size: u64,
    out: &mut O,
) -> Result<u8, TakeFault>
    requires buffer { length cell.old ≡ cell_size ledger.now.shape }
    requires empty { page.old ≡ [] }
    requires long { (p : Placed) → get ledger.now.objects name.now ≡ Some p → p.object.length ≡ size }
    ensures replies { IfOk result (λ code. (p : Placed) → get ledger.now.objects name.now ≡ Some p → Replies (IsReplyOfObject D.reveals ledger.now (D.state disk.old).files message.now p code) (O.state out.old) (O.state out.new)) }
    ensures part { IfErr result (λ fault. (p : Placed) → get ledger.now.objects name.now ≡ Some p → (out.new ≡ out.old) ⊎ RepliesPart (MayBeginObject D.reveals ledger.now (D.state disk.old).files message.now p) (O.state out.old) (O.state out.new)) }
    ensures damaged { (b : BlockId) → result ≡ Err (TakeFault.Damaged b) → IsOneOf (data_under (get ledger.now.objects name.now)) b × (D.reveals → ⊥) }
    ensures memory { result ≢ Err TakeFault.NoMemory }
    ensures flushed { OnOk result (IsFlushed (O.state out.new)) }
    ensures reads { OnlyReads D.reveals (result ≡ Err TakeFault.DiskFault) (D.state disk.old) (D.state disk.new) }
    ensures kept { (O.state out.old).faults ≤ (O.state out.new).faults }
    ensures cause { result ≡ Err TakeFault.WriteFault → Rose (O.state out.old).faults (O.state out.new).faults }
    ensures still { result ≢ Err TakeFault.WriteFault → (O.state out.new).faults ≡ (O.state out.old).faults }
    ensures fits { (p : Placed) (room : ℕ) → get ledger.now.objects name.now ≡ Some p → (O.state out.old).room ≡ Some room → 10 + p.object.length ≤ room → result ≢ Err TakeFault.WriteFault }
{
    let _catalog = ledger.catalog();
    match check_object(disk, ledger, name, cell) {
        Ok(None) => put_object(disk, ledger, cell, page, message, name, size, out),
        Ok(Some(block)) => put_damaged(out, message, data_number(ledger, name, block)),
        Err(_) => Err(TakeFault::DiskFault),
    }
}

/// Gives the reply to a read, flushes it, and returns its code: 9 where no object is under the name; 10, with the number of its
/// first damaged data block, where one is; else 0, with its length and its bytes. A first pass reads the cells of its data
/// blocks, and nothing is printed before it has ended; where all are intact a second one reads them again, and their payloads
/// are printed in pieces of 64 KiB. It takes memory for one such piece, before the first read. A block that was intact in the
/// first pass and is not in the second is damaged, which never happens on a disk whose contents are known.
pub fn read<D: Disk, O: Sink>(
    alloc: Global,
    disk: &mut D,
    work: &mut Work,
    message: &Message,
    name: &[u8],
    out: &mut O,
) -> Result<u8, TakeFault>
    requires keeps { KeepsSomeMachine work.old }
    requires kind { message.now ≡ Read name.now }
    ensures same { KeepsAllButCell work.old work.new }

    // The reply, or what was appended of it.
    ensures replies { IfOk result (λ code. (m : Machine) → KeepsMachine work.old m → Replies (IsReplyTo D.reveals work.old.ledger m (D.state disk.old).files message.now code) (O.state out.old) (O.state out.new)) }
    ensures flushed { OnOk result (IsFlushed (O.state out.new)) }
    ensures part { IfErr result (λ fault. (m : Machine) → KeepsMachine work.old m → (out.new ≡ out.old) ⊎ RepliesPart (MayBegin D.reveals work.old.ledger m (D.state disk.old).files message.now) (O.state out.old) (O.state out.new)) }

    // A block that the first pass found intact.
    ensures damaged { (b : BlockId) → result ≡ Err (TakeFault.Damaged b) → IsOneOf (data_under (get work.old.ledger.objects name.now)) b × (D.reveals → ⊥) }

    // The disk is only read, not at all where there is no memory, and when the disk and the output are at fault.
    ensures memory { result ≡ Err TakeFault.NoMemory → (out.new ≡ out.old) × (disk.new ≡ disk.old) }
    ensures reads { OnlyReads D.reveals (result ≡ Err TakeFault.DiskFault) (D.state disk.old) (D.state disk.new) }
    ensures out_kept { (O.state out.old).faults ≤ (O.state out.new).faults }
    ensures out_cause { result ≡ Err TakeFault.WriteFault → Rose (O.state out.old).faults (O.state out.new).faults }
    ensures out_still { result ≢ Err TakeFault.WriteFault → (O.state out.new).faults ≡ (O.state out.old).faults }
    ensures in_room { (m : Machine) (room : ℕ) → KeepsMachine work.old m → (O.state out.old).room ≡ Some room → greatest_reply (step work.old.ledger.shape m message.now).answer ≤ room
        → (result ≢ Err TakeFault.WriteFault) × ((O.state out.new).faults ≡ (O.state out.old).faults) }
{
    let Some(object) = work.ledger.catalog().find(name) else {
        return put_refusal(out, message, Refusal::UnknownName);
    };
    let Ok(mut page) = Page::large(alloc) else {
        return Err(TakeFault::NoMemory);
    };
    look_at(
        disk,
        &work.ledger,
        work.cell.as_mut_slice(),
        &mut page,
        message,
        name,
        object.length,
        out,
    )
}
