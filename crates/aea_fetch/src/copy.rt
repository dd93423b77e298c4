//! The second pass: payloads of an object's data blocks, however they are had, printed in order and cut to its length.

ghost use Rattle.std.specs.Prelude.{◌≡◌, ◌≢◌, ◌-◌, [], ◌∷◌, All, ℕ, take, IfErr, OnOk, Err};
ghost use Rattle.std.specs.FinMap.{get};
ghost use Rattle.aea_io.specs.Written.{IsFlushed};
ghost use Rattle.aea_lattice.specs.declared.blocks.BlockId.{BlockId};
ghost use Rattle.aea_lattice.specs.Blocks.{HasBlock};
ghost use Rattle.aea_disk.specs.Files.{Files};
ghost use Rattle.aea_disk.specs.Frames.{OnlyReads};
ghost use Rattle.aea_archive.specs.Objects.{data_under, IsOneOf};
ghost use Rattle.aea_fetch.specs.Copies.{HasCopied, HasCut, HasSent, IsWide, IsPayloadFault};

use crate::cursor::DataBlocks;
use crate::source::{PayloadSource, SendFault};
use aea_disk::Disk;
use aea_io::{Page, Sink, finish, print};
use aea_lattice::BlockId;
use aea_ledger::Ledger;

// The first bytes of a payload, at most so many.
fn front(payload: &[u8], most: u64) -> &[u8]
    ensures { result.now ≡ take most payload.now }
{
    if most < payload.len() as u64 {
        return &payload[..most as usize];
    }
    payload
}

// Prints the first bytes of the payload of a block, at most so many.
fn copy_block<P: PayloadSource, D: Disk, O: Sink>(
    payloads: &mut P,
    ledger: &Ledger,
    disk: &mut D,
    b: BlockId,
    most: u64,
    page: &mut Page,
    out: &mut O,
) -> Result<(), SendFault<P::Fault>>
    requires ready { P.ready payloads.old D.reveals ledger.now (D.state disk.old).files b }
    requires block { HasBlock ledger.now.lattice b }
    ensures ready { (d : BlockId) → P.ready payloads.old D.reveals ledger.now (D.state disk.old).files d → P.ready payloads.new D.reveals ledger.now (D.state disk.new).files d }
    ensures copied { OnOk result ((c : Files) → (D.reveals → (D.state disk.old).files ≡ c) → HasCopied (IsWide ledger.now.shape.block (P.has D.reveals ledger.now c)) (b ∷ []) most (O.state out.old) page.old (O.state out.new) page.new) }
    ensures cut { IfErr result (λ fault. (c : Files) → (D.reveals → (D.state disk.old).files ≡ c) → HasCut (IsWide ledger.now.shape.block (P.has D.reveals ledger.now c)) (b ∷ []) most (O.state out.old) page.old (O.state out.new) (fault ≡ SendFault.Output)) }
    ensures why { (fault : P.Fault) → result ≡ Err (SendFault.Payload fault) → (c : Files) → (D.reveals → (D.state disk.old).files ≡ c) → P.says D.reveals ledger.now c b fault }
    ensures still { result ≢ Err SendFault.Output → (O.state out.new).faults ≡ (O.state out.old).faults }
    ensures reads { OnlyReads D.reveals (IsPayloadFault P.is_disk result) (D.state disk.old) (D.state disk.new) }
{
    match payloads.get_one(ledger, disk, b) {
        Ok(()) => (),
        Err(fault) => return Err(SendFault::Payload(fault)),
    }
    match print(out, page, front(payloads.payload(), most)) {
        Ok(()) => Ok(()),
        Err(_) => Err(SendFault::Output),
    }
}

// How many bytes are left of so many where one block more was copied.
fn left_behind(most: u64, size: u32) -> u64
    ensures { result ≡ most - size }
{
    most.saturating_sub(u64::from(size))
}

// Prints the payloads of the blocks, of them the first bytes, at most so many.
fn copy_blocks<P: PayloadSource, D: Disk, O: Sink>(
    payloads: &mut P,
    ledger: &Ledger,
    disk: &mut D,
    mut blocks: DataBlocks<'_>,
    most: u64,
    page: &mut Page,
    out: &mut O,
) -> Result<(), SendFault<P::Fault>>
    requires ready { All (P.ready payloads.old D.reveals ledger.now (D.state disk.old).files) blocks }
    requires inside { All (HasBlock ledger.now.lattice) blocks }
    ensures ready { (d : BlockId) → P.ready payloads.old D.reveals ledger.now (D.state disk.old).files d → P.ready payloads.new D.reveals ledger.now (D.state disk.new).files d }
    ensures copied { OnOk result (HasCopied (IsWide ledger.now.shape.block (P.has D.reveals ledger.now (D.state disk.old).files)) blocks.entry most (O.state out.old) page.old (O.state out.new) page.new) }
    ensures cut { IfErr result (λ fault. HasCut (IsWide ledger.now.shape.block (P.has D.reveals ledger.now (D.state disk.old).files)) blocks.entry most (O.state out.old) page.old (O.state out.new) (fault ≡ SendFault.Output)) }
    ensures why { (fault : P.Fault) → result ≡ Err (SendFault.Payload fault) → (b : BlockId) × IsOneOf blocks.entry b × P.says D.reveals ledger.now (D.state disk.old).files b fault }
    ensures still { result ≢ Err SendFault.Output → (O.state out.new).faults ≡ (O.state out.old).faults }
    ensures reads { OnlyReads D.reveals (IsPayloadFault P.is_disk result) (D.state disk.old) (D.state disk.new) }
{
    let size = ledger.shape().block();
    let mut left = most;
    while let Some(b) = blocks.next() {
        match copy_block(payloads, ledger, disk, b, left, page, out) {
            Ok(()) => (),
            Err(fault) => return Err(fault),
        }
        left = left_behind(left, size);
    }
    Ok(())
}

/// Appends the payloads of the data blocks of the object under the name, one after the other and cut to so many bytes, through
/// a page without bytes, and flushes. Each payload is had once. Where one is not, or the output fails, it ends there.
pub fn send_payloads<P: PayloadSource, D: Disk, O: Sink>(
    payloads: &mut P,
    ledger: &Ledger,
    disk: &mut D,
    name: &[u8],
    most: u64,
    page: &mut Page,
    out: &mut O,
) -> Result<(), SendFault<P::Fault>>
    requires ready { All (P.ready payloads.old D.reveals ledger.now (D.state disk.old).files) (data_under (get ledger.now.objects name.now)) }
    requires empty { page.old ≡ [] }
    ensures ready { (d : BlockId) → P.ready payloads.old D.reveals ledger.now (D.state disk.old).files d → P.ready payloads.new D.reveals ledger.now (D.state disk.new).files d }

    // Sent.
    ensures sent { OnOk result (HasSent (P.has D.reveals ledger.now (D.state disk.old).files) (data_under (get ledger.now.objects name.now)) most (O.state out.old) (O.state out.new)) }
    ensures flushed { OnOk result (IsFlushed (O.state out.new)) }

    // Cut short: by the payload of one of the blocks, or by the output.
    ensures cut { IfErr result (λ fault. HasCut (P.has D.reveals ledger.now (D.state disk.old).files) (data_under (get ledger.now.objects name.now)) most (O.state out.old) [] (O.state out.new) (fault ≡ SendFault.Output)) }
    ensures why { (fault : P.Fault) → result ≡ Err (SendFault.Payload fault) → (b : BlockId) × IsOneOf (data_under (get ledger.now.objects name.now)) b × P.says D.reveals ledger.now (D.state disk.old).files b fault }

    // When the disk and the sink are at fault.
    ensures still { result ≢ Err SendFault.Output → (O.state out.new).faults ≡ (O.state out.old).faults }
    ensures reads { OnlyReads D.reveals (IsPayloadFault P.is_disk result) (D.state disk.old) (D.state disk.new) }
{
    let blocks = DataBlocks::new(ledger, name);
    match copy_blocks(payloads, ledger, disk, blocks, most, page, out) {
        Ok(()) => (),
        Err(fault) => return Err(fault),
    }
    match finish(out, page) {
        Ok(()) => Ok(()),
        Err(_) => Err(SendFault::Output),
    }
}
