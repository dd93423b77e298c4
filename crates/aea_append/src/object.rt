//! An object that is woven: the heads, and what is wanted of its source.

ghost use Rattle.std.specs.Prelude.{◌≡◌, ◌≢◌, ◌⊎◌, ◌+◌, ◌^◌, ◌<◌, ◌≤◌, true, false, ℕ, List, length, [], None, Some, IfOk, IfErr, OnOk, IsSome};
ghost use Rattle.std.specs.Io.KnownBytes.{Consumes, IsAtEnd};
ghost use Rattle.aea_faults.specs.Faults.{Rose};
ghost use Rattle.aea_io.specs.Taken.{Counts};
ghost use Rattle.aea_lattice.specs.declared.blocks.BlockId.{BlockId};
ghost use Rattle.aea_disk.specs.Files.{Files};
ghost use Rattle.aea_disk.specs.State.{HasEarlier, IsReady, IsRoomy, NeverFails};
ghost use Rattle.aea_disk.specs.Frames.{OnlyReads};
ghost use Rattle.aea_shelf.specs.Places.{cell_size};
ghost use Rattle.aea_shelf.specs.Writes.{KeepsPadded};
ghost use Rattle.aea_records.specs.Format.{nodes_for, limit_when};
ghost use Rattle.aea_archive.specs.Blocks.{IsBlockIn};
ghost use Rattle.aea_archive.specs.Lasts.{IsLastParity, IsDamagedLast, IsFirstDamagedLast, AreLastsIntact};
ghost use Rattle.aea_archive.specs.Cells.{WritesCells};
ghost use Rattle.aea_append.specs.Weaving.{HasWoven, IsBroken, IsStopping};
ghost use Rattle.aea_append.specs.Keeping.{HasKeptHeads};
ghost use Rattle.aea_append.specs.Causes.{IsHeadRefused};
ghost use Rattle.aea_append.specs.Taking.{TakesObject, IsOver, limit_of, most_of, room_left};

use crate::fault::PutFault;
use crate::heads::{HeadFault, next_heads};
use crate::piece::weave_all;
use aea_archive::cell_buffer;
use aea_disk::Disk;
use aea_io::{Source, read_full};
use aea_ledger::Ledger;
use aea_records::records_are_few;
use aea_shelf::homes_are_on_its_sites;
use aea_weave::Heads;
use sha2::{Digest, Sha256};
use std::alloc::Global;

/// What was taken from a source and woven: its bytes, the nodes that they take, their SHA-256 (FIPS 180-4), the digests
/// of the blocks of these nodes in number order, and the heads after the last of them.
#[derive(Drop)]
pub(crate) struct Taken {
    pub(crate) length: u64,
    pub(crate) nodes: u32,
    pub(crate) digest: [u8; 32],
    pub(crate) digests: Vec<[u8; 32]>,
    pub(crate) heads: Heads,
}

// The buffers that weaving takes: a cell and a block of zeros.
fn buffers(alloc: Global, ledger: &Ledger) -> Result<(Vec<u8>, Vec<u8>), PutFault>
    ensures cell { IfOk result (λ b. length b.0.items ≡ cell_size ledger.now.shape) }
    ensures block { IfOk result (λ b. length b.1.items ≡ ledger.now.shape.block) }
    ensures memory { IfErr result (λ f. f ≡ PutFault.NoMemory) }
{
    let Ok(cell) = cell_buffer(alloc, ledger) else {
        return Err(PutFault::NoMemory);
    };
    let size = ledger.shape().block() as usize;
    let Ok(block) = vec![in alloc; 0; size] else {
        return Err(PutFault::NoMemory);
    };
    Ok((cell, block))
}

// Whether the source has a byte more, where as many were taken as there is space for. It is taken.
fn has_more<S: Source>(source: &mut S, full: bool, at: &mut u64) -> Result<bool, PutFault>
    requires count { at.old + 1 < 2 ^ 64 }
    ensures more { result ≡ Ok true → (full ≡ true) × ((bytes : List ℕ) × Consumes (S.state source.old).left (S.state source.new).left bytes × (length bytes ≡ 1)) }
    ensures none { result ≡ Ok false → Consumes (S.state source.old).left (S.state source.new).left [] }
    ensures end { result ≡ Ok false → (full ≡ false → IsAtEnd (S.state source.old).left) → IsAtEnd (S.state source.new).left }
    ensures same { result ≡ Ok false → at.new ≡ at.old }
    ensures counted { (n : ℕ) → (full ≡ true → 1 ≤ n) → Counts (S.state source.old).left (S.state source.new).left at.old at.new n }
    ensures fault { IfErr result (λ f. f ≡ PutFault.ReadFault) }
    ensures only_full { IfErr result (λ f. full ≡ true) }
    ensures kept { (S.state source.old).faults ≤ (S.state source.new).faults }
    ensures cause { result ≡ Err PutFault.ReadFault → Rose (S.state source.old).faults (S.state source.new).faults }
    ensures still { result ≢ Err PutFault.ReadFault → (S.state source.new).faults ≡ (S.state source.old).faults }
{
    if !full {
        return Ok(false);
    }
    let mut one = [0; 1];
    match read_full(source, &mut one, at) {
        Ok(count) => Ok(count != 0),
        Err(_) => Err(PutFault::ReadFault),
    }
}

// How many bytes are wanted at most.
fn greatest_length(want: Option<u64>, room: u64) -> u64
    ensures { result ≡ limit_of want room }
{
    match want {
        Some(length) => length,
        None => room,
    }
}

// Whether all is wanted and the space is used up.
fn is_full(want: Option<u64>, length: u64, room: u64) -> bool
    ensures yes { result ≡ true → (want ≡ None) × (length ≡ room) }
    ensures no { result ≡ false → want ≡ None → length ≡ room → ⊥ }
{
    match want {
        Some(_) => false,
        None => length == room,
    }
}

// Weaves what is wanted of the source: so many bytes, fewer only at its end, or all. More bytes than the nodes that are
// left can hold are refused: a number of them before one is read, and all after the one that is too many was.
fn take_object<D: Disk, S: Source>(
    alloc: Global,
    disk: &mut D,
    ledger: &Ledger,
    source: &mut S,
    mut heads: Heads,
    cell: &mut [u8],
    block: &mut [u8],
    want: Option<u64>,
    at: &mut u64,
) -> Result<Taken, PutFault>
    requires lattice { heads.lattice ≡ ledger.now.lattice }
    requires size { heads.size ≡ ledger.now.shape.block }
    requires block { length block.old ≡ ledger.now.shape.block }
    requires buffer { length cell.old ≡ cell_size ledger.now.shape }
    requires count { at.old ≤ 2 ^ 63 + 265 }
    ensures took { IfOk result (λ t. (first : Files) → HasWoven D.reveals ledger.now.shape ledger.now.lattice ledger.now.digests first (D.state disk.old).files heads [] []
        → TakesObject D.reveals ledger.now.shape ledger.now.lattice ledger.now.digests t.length t.digest (S.state source.old).left (S.state source.new).left t.digests.items first (D.state disk.new).files t.heads) }
    ensures end { OnOk result (want ≡ None → IsAtEnd (S.state source.new).left) }
    ensures cut { IfOk result (λ t. (n : ℕ) → want ≡ Some n → (t.length ≤ n) × (t.length < n → IsAtEnd (S.state source.new).left)) }
    ensures exact { IfOk result (λ t. at.new ≡ at.old + t.length) }
    ensures nodes { IfOk result (λ t. t.nodes ≡ nodes_for ledger.now.shape t.length) }
    ensures fits { IfOk result (λ t. ledger.now.lattice.n + t.nodes ≤ limit_when ledger.now.raised) }
    ensures full { (nodes : ℕ) → result ≡ Err (PutFault.Full nodes) → (nodes ≡ ledger.now.lattice.n) × IsOver ledger.now want (S.state source.old).left (S.state source.new).left }
    ensures full_leaves { (nodes n : ℕ) → result ≡ Err (PutFault.Full nodes) → want ≡ Some n → (source.new ≡ source.old) × (at.new ≡ at.old) }
    ensures over { (n : ℕ) → want ≡ Some n → room_left ledger.now < n → result ≡ Err (PutFault.Full ledger.now.lattice.n) }
    ensures faults { IfErr result (λ f. ((nodes : ℕ) × (f ≡ PutFault.Full nodes)) ⊎ IsBroken f) }
    ensures writes { WritesCells D.reveals ledger.now.shape (limit_when ledger.now.raised) (IsBlockIn ledger.now.shape ledger.now.lattice.n) (result ≡ Err PutFault.DiskFault) (D.state disk.old) (D.state disk.new) }
    ensures padded { result ≢ Err PutFault.DiskFault → D.reveals → KeepsPadded ledger.now.shape (IsBlockIn ledger.now.shape ledger.now.lattice.n) (D.state disk.old).files (D.state disk.new).files }
    ensures counted { Counts (S.state source.old).left (S.state source.new).left at.old at.new (most_of want (room_left ledger.now)) }
    ensures short { (n : ℕ) → want ≡ Some n → result ≡ Err PutFault.ReadFault → at.new < at.old + n }
    ensures source_kept { (S.state source.old).faults ≤ (S.state source.new).faults }
    ensures read_cause { result ≡ Err PutFault.ReadFault → Rose (S.state source.old).faults (S.state source.new).faults }
    ensures source_still { result ≢ Err PutFault.ReadFault → (S.state source.new).faults ≡ (S.state source.old).faults }
{
    records_are_few();
    let shape = ledger.shape();
    let nodes = ledger.lattice().n();
    let room = u64::from(ledger.limit() - nodes) * u64::from(shape.block());
    let most = greatest_length(want, room);
    if room < most {
        return Err(PutFault::Full { nodes });
    }
    let mut digests = Vec::new(alloc);
    let mut hasher = Sha256::new();
    let length = match weave_all(
        disk,
        &shape,
        &mut heads,
        source,
        most,
        &mut hasher,
        block,
        cell,
        &mut digests,
        at,
    ) {
        Ok(length) => length,
        Err(fault) => return Err(fault),
    };
    match has_more(source, is_full(want, length, most), at) {
        Ok(false) => Ok(Taken {
            length,
            nodes: heads.next_node() - 1 - nodes,
            digest: hasher.finalize(),
            digests,
            heads,
        }),
        Ok(true) => Err(PutFault::Full { nodes }),
        Err(_) => Err(PutFault::ReadFault),
    }
}

/// Takes what is wanted of the source: so many bytes, fewer only at its end, or all that it has. It weaves them after the
/// nodes of the archive, and writes the cells of their blocks. The last parity of each strand has to be intact; where heads
/// are given, they are those, and none is read. More bytes than the nodes that are left can hold are refused: a number of
/// them before one is read; where all are wanted, one byte past them is read at most. `at` grows by the bytes that were
/// taken, whatever the result. It takes memory for a block, a cell, the heads and 32 bytes for each new block; the list of
/// these grows by doubling.
pub(crate) fn weave_object<D: Disk, S: Source>(
    alloc: Global,
    disk: &mut D,
    ledger: &Ledger,
    kept: Option<Heads>,
    source: &mut S,
    want: Option<u64>,
    at: &mut u64,
) -> Result<Taken, PutFault>
    requires count { at.old ≤ 2 ^ 63 + 265 }
    requires kept { HasKeptHeads D.reveals ledger.now (D.state disk.old).files kept }
    ensures took { IfOk result (λ t. TakesObject D.reveals ledger.now.shape ledger.now.lattice ledger.now.digests t.length t.digest (S.state source.old).left (S.state source.new).left t.digests.items (D.state disk.old).files (D.state disk.new).files t.heads) }
    ensures end { OnOk result (want ≡ None → IsAtEnd (S.state source.new).left) }
    ensures cut { IfOk result (λ t. (n : ℕ) → want ≡ Some n → (t.length ≤ n) × (t.length < n → IsAtEnd (S.state source.new).left)) }
    ensures exact { IfOk result (λ t. at.new ≡ at.old + t.length) }
    ensures nodes { IfOk result (λ t. t.nodes ≡ nodes_for ledger.now.shape t.length) }
    ensures fits { IfOk result (λ t. ledger.now.lattice.n + t.nodes ≤ limit_when ledger.now.raised) }
    ensures intact { OnOk result (D.reveals → AreLastsIntact ledger.now.shape ledger.now.lattice ledger.now.digests (D.state disk.old).files) }
    ensures read_intact { result ≡ Err PutFault.ReadFault → D.reveals → AreLastsIntact ledger.now.shape ledger.now.lattice ledger.now.digests (D.state disk.old).files }
    ensures head { (b : BlockId) → result ≡ Err (PutFault.HeadDamaged b) → IsLastParity ledger.now.lattice b × (D.reveals → IsFirstDamagedLast ledger.now.shape ledger.now.lattice ledger.now.digests (D.state disk.old).files b) }
    ensures head_leaves { (b : BlockId) → result ≡ Err (PutFault.HeadDamaged b) → (source.new ≡ source.old) × OnlyReads D.reveals ⊥ (D.state disk.old) (D.state disk.new) }
    ensures head_in_room { D.reveals → (a : BlockId) → IsDamagedLast ledger.now.shape ledger.now.lattice ledger.now.digests (D.state disk.old).files a → IsReady (D.state disk.old) → NeverFails (IsRoomy (D.state disk.old)) (result ≢ Err PutFault.DiskFault) (D.state disk.old) (D.state disk.new) }
    ensures full { (nodes : ℕ) → result ≡ Err (PutFault.Full nodes) → (nodes ≡ ledger.now.lattice.n) × (IsOver ledger.now want (S.state source.old).left (S.state source.new).left × (D.reveals → AreLastsIntact ledger.now.shape ledger.now.lattice ledger.now.digests (D.state disk.old).files)) }
    ensures full_leaves { (nodes n : ℕ) → result ≡ Err (PutFault.Full nodes) → want ≡ Some n → (source.new ≡ source.old) × (at.new ≡ at.old) }
    ensures over { (n : ℕ) → want ≡ Some n → room_left ledger.now < n → (result ≡ Err (PutFault.Full ledger.now.lattice.n)) ⊎ IsHeadRefused result }
    ensures unread { (b : BlockId) → IsSome kept → result ≢ Err (PutFault.HeadDamaged b) }
    ensures head_counts { (b : BlockId) → result ≡ Err (PutFault.HeadDamaged b) → at.new ≡ at.old }
    ensures faults { IfErr result (λ f. ((b : BlockId) × (f ≡ PutFault.HeadDamaged b)) ⊎ (((nodes : ℕ) × (f ≡ PutFault.Full nodes)) ⊎ IsBroken f)) }
    ensures writes { WritesCells D.reveals ledger.now.shape (limit_when ledger.now.raised) (IsBlockIn ledger.now.shape ledger.now.lattice.n) (result ≡ Err PutFault.DiskFault) (D.state disk.old) (D.state disk.new) }
    ensures padded { result ≢ Err PutFault.DiskFault → D.reveals → KeepsPadded ledger.now.shape (IsBlockIn ledger.now.shape ledger.now.lattice.n) (D.state disk.old).files (D.state disk.new).files }
    ensures counted { Counts (S.state source.old).left (S.state source.new).left at.old at.new (most_of want (room_left ledger.now)) }
    ensures short { (n : ℕ) → want ≡ Some n → result ≡ Err PutFault.ReadFault → at.new < at.old + n }
    ensures source_kept { (S.state source.old).faults ≤ (S.state source.new).faults }
    ensures read_cause { result ≡ Err PutFault.ReadFault → Rose (S.state source.old).faults (S.state source.new).faults }
    ensures source_still { result ≢ Err PutFault.ReadFault → (S.state source.new).faults ≡ (S.state source.old).faults }
{
    homes_are_on_its_sites();
    let (mut cell, mut block) = match buffers(alloc, ledger) {
        Ok(buffers) => buffers,
        Err(_) => return Err(PutFault::NoMemory),
    };
    let heads = match next_heads(alloc, disk, ledger, kept, cell.as_mut_slice()) {
        Ok(heads) => heads,
        Err(HeadFault::HeadDamaged { block }) => return Err(PutFault::HeadDamaged { block }),
        Err(HeadFault::DiskFault) => return Err(PutFault::DiskFault),
        Err(HeadFault::NoMemory) => return Err(PutFault::NoMemory),
    };
    match take_object(
        alloc,
        disk,
        ledger,
        source,
        heads,
        cell.as_mut_slice(),
        block.as_mut_slice(),
        want,
        at,
    ) {
        Ok(taken) => Ok(taken),
        Err(fault) => Err(fault),
    }
}
