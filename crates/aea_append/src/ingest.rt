//! An object that is taken from a stream of frames.

ghost use Rattle.std.specs.Prelude.{◌≡◌, ◌≢◌, ◌⊎◌, ◌↔◌, ◌+◌, ◌*◌, ◌^◌, ◌≤◌, ◌<◌, [], true, false, ℕ, List, length, max, min, None, Some, IsSome};
ghost use Rattle.std.specs.FinMap.{len};
ghost use Rattle.std.specs.Io.KnownBytes.{IsAtEnd};
ghost use Rattle.aea_faults.specs.Faults.{Rose};
ghost use Rattle.aea_io.specs.Taken.{Counts};
ghost use Rattle.aea_lattice.specs.declared.blocks.BlockId.{BlockId};
ghost use Rattle.aea_disk.specs.State.{IsFixed, IsReady};
ghost use Rattle.aea_disk.specs.Frames.{OnlyReads, OnlyWrites};
ghost use Rattle.aea_shelf.specs.Writes.{KeepsPadded};
ghost use Rattle.aea_catalog.specs.Names.{IsName};
ghost use Rattle.aea_records.specs.Format.{greatest_objects, nodes_for, limit_when};
ghost use Rattle.aea_ledger.specs.Values.{HasSomeRecords, IsThisOne};
ghost use Rattle.aea_archive.specs.Blocks.{IsBlockIn};
ghost use Rattle.aea_archive.specs.Cells.{IsBesides, ChangesArchive};
ghost use Rattle.aea_archive.specs.Lasts.{IsLastParity, IsDamagedLast, IsFirstDamagedLast, AreLastsIntact};
ghost use Rattle.aea_archive.specs.Next.{NewObject};
ghost use Rattle.aea_append.specs.Taking.{HasEnded, room_left};
ghost use Rattle.aea_append.specs.Keeping.{HasKeptHeads};
ghost use Rattle.aea_append.specs.Puts.{IsCut, HasKept, HasStored, MayHaveStored, LeavesLedger};
ghost use Rattle.aea_append.specs.Faults.{as_put};
ghost use Rattle.aea_append.specs.Causes.{IsTaken, MayEnter, HasWantedRoom, next_end};
ghost use Rattle.aea_append.specs.Frames.{IsFramed, HasHead, HasNoName, HasBadName, HasEntry, FitsFrame, IsTooLong, EndsInside, IsEarlyFault, IsHeadFault, IsReadOrHeadFault, IsByHead, HasFrameRoom, name_length, frame_name, object_length, frame_length};
ghost use Rattle.aea_append.specs.declared.store.Stored.{Stored};

use crate::fault::PutFault;
use crate::frame::{Head, read_head};
use crate::store::{Stored, may_enter, put_wanted};
use aea_catalog::NameText;
use aea_disk::Disk;
use aea_io::Source;
use aea_lattice::BlockId;
use aea_ledger::Ledger;
use aea_records::records_are_few;
use aea_weave::Heads;
use std::alloc::Global;

/// What was taken from the stream: the frame of an object that is stored now, or nothing, since the stream was at its end.
#[derive(Debug, Drop)]
pub enum Ingest {
    Stored { name: NameText, stored: Stored },
    End,
}

/// Why the object of a frame was not stored.
#[derive(Clone, Copy, Debug, PartialEq, Eq)]
pub enum IngestFault {
    /// The bytes are no name, or no name is so long.
    BadName,
    /// An object has the name.
    NameTaken,
    /// The last parity of a strand is damaged: the one with the least number.
    HeadDamaged { block: BlockId },
    /// The object takes more nodes than are left; so many are there.
    Full { nodes: u32 },
    /// There are the most objects that there may be.
    CatalogFull,
    /// The stream ends inside a frame, after so many bytes.
    BadStream { at: u64 },
    /// A read of the source failed. The source has counted it.
    ReadFault,
    /// The disk failed. It has counted it.
    DiskFault,
    /// There was no memory.
    NoMemory,
}

impl From<PutFault> for IngestFault {
    ghost use Rattle.aea_append.specs.Faults.{ingest_of};

    ghost from_gives = { λ put fault. fault ≡ ingest_of put };

    fn from(fault: PutFault) -> IngestFault {
        match fault {
            PutFault::BadName => IngestFault::BadName,
            PutFault::NameTaken => IngestFault::NameTaken,
            PutFault::CatalogFull => IngestFault::CatalogFull,
            PutFault::HeadDamaged { block } => IngestFault::HeadDamaged { block },
            PutFault::Full { nodes } => IngestFault::Full { nodes },
            PutFault::ReadFault => IngestFault::ReadFault,
            PutFault::DiskFault => IngestFault::DiskFault,
            PutFault::NoMemory => IngestFault::NoMemory,
        }
    }
}

impl IngestFault {
    /// Why the object of the frame was not put; or, as an error, after how many bytes the stream ended inside the frame.
    pub fn as_put(self) -> Result<PutFault, u64>
        ensures { result ≡ as_put self }
    {
        match self {
            IngestFault::BadName => Ok(PutFault::BadName),
            IngestFault::NameTaken => Ok(PutFault::NameTaken),
            IngestFault::CatalogFull => Ok(PutFault::CatalogFull),
            IngestFault::HeadDamaged { block } => Ok(PutFault::HeadDamaged { block }),
            IngestFault::Full { nodes } => Ok(PutFault::Full { nodes }),
            IngestFault::BadStream { at } => Err(at),
            IngestFault::ReadFault => Ok(PutFault::ReadFault),
            IngestFault::DiskFault => Ok(PutFault::DiskFault),
            IngestFault::NoMemory => Ok(PutFault::NoMemory),
        }
    }
}

// Stores the object of a frame whose head was read: so many bytes under this name.
fn store_frame<D: Disk, S: Source>(
    alloc: Global,
    ledger: &mut Ledger,
    disk: &mut D,
    name: &[u8],
    size: u64,
    source: &mut S,
    at: &mut u64,
    kept: &mut Option<Heads>,
) -> Result<Ingest, IngestFault>
    requires live { ledger.old.live ≡ true }
    requires this { D.reveals → IsThisOne ledger.old ((D.state disk.old).files 0) }
    requires fixed { D.reveals → IsFixed (D.state disk.old) 0 }
    requires count { at.old ≤ 2 ^ 63 + 265 }
    requires kept { HasKeptHeads D.reveals ledger.old (D.state disk.old).files kept.old }

    // Stored.
    ensures stored { (text : List ℕ) (stored : Stored) → result ≡ Ok (Ingest.Stored text stored) → (text ≡ name.now) × HasKept D.reveals ledger.old ledger.new name.now (Some size) (S.state source.old).left (S.state source.new).left (D.state disk.old) (D.state disk.new) stored }
    ensures exact { (text : List ℕ) (stored : Stored) → result ≡ Ok (Ingest.Stored text stored) → at.new ≡ at.old + stored.length }
    ensures kind { result ≢ Ok Ingest.End }

    // The heads that are kept go on from the ledger, and where they were kept no last parity is found damaged.
    ensures kept { HasKeptHeads D.reveals ledger.new (D.state disk.new).files kept.new }
    ensures keeps { (text : List ℕ) (stored : Stored) → result ≡ Ok (Ingest.Stored text stored) → IsSome kept.new }
    ensures still { IsEarlyFault result → kept.new ≡ kept.old }
    ensures unread { (b : BlockId) → IsSome kept.old → result ≢ Err (IngestFault.HeadDamaged b) }

    // Refusals by the name and the number of objects.
    ensures bad_name { (result ≡ Err IngestFault.BadName) ↔ (¬ IsName name.now) }
    ensures name_taken { (result ≡ Err IngestFault.NameTaken) ↔ (IsName name.now × IsTaken ledger.old name.now) }
    ensures many { (result ≡ Err IngestFault.CatalogFull) ↔ (IsName name.now × (¬ IsTaken ledger.old name.now) × (len ledger.old.objects ≡ greatest_objects)) }
    ensures early { IsEarlyFault result → disk.new ≡ disk.old }
    ensures early_takes { IsEarlyFault result → (source.new ≡ source.old) × (at.new ≡ at.old) }
    ensures by_head { IsByHead result → (source.new ≡ source.old) × (at.new ≡ at.old) }

    // A last parity that is damaged.
    ensures head { (b : BlockId) → result ≡ Err (IngestFault.HeadDamaged b) → IsLastParity ledger.old.lattice b × (D.reveals → IsFirstDamagedLast ledger.old.shape ledger.old.lattice ledger.old.digests (D.state disk.old).files b) }
    ensures head_leaves { (b : BlockId) → result ≡ Err (IngestFault.HeadDamaged b) → OnlyReads D.reveals ⊥ (D.state disk.old) (D.state disk.new) }
    ensures head_enters { (b : BlockId) → result ≡ Err (IngestFault.HeadDamaged b) → MayEnter ledger.old name.now }
    ensures head_refused { D.reveals → MayEnter ledger.old name.now → (a : BlockId) → IsDamagedLast ledger.old.shape ledger.old.lattice ledger.old.digests (D.state disk.old).files a → IsHeadFault result }

    // More bytes than there are nodes for.
    ensures full { (nodes : ℕ) → result ≡ Err (IngestFault.Full nodes) → (nodes ≡ ledger.old.lattice.n) × MayEnter ledger.old name.now × (limit_when ledger.old.raised < ledger.old.lattice.n + nodes_for ledger.old.shape size) × (D.reveals → AreLastsIntact ledger.old.shape ledger.old.lattice ledger.old.digests (D.state disk.old).files) }
    ensures full_refused { MayEnter ledger.old name.now → limit_when ledger.old.raised < ledger.old.lattice.n + nodes_for ledger.old.shape size → (result ≡ Err (IngestFault.Full ledger.old.lattice.n)) ⊎ IsHeadFault result }

    // The stream ends inside the object's bytes.
    ensures bad_stream { (n : ℕ) → result ≡ Err (IngestFault.BadStream n) → (n ≡ at.new) × MayEnter ledger.old name.now × (ledger.old.lattice.n + nodes_for ledger.old.shape size ≤ limit_when ledger.old.raised) × HasEnded (Some size) (S.state source.old).left (S.state source.new).left }
    ensures bad_stream_intact { (n : ℕ) → result ≡ Err (IngestFault.BadStream n) → D.reveals → AreLastsIntact ledger.old.shape ledger.old.lattice ledger.old.digests (D.state disk.old).files }
    ensures bad_stream_refused { (bytes : List ℕ) → (S.state source.old).left ≡ Some bytes → MayEnter ledger.old name.now → ledger.old.lattice.n + nodes_for ledger.old.shape size ≤ limit_when ledger.old.raised → length bytes < size
        → (result ≡ Err (IngestFault.BadStream at.new)) ⊎ IsReadOrHeadFault result }

    // Where no reason for refusal holds and no count of faults rises, it is stored, unless memory runs out.
    ensures complete { D.reveals → (bytes : List ℕ) → (S.state source.old).left ≡ Some bytes → MayEnter ledger.old name.now → size ≤ length bytes
        → AreLastsIntact ledger.old.shape ledger.old.lattice ledger.old.digests (D.state disk.old).files
        → ledger.old.lattice.n + nodes_for ledger.old.shape size ≤ limit_when ledger.old.raised
        → (Rose (D.state disk.old).faults (D.state disk.new).faults → ⊥) → (Rose (S.state source.old).faults (S.state source.new).faults → ⊥)
        → ((text : List ℕ) × (stored : Stored) × (result ≡ Ok (Ingest.Stored text stored))) ⊎ (result ≡ Err IngestFault.NoMemory) }

    // What holds after each other result.
    ensures refused { result ≢ Err IngestFault.DiskFault → ((text : List ℕ) (stored : Stored) → result ≢ Ok (Ingest.Stored text stored)) → ledger.new ≡ ledger.old }
    ensures refused_leaves { result ≢ Err IngestFault.DiskFault → ((text : List ℕ) (stored : Stored) → result ≢ Ok (Ingest.Stored text stored)) → D.reveals → LeavesLedger (D.state disk.old) (D.state disk.new) }
    ensures dead { result ≡ Err IngestFault.DiskFault → ledger.new ≡ record ledger.old { live = false } }
    ensures stopped { result ≡ Err IngestFault.DiskFault → D.reveals → MayHaveStored ledger.old (IsCut name.now size (S.state source.old).left (S.state source.new).left) (D.state disk.old) (D.state disk.new) }

    // The blocks that the archive had and the other files stay, no site grows past the rows that the archive can have, and
    // when the disk is at fault.
    ensures writes { OnlyWrites D.reveals (IsReady (D.state disk.old)) (HasWantedRoom ledger.old name.now (Some size) (S.state source.old).left (S.state source.new).left (D.state disk.old)) (result ≡ Err IngestFault.DiskFault) (ChangesArchive ledger.old.shape (limit_when ledger.old.raised) (IsBlockIn ledger.old.shape ledger.old.lattice.n) (IsBesides ledger.old.shape)) (D.state disk.old) (D.state disk.new) }
    ensures padded { result ≢ Err IngestFault.DiskFault → D.reveals → KeepsPadded ledger.old.shape (IsBlockIn ledger.old.shape ledger.old.lattice.n) (D.state disk.old).files (D.state disk.new).files }

    // How many bytes are taken, and when the source is at fault.
    ensures counted { Counts (S.state source.old).left (S.state source.new).left at.old at.new (min size (room_left ledger.old)) }
    ensures short { result ≡ Err IngestFault.ReadFault → at.new < at.old + size }
    ensures source_kept { (S.state source.old).faults ≤ (S.state source.new).faults }
    ensures read_cause { result ≡ Err IngestFault.ReadFault → Rose (S.state source.old).faults (S.state source.new).faults }
    ensures source_still { result ≢ Err IngestFault.ReadFault → (S.state source.new).faults ≡ (S.state source.old).faults }

    // No write goes past the gate that ends the new ledger.
    ensures ledger { (text : List ℕ) (stored : Stored) → result ≡ Ok (Ingest.Stored text stored) → D.reveals → length ((D.state disk.new).files 0) ≤ max (length ((D.state disk.old).files 0)) (next_end ledger.old.end (length name.now) (stored.nodes * (1 + ledger.old.shape.alpha)) + 1) }
{
    records_are_few();
    match may_enter(ledger, name) {
        Ok(()) => (),
        Err(PutFault::BadName) => return Err(IngestFault::BadName),
        Err(PutFault::NameTaken) => return Err(IngestFault::NameTaken),
        Err(PutFault::CatalogFull) => return Err(IngestFault::CatalogFull),
        Err(_) => unreachable!(),
    }
    let text = match NameText::copied(alloc, name) {
        Ok(text) => text,
        Err(_) => return Err(IngestFault::NoMemory),
    };
    match put_wanted(alloc, ledger, disk, name, source, Some(size), at, kept) {
        Ok(Some(stored)) => Ok(Ingest::Stored { name: text, stored }),
        Ok(None) => Err(IngestFault::BadStream { at: *at }),
        Err(fault) => Err(IngestFault::from(fault)),
    }
}

/// Takes one frame from the source and stores its object as `ingest_one` does, by heads that are kept from one object to the
/// next, None to begin with. Where some are kept, no last parity is read; after an object that was stored there are some,
/// which go on from it. So of a stream the last parities are read once, for the first object that may enter. The end of the
/// stream and a refusal by the name or the number of objects leave what is kept as it was; after any other fault it may be
/// None, and the next call reads the last parities again. The heads take a block for each strand.
pub fn ingest_next<D: Disk, S: Source>(
    alloc: Global,
    ledger: &mut Ledger,
    disk: &mut D,
    source: &mut S,
    at: &mut u64,
    kept: &mut Option<Heads>,
) -> Result<Ingest, IngestFault>
    requires live { ledger.old.live ≡ true }
    requires this { D.reveals → IsThisOne ledger.old ((D.state disk.old).files 0) }
    requires fixed { D.reveals → IsFixed (D.state disk.old) 0 }
    requires count { at.old ≤ 2 ^ 63 }
    requires kept { HasKeptHeads D.reveals ledger.old (D.state disk.old).files kept.old }

    // The bytes that were taken are counted, and none past the frame is taken; a read fails only before all of the frame is.
    ensures taken { Counts (S.state source.old).left (S.state source.new).left at.old at.new (265 + room_left ledger.old) }
    ensures within { (stream : List ℕ) → (S.state source.old).left ≡ Some stream → HasHead stream → at.new ≤ at.old + frame_length stream }
    ensures short { (stream : List ℕ) → (S.state source.old).left ≡ Some stream → HasHead stream → result ≡ Err IngestFault.ReadFault → at.new < at.old + frame_length stream }
    ensures exact { (name : List ℕ) (stored : Stored) → result ≡ Ok (Ingest.Stored name stored) → at.new ≡ at.old + 10 + length name + stored.length }
    ensures by_head { (stream : List ℕ) → (S.state source.old).left ≡ Some stream → IsByHead result → at.new ≡ at.old + 10 + name_length stream }
    ensures by_name { (stream : List ℕ) → (S.state source.old).left ≡ Some stream → result ≡ Err IngestFault.BadName → (HasNoName stream → at.new ≡ at.old + 2) × (HasHead stream → at.new ≡ at.old + 10 + name_length stream) }

    // Stored.
    ensures stored { (name : List ℕ) (stored : Stored) → result ≡ Ok (Ingest.Stored name stored) → (o : NewObject) × (o.name ≡ name) × IsFramed (S.state source.old).left (S.state source.new).left o × HasStored D.reveals ledger.old ledger.new o (D.state disk.old) (D.state disk.new) stored }

    // The heads that are kept go on from the ledger, and where they were kept no last parity is found damaged.
    ensures kept { HasKeptHeads D.reveals ledger.new (D.state disk.new).files kept.new }
    ensures keeps { (name : List ℕ) (stored : Stored) → result ≡ Ok (Ingest.Stored name stored) → IsSome kept.new }
    ensures still { IsEarlyFault result ⊎ (result ≡ Ok Ingest.End) → kept.new ≡ kept.old }
    ensures unread { (b : BlockId) → IsSome kept.old → result ≢ Err (IngestFault.HeadDamaged b) }

    // The end of the stream.
    ensures end { result ≡ Ok Ingest.End → IsAtEnd (S.state source.old).left × (ledger.new ≡ ledger.old) × (disk.new ≡ disk.old) × (at.new ≡ at.old) }
    ensures ended { result ≡ Ok Ingest.End → IsAtEnd (S.state source.new).left }
    ensures ends { (S.state source.old).left ≡ Some [] → (result ≡ Ok Ingest.End) ⊎ (result ≡ Err IngestFault.ReadFault) }

    // Refusals by the name and the number of objects, before the disk is touched.
    ensures bad_name { (stream : List ℕ) → (S.state source.old).left ≡ Some stream → result ≡ Err IngestFault.BadName → HasBadName stream }
    ensures bad_name_refused { (stream : List ℕ) → (S.state source.old).left ≡ Some stream → HasBadName stream → (result ≡ Err IngestFault.BadName) ⊎ (result ≡ Err IngestFault.ReadFault) }
    ensures name_taken { (stream : List ℕ) → (S.state source.old).left ≡ Some stream → result ≡ Err IngestFault.NameTaken → HasHead stream × IsName (frame_name stream) × IsTaken ledger.old (frame_name stream) }
    ensures name_taken_refused { (stream : List ℕ) → (S.state source.old).left ≡ Some stream → HasHead stream → IsName (frame_name stream) → IsTaken ledger.old (frame_name stream) → (result ≡ Err IngestFault.NameTaken) ⊎ (result ≡ Err IngestFault.ReadFault) }
    ensures many { result ≡ Err IngestFault.CatalogFull → (len ledger.old.objects ≡ greatest_objects) × ((stream : List ℕ) → (S.state source.old).left ≡ Some stream → HasHead stream × IsName (frame_name stream) × (¬ IsTaken ledger.old (frame_name stream))) }
    ensures many_refused { (stream : List ℕ) → (S.state source.old).left ≡ Some stream → HasHead stream → IsName (frame_name stream) → (¬ IsTaken ledger.old (frame_name stream)) → len ledger.old.objects ≡ greatest_objects → (result ≡ Err IngestFault.CatalogFull) ⊎ (result ≡ Err IngestFault.ReadFault) }
    ensures early { IsEarlyFault result → disk.new ≡ disk.old }

    // A last parity that is damaged.
    ensures head { (b : BlockId) → result ≡ Err (IngestFault.HeadDamaged b) → IsLastParity ledger.old.lattice b × (D.reveals → IsFirstDamagedLast ledger.old.shape ledger.old.lattice ledger.old.digests (D.state disk.old).files b) }
    ensures head_leaves { (b : BlockId) → result ≡ Err (IngestFault.HeadDamaged b) → OnlyReads D.reveals ⊥ (D.state disk.old) (D.state disk.new) }
    ensures head_revealed { (b : BlockId) (stream : List ℕ) → (S.state source.old).left ≡ Some stream → result ≡ Err (IngestFault.HeadDamaged b) → HasEntry ledger.old stream }
    ensures head_refused { D.reveals → (stream : List ℕ) → (S.state source.old).left ≡ Some stream → HasEntry ledger.old stream → (a : BlockId) → IsDamagedLast ledger.old.shape ledger.old.lattice ledger.old.digests (D.state disk.old).files a → IsReadOrHeadFault result }

    // An object that takes more nodes than are left, by the length in the head.
    ensures full { (nodes : ℕ) → result ≡ Err (IngestFault.Full nodes) → (nodes ≡ ledger.old.lattice.n) × (D.reveals → AreLastsIntact ledger.old.shape ledger.old.lattice ledger.old.digests (D.state disk.old).files) }
    ensures full_revealed { (nodes : ℕ) (stream : List ℕ) → (S.state source.old).left ≡ Some stream → result ≡ Err (IngestFault.Full nodes) → HasEntry ledger.old stream × IsTooLong ledger.old stream }
    ensures full_refused { (stream : List ℕ) → (S.state source.old).left ≡ Some stream → HasEntry ledger.old stream → IsTooLong ledger.old stream → (result ≡ Err (IngestFault.Full ledger.old.lattice.n)) ⊎ IsReadOrHeadFault result }

    // A stream that ends inside a frame.
    ensures bad_stream { (n : ℕ) → result ≡ Err (IngestFault.BadStream n) → (n ≡ at.new) × IsAtEnd (S.state source.new).left }
    ensures bad_stream_revealed { (n : ℕ) (stream : List ℕ) → (S.state source.old).left ≡ Some stream → result ≡ Err (IngestFault.BadStream n) → EndsInside ledger.old stream }
    ensures bad_stream_refused { (stream : List ℕ) → (S.state source.old).left ≡ Some stream → EndsInside ledger.old stream → (result ≡ Err (IngestFault.BadStream at.new)) ⊎ IsReadOrHeadFault result }

    // Where no reason for refusal holds and no count of faults rises, it is stored, unless memory runs out.
    ensures complete { D.reveals → (stream : List ℕ) → (S.state source.old).left ≡ Some stream → HasEntry ledger.old stream → FitsFrame ledger.old stream → frame_length stream ≤ length stream
        → AreLastsIntact ledger.old.shape ledger.old.lattice ledger.old.digests (D.state disk.old).files
        → (Rose (D.state disk.old).faults (D.state disk.new).faults → ⊥) → (Rose (S.state source.old).faults (S.state source.new).faults → ⊥)
        → ((name : List ℕ) × (stored : Stored) × (result ≡ Ok (Ingest.Stored name stored))) ⊎ (result ≡ Err IngestFault.NoMemory) }

    // What holds after each other result.
    ensures refused { result ≢ Err IngestFault.DiskFault → ((name : List ℕ) (stored : Stored) → result ≢ Ok (Ingest.Stored name stored)) → ledger.new ≡ ledger.old }
    ensures refused_leaves { result ≢ Err IngestFault.DiskFault → ((name : List ℕ) (stored : Stored) → result ≢ Ok (Ingest.Stored name stored)) → D.reveals → LeavesLedger (D.state disk.old) (D.state disk.new) }
    ensures dead { result ≡ Err IngestFault.DiskFault → ledger.new ≡ record ledger.old { live = false } }
    ensures stopped { result ≡ Err IngestFault.DiskFault → D.reveals → MayHaveStored ledger.old (IsFramed (S.state source.old).left (S.state source.new).left) (D.state disk.old) (D.state disk.new) }

    // The blocks that the archive had and the other files stay, no site grows past the rows that the archive can have, and
    // when the disk is at fault.
    ensures writes { OnlyWrites D.reveals (IsReady (D.state disk.old)) (HasFrameRoom ledger.old (S.state source.old).left (D.state disk.old)) (result ≡ Err IngestFault.DiskFault) (ChangesArchive ledger.old.shape (limit_when ledger.old.raised) (IsBlockIn ledger.old.shape ledger.old.lattice.n) (IsBesides ledger.old.shape)) (D.state disk.old) (D.state disk.new) }
    ensures padded { result ≢ Err IngestFault.DiskFault → D.reveals → KeepsPadded ledger.old.shape (IsBlockIn ledger.old.shape ledger.old.lattice.n) (D.state disk.old).files (D.state disk.new).files }

    // When the source is at fault.
    ensures source_kept { (S.state source.old).faults ≤ (S.state source.new).faults }
    ensures read_cause { result ≡ Err IngestFault.ReadFault → Rose (S.state source.old).faults (S.state source.new).faults }
    ensures source_still { result ≢ Err IngestFault.ReadFault → (S.state source.new).faults ≡ (S.state source.old).faults }

    // No write goes past the gate that ends the new ledger.
    ensures ledger { (name : List ℕ) (stored : Stored) → result ≡ Ok (Ingest.Stored name stored) → D.reveals → length ((D.state disk.new).files 0) ≤ max (length ((D.state disk.old).files 0)) (next_end ledger.old.end (length name) (stored.nodes * (1 + ledger.old.shape.alpha)) + 1) }
{
    let mut buffer = [0; 263];
    match read_head(source, &mut buffer, at) {
        Ok(Head::Whole { long, size }) => {
            store_frame(alloc, ledger, disk, &buffer[..long], size, source, at, kept)
        }
        Ok(Head::End) => Ok(Ingest::End),
        Ok(Head::Cut) => Err(IngestFault::BadStream { at: *at }),
        Ok(Head::NoName) => Err(IngestFault::BadName),
        Err(_) => Err(IngestFault::ReadFault),
    }
}

/// Takes one frame from the source, and stores its object as `put` does: the cells of the object are synced before its
/// record is committed, and at `Stored` every file is synced. A frame is the length of a name (2 bytes), the name, the length
/// of the object (8 bytes), and its bytes, numbers with high bytes first. `at` counts the bytes that were taken of the
/// source, whatever the result, and none past the frame is. It takes the memory that `put` takes, and that of the name; none
/// from the first write of the record on.
pub fn ingest_one<D: Disk, S: Source>(
    alloc: Global,
    ledger: &mut Ledger,
    disk: &mut D,
    source: &mut S,
    at: &mut u64,
) -> Result<Ingest, IngestFault>
    requires live { ledger.old.live ≡ true }
    requires this { D.reveals → IsThisOne ledger.old ((D.state disk.old).files 0) }
    requires fixed { D.reveals → IsFixed (D.state disk.old) 0 }
    requires count { at.old ≤ 2 ^ 63 }

    // The bytes that were taken are counted, and none past the frame is taken; a read fails only before all of the frame is.
    ensures taken { Counts (S.state source.old).left (S.state source.new).left at.old at.new (265 + room_left ledger.old) }
    ensures within { (stream : List ℕ) → (S.state source.old).left ≡ Some stream → HasHead stream → at.new ≤ at.old + frame_length stream }
    ensures short { (stream : List ℕ) → (S.state source.old).left ≡ Some stream → HasHead stream → result ≡ Err IngestFault.ReadFault → at.new < at.old + frame_length stream }
    ensures exact { (name : List ℕ) (stored : Stored) → result ≡ Ok (Ingest.Stored name stored) → at.new ≡ at.old + 10 + length name + stored.length }
    ensures by_head { (stream : List ℕ) → (S.state source.old).left ≡ Some stream → IsByHead result → at.new ≡ at.old + 10 + name_length stream }
    ensures by_name { (stream : List ℕ) → (S.state source.old).left ≡ Some stream → result ≡ Err IngestFault.BadName → (HasNoName stream → at.new ≡ at.old + 2) × (HasHead stream → at.new ≡ at.old + 10 + name_length stream) }

    // Stored.
    ensures stored { (name : List ℕ) (stored : Stored) → result ≡ Ok (Ingest.Stored name stored) → (o : NewObject) × (o.name ≡ name) × IsFramed (S.state source.old).left (S.state source.new).left o × HasStored D.reveals ledger.old ledger.new o (D.state disk.old) (D.state disk.new) stored }

    // The end of the stream.
    ensures end { result ≡ Ok Ingest.End → IsAtEnd (S.state source.old).left × (ledger.new ≡ ledger.old) × (disk.new ≡ disk.old) × (at.new ≡ at.old) }
    ensures ended { result ≡ Ok Ingest.End → IsAtEnd (S.state source.new).left }
    ensures ends { (S.state source.old).left ≡ Some [] → (result ≡ Ok Ingest.End) ⊎ (result ≡ Err IngestFault.ReadFault) }

    // Refusals by the name and the number of objects, before the disk is touched.
    ensures bad_name { (stream : List ℕ) → (S.state source.old).left ≡ Some stream → result ≡ Err IngestFault.BadName → HasBadName stream }
    ensures bad_name_refused { (stream : List ℕ) → (S.state source.old).left ≡ Some stream → HasBadName stream → (result ≡ Err IngestFault.BadName) ⊎ (result ≡ Err IngestFault.ReadFault) }
    ensures name_taken { (stream : List ℕ) → (S.state source.old).left ≡ Some stream → result ≡ Err IngestFault.NameTaken → HasHead stream × IsName (frame_name stream) × IsTaken ledger.old (frame_name stream) }
    ensures name_taken_refused { (stream : List ℕ) → (S.state source.old).left ≡ Some stream → HasHead stream → IsName (frame_name stream) → IsTaken ledger.old (frame_name stream) → (result ≡ Err IngestFault.NameTaken) ⊎ (result ≡ Err IngestFault.ReadFault) }
    ensures many { result ≡ Err IngestFault.CatalogFull → (len ledger.old.objects ≡ greatest_objects) × ((stream : List ℕ) → (S.state source.old).left ≡ Some stream → HasHead stream × IsName (frame_name stream) × (¬ IsTaken ledger.old (frame_name stream))) }
    ensures many_refused { (stream : List ℕ) → (S.state source.old).left ≡ Some stream → HasHead stream → IsName (frame_name stream) → (¬ IsTaken ledger.old (frame_name stream)) → len ledger.old.objects ≡ greatest_objects → (result ≡ Err IngestFault.CatalogFull) ⊎ (result ≡ Err IngestFault.ReadFault) }
    ensures early { IsEarlyFault result → disk.new ≡ disk.old }

    // A last parity that is damaged.
    ensures head { (b : BlockId) → result ≡ Err (IngestFault.HeadDamaged b) → IsLastParity ledger.old.lattice b × (D.reveals → IsFirstDamagedLast ledger.old.shape ledger.old.lattice ledger.old.digests (D.state disk.old).files b) }
    ensures head_leaves { (b : BlockId) → result ≡ Err (IngestFault.HeadDamaged b) → OnlyReads D.reveals ⊥ (D.state disk.old) (D.state disk.new) }
    ensures head_revealed { (b : BlockId) (stream : List ℕ) → (S.state source.old).left ≡ Some stream → result ≡ Err (IngestFault.HeadDamaged b) → HasEntry ledger.old stream }
    ensures head_refused { D.reveals → (stream : List ℕ) → (S.state source.old).left ≡ Some stream → HasEntry ledger.old stream → (a : BlockId) → IsDamagedLast ledger.old.shape ledger.old.lattice ledger.old.digests (D.state disk.old).files a → IsReadOrHeadFault result }

    // An object that takes more nodes than are left, by the length in the head.
    ensures full { (nodes : ℕ) → result ≡ Err (IngestFault.Full nodes) → (nodes ≡ ledger.old.lattice.n) × (D.reveals → AreLastsIntact ledger.old.shape ledger.old.lattice ledger.old.digests (D.state disk.old).files) }
    ensures full_revealed { (nodes : ℕ) (stream : List ℕ) → (S.state source.old).left ≡ Some stream → result ≡ Err (IngestFault.Full nodes) → HasEntry ledger.old stream × IsTooLong ledger.old stream }
    ensures full_refused { (stream : List ℕ) → (S.state source.old).left ≡ Some stream → HasEntry ledger.old stream → IsTooLong ledger.old stream → (result ≡ Err (IngestFault.Full ledger.old.lattice.n)) ⊎ IsReadOrHeadFault result }

    // A stream that ends inside a frame.
    ensures bad_stream { (n : ℕ) → result ≡ Err (IngestFault.BadStream n) → (n ≡ at.new) × IsAtEnd (S.state source.new).left }
    ensures bad_stream_revealed { (n : ℕ) (stream : List ℕ) → (S.state source.old).left ≡ Some stream → result ≡ Err (IngestFault.BadStream n) → EndsInside ledger.old stream }
    ensures bad_stream_refused { (stream : List ℕ) → (S.state source.old).left ≡ Some stream → EndsInside ledger.old stream → (result ≡ Err (IngestFault.BadStream at.new)) ⊎ IsReadOrHeadFault result }

    // Where no reason for refusal holds and no count of faults rises, it is stored, unless memory runs out.
    ensures complete { D.reveals → (stream : List ℕ) → (S.state source.old).left ≡ Some stream → HasEntry ledger.old stream → FitsFrame ledger.old stream → frame_length stream ≤ length stream
        → AreLastsIntact ledger.old.shape ledger.old.lattice ledger.old.digests (D.state disk.old).files
        → (Rose (D.state disk.old).faults (D.state disk.new).faults → ⊥) → (Rose (S.state source.old).faults (S.state source.new).faults → ⊥)
        → ((name : List ℕ) × (stored : Stored) × (result ≡ Ok (Ingest.Stored name stored))) ⊎ (result ≡ Err IngestFault.NoMemory) }

    // What holds after each other result.
    ensures refused { result ≢ Err IngestFault.DiskFault → ((name : List ℕ) (stored : Stored) → result ≢ Ok (Ingest.Stored name stored)) → ledger.new ≡ ledger.old }
    ensures refused_leaves { result ≢ Err IngestFault.DiskFault → ((name : List ℕ) (stored : Stored) → result ≢ Ok (Ingest.Stored name stored)) → D.reveals → LeavesLedger (D.state disk.old) (D.state disk.new) }
    ensures dead { result ≡ Err IngestFault.DiskFault → ledger.new ≡ record ledger.old { live = false } }
    ensures stopped { result ≡ Err IngestFault.DiskFault → D.reveals → MayHaveStored ledger.old (IsFramed (S.state source.old).left (S.state source.new).left) (D.state disk.old) (D.state disk.new) }

    // The blocks that the archive had and the other files stay, no site grows past the rows that the archive can have, and
    // when the disk is at fault.
    ensures writes { OnlyWrites D.reveals (IsReady (D.state disk.old)) (HasFrameRoom ledger.old (S.state source.old).left (D.state disk.old)) (result ≡ Err IngestFault.DiskFault) (ChangesArchive ledger.old.shape (limit_when ledger.old.raised) (IsBlockIn ledger.old.shape ledger.old.lattice.n) (IsBesides ledger.old.shape)) (D.state disk.old) (D.state disk.new) }
    ensures padded { result ≢ Err IngestFault.DiskFault → D.reveals → KeepsPadded ledger.old.shape (IsBlockIn ledger.old.shape ledger.old.lattice.n) (D.state disk.old).files (D.state disk.new).files }

    // When the source is at fault.
    ensures source_kept { (S.state source.old).faults ≤ (S.state source.new).faults }
    ensures read_cause { result ≡ Err IngestFault.ReadFault → Rose (S.state source.old).faults (S.state source.new).faults }
    ensures source_still { result ≢ Err IngestFault.ReadFault → (S.state source.new).faults ≡ (S.state source.old).faults }

    // No write goes past the gate that ends the new ledger.
    ensures ledger { (name : List ℕ) (stored : Stored) → result ≡ Ok (Ingest.Stored name stored) → D.reveals → length ((D.state disk.new).files 0) ≤ max (length ((D.state disk.old).files 0)) (next_end ledger.old.end (length name) (stored.nodes * (1 + ledger.old.shape.alpha)) + 1) }
{
    let mut kept = None;
    ingest_next(alloc, ledger, disk, source, at, &mut kept)
}
