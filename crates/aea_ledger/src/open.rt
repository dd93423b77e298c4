//! Opening a ledger.

ghost use Rattle.std.specs.Prelude.{◌≡◌, ◌≢◌, ◌≤◌, ◌+◌, ◌*◌, ◌/◌, min, List, ℕ, IfOk, IfErr, OnOk, Ok, Err, true, take, length, []};
ghost use Rattle.aea_disk.specs.State.{IsSynced};
ghost use Rattle.aea_records.specs.Format.{Record, header};
ghost use Rattle.aea_ledger.specs.Recorded.{IsLatticeOf};
ghost use Rattle.aea_ledger.specs.Openings.{Answers, IsAnswered};
ghost use Rattle.aea_ledger.specs.Values.{HasRecords, HasSomeRecords};
ghost use Rattle.aea_disk.specs.Frames.{OnlyReads};
ghost use Rattle.aea_ledger.specs.Readings.{IsReading, HasRead};
ghost use Rattle.aea_ledger.specs.Stops.{StaysAll, IsOpened, HasOpening};

use crate::cursor::Cursor;
use crate::input::Input;
use crate::ledger::Ledger;
use crate::reader::Reader;
use aea_catalog::Catalog;
use aea_disk::{Disk, DiskFault};
use aea_lattice::{Lattice, Shape};
use aea_records::{
    ledgers_are_archives, ledgers_are_bad_at_one_place, ledgers_are_not_bad, records_are_few,
    shape_in,
};
use sha2::{Digest, Sha256};
use std::alloc::{AllocError, Global};

/// Why a ledger was not opened.
#[derive(Clone, Copy, Debug, PartialEq, Eq)]
pub enum OpenFault {
    /// The file is missing, or holds no archive.
    NoArchive,
    /// The ledger is bad, at this place in its file.
    LedgerBad { at: u64 },
    /// The disk failed. It has counted it.
    DiskFault,
    /// There was no memory.
    NoMemory,
}

impl From<DiskFault> for OpenFault {
    ghost use Rattle.std.specs.Prelude.{◌≡◌};
    ghost use Rattle.aea_ledger.specs.declared.open.OpenFault.TheVariants.{DiskFault};

    ghost from_gives = { λ _ fault. fault ≡ DiskFault };

    fn from(_fault: DiskFault) -> OpenFault {
        OpenFault::DiskFault
    }
}

impl From<AllocError> for OpenFault {
    ghost use Rattle.std.specs.Prelude.{◌≡◌};
    ghost use Rattle.aea_ledger.specs.declared.open.OpenFault.TheVariants.{NoMemory};

    ghost from_gives = { λ _ fault. fault ≡ NoMemory };

    fn from(_error: AllocError) -> OpenFault {
        OpenFault::NoMemory
    }
}

// The shape in the header with which the file begins; of the file it takes 18 bytes, or all that there are.
fn header_in(window: &[u8]) -> Result<Shape, OpenFault>
    requires few { length window.now ≤ 18 }
    ensures there { OnOk result (18 ≤ length window.now) }
    ensures header { IfOk result (λ shape. take 17 window.now ≡ header shape) }
    ensures fault { IfErr result (λ fault. (file : List ℕ) → window.now ≡ take 18 file → Answers file (Err fault)) }
    ensures inside { result ≢ Err OpenFault.DiskFault }
{
    if window.len() < 18 || window[0] != 1 {
        return Err(OpenFault::NoArchive);
    }
    match shape_in(window) {
        Ok(shape) => Ok(shape),
        Err(at) => Err(OpenFault::LedgerBad { at }),
    }
}

// Space for the digests of a file of so many bytes: for as many as it can have.
fn digests_room(shape: &Shape, bytes: u64) -> usize
    ensures { result ≡ min (bytes / 32) (1048576 * (1 + shape.now.alpha)) }
{
    let most = 1_048_576 * (1 + usize::from(shape.alpha()));
    (bytes as usize / 32).min(most)
}

// The lattice of this shape without nodes.
fn no_nodes(shape: &Shape) -> Lattice
    ensures { IsLatticeOf shape.now 0 [] result }
{
    let Some(lattice) = Lattice::new(shape.alpha(), shape.s(), shape.p(), 0) else {
        unreachable!();
    };
    lattice
}

// Reads the header.
fn start<D: Disk>(alloc: Global, disk: &mut D) -> Result<Reader, OpenFault>
    ensures reading { IfOk result (λ reader. IsReading D.reveals ((D.state disk.old).files 0) reader) }
    ensures fault { IfErr result (λ fault. D.reveals → Answers ((D.state disk.old).files 0) (Err fault)) }
    ensures reads { OnlyReads D.reveals (result ≡ Err OpenFault.DiskFault) (D.state disk.old) (D.state disk.new) }
{
    let bytes = disk.len(0)?;
    let mut input = Input {
        cursor: Cursor::new(alloc)?,
        hasher: Sha256::new(),
    };
    let count = input.cursor.fill(disk, 18)?;
    let shape = header_in(input.cursor.window(count))?;
    input.pass(17);
    let digests = Vec::with_capacity(alloc, digests_room(&shape, bytes))?;
    Ok(Reader {
        input,
        shape,
        lattice: no_nodes(&shape),
        catalog: Catalog::new(alloc),
        raised: false,
        digests,
    })
}

// The ledger of all records that were read.
fn finish(reader: Reader) -> Result<Ledger, OpenFault>
    requires { (records : List Record) × HasRead reader records }
    ensures records { IfOk result (λ v. (records : List Record) → HasRead reader records → HasRecords v records) }
    ensures shape { IfOk result (λ v. v.shape ≡ reader.shape) }
    ensures end { IfOk result (λ v. v.end ≡ reader.input.cursor.place) }
    ensures live { IfOk result (λ v. v.live ≡ true) }
    ensures memory { IfErr result (λ fault. fault ≡ OpenFault.NoMemory) }
{
    let Reader {
        input,
        shape,
        lattice,
        catalog,
        raised,
        digests,
    } = reader;
    let Input { cursor, hasher } = input;
    let seal = hasher.clone()?.finalize();
    Ok(Ledger {
        shape,
        lattice,
        catalog,
        raised,
        digests,
        hasher,
        seal,
        end: cursor.place(),
        live: true,
    })
}

// Reads the ledger.
fn read_ledger<D: Disk>(alloc: Global, disk: &mut D) -> Result<Ledger, OpenFault>
    ensures answers { D.reveals → Answers ((D.state disk.old).files 0) result }
    ensures records { IfOk result HasSomeRecords }
    ensures live { IfOk result (λ v. v.live ≡ true) }
    ensures reads { OnlyReads D.reveals (result ≡ Err OpenFault.DiskFault) (D.state disk.old) (D.state disk.new) }
{
    let mut reader = start(alloc, disk)?;
    reader.read_all(disk)?;
    finish(reader)
}

// Syncs all files, and reads the ledger.
fn read_surely<D: Disk>(alloc: Global, disk: &mut D) -> Result<Ledger, OpenFault>
    ensures answers { D.reveals → Answers ((D.state disk.old).files 0) result }
    ensures records { IfOk result HasSomeRecords }
    ensures live { IfOk result (λ v. v.live ≡ true) }
    ensures synced { result ≢ Err OpenFault.DiskFault → D.reveals → IsSynced (D.state disk.new) }
    ensures stops { D.reveals → HasOpening (D.state disk.old) (D.state disk.new) (StaysAll (D.state disk.old).files) }
    ensures opened { result ≢ Err OpenFault.DiskFault → D.reveals → IsOpened (D.state disk.old) (D.state disk.new) (StaysAll (D.state disk.old).files) }
    ensures reads { OnlyReads D.reveals (result ≡ Err OpenFault.DiskFault) (D.state disk.old) (D.state disk.new) }
{
    disk.sync()?;
    read_ledger(alloc, disk)
}

/// Opens the ledger in file 0 of the disk: reads it whole, each byte once. It begins with a sync, and writes nothing.
///
/// It takes a piece of 65,536 bytes beside the ledger.
pub fn open_ledger<D: Disk>(alloc: Global, disk: &mut D) -> Result<Ledger, OpenFault>
    // Each result has its cause in the bytes, and the bytes have that result alone.
    ensures answers { D.reveals → Answers ((D.state disk.old).files 0) result }
    ensures exactly { D.reveals → IsAnswered ((D.state disk.old).files 0) result }

    // Over any disk, also one whose contents are not known, it is the ledger of some records.
    ensures records { IfOk result HasSomeRecords }
    ensures live { IfOk result (λ v. v.live ≡ true) }

    // Nothing is pending then, but after a fault of the disk.
    ensures synced { result ≢ Err OpenFault.DiskFault → D.reveals → IsSynced (D.state disk.new) }

    // Once the first sync has succeeded every image has every file as it reads. Any result but a fault comes after it.
    ensures stops { D.reveals → HasOpening (D.state disk.old) (D.state disk.new) (StaysAll (D.state disk.old).files) }
    ensures opened { result ≢ Err OpenFault.DiskFault → D.reveals → IsOpened (D.state disk.old) (D.state disk.new) (StaysAll (D.state disk.old).files) }

    ensures reads { OnlyReads D.reveals (result ≡ Err OpenFault.DiskFault) (D.state disk.old) (D.state disk.new) }
{
    ledgers_are_not_bad();
    ledgers_are_bad_at_one_place();
    ledgers_are_archives();
    read_surely(alloc, disk)
}
