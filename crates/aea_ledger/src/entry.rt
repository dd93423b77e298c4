// Writes to the ledger file that are synced, and the entry of a record, which its gate commits.
ghost use Rattle.std.specs.Prelude.{◌≡◌, ◌+◌, ◌^◌, ◌<◌, ◌≤◌, [], ◌∷◌, ◌++◌, List, length, take, max, IsErr, OnOk};
ghost use Rattle.aea_lattice.specs.declared.shape.Shape.{Shape};
ghost use Rattle.aea_disk.specs.Files.{ChangesFile, ChangesOnly, Holds, Torn, overwritten};
ghost use Rattle.aea_disk.specs.State.{Settles, Stays, During, IsSynced, IsFixed, IsReady, HasRoom, HasRoomTo};
ghost use Rattle.aea_disk.specs.Frames.{OnlyWrites};
ghost use Rattle.aea_records.specs.Format.{Record, body, entry};
ghost use Rattle.aea_records.specs.Grammar.{IsLedger};
ghost use Rattle.aea_ledger.specs.Taking.{TakesThrough, FitsThrough, TakesBehind, TakesCommit, FitsCommit, FitsAdding};
ghost use Rattle.aea_ledger.specs.Values.{Opened, IsThisOne};
ghost use Rattle.aea_ledger.specs.Committing.{IsNextOf, HasTaken, LeavesOldOrNew, HasCommitted};
ghost use Rattle.aea_ledger.specs.Stops.{HasLedger, HasOldOrNew, IsAdded, IsStaged, closed, committed};

use aea_disk::{Disk, DiskFault};

// Writes bytes of the ledger file, and syncs them. It leaves what a write leaves, and at Ok nothing is pending.
pub(crate) fn write_through<D: Disk>(disk: &mut D, at: u64, bytes: &[u8]) -> Result<(), DiskFault>
    requires { at + length bytes.now ≤ 2 ^ 62 }
    ensures written { OnOk result (D.reveals → ChangesFile 0 (Holds at bytes.now) (D.state disk.old).files (D.state disk.new).files) }
    ensures durable { OnOk result (D.reveals → IsSynced (D.state disk.new)) }
    ensures settled { Settles (D.state disk.old) (D.state disk.new) }
    ensures writes { OnlyWrites D.reveals (TakesThrough (D.state disk.old) at bytes.now) (FitsThrough (D.state disk.old) at bytes.now) (IsErr result) (ChangesFile 0 (Torn at (length bytes.now))) (D.state disk.old) (D.state disk.new) }
    ensures full { OnOk result (HasRoom (D.state disk.old) → HasRoomTo (D.state disk.old) 0 (at + length bytes.now)) }
{
    disk.write(0, at, bytes)?;
    disk.sync()
}

// Writes bytes of the ledger file and others after them: the later ones first, so that a lack of space shows at the first
// call. It leaves what a write of both leaves.
fn write_both<D: Disk>(disk: &mut D, at: u64, front: &[u8], back: &[u8]) -> Result<(), DiskFault>
    requires { at + (length front.now + length back.now) ≤ 2 ^ 62 }
    ensures written { OnOk result (D.reveals → ChangesFile 0 (Holds at (front.now ++ back.now)) (D.state disk.old).files (D.state disk.new).files) }
    ensures writes { OnlyWrites D.reveals (TakesBehind (D.state disk.old) at) (HasRoomTo (D.state disk.old) 0 (at + (length front.now + length back.now))) (IsErr result) (ChangesFile 0 (Torn at (length front.now + length back.now))) (D.state disk.old) (D.state disk.new) }
    ensures full { OnOk result (HasRoom (D.state disk.old) → HasRoomTo (D.state disk.old) 0 (at + (length front.now + length back.now))) }
{
    disk.write(0, at + front.len() as u64, back)?;
    disk.write(0, at, front)
}

// The most bytes that are written by one call from two pieces.
const MOST_AT_ONCE: usize = 512;

// Two pieces, one after the other, at the front of zeros.
fn joined(front: &[u8], rest: &[u8]) -> [u8; MOST_AT_ONCE]
    requires { length front.now + length rest.now < 512 }
    ensures { take (length front.now + (length rest.now + 1)) result ≡ closed front.now rest.now }
{
    let mut bytes = [0; MOST_AT_ONCE];
    let (before, after) = bytes.split_at_mut(front.len());
    before.copy_from_slice(front);
    after[..rest.len()].copy_from_slice(rest);
    bytes
}

// Writes the body of a short record, which is in two pieces, and a closed gate after it by one call, and syncs them.
fn write_short<D: Disk>(disk: &mut D, at: u64, front: &[u8], rest: &[u8]) -> Result<(), DiskFault>
    requires range { at + (length front.now + (length rest.now + 1)) ≤ 2 ^ 62 }
    requires short { length front.now + length rest.now < 512 }
    ensures written { OnOk result (D.reveals → ChangesFile 0 (Holds at (closed front.now rest.now)) (D.state disk.old).files (D.state disk.new).files) }
    ensures durable { OnOk result (D.reveals → IsSynced (D.state disk.new)) }
    ensures writes { OnlyWrites D.reveals (TakesBehind (D.state disk.old) at) (FitsThrough (D.state disk.old) at (closed front.now rest.now)) (IsErr result) (ChangesFile 0 (Torn at (length front.now + (length rest.now + 1)))) (D.state disk.old) (D.state disk.new) }
    ensures full { OnOk result (HasRoom (D.state disk.old) → HasRoomTo (D.state disk.old) 0 (at + (length front.now + (length rest.now + 1)))) }
{
    let bytes = joined(front, rest);
    write_through(disk, at, &bytes[..front.len() + rest.len() + 1])
}

// Writes the body of a record, which is in two pieces, and a closed gate after it, and syncs them.
fn write_closed<D: Disk>(disk: &mut D, at: u64, front: &[u8], rest: &[u8]) -> Result<(), DiskFault>
    requires { at + (length front.now + (length rest.now + 1)) ≤ 2 ^ 62 }
    ensures written { OnOk result (D.reveals → ChangesFile 0 (Holds at (closed front.now rest.now)) (D.state disk.old).files (D.state disk.new).files) }
    ensures durable { OnOk result (D.reveals → IsSynced (D.state disk.new)) }
    ensures writes { OnlyWrites D.reveals (TakesBehind (D.state disk.old) at) (FitsThrough (D.state disk.old) at (closed front.now rest.now)) (IsErr result) (ChangesFile 0 (Torn at (length front.now + (length rest.now + 1)))) (D.state disk.old) (D.state disk.new) }
    ensures full { OnOk result (HasRoom (D.state disk.old) → HasRoomTo (D.state disk.old) 0 (at + (length front.now + (length rest.now + 1)))) }
{
    if front.len() + rest.len() < MOST_AT_ONCE {
        return write_short(disk, at, front, rest);
    }
    write_both(disk, at + front.len() as u64, rest, &[0])?;
    write_through(disk, at, front)
}

// Writes the body of a record, which is in two pieces, and a closed gate past the gate at `end`, and syncs them.
// The ledger stays what it was.
pub(crate) fn write_body<D: Disk>(
    disk: &mut D,
    end: u64,
    front: &[u8],
    rest: &[u8],
) -> Result<(), DiskFault>
    requires range { end + 1 + (length front.now + (length rest.now + 1)) ≤ 2 ^ 62 }
    requires fixed { D.reveals → IsFixed (D.state disk.old) 0 }

    // The old ledger at each moment; at Ok the body follows its gate.
    ensures any_moment { D.reveals → (shape : Shape) (records : List Record) → IsLedger ((D.state disk.old).files 0) shape records end → During (D.state disk.old) (D.state disk.new) (λ c. HasLedger shape records (c 0)) }
    ensures reads { D.reveals → (shape : Shape) (records : List Record) → IsLedger ((D.state disk.old).files 0) shape records end → HasLedger shape records ((D.state disk.new).files 0) }
    ensures stays { D.reveals → (shape : Shape) (records : List Record) (r : Record) → IsLedger ((D.state disk.old).files 0) shape records end → Stays (D.state disk.old) (D.state disk.new) (λ c. HasLedger shape (records ++ r ∷ []) (c 0)) }
    ensures exactly { OnOk result (D.reveals → (D.state disk.new).files 0 ≡ overwritten ((D.state disk.old).files 0) (end + 1) (closed front.now rest.now)) }
    ensures staged { OnOk result (D.reveals → (shape : Shape) (records : List Record) (r : Record) → IsAdded shape records r ((D.state disk.old).files 0) end (closed front.now rest.now) → IsStaged shape records r ((D.state disk.new).files 0) end) }
    ensures durable { OnOk result (D.reveals → IsSynced (D.state disk.new)) }

    ensures length { D.reveals → length ((D.state disk.new).files 0) ≤ max (length ((D.state disk.old).files 0)) (end + 1 + (length front.now + (length rest.now + 1))) }
    ensures writes { OnlyWrites D.reveals (TakesBehind (D.state disk.old) (end + 1)) (FitsThrough (D.state disk.old) (end + 1) (closed front.now rest.now)) (IsErr result) (ChangesOnly 0) (D.state disk.old) (D.state disk.new) }
    ensures full { OnOk result (HasRoom (D.state disk.old) → HasRoomTo (D.state disk.old) 0 (end + 1 + (length front.now + (length rest.now + 1)))) }
{
    write_closed(disk, end + 1, front, rest)
}

// Opens the gate at `end`, after which the body of a record lies, and syncs that.
pub(crate) fn open_gate<D: Disk>(disk: &mut D, end: u64) -> Result<(), DiskFault>
    requires range { end + 1 ≤ 2 ^ 62 }
    requires fixed { D.reveals → IsFixed (D.state disk.old) 0 }

    // The old ledger or the new one at each moment, and the new one at Ok.
    ensures any_moment { D.reveals → (shape : Shape) (records : List Record) (r : Record) → IsStaged shape records r ((D.state disk.old).files 0) end → During (D.state disk.old) (D.state disk.new) (λ c. HasOldOrNew shape records r (c 0)) }
    ensures reads { D.reveals → (shape : Shape) (records : List Record) (r : Record) → IsStaged shape records r ((D.state disk.old).files 0) end → HasOldOrNew shape records r ((D.state disk.new).files 0) }
    ensures stays { D.reveals → (shape : Shape) (records : List Record) (r : Record) → IsStaged shape records r ((D.state disk.old).files 0) end → Stays (D.state disk.old) (D.state disk.new) (λ c. HasLedger shape (records ++ r ∷ []) (c 0)) }
    ensures exactly { OnOk result (D.reveals → (D.state disk.new).files 0 ≡ overwritten ((D.state disk.old).files 0) end (1 ∷ [])) }
    ensures opened { OnOk result (D.reveals → (shape : Shape) (records : List Record) (r : Record) → IsStaged shape records r ((D.state disk.old).files 0) end → HasLedger shape (records ++ r ∷ []) ((D.state disk.new).files 0)) }
    ensures durable { OnOk result (D.reveals → IsSynced (D.state disk.new)) }

    ensures length { D.reveals → length ((D.state disk.new).files 0) ≤ max (length ((D.state disk.old).files 0)) (end + 1) }
    ensures writes { OnlyWrites D.reveals (TakesThrough (D.state disk.old) end (1 ∷ [])) (FitsThrough (D.state disk.old) end (1 ∷ [])) (IsErr result) (ChangesOnly 0) (D.state disk.old) (D.state disk.new) }
{
    write_through(disk, end, &[1])
}

// Commits a record: writes its body, which is in two pieces, and a closed gate past the gate at `end`, syncs them,
// and then opens the gate, and syncs that.
pub(crate) fn write_entry<D: Disk>(
    disk: &mut D,
    end: u64,
    front: &[u8],
    rest: &[u8],
) -> Result<(), DiskFault>
    requires range { end + 1 + (length front.now + (length rest.now + 1)) ≤ 2 ^ 62 }
    requires fixed { D.reveals → IsFixed (D.state disk.old) 0 }

    // Where it adds the record r to these records: the old ledger or the new one at each moment, and the new one at Ok.
    ensures any_moment { D.reveals → (shape : Shape) (records : List Record) (r : Record) → IsAdded shape records r ((D.state disk.old).files 0) end (closed front.now rest.now) → During (D.state disk.old) (D.state disk.new) (λ c. HasOldOrNew shape records r (c 0)) }
    ensures stays { D.reveals → (shape : Shape) (records : List Record) (r : Record) → IsAdded shape records r ((D.state disk.old).files 0) end (closed front.now rest.now) → Stays (D.state disk.old) (D.state disk.new) (λ c. HasLedger shape (records ++ r ∷ []) (c 0)) }
    ensures reads { D.reveals → (shape : Shape) (records : List Record) (r : Record) → IsAdded shape records r ((D.state disk.old).files 0) end (closed front.now rest.now) → HasOldOrNew shape records r ((D.state disk.new).files 0) }
    // At Ok the file is the old one with these bytes past the gate, and the gate opened.
    ensures exactly { OnOk result (D.reveals → (D.state disk.new).files 0 ≡ committed ((D.state disk.old).files 0) end (closed front.now rest.now)) }
    ensures appended { OnOk result (D.reveals → (shape : Shape) (records : List Record) (r : Record) → IsAdded shape records r ((D.state disk.old).files 0) end (closed front.now rest.now) → HasLedger shape (records ++ r ∷ []) ((D.state disk.new).files 0)) }
    ensures durable { OnOk result (D.reveals → IsSynced (D.state disk.new)) }

    ensures length { D.reveals → length ((D.state disk.new).files 0) ≤ max (length ((D.state disk.old).files 0)) (end + 1 + (length front.now + (length rest.now + 1))) }
    ensures writes { OnlyWrites D.reveals (TakesCommit (D.state disk.old) end (closed front.now rest.now)) (FitsCommit (D.state disk.old) end (closed front.now rest.now)) (IsErr result) (ChangesOnly 0) (D.state disk.old) (D.state disk.new) }
    ensures full { OnOk result (HasRoom (D.state disk.old) → HasRoomTo (D.state disk.old) 0 (end + 1 + (length front.now + (length rest.now + 1)))) }
{
    write_body(disk, end, front, rest)?;
    open_gate(disk, end)
}

// Commits the record r of which these two pieces are the body, to an opened ledger v that ends at this place.
pub(crate) fn write_next_entry<D: Disk>(
    disk: &mut D,
    end: u64,
    front: &[u8],
    rest: &[u8],
) -> Result<(), DiskFault>
    requires range { end + 1 + (length front.now + (length rest.now + 1)) ≤ 2 ^ 62 }
    requires fixed { D.reveals → IsFixed (D.state disk.old) 0 }
    ensures leaves { (v : Opened) (r : Record) → v.end ≡ end → front.now ++ rest.now ≡ body r → IsNextOf v r → LeavesOldOrNew D.reveals v r (D.state disk.old) (D.state disk.new) }
    ensures committed { OnOk result ((v w : Opened) (r : Record) → v.end ≡ end → front.now ++ rest.now ≡ body r → IsNextOf v r → (D.reveals → IsThisOne v ((D.state disk.old).files 0)) → HasTaken v r w → HasCommitted D.reveals v w r (D.state disk.old) (D.state disk.new)) }
    ensures writes { (v : Opened) (r : Record) → v.end ≡ end → front.now ++ rest.now ≡ body r → IsNextOf v r → (D.reveals → IsThisOne v ((D.state disk.old).files 0)) → OnlyWrites D.reveals (IsReady (D.state disk.old)) (FitsAdding (D.state disk.old) 1 (v.end + length (entry r))) (IsErr result) (ChangesOnly 0) (D.state disk.old) (D.state disk.new) }
{
    write_entry(disk, end, front, rest)?;
    Ok(())
}
