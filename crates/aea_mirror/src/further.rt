//! The records that the ledger has after the kept text.

ghost use Rattle.std.specs.Prelude.{◌≡◌, ◌+◌, ◌^◌, ◌<◌, ◌≤◌, ℕ, List, length, take, drop, IsErr, IfOk};
ghost use Rattle.std.specs.Int.{w32, from_be_bytes};
ghost use Rattle.aea_disk.specs.Ends.{Reaches, copied_end};
ghost use Rattle.aea_disk.specs.Frames.{OnlyReads};
ghost use Rattle.aea_mirror.specs.Looking.{IsLook, IsFurther, IsWithin, IsOn};

use aea_disk::{Disk, DiskFault};

/// What the ledger has after the kept text: nothing, whole records up to the gate at this place, or something else.
#[derive(Clone, Copy, Debug)]
pub(crate) enum Further {
    Nothing,
    Until { last: u64 },
    Broken,
}

// What is at a gate: it is closed; a record of so many bytes, with the gate, is after it; or neither.
#[derive(Clone, Copy, Debug)]
pub(crate) enum Look {
    Closed,
    Record { size: u64 },
    NoRecord,
}

// The greatest place of a copy, and the most bytes that the length of a record may say.
const GREATEST_PLACE: u64 = 1 << 58;

const GREATEST_LENGTH: u32 = 4_294_967_289;

// The number of 4 bytes, high byte first.
fn number_in(bytes: &[u8]) -> u32
    requires { length bytes.now ≡ 4 }
    ensures { result ≡ from_be_bytes w32 bytes.now }
{
    match bytes.first_chunk::<4>() {
        Some(chunk) => u32::from_be_bytes(*chunk),
        None => unreachable!(),
    }
}

// What these bytes, six from a gate on or as many as there are, say of what is there.
fn look_in(bytes: &[u8]) -> Look
    requires { length bytes.now ≤ 6 }
    ensures { IsLook bytes.now result }
{
    if bytes.is_empty() {
        return Look::NoRecord;
    }
    if bytes[0] != 1 {
        return Look::Closed;
    }
    if bytes.len() < 6 {
        return Look::NoRecord;
    }
    let number = number_in(&bytes[2..]);
    if number > GREATEST_LENGTH {
        return Look::NoRecord;
    }
    Look::Record {
        size: 6 + u64::from(number),
    }
}

// Looks at a gate of the ledger.
fn look_at<D: Disk>(disk: &mut D, at: u64) -> Result<Look, DiskFault>
    requires { at ≤ 2 ^ 58 }
    ensures look { IfOk result (λ look. D.reveals → IsLook (take 6 (drop at ((D.state disk.old).files 0))) look) }
    ensures size { IfOk result IsWithin }
    ensures reads { OnlyReads D.reveals (IsErr result) (D.state disk.old) (D.state disk.new) }
{
    let mut front = [0; 6];
    let count = disk.read(0, at, &mut front)?;
    Ok(look_in(&front[..count]))
}

/// Looks what the ledger has after the gate at this place, where the copy that has the text before it ends at `gate`. A record
/// is whole where its entry of the copy ends at 2^58 or before. It reads six bytes at each gate.
pub(crate) fn look_further<D: Disk>(disk: &mut D, end: u64, gate: u64) -> Result<Further, DiskFault>
    requires places { (end ≤ 2 ^ 58) × (gate ≤ 2 ^ 58) }
    ensures further { IfOk result (λ found. D.reveals → (before : ℕ) → gate ≡ copied_end (before + 1) end → IsFurther ((D.state disk.old).files 0) before end found) }
    ensures within { IfOk result (IsOn end) }
    ensures reads { OnlyReads D.reveals (IsErr result) (D.state disk.old) (D.state disk.new) }
{
    let mut at = end;
    let mut copy = gate;
    'records: loop {
        match look_at(disk, at)? {
            Look::Closed => {
                if at == end {
                    return Ok(Further::Nothing);
                }
                return Ok(Further::Until { last: at });
            }
            Look::NoRecord => return Ok(Further::Broken),
            Look::Record { size } => {
                at += size;
                copy += 37 + size;
            }
        }
        if copy > GREATEST_PLACE {
            return Ok(Further::Broken);
        }
        if at > GREATEST_PLACE {
            return Ok(Further::Broken);
        }
    }
}
