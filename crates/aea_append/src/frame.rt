//! The head of a frame.

ghost use Rattle.std.specs.Prelude.{◌≡◌, ◌⊎◌, ◌+◌, ◌<◌, ◌≤◌, ◌^◌, true, false, ℕ, List, length, take, drop, Some, IfOk, IfErr};
ghost use Rattle.std.specs.Int.{w64, from_be_bytes};
ghost use Rattle.std.specs.Io.KnownBytes.{Consumes, IsAtEnd};
ghost use Rattle.aea_faults.specs.Faults.{HasCause};
ghost use Rattle.aea_io.specs.Taken.{Counts};
ghost use Rattle.aea_records.specs.TableLaws.{AreBytes};
ghost use Rattle.aea_append.specs.Frames.{IsHeadOf, HasNameLength, name_length, frame_head};

use aea_io::{ReadFault, Source, read_full};

/// What a stream begins with.
#[derive(Clone, Copy)]
pub(crate) enum Head {
    /// Nothing: it is at its end.
    End,
    /// Some bytes of a head, and then its end.
    Cut,
    /// A length that no name has.
    NoName,
    /// A whole head: the length of the name, and that of the object.
    Whole { long: usize, size: u64 },
}

// These are bytes.
fn are_bytes(bytes: &[u8])
    ensures { AreBytes bytes.now }
{
    let _first = bytes.first();
}

// Whether no name is so long.
fn is_no_length(long: usize) -> bool
    ensures yes { result ≡ true → (long ≡ 0) ⊎ (255 < long) }
    ensures no { result ≡ false → (1 ≤ long) × (long ≤ 255) }
{
    long == 0 || long > 255
}

// The number in the 8 bytes from this place on, high bytes first.
fn number_at(bytes: &[u8], at: usize) -> u64
    requires { at + 8 ≤ length bytes.now }
    ensures number { result ≡ from_be_bytes w64 (take 8 (drop at bytes.now)) }
    ensures bytes { AreBytes (take 8 (drop at bytes.now)) }
{
    match bytes[at..].first_chunk::<8>() {
        Some(chunk) => {
            are_bytes(chunk);
            u64::from_be_bytes(*chunk)
        }
        None => unreachable!(),
    }
}

/// Reads the head of a frame: the length of the name (2 bytes), and then at once the name and the length of the object (8
/// bytes), numbers with high bytes first. The buffer then begins with the name. Where no name is so long, nothing more is
/// read. `at` grows by the bytes that were taken.
pub(crate) fn read_head<S: Source>(
    source: &mut S,
    buffer: &mut [u8],
    at: &mut u64,
) -> Result<Head, ReadFault>
    requires buffer { length buffer.old ≡ 263 }
    requires count { at.old ≤ 2 ^ 63 }
    ensures revealed { (stream : List ℕ) → (S.state source.old).left ≡ Some stream → IfOk result (λ head. IsHeadOf stream head buffer.new) }
    ensures end { result ≡ Ok Head.End → IsAtEnd (S.state source.old).left × (at.new ≡ at.old) }
    ensures ended { result ≡ Ok Head.End → IsAtEnd (S.state source.new).left }
    ensures cut { result ≡ Ok Head.Cut → IsAtEnd (S.state source.new).left }
    ensures no_name { result ≡ Ok Head.NoName → at.new ≡ at.old + 2 }
    ensures whole { (long size : ℕ) → result ≡ Ok (Head.Whole long size) → (1 ≤ long) × (long ≤ 255) × (length (take long buffer.new) ≡ long) × Consumes (S.state source.old).left (S.state source.new).left (frame_head (take long buffer.new) size) × (at.new ≡ at.old + 10 + long) }
    ensures within { (stream : List ℕ) → (S.state source.old).left ≡ Some stream → HasNameLength stream → at.new ≤ at.old + 10 + name_length stream }
    ensures counted { Counts (S.state source.old).left (S.state source.new).left at.old at.new 265 }
    ensures short { (stream : List ℕ) → (S.state source.old).left ≡ Some stream → HasNameLength stream → IfErr result (λ f. at.new < at.old + 10 + name_length stream) }
    ensures cause { HasCause (S.state source.old).faults (S.state source.new).faults result }
{
    let mut two = [0; 2];
    let count = match read_full(source, &mut two, at) {
        Ok(count) => count,
        Err(fault) => return Err(fault),
    };
    if count == 0 {
        return Ok(Head::End);
    }
    if count < 2 {
        return Ok(Head::Cut);
    }
    are_bytes(&two);
    let long = usize::from(u16::from_be_bytes(two));
    if is_no_length(long) {
        return Ok(Head::NoName);
    }
    let end = long + 8;
    let taken = match read_full(source, &mut buffer[..end], at) {
        Ok(taken) => taken,
        Err(fault) => return Err(fault),
    };
    if taken < end {
        return Ok(Head::Cut);
    }
    let size = number_at(buffer, long);
    Ok(Head::Whole { long, size })
}
