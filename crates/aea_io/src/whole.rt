//! Inputs that are read whole.

ghost use Rattle.std.specs.Prelude.{◌≢◌, ◌≡◌, ◌+◌, ◌++◌, ◌<◌, ◌≤◌, length, IfOk, OnOk, vec_len};
ghost use Rattle.std.specs.Io.KnownBytes.{Consumes, IsAtEnd};
ghost use Rattle.aea_faults.specs.Faults.{Rose};
ghost use Rattle.aea_io.specs.Taken.{TakesAtMost};

use crate::traits::Source;
use std::alloc::{AllocError, Global};

// How many bytes are asked for at a time.
const PIECE: usize = 8192;

/// Why an input was not read whole.
#[derive(Clone, Copy, Debug, PartialEq, Eq)]
pub enum WholeFault {
    /// A read of the source failed.
    ReadFault,
    /// Memory ran out.
    NoMemory,
}

// Appends the piece to the bytes. The memory doubles, but never past `most` bytes.
fn append(whole: &mut Vec<u8>, piece: &[u8], most: usize) -> Result<(), AllocError>
    requires { vec_len whole.old + length piece.now ≤ most }
    ensures { OnOk result (whole.new.items ≡ whole.old.items ++ piece.now) }
{
    let len = whole.len();
    if whole.capacity() - len < piece.len() {
        whole.reserve_exact(len.max(piece.len()).min(most - len))?;
    }
    whole.extend_from_slice(piece)
}

/// Reads the input to its end, or to one byte past the limit: an answer longer than the limit says that there is
/// more than the limit. Takes memory for `limit + 1` bytes at most.
pub fn read_whole<S: Source>(
    alloc: Global,
    input: &mut S,
    limit: usize,
) -> Result<Vec<u8>, WholeFault>
    requires { limit < usize.MAX }
    ensures bytes { IfOk result (λ v. Consumes (S.state input.old).left (S.state input.new).left v.items) }
    ensures end { IfOk result (λ v. length v.items ≤ limit → IsAtEnd (S.state input.new).left) }
    ensures longest { IfOk result (λ v. length v.items ≤ limit + 1) }
    ensures most { TakesAtMost (S.state input.old).left (S.state input.new).left (limit + 1) }
    ensures kept { (S.state input.old).faults ≤ (S.state input.new).faults }
    ensures cause { result ≡ Err WholeFault.ReadFault → Rose (S.state input.old).faults (S.state input.new).faults }
    ensures still { result ≢ Err WholeFault.ReadFault → (S.state input.new).faults ≡ (S.state input.old).faults }
{
    let mut whole = Vec::new(alloc);
    let mut buf = [0; PIECE];
    while whole.len() <= limit {
        let room = (limit - whole.len() + 1).min(PIECE);
        let Ok(taken) = input.read(&mut buf[..room]) else {
            return Err(WholeFault::ReadFault);
        };
        if taken == 0 {
            return Ok(whole);
        }
        if append(&mut whole, &buf[..taken], limit + 1).is_err() {
            return Err(WholeFault::NoMemory);
        }
    }
    Ok(whole)
}
