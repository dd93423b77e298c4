//! Buffers that are filled.

ghost use Rattle.std.specs.Prelude.{◌≡◌, ◌≢◌, ◌+◌, ◌<◌, ◌≤◌, ◌^◌, length, IfOk, IfErr, Err};
ghost use Rattle.aea_faults.specs.Faults.{HasCause, Rose};
ghost use Rattle.aea_io.specs.Taken.{FillsAll, TakesFirst, Counts};

use crate::traits::{ReadFault, Source};

/// Why a buffer was not filled.
#[derive(Clone, Copy, Debug, PartialEq, Eq)]
pub enum FillFault {
    /// The source ended before.
    Ended,
    /// A read of the source failed. The source has counted it.
    ReadFault,
}

/// Fills the buffer with the next bytes of the source. `at` grows by the bytes that were taken, also where the source ends
/// before or a read fails; these bytes are then in the front of the buffer.
pub fn fill<S: Source>(source: &mut S, buf: &mut [u8], at: &mut u64) -> Result<(), FillFault>
    requires { at.old + length buf.old < 2 ^ 64 }
    ensures fills { FillsAll (S.state source.old).left (S.state source.new).left at.old at.new buf.new result }
    ensures kept { (S.state source.old).faults ≤ (S.state source.new).faults }
    ensures cause { result ≡ Err FillFault.ReadFault → Rose (S.state source.old).faults (S.state source.new).faults }
    ensures still { result ≢ Err FillFault.ReadFault → (S.state source.new).faults ≡ (S.state source.old).faults }
{
    let mut done = 0;
    while done < buf.len() {
        let Ok(count) = source.read(&mut buf[done..]) else {
            return Err(FillFault::ReadFault);
        };
        if count == 0 {
            return Err(FillFault::Ended);
        }
        done += count;
        *at += count as u64;
    }
    Ok(())
}

/// Reads until the buffer is full or the source is at its end, and returns how many bytes of it were filled: fewer than it
/// holds only where nothing is left. `at` grows by the bytes that were taken, also where a read fails; that comes before the
/// buffer is full.
pub fn read_full<S: Source>(
    source: &mut S,
    buf: &mut [u8],
    at: &mut u64,
) -> Result<usize, ReadFault>
    requires { at.old + length buf.old < 2 ^ 64 }
    ensures fills { IfOk result (λ k. TakesFirst (S.state source.old).left (S.state source.new).left k buf.new) }
    ensures exact { IfOk result (λ k. at.new ≡ at.old + k) }
    ensures counted { Counts (S.state source.old).left (S.state source.new).left at.old at.new (length buf.new) }
    ensures short { IfErr result (λ f. at.new < at.old + length buf.new) }
    ensures cause { HasCause (S.state source.old).faults (S.state source.new).faults result }
{
    let before = *at;
    match fill(source, buf, at) {
        Ok(()) => Ok(buf.len()),
        Err(FillFault::Ended) => Ok((*at - before) as usize),
        Err(FillFault::ReadFault) => Err(ReadFault),
    }
}
