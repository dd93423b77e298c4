//! Bytes of a source that were taken and not read yet.

ghost use Rattle.std.specs.Prelude.{◌≡◌, ◌<◌, ◌≤◌, [], length, drop, false, IsTrue, IfOk, OnOk, OnErr};
ghost use Rattle.std.specs.Io.KnownBytes.{Consumes, IsAtEnd, Keeps};
ghost use Rattle.aea_faults.specs.Faults.{HasCause};

use aea_io::{ReadFault, Source};
use std::marker::Model;

// How many bytes are asked for at a time.
const PAGE: usize = 8192;

/// A page of bytes of a source, of which those from `start` to `end` were not read yet.
#[derive(Drop)]
pub struct Ahead {
    page: [u8; PAGE],
    start: usize,
    end: usize,
}

impl Model for Ahead {
    ghost use Rattle.std.specs.Prelude.{◌≤◌, ℕ, List, slice_range};
    ghost use Rattle.aea_reader.specs.declared.ahead.TheConstants.{PAGE};

    ghost Value = { List ℕ };

    ghost view = { λ a. slice_range a.page a.start a.end };

    ghost invariant = { λ a. (a.start ≤ a.end) × (a.end ≤ PAGE) };
}

impl Ahead {
    /// Nothing was taken yet.
    pub fn new() -> Ahead
        ensures { result ≡ [] }
    {
        Ahead {
            page: [0; PAGE],
            start: 0,
            end: 0,
        }
    }

    /// The bytes that were taken and not read yet.
    pub fn bytes(&self) -> &[u8]
        ensures bytes { result.now ≡ self.now }
        ensures few { length result.now ≤ PAGE }
    {
        &self.page[self.start..self.end]
    }

    /// So many of them were read.
    pub fn skip(&mut self, count: usize)
        requires { count ≤ length self.old }
        ensures { self.new ≡ drop count self.old }
    {
        self.start += count;
    }

    /// Takes the next bytes of the source in place of those that are there, and at most so many. It says whether it got any.
    pub fn refill<S: Source>(&mut self, source: &mut S, most: usize) -> Result<bool, ReadFault>
        requires { 0 < most }
        ensures taken { OnOk result (Consumes (S.state source.old).left (S.state source.new).left self.new) }
        ensures few { OnOk result (length self.new ≤ most) }
        ensures some { IfOk result (λ more. IsTrue more → 0 < length self.new) }
        ensures none { IfOk result (λ more. more ≡ false → (self.new ≡ []) × IsAtEnd (S.state source.new).left) }
        ensures same { OnErr result (Keeps (S.state source.old).left (S.state source.new).left) }
        ensures cause { HasCause (S.state source.old).faults (S.state source.new).faults result }
    {
        let room = most.min(PAGE);
        self.start = 0;
        self.end = 0;
        let taken = source.read(&mut self.page[..room])?;
        self.end = taken;
        Ok(taken > 0)
    }
}
