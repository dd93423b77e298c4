//! The generator: a linear congruential one of 64 bits, with the multiplier and the increment of Knuth's MMIX.

ghost use Rattle.std.specs.Prelude.{◌≡◌, ◌+◌, ◌<◌, ◌^◌, IfOk};
ghost use Rattle.aea_records.specs.TableLaws.{AreBytes};
ghost use Rattle.aea_rehearse.specs.Generator.{next_state, state_after, byte_of, bytes_from, strikes};

use std::alloc::{AllocError, Global};

const MULTIPLIER: u64 = 6_364_136_223_846_793_005;

const INCREMENT: u64 = 1_442_695_040_888_963_407;

// The state after one step.
fn stepped(state: u64) -> u64
    ensures { result ≡ next_state state }
{
    state.wrapping_mul(MULTIPLIER).wrapping_add(INCREMENT)
}

// The byte that a state gives.
fn top_byte(state: u64) -> u8
    ensures { result ≡ byte_of state }
{
    (state >> 56) as u8
}

// Whether a state strikes, so many times in a thousand.
fn is_struck(state: u64, permille: u32) -> bool
    ensures { result ≡ strikes permille state }
{
    (state >> 32) % 1000 < u64::from(permille)
}

/// A generator, by its state.
#[derive(Clone, Copy, Debug)]
pub(crate) struct Generator {
    pub state: u64,
}

impl Generator {
    /// The next byte, after one step.
    pub(crate) fn byte(&mut self) -> u8
        ensures state { self.new.state ≡ next_state self.old.state }
        ensures byte { result ≡ byte_of self.new.state }
    {
        self.state = stepped(self.state);
        top_byte(self.state)
    }

    /// After one step, whether it strikes, so many times in a thousand.
    pub(crate) fn strike(&mut self, permille: u32) -> bool
        ensures state { self.new.state ≡ next_state self.old.state }
        ensures strikes { result ≡ strikes permille self.new.state }
    {
        let next = stepped(self.state);
        self.state = next;
        is_struck(next, permille)
    }

    /// The next bytes, so many.
    pub(crate) fn bytes(&mut self, alloc: Global, count: u32) -> Result<Vec<u8>, AllocError>
        ensures state { IfOk result (λ bytes. self.new.state ≡ state_after self.old.state count) }
        ensures bytes { IfOk result (λ bytes. bytes.items ≡ bytes_from self.old.state count) }
        ensures are { IfOk result (λ bytes. AreBytes bytes.items) }
    {
        let mut bytes = Vec::with_capacity(alloc, count as usize)?;
        for _ in 0..count {
            bytes.push(self.byte())?;
        }
        Ok(bytes)
    }
}
