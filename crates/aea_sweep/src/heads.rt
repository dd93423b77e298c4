//! The heads of a word: a bit for each strand.

ghost use Rattle.std.specs.Prelude.{◌≡◌, ◌==◌, ◌<◌, ◌&&◌, ℕ, not, false, true, MatchOption};
ghost use Rattle.aea_lattice.specs.Parity.{differ};
ghost use Rattle.aea_view.specs.Bits.{has_bit};
ghost use Rattle.aea_sweep.specs.Heads.{has_head};

/// A bit for each place below 192.
#[derive(Clone, Copy, Debug, PartialEq, Eq)]
pub(crate) struct Heads {
    pub low: u64,
    pub middle: u64,
    pub high: u64,
}

// The bit of the word at this place.
fn bit(word: u64, place: u32) -> bool
    requires { place < 64 }
    ensures { result ≡ has_bit word place }
{
    (word >> place) & 1 == 1
}

// The word with the bit at this place flipped.
fn flipped(word: u64, place: u32) -> u64
    requires { place < 64 }
    ensures { (k : ℕ) → k < 64 → has_bit result k ≡ differ (has_bit word k) (k == place) }
{
    word ^ (1 << place)
}

// The word with the bit at this place 0.
fn without(word: u64, place: u32) -> u64
    requires { place < 64 }
    ensures { (k : ℕ) → k < 64 → has_bit result k ≡ (has_bit word k && not (k == place)) }
{
    word & !(1 << place)
}

// The bits that differ.
fn sum(first: u64, second: u64) -> u64
    ensures { (k : ℕ) → k < 64 → has_bit result k ≡ differ (has_bit first k) (has_bit second k) }
{
    first ^ second
}

// The place of the least bit of the word that is 1.
fn least(word: u64) -> Option<u32>
    ensures { MatchOption result ((k : ℕ) → k < 64 → has_bit word k ≡ false) (λ k. (k < 64) × (has_bit word k ≡ true)) }
{
    if word == 0 {
        None
    } else {
        Some(word.trailing_zeros())
    }
}

impl Heads {
    /// All bits 0.
    pub(crate) fn none() -> Heads
        ensures { (k : ℕ) → has_head result k ≡ false }
    {
        Heads {
            low: 0,
            middle: 0,
            high: 0,
        }
    }

    /// The bit at this place.
    pub(crate) fn has(&self, place: u32) -> bool
        requires { place < 192 }
        ensures { result ≡ has_head self.now place }
    {
        if place < 64 {
            bit(self.low, place)
        } else if place < 128 {
            bit(self.middle, place - 64)
        } else {
            bit(self.high, place - 128)
        }
    }

    /// These bits with that of the place flipped.
    pub(crate) fn flipped(&self, place: u32) -> Heads
        requires { place < 192 }
        ensures { (k : ℕ) → k < 192 → has_head result k ≡ differ (has_head self.now k) (k == place) }
    {
        if place < 64 {
            Heads {
                low: flipped(self.low, place),
                middle: self.middle,
                high: self.high,
            }
        } else if place < 128 {
            Heads {
                low: self.low,
                middle: flipped(self.middle, place - 64),
                high: self.high,
            }
        } else {
            Heads {
                low: self.low,
                middle: self.middle,
                high: flipped(self.high, place - 128),
            }
        }
    }

    /// These bits with that of the place 0.
    pub(crate) fn without(&self, place: u32) -> Heads
        requires { place < 192 }
        ensures { (k : ℕ) → k < 192 → has_head result k ≡ (has_head self.now k && not (k == place)) }
    {
        if place < 64 {
            Heads {
                low: without(self.low, place),
                middle: self.middle,
                high: self.high,
            }
        } else if place < 128 {
            Heads {
                low: self.low,
                middle: without(self.middle, place - 64),
                high: self.high,
            }
        } else {
            Heads {
                low: self.low,
                middle: self.middle,
                high: without(self.high, place - 128),
            }
        }
    }

    /// The bits that differ.
    pub(crate) fn sum(&self, other: &Heads) -> Heads
        ensures { (k : ℕ) → k < 192 → has_head result k ≡ differ (has_head self.now k) (has_head other.now k) }
    {
        Heads {
            low: sum(self.low, other.low),
            middle: sum(self.middle, other.middle),
            high: sum(self.high, other.high),
        }
    }

    /// A place whose bit is 1, if there is one.
    pub(crate) fn first(&self) -> Option<u32>
        ensures { MatchOption result ((k : ℕ) → k < 192 → has_head self.now k ≡ false) (λ k. (k < 192) × (has_head self.now k ≡ true)) }
    {
        if let Some(place) = least(self.low) {
            return Some(place);
        }
        if let Some(place) = least(self.middle) {
            return Some(place + 64);
        }
        match least(self.high) {
            Some(place) => Some(place + 128),
            None => None,
        }
    }
}
