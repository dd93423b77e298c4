//! A row of the table: a bit for each strand, and one for each of 64 wanted blocks.

ghost use Rattle.std.specs.Prelude.{◌≡◌, ◌==◌, ◌+◌, ◌<◌, ◌&&◌, ℕ, not, false, true, MatchOption};
ghost use Rattle.aea_lattice.specs.Parity.{differ};
ghost use Rattle.aea_view.specs.Bits.{has_bit};
ghost use Rattle.aea_sums.specs.Rows.{row_bit, no_row};

/// A bit for each place below 192, and 64 tags, whose places are those from 192 on.
#[derive(Clone, Copy, Debug, PartialEq, Eq)]
pub(crate) struct Row {
    pub low: u64,
    pub middle: u64,
    pub high: u64,
    pub tags: u64,
}

// The bit of the word at this place.
pub(crate) fn bit(word: u64, place: u32) -> bool
    requires { place < 64 }
    ensures { result ≡ has_bit word place }
{
    (word >> place) & 1 == 1
}

// The word with the bit at this place flipped.
pub(crate) fn flipped(word: u64, place: u32) -> u64
    requires { place < 64 }
    ensures { (k : ℕ) → k < 64 → has_bit result k ≡ differ (has_bit word k) (k == place) }
{
    word ^ (1 << place)
}

// The bits that differ.
fn sum_words(first: u64, second: u64) -> u64
    ensures { (k : ℕ) → has_bit result k ≡ differ (has_bit first k) (has_bit second k) }
{
    first ^ second
}

// The place of the least bit of the word that is 1.
fn least(word: u64) -> Option<u32>
    ensures { MatchOption result ((k : ℕ) → has_bit word k ≡ false) (λ k. (k < 64) × (has_bit word k ≡ true)) }
{
    if word == 0 {
        None
    } else {
        Some(word.trailing_zeros())
    }
}

impl Row {
    /// All bits 0.
    pub(crate) fn none() -> Row
        ensures { result ≡ no_row }
    {
        Row {
            low: 0,
            middle: 0,
            high: 0,
            tags: 0,
        }
    }

    /// The row with these tags alone.
    pub(crate) fn tagged(tags: u64) -> Row
        ensures none { (t : ℕ) → t < 192 → row_bit result t ≡ false }
        ensures tags { (k : ℕ) → row_bit result (192 + k) ≡ has_bit tags k }
    {
        Row {
            low: 0,
            middle: 0,
            high: 0,
            tags,
        }
    }

    /// The bit at this place.
    pub(crate) fn has(&self, place: u32) -> bool
        requires { place < 192 }
        ensures { result ≡ row_bit self.now place }
    {
        if place < 64 {
            bit(self.low, place)
        } else if place < 128 {
            bit(self.middle, place - 64)
        } else {
            bit(self.high, place - 128)
        }
    }

    /// These bits with that of the place flipped.
    pub(crate) fn flipped(&self, place: u32) -> Row
        requires { place < 192 }
        ensures { (k : ℕ) → k < 256 → row_bit result k ≡ differ (row_bit self.now k) (k == place) }
    {
        if place < 64 {
            Row {
                low: flipped(self.low, place),
                middle: self.middle,
                high: self.high,
                tags: self.tags,
            }
        } else if place < 128 {
            Row {
                low: self.low,
                middle: flipped(self.middle, place - 64),
                high: self.high,
                tags: self.tags,
            }
        } else {
            Row {
                low: self.low,
                middle: self.middle,
                high: flipped(self.high, place - 128),
                tags: self.tags,
            }
        }
    }

    /// The bits that differ.
    pub(crate) fn sum(&self, other: &Row) -> Row
        ensures { (k : ℕ) → row_bit result k ≡ differ (row_bit self.now k) (row_bit other.now k) }
    {
        Row {
            low: sum_words(self.low, other.low),
            middle: sum_words(self.middle, other.middle),
            high: sum_words(self.high, other.high),
            tags: sum_words(self.tags, other.tags),
        }
    }

    /// A place of a strand whose bit is 1, if there is one.
    pub(crate) fn first(&self) -> Option<u32>
        ensures { MatchOption result ((k : ℕ) → k < 192 → row_bit self.now k ≡ false) (λ k. (k < 192) × (row_bit self.now k ≡ true)) }
    {
        if let Some(place) = least(self.low) {
            return Some(place);
        }
        if let Some(place) = least(self.middle) {
            return Some(place + 64);
        }
        match least(self.high) {
            Some(place) => Some(place + 128),
            None => None,
        }
    }
}
