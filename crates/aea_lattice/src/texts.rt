ghost use Rattle.std.specs.Prelude.{◌≡◌, ◌<◌, ◌≤◌, ◌^◌, ℕ, List, ◌∷◌, drop, decimal, IfSome, IfNone, Some};
ghost use Rattle.aea_lattice.specs.declared.blocks.BlockId.{BlockId};
ghost use Rattle.aea_lattice.specs.Texts.{letter_of, text_of};

use crate::blocks::{BlockId, Class};
use std::marker::Model;
use std::str;

/// The text of a block.
#[derive(Drop)]
pub struct BlockText {
    buf: [u8; 11],
    start: usize,
}

impl Model for BlockText {
    ghost Value = { List ℕ };

    ghost view = { λ t. drop t.start t.buf };

    ghost invariant = { λ t. t.start ≤ 11 };
}

impl BlockText {
    /// The bytes of the text.
    pub fn bytes(&self) -> &[u8]
        ensures { result.now ≡ self.now }
    {
        &self.buf[self.start..]
    }
}

impl Class {
    /// The letter of the class in the text of a block: d, h, r or l.
    pub fn letter(self) -> u8
        ensures { result ≡ letter_of self }
    {
        match self {
            Class::Datum => b'd',
            Class::Horiz => b'h',
            Class::Right => b'r',
            Class::Left => b'l',
        }
    }
}

// The letter, and the node in decimal.
fn print_parts(letter: u8, node: u32) -> BlockText
    ensures { result ≡ letter ∷ decimal node }
{
    let mut buf = [0; 11];
    let start = itoa::write_digits(u64::from(node), &mut buf, 11) - 1;
    buf[start] = letter;
    BlockText { buf, start }
}

/// The text of a block: the letter d, h, r or l of its class, and its node in decimal.
pub fn print_block(b: BlockId) -> BlockText
    requires { 1 ≤ b.node }
    ensures { result ≡ text_of b }
{
    print_parts(b.class.letter(), b.node)
}

// The number whose decimal text this is, if there is one below 2^32.
fn number(digits: &[u8]) -> Option<u32>
    ensures { (n : ℕ) → n < 2 ^ 32 → digits.now ≡ decimal n → result ≡ Some n }
{
    match str::from_utf8(digits) {
        Ok(text) => text.parse::<u32>().ok(),
        Err(_) => None,
    }
}

/// The block whose text this is, None where it is no text of a block: one of the letters d, h, r, l and a decimal
/// number from 1 to 4,294,967,295 without leading zeros.
pub fn parse_block(text: &[u8]) -> Option<BlockId>
    ensures found { IfSome result (λ b. text.now ≡ text_of b) }
    ensures node { IfSome result (λ b. 1 ≤ b.node) }
    ensures reads { (b : BlockId) → 1 ≤ b.node → b.node < 2 ^ 32 → text.now ≡ text_of b → result ≡ Some b }
    ensures none { IfNone result ((b : BlockId) → 1 ≤ b.node → b.node < 2 ^ 32 → text.now ≡ text_of b → ⊥) }
{
    let (first, rest) = text.split_first()?;
    let class = match *first {
        b'd' => Class::Datum,
        b'h' => Class::Horiz,
        b'r' => Class::Right,
        b'l' => Class::Left,
        _ => return None,
    };
    let node = number(rest)?;
    let b = BlockId { node, class };
    if 1 <= node && print_block(b).bytes() == text {
        Some(b)
    } else {
        None
    }
}
