//! Short texts that are put together on the stack.

ghost use Rattle.std.specs.Prelude.{◌≡◌, ◌+◌, ◌≤◌, ◌++◌, ◌∷◌, [], length, decimal};
ghost use Rattle.hex.specs.Hex.{encode_lower};
ghost use Rattle.aea_lattice.specs.Texts.{text_of};
ghost use Rattle.aea_report.specs.Format.{joined, seal_text, head_texts, numbers_text};

use crate::head::Head;
use aea_lattice::{BlockId, print_block};
use itoa::Buffer;
use std::marker::Model;

// The most bytes of a short text.
const ROOM: usize = 256;

/// Bytes of a short text.
#[derive(Drop)]
pub struct Text {
    buf: [u8; ROOM],
    len: usize,
}

impl Model for Text {
    ghost use Rattle.std.specs.Prelude.{◌≤◌, ℕ, List, take};
    ghost use Rattle.aea_report.specs.declared.text.TheConstants.{ROOM};

    ghost Value = { List ℕ };

    ghost view = { λ t. take t.len t.buf };

    ghost invariant = { λ t. t.len ≤ ROOM };
}

impl Text {
    /// A text without bytes.
    pub fn new() -> Text
        ensures { result ≡ [] }
    {
        Text {
            buf: [0; ROOM],
            len: 0,
        }
    }

    /// The bytes of the text.
    pub fn bytes(&self) -> &[u8]
        ensures { result.now ≡ self.now }
    {
        &self.buf[..self.len]
    }

    /// Puts the piece last.
    pub fn push(&mut self, piece: &[u8])
        requires { length self.old + length piece.now ≤ ROOM }
        ensures text { self.new ≡ self.old ++ piece.now }
        ensures long { length self.new ≡ length self.old + length piece.now }
    {
        let end = self.len + piece.len();
        self.buf[self.len..end].copy_from_slice(piece);
        self.len = end;
    }

    /// Puts the number last, in decimal.
    pub fn push_number(&mut self, number: u32)
        requires { length self.old + 10 ≤ ROOM }
        ensures text { self.new ≡ self.old ++ decimal number }
        ensures long { length self.new ≤ length self.old + 10 }
    {
        let mut buffer = Buffer::new();
        self.push(buffer.format(number).as_bytes());
    }
}

// Puts the number last, after a space.
fn push_spaced(text: &mut Text, number: u32)
    requires { length text.old + 11 ≤ ROOM }
    ensures text { text.new ≡ text.old ++ numbers_text (number ∷ []) }
    ensures long { length text.new ≤ length text.old + 11 }
{
    text.push(b" ");
    text.push_number(number);
}

// Puts four numbers last, each after a space.
fn push_four(text: &mut Text, a: u32, b: u32, c: u32, d: u32)
    requires { length text.old + 44 ≤ ROOM }
    ensures text { text.new ≡ text.old ++ numbers_text (a ∷ b ∷ c ∷ d ∷ []) }
    ensures long { length text.new ≤ length text.old + 44 }
{
    push_spaced(text, a);
    push_spaced(text, b);
    push_spaced(text, c);
    push_spaced(text, d);
}

// Puts the digits of a seal last.
fn push_digits(text: &mut Text, seal: &[u8])
    requires room { length text.old + 64 ≤ ROOM }
    requires seal { length seal.now ≡ 32 }
    ensures text { text.new ≡ text.old ++ encode_lower seal.now }
    ensures long { length text.new ≤ length text.old + 64 }
{
    let mut digits = [0u8; 64];
    match hex::encode_to_slice(seal, &mut digits) {
        Ok(()) => text.push(&digits),
        Err(_) => unreachable!(),
    }
}

// Puts the seal last, or that there is none.
fn push_seal(text: &mut Text, seal: &Option<[u8; 32]>)
    requires { length text.old + 64 ≤ ROOM }
    ensures text { text.new ≡ text.old ++ seal_text seal.now }
    ensures long { length text.new ≤ length text.old + 64 }
{
    match seal {
        None => text.push(b"none"),
        Some(seal) => push_digits(text, seal),
    }
}

/// The text of a head, four lines.
pub fn head_text(head: &Head) -> Text
    ensures { result ≡ joined (head_texts head.now) }
{
    let mut text = Text::new();
    text.push(b"aea-report 1\nlattice");
    push_four(
        &mut text,
        u32::from(head.alpha),
        u32::from(head.s),
        u32::from(head.p),
        head.n,
    );
    text.push(b"\nledger ");
    push_seal(&mut text, &head.seal);
    text.push(b"\ncounts");
    push_four(&mut text, head.damaged, head.peeled, head.solved, head.lost);
    text.push(b"\n");
    text
}

/// A word, a block, and what follows it.
pub fn block_text(word: &[u8], block: BlockId, end: &[u8]) -> Text
    requires node { 1 ≤ block.node }
    requires short { length word.now + length end.now ≤ 20 }
    ensures { result ≡ word.now ++ text_of block ++ end.now }
{
    let mut text = Text::new();
    text.push(word);
    text.push(print_block(block).bytes());
    text.push(end);
    text
}

/// The text of a node, after a space.
pub fn node_text(node: u32) -> Text
    ensures { result ≡ numbers_text (node ∷ []) }
{
    let mut text = Text::new();
    push_spaced(&mut text, node);
    text
}
