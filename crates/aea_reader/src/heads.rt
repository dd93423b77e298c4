//! What the lines of a head say.

ghost use Rattle.std.specs.Prelude.{◌≡◌, ◌<◌, ◌↔◌, ◌^◌, ℕ, List, Option, IsTrue, IfSome, IfNone, MatchOption};
ghost use Rattle.hex.specs.Hex.{encode_lower};
ghost use Rattle.aea_lattice.specs.declared.grid.Lattice.{Lattice};
ghost use Rattle.aea_lattice.specs.Data.{IsBytes};
ghost use Rattle.aea_reader.specs.Heads.{four_text, mark_line, shape_line, seal_line, counts_line};

use crate::words::{behind, spaced_number};
use aea_lattice::Lattice;

// Four numbers, each after a space, and nothing else.
fn four_numbers(text: &[u8]) -> Option<(u32, u32, u32, u32)>
    ensures found { IfSome result (λ q. text.now ≡ four_text q.0 q.1 q.2 q.3) }
    ensures reads { (a b c d : ℕ) → a < 2 ^ 32 → b < 2 ^ 32 → c < 2 ^ 32 → d < 2 ^ 32 → text.now ≡ four_text a b c d
        → MatchOption result ⊥ (λ q. (q.0 ≡ a) × (q.1 ≡ b) × (q.2 ≡ c) × (q.3 ≡ d)) }
{
    let (a, rest) = spaced_number(text)?;
    let (b, rest) = spaced_number(rest)?;
    let (c, rest) = spaced_number(rest)?;
    let (d, rest) = spaced_number(rest)?;
    if rest.is_empty() {
        Some((a, b, c, d))
    } else {
        None
    }
}

// The lattice of this shape and number of nodes.
fn lattice_of(alpha: u32, s: u32, p: u32, n: u32) -> Option<Lattice>
    ensures found { IfSome result (λ l. (l.alpha ≡ alpha) × (l.s ≡ s) × (l.p ≡ p) × (l.n ≡ n)) }
    ensures none { IfNone result ((l : Lattice) → l.alpha ≡ alpha → l.s ≡ s → l.p ≡ p → l.n ≡ n → ⊥) }
{
    if alpha <= 3 && s <= 16 && p <= 64 {
        Lattice::new(alpha as u8, s as u8, p as u8, n)
    } else {
        None
    }
}

// Whether these are the digits of the seal.
fn are_digits_of(text: &[u8], seal: &[u8; 32]) -> bool
    ensures { IsTrue result ↔ text.now ≡ encode_lower seal.now }
{
    let mut digits = [0u8; 64];
    match hex::encode_to_slice(seal, &mut digits) {
        Ok(()) => text == digits.as_slice(),
        Err(_) => unreachable!(),
    }
}

// The seal of these digits, which are to be in lower case.
fn digits_in(text: &[u8]) -> Option<[u8; 32]>
    ensures found { IfSome result (λ seal. text.now ≡ encode_lower seal) }
    ensures bytes { IfSome result (IsBytes 32) }
    ensures none { IfNone result ((seal : List ℕ) → IsBytes 32 seal → text.now ≡ encode_lower seal → ⊥) }
{
    let mut seal = [0u8; 32];
    if hex::decode_to_slice(text, &mut seal).is_err() {
        return None;
    }
    if are_digits_of(text, &seal) {
        Some(seal)
    } else {
        None
    }
}

/// Whether the line is the mark of a report.
pub fn is_mark(line: &[u8]) -> bool
    ensures { IsTrue result ↔ line.now ≡ mark_line }
{
    line == b"aea-report 1".as_slice()
}

/// The lattice of a head's second line.
pub fn lattice_in(line: &[u8]) -> Option<Lattice>
    ensures found { IfSome result (λ l. line.now ≡ shape_line l) }
    ensures none { IfNone result ((l : Lattice) → line.now ≡ shape_line l → ⊥) }
{
    let rest = behind(line, b"lattice")?;
    let (alpha, s, p, n) = four_numbers(rest)?;
    lattice_of(alpha, s, p, n)
}

/// The seal of a head's third line, or that there is none.
pub fn seal_in(line: &[u8]) -> Option<Option<[u8; 32]>>
    ensures found { IfSome result (λ seal. line.now ≡ seal_line seal) }
    ensures bytes { IfSome result (λ seal. IfSome seal (IsBytes 32)) }
    ensures none { IfNone result ((seal : Option (List ℕ)) → IfSome seal (IsBytes 32) → line.now ≡ seal_line seal → ⊥) }
{
    let rest = behind(line, b"ledger ")?;
    if rest == b"none".as_slice() {
        return Some(None);
    }
    match digits_in(rest) {
        Some(seal) => Some(Some(seal)),
        None => None,
    }
}

/// The numbers of damaged, peeled, solved and lost blocks of a head's fourth line.
pub fn counts_in(line: &[u8]) -> Option<(u32, u32, u32, u32)>
    ensures found { IfSome result (λ q. line.now ≡ counts_line q.0 q.1 q.2 q.3) }
    ensures none { IfNone result ((a b c d : ℕ) → a < 2 ^ 32 → b < 2 ^ 32 → c < 2 ^ 32 → d < 2 ^ 32 → line.now ≡ counts_line a b c d → ⊥) }
{
    let rest = behind(line, b"counts")?;
    four_numbers(rest)
}
