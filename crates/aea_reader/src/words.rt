//! Words and numbers in a line.

ghost use Rattle.std.specs.Prelude.{◌≡◌, ◌<◌, ◌↔◌, ◌^◌, ◌++◌, ℕ, List, IsTrue, IfSome, IfNone, MatchOption, decimal, Some};
ghost use Rattle.aea_reader.specs.Words.{IsFree, Starts, spaced};

use itoa::Buffer;
use std::str;

/// What follows the word.
pub fn behind<'a>(text: &'a [u8], word: &[u8]) -> Option<&'a [u8]>
    ensures found { IfSome result (λ rest. text.now ≡ word.now ++ rest.now) }
    ensures none { IfNone result ((rest : List ℕ) → text.now ≡ word.now ++ rest → ⊥) }
{
    text.strip_prefix(word)
}

/// What comes before the first space, and what is there from it on.
pub fn cut(text: &[u8]) -> (&[u8], &[u8])
    ensures spelled { text.now ≡ result.0.now ++ result.1.now }
    ensures word { IsFree 32 result.0.now }
    ensures rest { Starts 32 result.1.now }
{
    let end = text.iter().position(|x| *x == b' ').unwrap_or(text.len());
    (&text[..end], &text[end..])
}

// The number whose decimal text this is, if there is one below 2^32.
fn parsed(digits: &[u8]) -> Option<u32>
    ensures { (n : ℕ) → n < 2 ^ 32 → digits.now ≡ decimal n → result ≡ Some n }
{
    match str::from_utf8(digits) {
        Ok(text) => text.parse::<u32>().ok(),
        Err(_) => None,
    }
}

// Whether this is the decimal text of the number.
fn is_text_of(digits: &[u8], number: u32) -> bool
    ensures { IsTrue result ↔ digits.now ≡ decimal number }
{
    let mut buffer = Buffer::new();
    digits == buffer.format(number).as_bytes()
}

/// The number below 2^32 whose decimal text this is.
pub fn number(digits: &[u8]) -> Option<u32>
    ensures found { IfSome result (λ n. digits.now ≡ decimal n) }
    ensures reads { (n : ℕ) → n < 2 ^ 32 → digits.now ≡ decimal n → result ≡ Some n }
{
    match parsed(digits) {
        Some(n) => if is_text_of(digits, n) { Some(n) } else { None },
        None => None,
    }
}

/// The number after a space, and what follows it: nothing, or a space and more.
pub fn spaced_number(text: &[u8]) -> Option<(u32, &[u8])>
    ensures found { IfSome result (λ p. text.now ≡ spaced p.0 p.1.now) }
    ensures starts { IfSome result (λ p. Starts 32 p.1.now) }
    ensures reads { (n : ℕ) (rest : List ℕ) → n < 2 ^ 32 → Starts 32 rest → text.now ≡ spaced n rest
        → MatchOption result ⊥ (λ p. (p.0 ≡ n) × (p.1.now ≡ rest)) }
{
    let Some(rest) = behind(text, b" ") else {
        return None;
    };
    let (digits, more) = cut(rest);
    match number(digits) {
        Some(n) => Some((n, more)),
        None => None,
    }
}
