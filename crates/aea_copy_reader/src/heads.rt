//! The first bytes of a copy, and of what is at a gate.

ghost use Rattle.std.specs.Prelude.{◌≡◌, ◌↔◌, ◌≤◌, ℕ, List, length, take, IsTrue, IfSome, IfNone};
ghost use Rattle.std.specs.Int.{w32, from_be_bytes};
ghost use Rattle.aea_copies.specs.Grammar.{IsBegun, HasMark, IsBadCopyAt};
ghost use Rattle.aea_copy_reader.specs.Heads.{IsSized, IsFound};

/// What the first bytes say of what is at a gate: it is missing, it is not open, what follows it is no entry, or it may be
/// one with a piece of so many bytes.
#[derive(Clone, Copy, Debug)]
pub enum Opening {
    Missing,
    Closed,
    Broken,
    Piece(u32),
}

// The number of 4 bytes, high byte first.
fn number_in(bytes: &[u8]) -> u32
    requires { length bytes.now ≡ 4 }
    ensures { result ≡ from_be_bytes w32 bytes.now }
{
    match bytes.first_chunk::<4>() {
        Some(chunk) => u32::from_be_bytes(*chunk),
        None => unreachable!(),
    }
}

// A piece of so many bytes, whose own first bytes follow the length, may be of its kind.
fn is_sized(first: bool, head: &[u8], len: u32) -> bool
    requires { 11 ≤ length head.now }
    ensures { IsTrue result ↔ IsSized first head.now len }
{
    if first {
        return len == 17;
    }
    len >= 6 && number_in(&head[7..11]) == len - 6
}

// What these bytes, 11 from a gate on or as many as there are, say of what is there.
pub fn opening_in(head: &[u8], first: bool) -> Opening
    ensures { IsFound first head.now result }
{
    if head.is_empty() {
        return Opening::Missing;
    }
    if head[0] != 1 {
        return Opening::Closed;
    }
    if head.len() < 11 {
        return Opening::Broken;
    }
    let len = number_in(&head[1..5]);
    if head[5] == 1 && is_sized(first, head, len) {
        Opening::Piece(len)
    } else {
        Opening::Broken
    }
}

// What is bad of the beginning of a copy, if anything is: of its first bytes, 10 or as many as there are.
pub fn front_fault(front: &[u8]) -> Option<u64>
    requires { length front.now ≤ 10 }
    ensures bad { IfSome result (λ at. (file : List ℕ) → front.now ≡ take 10 file → IsBadCopyAt file at) }
    ensures near { IfSome result (λ at. at ≤ 1) }
    ensures good { IfNone result ((file : List ℕ) → front.now ≡ take 10 file → IsBegun file × HasMark file) }
{
    if front.len() < 10 || front[0] != 1 {
        return Some(0);
    }
    if &front[1..9] != b"AEACOPY1".as_slice() {
        return Some(1);
    }
    None
}
