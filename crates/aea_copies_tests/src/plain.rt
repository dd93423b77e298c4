//! A plain judge of copies: the rules one by one, over bytes in memory.

use crate::joining::digest_of_parts;
use std::alloc::Global;

/// What a file is: a good copy whose entries end at this place, with so many bytes of text; or bad at this place.
#[derive(Clone, Copy, Debug, PartialEq, Eq)]
pub enum Plain {
    Good { end: u64, text: u64 },
    Bad { at: u64 },
}

/// The bytes from a place on, so many of them, or as many as there are.
pub fn part(bytes: &[u8], at: u64, count: u64) -> &[u8] {
    let end = bytes.len() as u64;
    let start = at.min(end);
    let stop = start.saturating_add(count).min(end).max(start);
    &bytes[start as usize..stop as usize]
}

// The number of 4 bytes at a place.
fn number(bytes: &[u8], at: u64) -> u64 {
    let mut number = 0u64;
    for byte in part(bytes, at, 4) {
        number = number.wrapping_mul(256).wrapping_add(u64::from(*byte));
    }
    number
}

// Whether these bytes may be a piece: the first one, or a further one.
fn is_piece(piece: &[u8], is_first: bool) -> bool {
    let long = piece.len() as u64;
    let is_long_enough = if is_first {
        long == 17
    } else {
        long >= 6 && number(piece, 2).saturating_add(6) == long
    };
    part(piece, 0, 1) == b"\x01".as_slice() && is_long_enough
}

// Whether the entry at this place is whole up to its link, and its piece is right.
fn has_piece(bytes: &[u8], at: u64) -> bool {
    let count = number(bytes, at.saturating_add(1));
    let piece = part(bytes, at.saturating_add(5), count);
    part(bytes, at.saturating_add(1), 4).len() == 4
        && piece.len() as u64 == count
        && is_piece(piece, at == 9)
}

// The link that such an entry has to have after this one.
fn next_link(alloc: Global, bytes: &[u8], at: u64, link: &[u8; 32]) -> Option<[u8; 32]> {
    let count = number(bytes, at.saturating_add(1));
    let long = part(bytes, at.saturating_add(1), 4);
    let piece = part(bytes, at.saturating_add(5), count);
    digest_of_parts(alloc, &[link.as_slice(), long, piece])
}

// The gate after the entry at this place, if it ends with this link.
fn after_entry(bytes: &[u8], at: u64, link: &[u8; 32]) -> Option<u64> {
    let count = number(bytes, at.saturating_add(1));
    let place = at.saturating_add(5).saturating_add(count);
    let is_right = part(bytes, place, 32) == link.as_slice();
    is_right.then_some(place.saturating_add(32))
}

// Whether a gate is open at this place.
fn is_open(bytes: &[u8], at: u64) -> bool {
    part(bytes, at, 1) == b"\x01".as_slice()
}

// What a file is whose entries are good up to this place, and have so much text. It is good where a closed gate is there.
fn ended(bytes: &[u8], at: u64, text: u64) -> Plain {
    if !part(bytes, at, 1).is_empty() && !is_open(bytes, at) && at != 9 {
        Plain::Good { end: at, text }
    } else {
        Plain::Bad { at }
    }
}

// What a file is that begins as a copy does.
fn judge_entries(alloc: Global, bytes: &[u8]) -> Option<Plain> {
    let mut at = 9u64;
    let mut text = 0u64;
    let mut link = [0u8; 32];
    for _ in 0..bytes.len() {
        if !is_open(bytes, at) || !has_piece(bytes, at) {
            break;
        }
        link = next_link(alloc, bytes, at, &link)?;
        let Some(next) = after_entry(bytes, at, &link) else {
            break;
        };
        text = text.saturating_add(next.saturating_sub(at).saturating_sub(37));
        at = next;
    }
    Some(ended(bytes, at, text))
}

/// What a file with these bytes is.
pub fn judge_plainly(alloc: Global, bytes: &[u8]) -> Option<Plain> {
    if bytes.len() < 10 || !is_open(bytes, 0) {
        Some(Plain::Bad { at: 0 })
    } else if part(bytes, 1, 8) != b"AEACOPY1".as_slice() {
        Some(Plain::Bad { at: 1 })
    } else {
        judge_entries(alloc, bytes)
    }
}
