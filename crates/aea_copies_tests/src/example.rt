//! The example: the ledger of AE(3,2,5) with blocks of 64 bytes on four sites, after one object `a` with the bytes `abc`; and
//! copies that are spelled by hand.

use crate::joining::{add, digest_of_parts, joined};
use crate::plain::part;
use aea_envelope::digest_of;
use aea_lattice::{BlockId, Class};
use std::alloc::Global;

// Its header, its first gate, and the body of its record up to the digest of the object.
const FRONT: &[u8; 34] = b"\x01AEALEDG1\x03\x02\x05\x04\0\0\0\x40\
\x01\x01\0\0\0\xb3\0\x01a\0\0\0\0\0\0\0\x03";

// The SHA-256 of `abc`, and the first node and the number of nodes.
const MIDDLE: &[u8; 40] =
    b"\xba\x78\x16\xbf\x8f\x01\xcf\xea\x41\x41\x40\xde\x5d\xae\x22\x23\xb0\x03\x61\xa3\x96\x17\x7a\x9c\xb4\x10\xff\x61\xf2\x00\x15\xad\
\0\0\0\x01\0\0\0\x01";

/// A record of a fence after the first node, from its gate on.
pub const FENCE: &[u8; 10] = b"\x01\x02\0\0\0\x04\0\0\0\x01";

/// A record of a raise of the limit, from its gate on.
pub const RAISE: &[u8; 10] = b"\x01\x04\0\0\0\x04\0\x10\0\0";

/// Where the pieces of the example's text end: its header, and its record.
pub const ENDS: &[u64; 2] = &[17, 202];

// The classes of its shape.
const CLASSES: [Class; 4] = [Class::Datum, Class::Horiz, Class::Right, Class::Left];

// The digest of the block of this class of the first node: each such block has the bytes `abc` and zeros.
fn first_digest(class: Class) -> [u8; 32] {
    let mut payload = [0u8; 64];
    payload[..3].copy_from_slice(b"abc");
    digest_of(BlockId { node: 1, class }, &payload)
}

// The digests of the blocks of the first node, one after the other.
fn all_digests() -> [u8; 128] {
    let mut bytes = [0; 128];
    for k in 0..4usize {
        bytes[32 * k..32 * k + 32].copy_from_slice(&first_digest(CLASSES[k]));
    }
    bytes
}

/// The ledger after one object `a` with the bytes `abc`.
pub fn ledger() -> [u8; 203] {
    let mut bytes = [0; 203];
    bytes[..34].copy_from_slice(FRONT);
    bytes[34..74].copy_from_slice(MIDDLE);
    bytes[74..202].copy_from_slice(&all_digests());
    bytes
}

/// The ledger where a byte of it is another.
pub fn other_text(at: usize, flips: u8) -> [u8; 203] {
    let mut text = ledger();
    if let Some(byte) = text.get_mut(at) {
        *byte ^= flips;
    }
    text
}

// Adds an entry with this piece after a link, and gives its link.
fn add_entry(alloc: Global, bytes: &mut Vec<u8>, link: [u8; 32], piece: &[u8]) -> Option<[u8; 32]> {
    let count = u32::try_from(piece.len()).unwrap_or(0).to_be_bytes();
    let next = digest_of_parts(alloc, &[link.as_slice(), &count, piece])?;
    add(bytes, &[b"\x01".as_slice(), &count, piece, &next]).then_some(next)
}

/// The copy of a text whose pieces end at these places.
pub fn copy_of(alloc: Global, text: &[u8], ends: &[u64]) -> Option<Vec<u8>> {
    let mut bytes = joined(alloc, &[b"\x01AEACOPY1".as_slice()])?;
    let mut link = [0; 32];
    let mut from = 0u64;
    for end in ends {
        let piece = part(text, from, end.saturating_sub(from));
        link = add_entry(alloc, &mut bytes, link, piece)?;
        from = *end;
    }
    add(&mut bytes, &[b"\0".as_slice()]).then_some(bytes)
}

/// The ledger with a fence more.
pub fn fenced(alloc: Global) -> Option<Vec<u8>> {
    joined(alloc, &[part(&ledger(), 0, 202), FENCE, b"\0"])
}

/// The same where the gate before the fence is closed.
pub fn closed(alloc: Global) -> Option<Vec<u8>> {
    joined(
        alloc,
        &[part(&ledger(), 0, 202), b"\0", part(FENCE, 1, 9), b"\0"],
    )
}

/// The copy of the example.
pub fn example_copy(alloc: Global) -> Option<Vec<u8>> {
    copy_of(alloc, &ledger(), ENDS)
}
