//! Cells of blocks, and the digests that are in them; and SHA-256 by vectors.

use aea_envelope::{decode, digest_of, encode};
use aea_lattice::{BlockId, Class};
use sha2::{Digest, Sha256};
use std::test::Fail;

// FIPS 180-4's messages of none, three and fifty-six bytes, and their digests.
const MESSAGES: [(&[u8], &[u8; 32]); 3] = [
    (
        b"",
        b"\xe3\xb0\xc4\x42\x98\xfc\x1c\x14\x9a\xfb\xf4\xc8\x99\x6f\xb9\x24\x27\xae\x41\xe4\x64\x9b\x93\x4c\xa4\x95\x99\x1b\x78\x52\xb8\x55",
    ),
    (
        b"abc",
        b"\xba\x78\x16\xbf\x8f\x01\xcf\xea\x41\x41\x40\xde\x5d\xae\x22\x23\xb0\x03\x61\xa3\x96\x17\x7a\x9c\xb4\x10\xff\x61\xf2\x00\x15\xad",
    ),
    (
        b"abcdbcdecdefdefgefghfghighijhijkijkljklmklmnlmnomnopnopq",
        b"\x24\x8d\x6a\x61\xd2\x06\x38\xb8\xe5\xc0\x26\x93\x0c\x3e\x60\x39\xa3\x3c\xe4\x59\x64\xff\x21\x67\xf6\xec\xed\xd4\x19\xdb\x06\xc1",
    ),
];

// The messages and their digests.
fn messages() -> [(&'static [u8], &'static [u8; 32]); 3] {
    MESSAGES
}

// The blocks of node 1 and their digests with the payload of `padded`, by coreutils' sha256sum.
const FIRST_BLOCKS: [(Class, &[u8; 32]); 4] = [
    (
        Class::Datum,
        b"\x3d\xd0\x6c\xb4\x49\x3c\x67\xa5\x32\xd4\x94\x90\x0c\x90\x2a\x8d\x36\x00\x3f\xb8\xea\x86\xba\xfa\x12\x62\xc4\x20\x2c\xc3\x0a\x97",
    ),
    (
        Class::Horiz,
        b"\xa4\xa4\x20\x00\xd7\x8e\x82\x0d\x1a\xf2\xaa\x05\x2a\x6f\xd1\x91\x91\xee\x85\xf8\x8b\xf3\xd1\x5f\x4f\xe7\x6f\x6b\xc9\x43\x32\x30",
    ),
    (
        Class::Right,
        b"\xc6\x8c\x2b\x53\x2e\x01\xe8\xa1\xb5\x82\x46\xab\x87\x43\x0a\x8e\x13\x9d\x8b\x97\x8d\x19\xd9\x51\xf1\x4d\x47\x43\x7e\xfa\x93\xb4",
    ),
    (
        Class::Left,
        b"\xf1\xfa\x1c\x2b\xc9\x9c\x93\x15\xb6\xfb\x0b\x1a\xa6\xf4\x5b\x94\x7d\xff\xe9\xbc\xc0\x32\xcc\xa5\xe4\x4f\xec\x09\x2a\xc5\xc1\x07",
    ),
];

// The blocks and their digests.
fn first_blocks() -> [(Class, &'static [u8; 32]); 4] {
    FIRST_BLOCKS
}

// `abc` and 61 zeros.
fn padded() -> [u8; 64] {
    let mut payload = [0; 64];
    payload[..3].copy_from_slice(b"abc");
    payload
}

// The digest of two pieces taken as one message, as that of a cell is of its head and its payload.
fn digest_of_parts(first: &[u8], second: &[u8]) -> [u8; 32] {
    let mut hasher = Sha256::new();
    hasher.update(first);
    hasher.update(second);
    hasher.finalize()
}

// Whether the message in two pieces, of which the first has so many bytes, has this digest.
fn has_digest(message: &[u8], at: usize, digest: &[u8; 32]) -> bool {
    let (first, second) = message.split_at(message.len().min(at));
    digest_of_parts(first, second) == *digest
}

#[test]
fn digests_of_pieces(rt: HostRuntime) {
    for (message, digest) in messages() {
        for at in [0, 1, 16, 55, 56] {
            assert!(rt;
                has_digest(message, at, digest),
                "{at} of {}",
                message.len()
            );
        }
    }
}

#[test]
fn a_million_bytes(rt: HostRuntime) -> Result<(), Fail> {
    let message = vec![in rt.alloc(); b'a'; 1_000_000]?;
    let digest =
        b"\xcd\xc7\x6e\x5c\x99\x14\xfb\x92\x81\xa1\xc7\xe2\x84\xd7\x3e\x67\xf1\x80\x9a\x48\xa4\x97\x20\x0e\x04\x6d\x39\xcc\xc7\x11\x2c\xd0";
    assert!(rt; has_digest(message.as_slice(), 16, digest));
    Ok(())
}

// Whether the block of node 1 has this digest, and its cell has it and the payload.
fn has_cell(class: Class, digest: &[u8; 32]) -> bool {
    let payload = padded();
    let block = BlockId { node: 1, class };
    let mut cell = [0; 112];
    encode(block, &payload, &mut cell);
    match decode(block, &cell) {
        Some(found) => {
            digest_of(block, &payload) == *digest
                && found.0 == payload.as_slice()
                && found.1 == *digest
        }
        None => false,
    }
}

#[test]
fn cells_of_the_first_node(rt: HostRuntime) {
    for (class, digest) in first_blocks() {
        assert!(rt; has_cell(class, digest), "{class:?}");
    }
}

// Whether the cell of l1 begins with its head and payload, and is not one of r1, nor one with another last byte.
fn has_layout() -> bool {
    let left = BlockId {
        node: 1,
        class: Class::Left,
    };
    let right = BlockId {
        node: 1,
        class: Class::Right,
    };
    let mut cell = [0; 112];
    encode(left, &padded(), &mut cell);
    let start = b"\x41\x45\x42\x31\x03\x00\x00\x00\x00\x00\x00\x00\x00\x00\x00\x01\x61\x62\x63";
    let is_left = cell.starts_with(start) && decode(left, &cell).is_some();
    let is_other = decode(right, &cell).is_some();
    cell[111] ^= 1;
    is_left && !is_other && decode(left, &cell).is_none()
}

#[test]
fn the_layout_of_a_cell(rt: HostRuntime) {
    assert!(rt; has_layout());
}

// Whether the cell of the block with no payload begins with this head and ends with this digest, and none has no bytes.
fn is_bare(block: BlockId, head: &[u8], digest: &[u8]) -> bool {
    let mut cell = [0; 48];
    encode(block, &[], &mut cell);
    cell.starts_with(head)
        && cell.ends_with(digest)
        && decode(block, &cell).is_some()
        && decode(block, &[]).is_none()
}

#[test]
fn a_cell_with_no_payload(rt: HostRuntime) {
    let far = BlockId {
        node: 0x0102_0304,
        class: Class::Horiz,
    };
    let head = b"AEB1\x01\0\0\0\0\0\0\0\x01\x02\x03\x04";
    let digest =
        b"\x9c\x12\x90\x70\x87\xa4\x23\x12\x6e\xe4\x2c\xd0\xaa\x72\x44\x4c\xd1\x91\x28\xee\x9e\xf2\xe3\x27\xf3\x1d\xc5\x2a\x76\x8c\xd8\xbe";
    assert!(rt; is_bare(far, head, digest));
}
