//! The example: the ledger of AE(3,2,5) with blocks of 64 bytes on four sites, after one object `a` with the bytes `abc`.

use aea_envelope::digest_of;
use aea_lattice::{BlockId, Class, Shape};

/// Its shape.
pub const SHAPE: Shape = Shape {
    alpha: 3,
    s: 2,
    p: 5,
    block: 64,
    sites: 4,
};

/// Its header, and its first gate, which is open.
pub const FRONT: &[u8; 18] = b"\x01AEALEDG1\x03\x02\x05\x04\0\0\0\x40\x01";

/// The SHA-256 of `abc`.
pub const ABC: &[u8; 32] =
    b"\xba\x78\x16\xbf\x8f\x01\xcf\xea\x41\x41\x40\xde\x5d\xae\x22\x23\xb0\x03\x61\xa3\x96\x17\x7a\x9c\xb4\x10\xff\x61\xf2\x00\x15\xad";

// What comes before the digest in the body of the object `a` with the bytes `abc`.
const BODY: &[u8; 16] = b"\x01\0\0\0\xb3\0\x01a\0\0\0\0\0\0\0\x03";

// The records after the example, each from its gate on: a fence after the first node, a raise of the limit, and an object `b` in parts
// up to its digest; and the nodes and the parts after that.
const RECORDS: &[u8; 37] = b"\x01\x02\0\0\0\x04\0\0\0\x01\
\x01\x04\0\0\0\x04\0\x10\0\0\
\x01\x03\0\0\0\xc7\0\x01b\0\0\0\0\0\0\0\x80";

const PARTS: &[u8; 28] = b"\0\0\0\x02\0\0\0\x01\0\0\0\x02\
\0\0\0\x01\0\0\0\x01\0\0\0\x02\0\0\0\x01";

/// The digest of the block of this class of the first node: each such block has the bytes `abc` and zeros.
pub fn first_digest(class: Class) -> [u8; 32] {
    let mut payload = [0u8; 64];
    payload[0] = b'a';
    payload[1] = b'b';
    payload[2] = b'c';
    digest_of(BlockId { node: 1, class }, &payload)
}

/// The classes of its shape.
pub const CLASSES: [Class; 4] = [Class::Datum, Class::Horiz, Class::Right, Class::Left];

// The digests of the blocks of the first node, one after the other.
fn all_digests() -> [u8; 128] {
    let mut bytes = [0; 128];
    for k in 0..4usize {
        bytes[32 * k..32 * k + 32].copy_from_slice(&first_digest(CLASSES[k]));
    }
    bytes
}

/// The ledger after one object `a` with the bytes `abc`.
pub fn example() -> [u8; 203] {
    let mut bytes = [0; 203];
    bytes[..18].copy_from_slice(FRONT);
    bytes[18..34].copy_from_slice(BODY);
    bytes[34..66].copy_from_slice(ABC);
    bytes[66..74].copy_from_slice(b"\0\0\0\x01\0\0\0\x01");
    bytes[74..202].copy_from_slice(&all_digests());
    bytes
}

// The records after the example, and the gate that ends them.
fn others() -> [u8; 226] {
    let mut bytes = [0; 226];
    bytes[..37].copy_from_slice(RECORDS);
    bytes[37..69].copy_from_slice(ABC);
    bytes[69..97].copy_from_slice(PARTS);
    bytes[97..225].copy_from_slice(&all_digests());
    bytes
}

/// The example with a record of each other kind after it: a fence after its node, a raise of the limit, and an object `b`
/// of 128 bytes in two parts, the first node and one that is new with it.
pub fn each_kind() -> [u8; 428] {
    let mut bytes = [0; 428];
    bytes[..203].copy_from_slice(&example());
    bytes[202..].copy_from_slice(&others());
    bytes
}
