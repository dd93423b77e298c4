ghost use Rattle.std.specs.Prelude.{◌≡◌, ◌↔◌, ◌+◌, ◌-◌, List, ℕ, ◌++◌, length, take, drop, IsSome, IsSomeAnd, IfSome, IfNone, IsTrue, ◌<◌};
ghost use Rattle.sha2.specs.Sha256.{sha256};
ghost use Rattle.aea_lattice.specs.Blocks.{class_number};
ghost use Rattle.aea_envelope.specs.Cells.{head_of, block_digest, cell_of, IsCellOf};

use aea_lattice::{BlockId, Class};
use sha2::{Digest, Sha256};

// The number of a class.
fn class_byte(class: Class) -> u8
    ensures { result ≡ class_number class }
{
    class as u8
}

// The head of a block's cell.
fn head(b: BlockId) -> [u8; 16]
    ensures { result ≡ head_of b }
{
    let [n0, n1, n2, n3, n4, n5, n6, n7] = u64::from(b.node).to_be_bytes();
    let class = class_byte(b.class);
    [
        b'A', b'E', b'B', b'1', class, 0, 0, 0, n0, n1, n2, n3, n4, n5, n6, n7,
    ]
}

// The digest of two pieces taken as one message.
fn digest_of_parts(first: &[u8], second: &[u8]) -> [u8; 32]
    ensures { result ≡ sha256 (first.now ++ second.now) }
{
    let mut hasher = Sha256::new();
    hasher.update(first);
    hasher.update(second);
    hasher.finalize()
}

/// The digest of a block with this payload: the SHA-256 of the head of its cell and the payload.
pub fn digest_of(b: BlockId, payload: &[u8]) -> [u8; 32]
    ensures { result ≡ block_digest b payload.now }
{
    digest_of_parts(&head(b), payload)
}

/// Writes the cell of a block with this payload.
pub fn encode(b: BlockId, payload: &[u8], cell: &mut [u8])
    requires { length cell.old ≡ length payload.now + 48 }
    ensures cell { cell.new ≡ cell_of b payload.now }
    ensures digest { drop (length payload.now + 16) cell.new ≡ block_digest b payload.now }
{
    let (front, rest) = cell.split_at_mut(16);
    let (body, digest) = rest.split_at_mut(payload.len());
    front.copy_from_slice(&head(b));
    body.copy_from_slice(payload);
    digest.copy_from_slice(&digest_of(b, payload));
}

// The head, the payload and the digest where the bytes are a cell, None where they are too few.
fn parts(cell: &[u8]) -> Option<(&[u8; 16], &[u8], &[u8; 32])>
    ensures parts { IfSome result (λ r. cell.now ≡ r.0.now ++ r.1.now ++ r.2.now) }
    ensures front { IfSome result (λ r. length r.0.now ≡ 16) }
    ensures digest { IfSome result (λ r. length r.2.now ≡ 32) }
    ensures short { IfNone result (length cell.now < 48) }
{
    let (body, digest) = cell.split_last_chunk::<32>()?;
    let (front, payload) = body.split_first_chunk::<16>()?;
    Some((front, payload, digest))
}

// Whether the head and the digest are those of this block with this payload.
fn fits(b: BlockId, front: &[u8; 16], payload: &[u8], digest: &[u8; 32]) -> bool
    ensures { IsTrue result ↔ ((front.now ≡ head_of b) × (digest.now ≡ block_digest b payload.now)) }
{
    *front == head(b) && *digest == digest_of(b, payload)
}

/// The payload and the digest of a cell of this block, None where the bytes are no cell of it.
pub fn decode(b: BlockId, cell: &[u8]) -> Option<(&[u8], [u8; 32])>
    ensures cell { IsSome result ↔ IsCellOf b cell.now }
    ensures reads { (payload : List ℕ) → cell.now ≡ cell_of b payload → IsSomeAnd result (λ r. r.0.now ≡ payload) }
    ensures found { IfSome result (λ r. cell.now ≡ cell_of b r.0.now) }
    ensures digest { IfSome result (λ r. r.1 ≡ block_digest b r.0.now) }
    ensures place { IfSome result (λ r. r.0.now ≡ take (length cell.now - 48) (drop 16 cell.now)) }
{
    let (front, payload, digest) = parts(cell)?;
    if fits(b, front, payload, digest) {
        Some((payload, *digest))
    } else {
        None
    }
}
