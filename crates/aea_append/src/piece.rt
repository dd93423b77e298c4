//! The bytes of a source, woven piece by piece.

ghost use Rattle.std.specs.Prelude.{◌≡◌, ◌≢◌, ◌+◌, ◌-◌, ◌*◌, ◌^◌, ◌<◌, ◌≤◌, ◌++◌, ℕ, length, take, replicate, IfErr, IfOk};
ghost use Rattle.std.specs.Io.KnownBytes.{Consumes, IsAtEnd};
ghost use Rattle.aea_faults.specs.Faults.{HasCause, Rose};
ghost use Rattle.aea_io.specs.Taken.{Counts};
ghost use Rattle.aea_lattice.specs.Profile.{greatest_nodes};
ghost use Rattle.aea_shelf.specs.Places.{cell_size};
ghost use Rattle.aea_shelf.specs.Writes.{KeepsPadded};
ghost use Rattle.aea_records.specs.TableLaws.{AreBytes};
ghost use Rattle.aea_records.specs.Format.{nodes_for};
ghost use Rattle.aea_archive.specs.Blocks.{IsBlockIn};
ghost use Rattle.aea_archive.specs.Cells.{WritesCells};
ghost use Rattle.aea_append.specs.Weaving.{IsBroken};
ghost use Rattle.aea_append.specs.Taking.{Takes, TakesPiece};

use crate::fault::PutFault;
use crate::weave::weave_node;
use aea_disk::Disk;
use aea_io::{ReadFault, Source, read_full};
use aea_lattice::Shape;
use aea_weave::Heads;
use sha2::{Digest, Sha256};

// Fills a block with the next bytes of the source, at most `want` of them, and zeros after them. Returns how many bytes
// there were: fewer than `want` only at the source's end.
fn read_piece<S: Source>(
    source: &mut S,
    block: &mut [u8],
    want: usize,
    at: &mut u64,
) -> Result<usize, ReadFault>
    requires within { want ≤ length block.old }
    requires count { at.old + want < 2 ^ 64 }
    ensures most { IfOk result (λ k. k ≤ want) }
    ensures bytes { IfOk result (λ k. Consumes (S.state source.old).left (S.state source.new).left (take k block.new)) }
    ensures filled { IfOk result (λ k. block.new ≡ take k block.new ++ replicate (length block.new - k) 0) }
    ensures end { IfOk result (λ k. k < want → IsAtEnd (S.state source.new).left) }
    ensures are { AreBytes block.new }
    ensures exact { IfOk result (λ k. at.new ≡ at.old + k) }
    ensures counted { Counts (S.state source.old).left (S.state source.new).left at.old at.new want }
    ensures short { IfErr result (λ f. at.new < at.old + want) }
    ensures cause { HasCause (S.state source.old).faults (S.state source.new).faults result }
{
    let count = match read_full(source, &mut block[..want], at) {
        Ok(count) => count,
        Err(fault) => return Err(fault),
    };
    block[count..].fill(0);
    Ok(count)
}

// Takes the next piece of the source, at most `want` bytes, and weaves one node of it where there is any. Returns how
// many bytes it took. `at` grows by the bytes that were taken.
fn weave_piece<D: Disk, S: Source>(
    disk: &mut D,
    shape: &Shape,
    heads: &mut Heads,
    source: &mut S,
    want: usize,
    hasher: &mut Sha256,
    block: &mut [u8],
    cell: &mut [u8],
    digests: &mut Vec<[u8; 32]>,
    at: &mut u64,
) -> Result<usize, PutFault>
    requires alpha { heads.old.lattice.alpha ≡ shape.now.alpha }
    requires size { heads.old.size ≡ shape.now.block }
    requires node { heads.old.lattice.n + 1 ≤ greatest_nodes }
    requires least { 1 ≤ want }
    requires most { want ≤ shape.now.block }
    requires block { length block.old ≡ shape.now.block }
    requires buffer { length cell.old ≡ cell_size shape.now }
    requires count { at.old + want < 2 ^ 64 }
    ensures took { IfOk result (λ k. TakesPiece D.reveals shape.now want k (S.state source.old).left (S.state source.new).left hasher.old hasher.new heads.old heads.new digests.old.items digests.new.items (D.state disk.old).files (D.state disk.new).files) }
    ensures writes { (nodes : ℕ) → heads.old.lattice.n + 1 ≤ nodes → WritesCells D.reveals shape.now nodes (λ a. a.node ≢ heads.old.lattice.n + 1) (result ≡ Err PutFault.DiskFault) (D.state disk.old) (D.state disk.new) }
    ensures padded { result ≢ Err PutFault.DiskFault → D.reveals → KeepsPadded shape.now (λ a. a.node ≢ heads.old.lattice.n + 1) (D.state disk.old).files (D.state disk.new).files }
    ensures exact { IfOk result (λ k. at.new ≡ at.old + k) }
    ensures counted { Counts (S.state source.old).left (S.state source.new).left at.old at.new want }
    ensures short { result ≡ Err PutFault.ReadFault → at.new < at.old + want }
    ensures faults { IfErr result IsBroken }
    ensures source_kept { (S.state source.old).faults ≤ (S.state source.new).faults }
    ensures read_cause { result ≡ Err PutFault.ReadFault → Rose (S.state source.old).faults (S.state source.new).faults }
    ensures source_still { result ≢ Err PutFault.ReadFault → (S.state source.new).faults ≡ (S.state source.old).faults }
{
    let count = match read_piece(source, block, want, at) {
        Ok(count) => count,
        Err(_) => return Err(PutFault::ReadFault),
    };
    if count == 0 {
        return Ok(0);
    }
    hasher.update(&block[..count]);
    match weave_node(disk, shape, heads, block, cell, digests) {
        Ok(()) => Ok(count),
        Err(fault) => Err(fault),
    }
}

/// Takes the bytes of the source up to its end, at most `limit` of them, and weaves them, the last block filled with
/// zeros. Returns how many bytes it took: fewer than `limit` only at the source's end. `at` grows by the bytes that were
/// taken, whatever the result.
pub(crate) fn weave_all<D: Disk, S: Source>(
    disk: &mut D,
    shape: &Shape,
    heads: &mut Heads,
    source: &mut S,
    limit: u64,
    hasher: &mut Sha256,
    block: &mut [u8],
    cell: &mut [u8],
    digests: &mut Vec<[u8; 32]>,
    at: &mut u64,
) -> Result<u64, PutFault>
    requires alpha { heads.old.lattice.alpha ≡ shape.now.alpha }
    requires size { heads.old.size ≡ shape.now.block }
    requires limit { limit ≤ (greatest_nodes - heads.old.lattice.n) * shape.now.block }
    requires block { length block.old ≡ shape.now.block }
    requires buffer { length cell.old ≡ cell_size shape.now }
    requires count { at.old + limit < 2 ^ 64 }
    ensures took { IfOk result (λ k. Takes D.reveals shape.now k (S.state source.old).left (S.state source.new).left hasher.old hasher.new heads.old heads.new digests.old.items digests.new.items (D.state disk.old).files (D.state disk.new).files) }
    ensures most { IfOk result (λ k. k ≤ limit) }
    ensures end { IfOk result (λ k. k < limit → IsAtEnd (S.state source.new).left) }
    ensures writes { (nodes : ℕ) → heads.old.lattice.n + nodes_for shape.now limit ≤ nodes → WritesCells D.reveals shape.now nodes (IsBlockIn shape.now heads.old.lattice.n) (result ≡ Err PutFault.DiskFault) (D.state disk.old) (D.state disk.new) }
    ensures padded { result ≢ Err PutFault.DiskFault → D.reveals → KeepsPadded shape.now (IsBlockIn shape.now heads.old.lattice.n) (D.state disk.old).files (D.state disk.new).files }
    ensures exact { IfOk result (λ k. at.new ≡ at.old + k) }
    ensures counted { Counts (S.state source.old).left (S.state source.new).left at.old at.new limit }
    ensures short { result ≡ Err PutFault.ReadFault → at.new < at.old + limit }
    ensures faults { IfErr result IsBroken }
    ensures source_kept { (S.state source.old).faults ≤ (S.state source.new).faults }
    ensures read_cause { result ≡ Err PutFault.ReadFault → Rose (S.state source.old).faults (S.state source.new).faults }
    ensures source_still { result ≢ Err PutFault.ReadFault → (S.state source.new).faults ≡ (S.state source.old).faults }
{
    let mut done: u64 = 0;
    while done < limit {
        let want = (limit - done).min(u64::from(shape.block())) as usize;
        let count = match weave_piece(
            disk, shape, heads, source, want, hasher, block, cell, digests, at,
        ) {
            Ok(count) => count,
            Err(fault) => return Err(fault),
        };
        done += count as u64;
        if count < want {
            return Ok(done);
        }
    }
    Ok(done)
}
