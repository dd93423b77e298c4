//! The heads of strands, and a step of one node.

ghost use Rattle.std.specs.Prelude.{◌≡◌, ℕ, ◌+◌, ◌*◌, ◌<◌, ◌≤◌, ◌∷◌, ◌++◌, List, [], length, replicate, slice_set, slice_index_or, IfOk};
ghost use Rattle.aea_lattice.specs.Profile.{greatest_nodes};
ghost use Rattle.aea_lattice.specs.Blocks.{HasParity, class_number};
ghost use Rattle.aea_lattice.specs.Strands.{strand_of};
ghost use Rattle.aea_lattice.specs.Ends.{strands_of};
ghost use Rattle.aea_lattice.specs.Data.{IsDataList, xor_bytes, value_at};
ghost use Rattle.aea_lattice.specs.Fences.{last_fence};
ghost use Rattle.aea_lattice.specs.Growth.{IsGrown};
ghost use Rattle.aea_lattice.specs.declared.blocks.Class.{Class};
ghost use Rattle.aea_weave.specs.Stored.{pieces, all_strands, IsAdded};
ghost use Rattle.aea_weave.specs.Woven.{strands_before, head_of, Weaves, Sets};
ghost use Rattle.aea_weave.specs.Sums.{AreStrandSums};

use crate::xor::xor_into;
use aea_lattice::{BlockId, Class, Lattice};
use std::alloc::{AllocError, Global};
use std::marker::Model;

/// A head of each strand of a growing lattice: the last parity of the strand, a block of bytes. They stay where they
/// were allocated.
#[derive(Drop)]
pub struct Heads {
    // of the nodes so far
    lattice: Lattice,
    size: usize,
    // the heads of all strands, in strand order
    bytes: Vec<u8>,
}

impl Model for Heads {
    ghost use Rattle.aea_weave.specs.Woven.{Woven};
    ghost use Rattle.aea_weave.specs.Stored.{pieces, all_strands, IsStored};

    ghost Value = { Woven };

    ghost view = { λ h. record { lattice = h.lattice; size = h.size; heads = pieces h.size (all_strands h.lattice) h.bytes.items } };

    ghost invariant = { λ h. IsStored h.lattice h.size h.bytes.items };
}

// How many strands the lattice has.
fn all_strands(lattice: &Lattice) -> usize
    ensures count { result ≡ all_strands lattice.now }
    ensures most { result ≤ 144 }
{
    usize::from(lattice.s) + usize::from(lattice.p) * usize::from(lattice.alpha - 1)
}

// The place of the strand in strand order.
fn place(lattice: &Lattice, class: Class, strand: u32) -> usize
    requires class { HasParity lattice.now class }
    requires strand { strand < strands_of lattice.now class }
    ensures place { result ≡ strands_before lattice.now class + strand }
    ensures within { result < all_strands lattice.now }
{
    let before = match class {
        Class::Datum | Class::Horiz => 0,
        Class::Right => usize::from(lattice.s),
        Class::Left => usize::from(lattice.s) + usize::from(lattice.p),
    };
    before + strand as usize
}

// The block at this place among blocks of `size` bytes.
fn block_at(blocks: &[u8], size: usize, place: usize) -> &[u8]
    requires within { place * size + size ≤ length blocks.now }
    ensures block { (n : ℕ) → place < n → result.now ≡ slice_index_or (pieces size n blocks.now) place [] }
    ensures wide { length result.now ≡ size }
{
    let start = place * size;
    &blocks[start..start + size]
}

// Writes the block at this place among blocks of its size.
fn write_at(blocks: &mut [u8], place: usize, block: &[u8])
    requires some { 1 ≤ length block.now }
    requires within { place * length block.now + length block.now ≤ length blocks.old }
    ensures { (n : ℕ) → length blocks.old ≡ n * length block.now → pieces (length block.now) n blocks.new ≡ slice_set (pieces (length block.now) n blocks.old) place block.now }
{
    let start = place * block.len();
    blocks[start..start + block.len()].copy_from_slice(block);
}

// Adds the block by XOR to that at this place among blocks of its size.
fn xor_at(blocks: &mut [u8], place: usize, block: &[u8])
    requires some { 1 ≤ length block.now }
    requires within { place * length block.now + length block.now ≤ length blocks.old }
    ensures { (n : ℕ) → length blocks.old ≡ n * length block.now → pieces (length block.now) n blocks.new ≡ slice_set (pieces (length block.now) n blocks.old) place (xor_bytes (slice_index_or (pieces (length block.now) n blocks.old) place []) block.now) }
{
    let start = place * block.len();
    xor_into(&mut blocks[start..start + block.len()], block);
}

impl Heads {
    /// Zero blocks of `size` bytes, 16 to 65,536, as the heads of a lattice. Each next node comes after its nodes. They
    /// are the strand sums where the lattice has no node or a fence after its last one.
    pub fn new(alloc: Global, lattice: &Lattice, size: usize) -> Result<Heads, AllocError>
        requires least { 16 ≤ size }
        requires most { size ≤ 65536 }
        ensures lattice { IfOk result (λ h. h.lattice ≡ lattice.now) }
        ensures size { IfOk result (λ h. h.size ≡ size) }
        ensures zeros { IfOk result (λ h. (c : Class) (strand : ℕ) → HasParity lattice.now c → strand < strands_of lattice.now c → head_of h c strand ≡ replicate size 0) }
        ensures anew { IfOk result (λ h. last_fence lattice.now.fences ≡ lattice.now.n → (datas : List (List ℕ)) → IsDataList lattice.now size datas → AreStrandSums h datas) }
    {
        let bytes = vec![in alloc; 0; all_strands(lattice) * size]?;
        Ok(Heads {
            lattice: *lattice,
            size,
            bytes,
        })
    }

    /// Makes the payload the head of a strand. The parity of the last node on this class is then the payload, where
    /// that node lies on the strand.
    pub fn set_head(&mut self, class: Class, strand: u32, payload: &[u8])
        requires class { HasParity self.old.lattice class }
        requires strand { strand < strands_of self.old.lattice class }
        requires payload { length payload.now ≡ self.old.size }
        ensures { Sets self.old self.new class strand payload.now }
    {
        let place = place(&self.lattice, class, strand);
        write_at(self.bytes.as_mut_slice(), place, payload);
    }

    /// The number of the node that the next step weaves.
    pub fn next_node(&self) -> u32
        ensures { result ≡ self.now.lattice.n + 1 }
    {
        self.lattice.n + 1
    }

    /// Weaves one node: adds its payload by XOR to the head of each of its strands. These are its parities.
    pub fn step(&mut self, payload: &[u8])
        requires node { self.old.lattice.n + 1 ≤ greatest_nodes }
        requires payload { length payload.now ≡ self.old.size }
        ensures weaves { Weaves self.old self.new payload.now }
        ensures joined { last_fence self.new.lattice.fences < self.new.lattice.n }
        ensures sums { (datas : List (List ℕ)) → AreStrandSums self.old datas → AreStrandSums self.new (datas ++ payload.now ∷ []) }
    {
        self.grow();
        self.add(Class::Horiz, payload);
        self.add(Class::Right, payload);
        self.add(Class::Left, payload);
    }

    // Counts one node more.
    fn grow(&mut self)
        requires { self.old.lattice.n + 1 ≤ greatest_nodes }
        ensures grown { IsGrown self.old.lattice (self.old.lattice.n + 1) self.new.lattice }
        ensures size { self.new.size ≡ self.old.size }
        ensures heads { self.new.heads ≡ self.old.heads }
        ensures all { length self.new.heads ≡ all_strands self.new.lattice }
    {
        match self.lattice.grown(self.lattice.n + 1) {
            Some(lattice) => self.lattice = lattice,
            None => unreachable!(),
        }
    }

    // Adds the payload by XOR to the head of the last node's strand of the class, where the lattice has parities of
    // this class.
    fn add(&mut self, class: Class, payload: &[u8])
        requires node { 1 ≤ self.old.lattice.n }
        requires parity { 1 ≤ class_number class }
        requires payload { length payload.now ≡ self.old.size }
        ensures lattice { self.new.lattice ≡ self.old.lattice }
        ensures size { self.new.size ≡ self.old.size }
        ensures heads { IsAdded self.old.lattice class payload.now self.old.heads self.new.heads }
    {
        let node = self.lattice.n;
        if self.lattice.contains(BlockId { node, class }) {
            let strand = self.lattice.strand(node, class);
            let place = place(&self.lattice, class, strand);
            xor_at(self.bytes.as_mut_slice(), place, payload);
        }
    }

    /// The head of the last node's strand of the class: the parity of the node, where no fence is at it.
    pub fn parity(&self, class: Class) -> &[u8]
        requires node { 1 ≤ self.now.lattice.n }
        requires class { HasParity self.now.lattice class }
        ensures head { result.now ≡ head_of self.now class (strand_of self.now.lattice class self.now.lattice.n) }
        ensures wide { length result.now ≡ self.now.size }
        ensures value { last_fence self.now.lattice.fences < self.now.lattice.n → (datas : List (List ℕ)) → AreStrandSums self.now datas → result.now ≡ value_at self.now.lattice self.now.size datas self.now.lattice.n class }
    {
        let strand = self.lattice.strand(self.lattice.n, class);
        let place = place(&self.lattice, class, strand);
        block_at(self.bytes.as_slice(), self.size, place)
    }
}
