//! What is kept of one upload under way.

ghost use Rattle.std.specs.Prelude.{◌≡◌, List, ℕ, IfOk};
ghost use Rattle.aea_uploads.specs.Slots.{Keeps, opened};

use aea_catalog::{Extent, NameText};
use aea_lattice::Shape;
use sha2::{Digest, Sha256};
use std::alloc::{AllocError, Global};

/// One upload under way: some 120 bytes of memory, those of its name, a block, and 8 bytes for each part.
#[derive(Drop)]
pub struct Slot {
    /// The name that it was opened under.
    pub name: NameText,
    /// The longest runs of the nodes of its full blocks, in their order.
    pub parts: Vec<Extent>,
    /// The number of its bytes.
    pub length: u64,
    /// Their running SHA-256 (FIPS 180-4).
    pub hasher: Sha256,
    /// A block, whose front has the bytes after the full blocks.
    pub block: Vec<u8>,
    /// How many these are, fewer than a block has.
    pub have: usize,
}

impl Slot {
    /// An upload under this name that has no byte yet. It takes the memory of the name and of one block, B bytes; want of it is
    /// the only error.
    pub fn new(alloc: Global, shape: &Shape, name: &[u8]) -> Result<Slot, AllocError>
        ensures keeps { IfOk result (λ slot. (datas : List (List ℕ)) → Keeps shape.now datas slot (opened name.now)) }
    {
        let text = NameText::copied(alloc, name)?;
        let block = vec![in alloc; 0u8; shape.block() as usize]?;
        Ok(Slot {
            name: text,
            parts: Vec::new(alloc),
            length: 0,
            hasher: Sha256::new(),
            block,
            have: 0,
        })
    }
}
