//! Messages.

ghost use Rattle.std.specs.Prelude.{◌≡◌, ◌==◌, [], ◌∷◌, ◌++◌, length, slice_get, OnOk, OnErr};
ghost use Rattle.aea_messages.specs.Messages.{kind_of};

use aea_catalog::NameText;
use std::alloc::{AllocError, Global};
use std::marker::Model;

/// The bytes of a chunk.
#[derive(Debug, Drop)]
pub struct ChunkBytes {
    bytes: Vec<u8>,
}

impl Model for ChunkBytes {
    ghost use Rattle.std.specs.Prelude.{List, ℕ};

    ghost Value = { List ℕ };

    ghost view = { λ t. t.bytes.items };
}

impl ChunkBytes {
    /// No bytes. It takes no memory.
    pub fn new(alloc: Global) -> ChunkBytes
        ensures { result ≡ [] }
    {
        ChunkBytes {
            bytes: Vec::new(alloc),
        }
    }

    // These bytes.
    pub(crate) fn of(bytes: Vec<u8>) -> ChunkBytes
        ensures { result ≡ bytes.items }
    {
        ChunkBytes { bytes }
    }

    /// How many bytes there are.
    pub fn len(&self) -> usize
        ensures { result ≡ length self.now }
    {
        self.bytes.len()
    }

    /// Whether there is no byte.
    pub fn is_empty(&self) -> bool
        ensures { result ≡ (length self.now == 0) }
    {
        self.bytes.is_empty()
    }

    /// The byte at this place.
    pub fn get(&self, k: usize) -> Option<u8>
        ensures { result ≡ slice_get self.now k }
    {
        self.bytes.get(k).copied()
    }

    /// The bytes.
    pub fn bytes(&self) -> &[u8]
        ensures { result.now ≡ self.now }
    {
        &self.bytes
    }

    /// Adds a byte at the end.
    pub fn push(&mut self, byte: u8) -> Result<(), AllocError>
        ensures ok { OnOk result (self.new ≡ self.old ++ byte ∷ []) }
        ensures err { OnErr result (self.new ≡ self.old) }
    {
        self.bytes.push(byte)?;
        Ok(())
    }
}

/// What a client asks of a session. Slots are numbered from 0.
#[derive(Debug, Drop)]
pub enum Message {
    /// An upload under this name begins in the slot.
    Open { slot: u8, name: NameText },
    /// Bytes of the upload in the slot.
    Chunk { slot: u8, bytes: ChunkBytes },
    /// The upload in the slot is stored.
    Close { slot: u8 },
    /// The upload in the slot is dropped.
    Abort { slot: u8 },
    /// The bytes of the object under this name.
    Read { name: NameText },
    /// The damaged ones of so many blocks, from the block of this number on.
    Patrol { first: u32, count: u32 },
}

impl Message {
    /// The byte that it begins with.
    pub fn kind(&self) -> u8
        ensures { result ≡ kind_of self.now }
    {
        match self {
            Message::Open { .. } => 1,
            Message::Chunk { .. } => 2,
            Message::Close { .. } => 3,
            Message::Abort { .. } => 4,
            Message::Read { .. } => 5,
            Message::Patrol { .. } => 6,
        }
    }
}
