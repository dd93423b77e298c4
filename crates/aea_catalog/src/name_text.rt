//! A text that is written byte by byte.

ghost use Rattle.std.specs.Prelude.{◌≡◌, ◌==◌, [], ◌∷◌, ◌++◌, length, slice_get, IfOk, OnOk, OnErr};

use std::alloc::{AllocError, Global};
use std::marker::Model;

/// The bytes of a name as they come in.
#[derive(Debug, Drop)]
pub struct NameText {
    bytes: Vec<u8>,
}

impl Model for NameText {
    ghost use Rattle.std.specs.Prelude.{List, ℕ};

    ghost Value = { List ℕ };

    ghost view = { λ t. t.bytes.items };
}

impl NameText {
    /// The empty text. It takes no memory.
    pub fn new(alloc: Global) -> NameText
        ensures { result ≡ [] }
    {
        NameText {
            bytes: Vec::new(alloc),
        }
    }

    /// A text of these bytes. It takes the memory for them, once.
    pub fn copied(alloc: Global, name: &[u8]) -> Result<NameText, AllocError>
        ensures { IfOk result (λ text. text ≡ name.now) }
    {
        let bytes = Vec::from_slice(alloc, name)?;
        Ok(NameText { bytes })
    }

    /// How many bytes there are.
    pub fn len(&self) -> usize
        ensures { result ≡ length self.now }
    {
        self.bytes.len()
    }

    /// Whether there is no byte.
    pub fn is_empty(&self) -> bool
        ensures { result ≡ (length self.now == 0) }
    {
        self.bytes.is_empty()
    }

    /// The byte at this place.
    pub fn get(&self, k: usize) -> Option<u8>
        ensures { result ≡ slice_get self.now k }
    {
        self.bytes.get(k).copied()
    }

    /// All bytes.
    pub fn bytes(&self) -> &[u8]
        ensures { result.now ≡ self.now }
    {
        &self.bytes
    }

    /// Adds a byte at the end.
    pub fn push(&mut self, byte: u8) -> Result<(), AllocError>
        ensures ok { OnOk result (self.new ≡ self.old ++ byte ∷ []) }
        ensures err { OnErr result (self.new ≡ self.old) }
    {
        self.bytes.push(byte)?;
        Ok(())
    }
}
