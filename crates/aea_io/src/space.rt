//! The bytes of a page.

ghost use Rattle.std.specs.Prelude.{◌≡◌, ◌+◌, ◌≤◌, ◌++◌, length, take, IfOk};
ghost use Rattle.aea_io.specs.Spaces.{bytes_of};

use std::alloc::{AllocError, Global};

// How many bytes a small page holds.
const SMALL: usize = 8192;

// How many bytes a large page holds.
const LARGE: usize = 65_536;

/// The bytes of a page: in place, or in memory that was taken once.
#[derive(Drop)]
pub enum Space {
    /// 8 KiB in place.
    Here([u8; SMALL]),
    /// 64 KiB of memory.
    Taken(Vec<u8>),
}

impl Space {
    /// 8 KiB in place.
    pub fn small() -> Space {
        Space::Here([0; SMALL])
    }

    /// 64 KiB of memory.
    pub fn large(alloc: Global) -> Result<Space, AllocError> {
        let bytes = vec![in alloc; 0; LARGE]?;
        Ok(Space::Taken(bytes))
    }

    /// All its bytes.
    pub fn bytes(&self) -> &[u8]
        ensures { result.now ≡ bytes_of self.now }
    {
        match self {
            Space::Here(bytes) => &bytes[..],
            Space::Taken(bytes) => bytes.as_slice(),
        }
    }

    /// How many bytes it has.
    pub fn len(&self) -> usize
        ensures { result ≡ length (bytes_of self.now) }
    {
        self.bytes().len()
    }

    /// Puts the piece at the places from `at` to `end`, after the bytes before it.
    pub fn put(&mut self, at: usize, end: usize, piece: &[u8])
        requires piece { end ≡ at + length piece.now }
        requires within { end ≤ length (bytes_of self.old) }
        ensures long { length (bytes_of self.new) ≡ length (bytes_of self.old) }
        ensures put { take end (bytes_of self.new) ≡ take at (bytes_of self.old) ++ piece.now }
    {
        match self {
            Space::Here(bytes) => bytes[at..end].copy_from_slice(piece),
            Space::Taken(bytes) => bytes[at..end].copy_from_slice(piece),
        }
    }
}
