//! What is kept of an object.

/// An object of an archive: where it lies, how long it is and what its digest is.
#[derive(Clone, Copy, Debug, PartialEq, Eq)]
pub struct ObjectRef {
    /// The first of its nodes, which follow each other.
    pub first: u32,
    /// How many nodes it has.
    pub count: u32,
    /// Its length in bytes.
    pub length: u64,
    /// The SHA-256 of its bytes.
    pub digest: [u8; 32],
}

/// Nodes that follow each other.
#[derive(Clone, Copy, Debug, PartialEq, Eq)]
pub struct Extent {
    /// The first of them.
    pub first: u32,
    /// How many there are.
    pub count: u32,
}
