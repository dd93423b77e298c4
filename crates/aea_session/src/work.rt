//! What a session works with.

use aea_ledger::Ledger;
use aea_uploads::Slot;
use aea_weave::Heads;

/// What a session keeps: the opened ledger, the heads after the nodes of X and W, the digests of W's blocks in number order, the
/// uploads in their slots, and the bytes of a cell for reading and writing. Beside the ledger and the heads it takes 32 bytes for
/// each block of W, up to three times that while the list grows, B + 48 for the cell, and what the slots take.
#[derive(Drop)]
pub struct Work {
    /// The opened ledger, of X.
    pub ledger: Ledger,
    /// The heads of the strands after the last node of X and W.
    pub heads: Heads,
    /// The digests of W's blocks, in number order.
    pub digests: Vec<[u8; 32]>,
    /// The uploads, by their slots.
    pub slots: [Option<Slot>; 16],
    /// The bytes of a cell, B + 48, for one that is read or written.
    pub cell: Vec<u8>,
}
