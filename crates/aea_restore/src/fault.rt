//! Why blocks were not restored.

use aea_lattice::BlockId;

/// Why blocks were not restored.
#[derive(Clone, Copy, Debug, PartialEq, Eq)]
pub enum RestoreFault {
    /// A payload has another digest than the one that the ledger keeps of its block: one that was read, or one that was
    /// computed, which is then not written.
    Clash {
        block: BlockId,
        recorded: [u8; 32],
        computed: [u8; 32],
    },
    /// The disk failed. It has counted it.
    DiskFault,
}
