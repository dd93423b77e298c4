//! Why an archive was not repaired.

use aea_lattice::BlockId;

/// Why an archive was not repaired, or its report not printed.
#[derive(Clone, Copy, Debug, PartialEq, Eq)]
pub enum RepairFault {
    /// A block that the intact ones determine has another digest than the one that the ledger keeps of it. It was not
    /// written.
    Clash {
        block: BlockId,
        recorded: [u8; 32],
        computed: [u8; 32],
    },
    /// The disk failed. It has counted it.
    DiskFault,
    /// A write of the report failed. The output has counted it, and all that can be restored is restored.
    WriteFault,
    /// There was no memory. Nothing was written.
    NoMemory,
}
