//! Verdicts on reports.

use aea_lattice::BlockId;

/// Why a report is rejected.
#[derive(Clone, Copy, Debug, PartialEq, Eq)]
pub enum Why {
    /// It is a report of another archive, or of this one before an object was added.
    OtherArchive,
    /// This block is to be restored, and is not intact.
    StillBad { block: BlockId },
    /// This block is to be lost, and is intact.
    NotDamaged { block: BlockId },
    /// The codeword of the nodes of this lost block does not contain it.
    WordMisses { block: BlockId },
    /// The codeword of a lost block's nodes contains this intact block.
    WordTouches { block: BlockId },
    /// This damaged block has no line.
    Missing { block: BlockId },
    /// The counts are not those of the lines.
    WrongCount,
}

/// Whether a report fits the disk, or the line and the rule by which it is rejected. Lines are counted from 1.
#[derive(Clone, Copy, Debug, PartialEq, Eq)]
pub enum Verdict {
    Accepted,
    Rejected { line: u32, why: Why },
}

/// Why a report was not judged.
#[derive(Clone, Copy, Debug, PartialEq, Eq)]
pub enum VerifyFault {
    /// The first line that breaks the grammar, counted from 1.
    BadLine { line: u32 },
    /// A line with more than 16,777,216 bytes.
    LineTooLong { line: u32 },
    /// A read of the source failed. It has counted it.
    ReadFault,
    /// The disk failed. It has counted it.
    DiskFault,
    /// There was no memory.
    NoMemory,
}
