//! Why an object is not got.

use aea_lattice::BlockId;

/// Why an object was not got.
#[derive(Clone, Copy, Debug, PartialEq, Eq)]
pub enum GetFault {
    /// No object has the name.
    UnknownName,
    /// A data block of the object is damaged: the first one.
    Damaged { block: BlockId },
    /// A write of the sink failed. The sink has counted it.
    WriteFault,
    /// The disk failed. It has counted it.
    DiskFault,
    /// There was no memory. Nothing was read or written.
    NoMemory,
}
