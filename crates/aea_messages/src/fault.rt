//! Why no message was read.

/// Why no message was read.
#[derive(Clone, Copy, Debug, PartialEq, Eq)]
pub enum MessageFault {
    /// The bytes begin no message: this is the place of a byte that no message begins with, or of a chunk's length that is
    /// above 65,536, counted from the beginning of the stream.
    BadMessage { at: u64 },
    /// The stream ends inside a message, after so many bytes.
    BadStream { at: u64 },
    /// A read of the source failed. The source has counted it.
    ReadFault,
    /// There was no memory.
    NoMemory,
}
