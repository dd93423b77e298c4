/// Why a report was not read. Lines are counted from 1.
#[derive(Clone, Copy, Debug, PartialEq, Eq)]
pub enum ReportFault {
    /// The first line that breaks the grammar.
    BadLine { line: u32 },
    /// A line with more than 16,777,216 bytes.
    LineTooLong { line: u32 },
    /// A read of the source failed.
    ReadFault,
    /// Memory ran out.
    NoMemory,
}
