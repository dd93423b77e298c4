//! Where copies are read side by side.

/// The numbers of a copy's file and of the other one's.
#[derive(Clone, Copy, Debug)]
pub struct Pair {
    pub file: u8,
    pub other: u8,
}

/// So many bytes of a copy from a place on, beside those of the other copy from the same place on, and those of the ledger from
/// another.
#[derive(Clone, Copy, Debug)]
pub struct Range {
    pub file: u8,
    pub other: u8,
    pub at: u64,
    pub from: u64,
    pub count: u64,
}

/// Whether the other copy has had the same bytes so far, and whether the ledger has had the text.
#[derive(Clone, Copy, Debug)]
pub struct Along {
    pub same: bool,
    pub in_ledger: bool,
}
