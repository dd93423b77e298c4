//! Where a copy ends.

/// Where the entries of a copy end: the place of the gate after them, in bytes, and the last link (SHA-256, FIPS 180-4).
#[derive(Clone, Copy, Debug)]
pub struct Tail {
    pub gate: u64,
    pub link: [u8; 32],
}
