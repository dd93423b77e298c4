//! What is known of a copy that is read.

/// Where a reader of a copy is: at the gate at this place, after entries with so many bytes of text, the last of which has this
/// link; none is before it where it is the first; and whether the ledger begins with this text.
#[derive(Clone, Copy, Debug)]
pub struct Standing {
    pub place: u64,
    pub text: u64,
    pub link: [u8; 32],
    pub first: bool,
    pub in_ledger: bool,
}

/// A copy is good, and its entries end where the reader is; or it is bad at this place.
#[derive(Clone, Copy, Debug)]
pub enum Judged {
    Good(Standing),
    Bad { at: u64 },
}

/// Both copies as they were judged; and where both are good, the first place at which their texts differ, if neither begins
/// with the other.
#[derive(Clone, Copy, Debug)]
pub struct Judgement {
    pub first: Judged,
    pub second: Judged,
    pub differ: Option<u64>,
}

// What is at a gate: the entries end, or are bad here, or there is one more, which the other copy has too, or not.
#[derive(Clone, Copy, Debug)]
pub enum Turn {
    Ends,
    BadHere,
    GoesOn { next: Standing, same: bool },
}

// A copy as it was judged; the last gate up to which the other copy is the same, and whether it is the same up to its end.
#[derive(Clone, Copy, Debug)]
pub struct Walked {
    pub judged: Judged,
    pub common: Standing,
    pub same: bool,
}
