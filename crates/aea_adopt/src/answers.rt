//! What an adoption says.

ghost use Rattle.std.specs.Prelude.{◌≡◌};

use aea_disk::DiskFault;

/// Whether copies are on; where they are, the length of the text that is kept, and of both copies the place of the gate that
/// ends the entries and the last link.
#[derive(Clone, Copy, Debug)]
pub struct Adopted {
    pub on: bool,
    pub end: u64,
    pub gates: [u64; 2],
    pub links: [[u8; 32]; 2],
}

/// Why copies were not adopted.
#[derive(Clone, Copy, Debug)]
pub enum AdoptFault {
    /// Copies are on and none is good: the places at which they are bad.
    CopiesBad { first: u64, second: u64 },
    /// Both are good, and their texts differ first at this place.
    CopiesDiffer { at: u64 },
    /// The disk failed. It has counted it.
    DiskFault,
}

impl From<DiskFault> for AdoptFault {
    ghost use Rattle.aea_adopt.specs.declared.answers.AdoptFault.TheVariants.{DiskFault};

    ghost from_gives = { λ _ fault. fault ≡ DiskFault };

    fn from(_fault: DiskFault) -> AdoptFault {
        AdoptFault::DiskFault
    }
}
