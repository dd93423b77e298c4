//! Why an object is not stored.

ghost use Rattle.std.specs.Prelude.{◌≡◌};

use aea_disk::DiskFault;
use aea_lattice::BlockId;
use std::alloc::AllocError;

/// Why an object was not stored.
#[derive(Clone, Copy, Debug, PartialEq, Eq)]
pub enum PutFault {
    /// The bytes are no name.
    BadName,
    /// An object has the name.
    NameTaken,
    /// There are the most objects that there may be.
    CatalogFull,
    /// The last parity of a strand is damaged: the one with the least number.
    HeadDamaged { block: BlockId },
    /// The object takes more nodes than are left; so many are there.
    Full { nodes: u32 },
    /// A read of the source failed. The source has counted it.
    ReadFault,
    /// The disk failed. It has counted it.
    DiskFault,
    /// There was no memory.
    NoMemory,
}

impl From<DiskFault> for PutFault {
    ghost use Rattle.aea_append.specs.declared.fault.PutFault.TheVariants.{DiskFault};

    ghost from_gives = { λ _ fault. fault ≡ DiskFault };

    fn from(_fault: DiskFault) -> PutFault {
        PutFault::DiskFault
    }
}

impl From<AllocError> for PutFault {
    ghost use Rattle.aea_append.specs.declared.fault.PutFault.TheVariants.{NoMemory};

    ghost from_gives = { λ _ fault. fault ≡ NoMemory };

    fn from(_error: AllocError) -> PutFault {
        PutFault::NoMemory
    }
}
