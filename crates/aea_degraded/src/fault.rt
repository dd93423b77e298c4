//! Why a payload was not computed, and why an object was not fetched.

use aea_lattice::{BlockId, NodeList};
use aea_restore::RestoreFault;

/// Why a payload was not computed.
#[derive(Clone, Copy, Debug, PartialEq, Eq)]
pub enum PayloadFault {
    /// A payload has another digest than the one that the ledger keeps of its block: one that was read, or the computed one.
    Clash {
        block: BlockId,
        recorded: [u8; 32],
        computed: [u8; 32],
    },
    /// The disk failed. It has counted it.
    DiskFault,
}

impl From<RestoreFault> for PayloadFault {
    ghost use Rattle.std.specs.Prelude.{◌≡◌};
    ghost use Rattle.aea_degraded.specs.Faults.{payload_fault};

    ghost from_gives = { λ fault revealed. revealed ≡ payload_fault fault };

    fn from(fault: RestoreFault) -> PayloadFault {
        match fault {
            RestoreFault::Clash {
                block,
                recorded,
                computed,
            } => PayloadFault::Clash {
                block,
                recorded,
                computed,
            },
            RestoreFault::DiskFault => PayloadFault::DiskFault,
        }
    }
}

/// Why an object was not fetched.
#[derive(Debug, Drop)]
pub enum FetchFault {
    /// No object has the name.
    UnknownName,
    /// The intact blocks do not determine a data block of the object: the first one, with the nodes of a codeword that contains
    /// it and no intact block.
    Undetermined {
        block: BlockId,
        nodes: NodeList,
    },
    /// A payload has another digest than the one that the ledger keeps of its block: one that was read, or a computed one.
    Clash {
        block: BlockId,
        recorded: [u8; 32],
        computed: [u8; 32],
    },
    /// A write of the sink failed. The sink has counted it.
    WriteFault,
    /// The disk failed. It has counted it.
    DiskFault,
    /// There was no memory. Nothing was written.
    NoMemory,
}

impl From<PayloadFault> for FetchFault {
    ghost use Rattle.std.specs.Prelude.{◌≡◌};
    ghost use Rattle.aea_degraded.specs.Sent.{fetch_fault};

    ghost from_gives = { λ fault revealed. revealed ≡ fetch_fault fault };

    fn from(fault: PayloadFault) -> FetchFault {
        match fault {
            PayloadFault::Clash {
                block,
                recorded,
                computed,
            } => FetchFault::Clash {
                block,
                recorded,
                computed,
            },
            PayloadFault::DiskFault => FetchFault::DiskFault,
        }
    }
}
