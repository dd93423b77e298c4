//! Why a command was not carried out.

ghost use Rattle.std.specs.Prelude.{◌≡◌};

use aea_append::{IngestFault, PutFault};
use aea_degraded::FetchFault;
use aea_explain::ExplainFault;
use aea_fetch::GetFault;
use aea_io::WriteFault;
use aea_lattice::{BlockId, NodeList};
use aea_ledger::{CreateFault, FenceFault, OpenFault, UpgradeFault};
use aea_repair::RepairFault;
use aea_verify::VerifyFault;
use std::alloc::AllocError;

/// Why a command is refused.
#[derive(Debug, Drop)]
pub enum Refusal {
    /// The damage list has more than 4,194,304 bytes.
    InputTooLong,
    /// This line of the damage list, counted from 1, is not the text of a block of the lattice.
    BadBlock { line: u32 },
    /// There is no archive in the folder.
    NoArchive,
    /// The ledger of the archive is bad at this byte, counted from 0.
    LedgerBad { at: u64 },
    /// There is an archive in the folder, or what was one.
    Occupied,
    /// The bytes are no name.
    BadName,
    /// An object has the name.
    NameTaken,
    /// There are 65,536 objects, the most that there may be.
    CatalogFull,
    /// The last parity of a strand is damaged: the one with the least number.
    HeadDamaged { block: BlockId },
    /// The object takes more nodes than are left. The number of nodes that are there.
    Full { nodes: u32 },
    /// The input ends inside a frame, after so many bytes.
    BadStream { at: u64 },
    /// There is no node after the last fence of the archive. The number of nodes.
    AlreadyFenced { nodes: u32 },
    /// The archive has 16 fences, the most that there may be.
    TooManyFences,
    /// The limit on nodes was raised before.
    AlreadyUpgraded,
    /// No object has the name.
    UnknownName,
    /// A data block of the object is damaged: the first one.
    Damaged { block: BlockId },
    /// The word is not the text of a block of the archive.
    NoSuchBlock,
    /// This line of the report, counted from 1, breaks the grammar.
    BadLine { line: u32 },
    /// This line of the report, counted from 1, has more than 16,777,216 bytes.
    LineTooLong { line: u32 },
    /// A data block of the object is not determined by the intact blocks: the first one, with the nodes of a codeword that
    /// contains it and touches no intact block.
    Undetermined { block: BlockId, nodes: NodeList },
    /// The limit on nodes was not raised.
    NotUpgraded,
    /// At this byte of the input, counted from 0, there is no message.
    BadMessage { at: u64 },
    /// There is a message more than a session takes, which are 16,777,216.
    TooManyMessages,
    /// The archive has copies of its ledger.
    CopiesAreOn,
    /// Neither copy of the ledger is good: the byte, counted from 0, at which each of them is bad.
    CopiesBad { first: u64, second: u64 },
    /// Both copies of the ledger are good, and their texts differ at this byte, counted from 0.
    CopiesDiffer { at: u64 },
}

/// Why a command did not end well.
#[derive(Debug, Drop)]
pub enum Failure {
    /// The words are no command.
    Words,
    /// The command is refused.
    Refused {
        why: Refusal,
    },
    /// The disk failed.
    Disk,
    /// The input failed.
    Input,
    /// The output failed.
    Output,
    /// Memory ran out.
    Memory,
    /// A block was not restored, or not computed: what was computed, or read again, has another digest than the ledger keeps of
    /// the block.
    Clash {
        block: BlockId,
        recorded: [u8; 32],
        computed: [u8; 32],
    },
}

impl From<CreateFault> for Failure {
    ghost use Rattle.aea_command.specs.Failures.{creation_failure};

    ghost from_gives = { λ fault failure. failure ≡ creation_failure fault };

    fn from(fault: CreateFault) -> Failure {
        match fault {
            CreateFault::Occupied => Failure::Refused {
                why: Refusal::Occupied,
            },
            CreateFault::DiskFault => Failure::Disk,
        }
    }
}

impl From<OpenFault> for Failure {
    ghost use Rattle.aea_command.specs.Failures.{opening_failure};

    ghost from_gives = { λ fault failure. failure ≡ opening_failure fault };

    fn from(fault: OpenFault) -> Failure {
        match fault {
            OpenFault::NoArchive => Failure::Refused {
                why: Refusal::NoArchive,
            },
            OpenFault::LedgerBad { at } => Failure::Refused {
                why: Refusal::LedgerBad { at },
            },
            OpenFault::DiskFault => Failure::Disk,
            OpenFault::NoMemory => Failure::Memory,
        }
    }
}

impl From<PutFault> for Failure {
    ghost use Rattle.aea_command.specs.Failures.{put_failure};

    ghost from_gives = { λ fault failure. failure ≡ put_failure fault };

    fn from(fault: PutFault) -> Failure {
        match fault {
            PutFault::BadName => Failure::Refused {
                why: Refusal::BadName,
            },
            PutFault::NameTaken => Failure::Refused {
                why: Refusal::NameTaken,
            },
            PutFault::CatalogFull => Failure::Refused {
                why: Refusal::CatalogFull,
            },
            PutFault::HeadDamaged { block } => Failure::Refused {
                why: Refusal::HeadDamaged { block },
            },
            PutFault::Full { nodes } => Failure::Refused {
                why: Refusal::Full { nodes },
            },
            PutFault::ReadFault => Failure::Input,
            PutFault::DiskFault => Failure::Disk,
            PutFault::NoMemory => Failure::Memory,
        }
    }
}

impl From<IngestFault> for Failure {
    ghost use Rattle.aea_command.specs.Failures.{ingest_failure};

    ghost from_gives = { λ fault failure. failure ≡ ingest_failure fault };

    fn from(fault: IngestFault) -> Failure {
        match fault.as_put() {
            Ok(fault) => Failure::from(fault),
            Err(at) => Failure::Refused {
                why: Refusal::BadStream { at },
            },
        }
    }
}

impl From<GetFault> for Failure {
    ghost use Rattle.aea_command.specs.Failures.{get_failure};

    ghost from_gives = { λ fault failure. failure ≡ get_failure fault };

    fn from(fault: GetFault) -> Failure {
        match fault {
            GetFault::UnknownName => Failure::Refused {
                why: Refusal::UnknownName,
            },
            GetFault::Damaged { block } => Failure::Refused {
                why: Refusal::Damaged { block },
            },
            GetFault::WriteFault => Failure::Output,
            GetFault::DiskFault => Failure::Disk,
            GetFault::NoMemory => Failure::Memory,
        }
    }
}

impl From<FetchFault> for Failure {
    ghost use Rattle.aea_command.specs.Failures.{fetch_failure};

    ghost from_gives = { λ fault failure. failure ≡ fetch_failure fault };

    fn from(fault: FetchFault) -> Failure {
        match fault {
            FetchFault::UnknownName => Failure::Refused {
                why: Refusal::UnknownName,
            },
            FetchFault::Undetermined { block, nodes } => Failure::Refused {
                why: Refusal::Undetermined { block, nodes },
            },
            FetchFault::Clash {
                block,
                recorded,
                computed,
            } => Failure::Clash {
                block,
                recorded,
                computed,
            },
            FetchFault::WriteFault => Failure::Output,
            FetchFault::DiskFault => Failure::Disk,
            FetchFault::NoMemory => Failure::Memory,
        }
    }
}

impl From<RepairFault> for Failure {
    ghost use Rattle.aea_command.specs.Failures.{repair_failure};

    ghost from_gives = { λ fault failure. failure ≡ repair_failure fault };

    fn from(fault: RepairFault) -> Failure {
        match fault {
            RepairFault::Clash {
                block,
                recorded,
                computed,
            } => Failure::Clash {
                block,
                recorded,
                computed,
            },
            RepairFault::DiskFault => Failure::Disk,
            RepairFault::WriteFault => Failure::Output,
            RepairFault::NoMemory => Failure::Memory,
        }
    }
}

impl From<ExplainFault> for Failure {
    ghost use Rattle.aea_command.specs.Failures.{explain_failure};

    ghost from_gives = { λ fault failure. failure ≡ explain_failure fault };

    fn from(fault: ExplainFault) -> Failure {
        match fault {
            ExplainFault::DiskFault => Failure::Disk,
            ExplainFault::NoMemory => Failure::Memory,
        }
    }
}

impl From<VerifyFault> for Failure {
    ghost use Rattle.aea_command.specs.Failures.{verify_failure};

    ghost from_gives = { λ fault failure. failure ≡ verify_failure fault };

    fn from(fault: VerifyFault) -> Failure {
        match fault {
            VerifyFault::BadLine { line } => Failure::Refused {
                why: Refusal::BadLine { line },
            },
            VerifyFault::LineTooLong { line } => Failure::Refused {
                why: Refusal::LineTooLong { line },
            },
            VerifyFault::ReadFault => Failure::Input,
            VerifyFault::DiskFault => Failure::Disk,
            VerifyFault::NoMemory => Failure::Memory,
        }
    }
}

impl From<FenceFault> for Failure {
    ghost use Rattle.aea_command.specs.Failures.{fence_failure};

    ghost from_gives = { λ fault failure. failure ≡ fence_failure fault };

    fn from(fault: FenceFault) -> Failure {
        match fault {
            FenceFault::AlreadyFenced { nodes } => Failure::Refused {
                why: Refusal::AlreadyFenced { nodes },
            },
            FenceFault::TooManyFences => Failure::Refused {
                why: Refusal::TooManyFences,
            },
            FenceFault::DiskFault => Failure::Disk,
        }
    }
}

impl From<UpgradeFault> for Failure {
    ghost use Rattle.aea_command.specs.Failures.{upgrade_failure};

    ghost from_gives = { λ fault failure. failure ≡ upgrade_failure fault };

    fn from(fault: UpgradeFault) -> Failure {
        match fault {
            UpgradeFault::AlreadyUpgraded => Failure::Refused {
                why: Refusal::AlreadyUpgraded,
            },
            UpgradeFault::DiskFault => Failure::Disk,
        }
    }
}

impl From<WriteFault> for Failure {
    ghost use Rattle.aea_command.specs.declared.refusal.Failure.TheVariants.{Output};

    ghost from_gives = { λ _ failure. failure ≡ Output };

    fn from(_fault: WriteFault) -> Failure {
        Failure::Output
    }
}

impl From<AllocError> for Failure {
    ghost use Rattle.aea_command.specs.declared.refusal.Failure.TheVariants.{Memory};

    ghost from_gives = { λ _ failure. failure ≡ Memory };

    fn from(_fault: AllocError) -> Failure {
        Failure::Memory
    }
}
