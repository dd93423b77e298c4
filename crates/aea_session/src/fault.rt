//! Why a message is not taken.

ghost use Rattle.std.specs.Prelude.{◌≡◌};
ghost use Rattle.aea_session.specs.Faults.{fault_by};

use aea_lattice::BlockId;

/// Why a session did not make the step of a message. It is of no use afterwards.
#[derive(Clone, Copy, Debug, PartialEq, Eq)]
pub enum StepFault {
    /// The disk failed. It has counted it.
    DiskFault,
    /// There was no memory.
    NoMemory,
}

/// Why a session did not take a message. It is of no use afterwards.
#[derive(Clone, Copy, Debug, PartialEq, Eq)]
pub enum TakeFault {
    /// A data block was damaged in the second pass over an object, which the first one had found intact. It never is on a disk
    /// whose contents are known.
    Damaged { block: BlockId },
    /// The disk failed. It has counted it.
    DiskFault,
    /// The output failed. It has counted it.
    WriteFault,
    /// There was no memory.
    NoMemory,
}

/// The fault of a message whose step has this one.
pub(crate) fn take_fault(fault: StepFault) -> TakeFault
    ensures { result ≡ fault_by fault }
{
    match fault {
        StepFault::DiskFault => TakeFault::DiskFault,
        StepFault::NoMemory => TakeFault::NoMemory,
    }
}
