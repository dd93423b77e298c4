//! Why a session is not begun, and what one begins with.

ghost use Rattle.std.specs.Prelude.{◌≡◌, ◌≤◌, ℕ, length, slice_index_or, None};
ghost use Rattle.aea_records.specs.Format.{limit_when};
ghost use Rattle.aea_machine.specs.Machine.{slots_count};

use aea_lattice::BlockId;
use aea_ledger::Ledger;
use aea_uploads::Slot;

/// Why a session was not begun.
#[derive(Clone, Copy, Debug, PartialEq, Eq)]
pub enum BeginFault {
    /// The limit of the archive was not raised to 1,048,576 nodes, so its ledger takes no objects in parts. Nothing was read.
    NotUpgraded,
    /// The last parity of a strand is damaged: the one with the least number.
    HeadDamaged { block: BlockId },
    /// The disk failed. It has counted it.
    DiskFault,
    /// There was no memory. Nothing was read.
    NoMemory,
}

// Slots that are free.
pub(crate) fn free_slots() -> [Option<Slot>; 16]
    ensures free { (slot : ℕ) → slice_index_or result slot None ≡ None }
    ensures long { length result ≡ slots_count }
{
    [
        None, None, None, None, None, None, None, None, None, None, None, None, None, None, None,
        None,
    ]
}

// Whether the limit of the archive was raised, within which its nodes are.
pub(crate) fn is_upgraded(ledger: &Ledger) -> bool
    ensures raised { result ≡ ledger.now.raised }
    ensures nodes { ledger.now.lattice.n ≤ limit_when ledger.now.raised }
{
    ledger.limit() > 65_536
}
