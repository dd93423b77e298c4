//! One more fence.

ghost use Rattle.std.specs.Prelude.{◌≡◌, ◌≢◌, ◌⊎◌, ◌↔◌, ◌+◌, ◌≤◌, ℕ, length, IfOk, IsErr, OnOk, Err, true, false};
ghost use Rattle.aea_disk.specs.Files.{ChangesOnly};
ghost use Rattle.aea_disk.specs.State.{IsFixed, IsReady};
ghost use Rattle.aea_disk.specs.Frames.{OnlyWrites};
ghost use Rattle.aea_lattice.specs.Fences.{greatest_fences, last_fence};
ghost use Rattle.aea_records.specs.Format.{Fence};
ghost use Rattle.aea_ledger.specs.Values.{IsThisOne};
ghost use Rattle.aea_ledger.specs.Taking.{FitsAdding};
ghost use Rattle.aea_ledger.specs.Committing.{LeavesOldOrNew, HasCommitted};

use crate::append::take_entry;
use crate::entry::write_next_entry;
use crate::ledger::Ledger;
use aea_disk::Disk;
use aea_lattice::Lattice;
use aea_records::{fence_body, fences_may_follow, records_are_few};

/// Why a fence was not added.
#[derive(Clone, Copy, Debug, PartialEq, Eq)]
pub enum FenceFault {
    /// There is no node, or a fence lies after the last one. The number of nodes.
    AlreadyFenced { nodes: u32 },
    /// The archive has the most fences that there may be.
    TooManyFences,
    /// The disk failed. It has counted it.
    DiskFault,
}

// The last fence of the lattice, or 0 where there is none.
fn last_fence(lattice: &Lattice) -> u32
    ensures { result ≡ last_fence lattice.now.fences }
{
    let count = lattice.fence_count();
    if count == 0 {
        return 0;
    }
    lattice.fence(count - 1)
}

impl Ledger {
    /// Adds a fence after the last node, and gives that node. It takes no memory. At `Ok` every file is synced. After a
    /// fault of the disk, which may have left the record or not, the ledger has to be opened anew.
    pub fn append_fence<D: Disk>(&mut self, disk: &mut D) -> Result<u32, FenceFault>
        requires live { self.old.live ≡ true }
        requires this { D.reveals → IsThisOne self.old ((D.state disk.old).files 0) }
        requires fixed { D.reveals → IsFixed (D.state disk.old) 0 }

        // Refusals, before anything is written.
        ensures already { (n : ℕ) → (result ≡ Err (FenceFault.AlreadyFenced n)) ↔ ((n ≡ self.old.lattice.n) × (last_fence self.old.lattice.fences ≡ self.old.lattice.n)) }
        ensures many { (result ≡ Err FenceFault.TooManyFences) ↔ ((length self.old.lattice.fences ≡ greatest_fences) × (last_fence self.old.lattice.fences ≢ self.old.lattice.n)) }
        ensures unchanged { IsErr result → result ≢ Err FenceFault.DiskFault → (self.new ≡ self.old) × (disk.new ≡ disk.old) }

        // The old ledger or the new one at each moment, and the new one at Ok.
        ensures node { IfOk result (λ n. n ≡ self.old.lattice.n) }
        ensures leaves { LeavesOldOrNew D.reveals self.old (Fence self.old.lattice.n) (D.state disk.old) (D.state disk.new) }
        ensures committed { OnOk result (HasCommitted D.reveals self.old self.new (Fence self.old.lattice.n) (D.state disk.old) (D.state disk.new)) }
        ensures dead { result ≡ Err FenceFault.DiskFault → self.new ≡ record self.old { live = false } }

        // No other file changes, and when the disk is at fault.
        ensures writes { OnlyWrites D.reveals (IsReady (D.state disk.old)) (FitsAdding (D.state disk.old) 1 (self.old.end + 10)) (result ≡ Err FenceFault.DiskFault) (ChangesOnly 0) (D.state disk.old) (D.state disk.new) }
    {
        fences_may_follow();
        records_are_few();
        let nodes = self.lattice.n;
        let Some(lattice) = self.lattice.fenced() else {
            if last_fence(&self.lattice) == nodes {
                return Err(FenceFault::AlreadyFenced { nodes });
            }
            return Err(FenceFault::TooManyFences);
        };
        let behind = fence_body(nodes);
        let (front, rest) = behind[..9].split_at(5);
        if write_next_entry(disk, self.end, front, rest).is_err() {
            self.live = false;
            return Err(FenceFault::DiskFault);
        }
        self.seal = take_entry(&mut self.hasher, front, rest);
        self.lattice = lattice;
        self.end += 10;
        Ok(nodes)
    }
}
