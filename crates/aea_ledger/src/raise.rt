//! A raise of the limit on nodes.

ghost use Rattle.std.specs.Prelude.{◌≡◌, ◌↔◌, ◌+◌, ◌≤◌, OnOk, Err, true, false};
ghost use Rattle.aea_disk.specs.Files.{ChangesOnly};
ghost use Rattle.aea_disk.specs.State.{IsFixed, IsReady};
ghost use Rattle.aea_disk.specs.Frames.{OnlyWrites};
ghost use Rattle.aea_records.specs.Format.{Raise};
ghost use Rattle.aea_ledger.specs.Values.{IsThisOne};
ghost use Rattle.aea_ledger.specs.Taking.{FitsAdding};
ghost use Rattle.aea_ledger.specs.Committing.{LeavesOldOrNew, HasCommitted};

use crate::append::take_entry;
use crate::entry::write_next_entry;
use crate::ledger::Ledger;
use aea_disk::Disk;
use aea_records::{raise_body, records_are_few};

/// Why the limit was not raised.
#[derive(Clone, Copy, Debug, PartialEq, Eq)]
pub enum UpgradeFault {
    /// It was raised before.
    AlreadyUpgraded,
    /// The disk failed. It has counted it.
    DiskFault,
}

impl Ledger {
    /// Raises the limit on nodes. It takes no memory. At `Ok` every file is synced. After a fault of the disk, which may
    /// have left the record or not, the ledger has to be opened anew.
    pub fn append_upgrade<D: Disk>(&mut self, disk: &mut D) -> Result<(), UpgradeFault>
        requires live { self.old.live ≡ true }
        requires this { D.reveals → IsThisOne self.old ((D.state disk.old).files 0) }
        requires fixed { D.reveals → IsFixed (D.state disk.old) 0 }

        // The refusal, before anything is written.
        ensures already { (result ≡ Err UpgradeFault.AlreadyUpgraded) ↔ (self.old.raised ≡ true) }
        ensures unchanged { result ≡ Err UpgradeFault.AlreadyUpgraded → (self.new ≡ self.old) × (disk.new ≡ disk.old) }

        // The old ledger or the new one at each moment, and the new one at Ok.
        ensures leaves { LeavesOldOrNew D.reveals self.old Raise (D.state disk.old) (D.state disk.new) }
        ensures committed { OnOk result (HasCommitted D.reveals self.old self.new Raise (D.state disk.old) (D.state disk.new)) }
        ensures dead { result ≡ Err UpgradeFault.DiskFault → self.new ≡ record self.old { live = false } }

        // No other file changes, and when the disk is at fault.
        ensures writes { OnlyWrites D.reveals (IsReady (D.state disk.old)) (FitsAdding (D.state disk.old) 1 (self.old.end + 10)) (result ≡ Err UpgradeFault.DiskFault) (ChangesOnly 0) (D.state disk.old) (D.state disk.new) }
    {
        records_are_few();
        if self.raised {
            return Err(UpgradeFault::AlreadyUpgraded);
        }
        let behind = raise_body();
        let (front, rest) = behind[..9].split_at(5);
        if write_next_entry(disk, self.end, front, rest).is_err() {
            self.live = false;
            return Err(UpgradeFault::DiskFault);
        }
        self.seal = take_entry(&mut self.hasher, front, rest);
        self.raised = true;
        self.end += 10;
        Ok(())
    }
}
