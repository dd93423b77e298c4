//! A Mirror without copies gets them.

ghost use Rattle.std.specs.Prelude.{◌≡◌, ◌≢◌, ◌≤◌, ℕ, List, true, false, ◌↔◌, Err, IsOk, IsErr, OnOk};
ghost use Rattle.aea_faults.specs.Faults.{HasCause};
ghost use Rattle.aea_disk.specs.Ends.{EndsAt};
ghost use Rattle.aea_disk.specs.Files.{KeepsFiles};
ghost use Rattle.aea_disk.specs.State.{Passes, Follows, During, KeepsImages, HasEarlier, IsSynced};
ghost use Rattle.aea_mirror.specs.Mirrored.{shown};
ghost use Rattle.aea_mirror.specs.Refusing.{IsRefused, IsCounted, WritesNone, NeverEnds};
ghost use Rattle.aea_mirror.specs.Starting.{ArePiecesOf, MayBeStarted, HasStarted, FitsStart};
ghost use Rattle.aea_mirror.specs.declared.start.StartFault.{StartFault};

use crate::begin::begin_copies;
use crate::mirror::Mirror;
use aea_disk::Disk;

/// Why copies were not begun.
#[derive(Clone, Copy, Debug, PartialEq, Eq)]
pub enum StartFault {
    /// Copies are on.
    AlreadyOn,
    /// The disk failed, or the Mirror refused. It was counted.
    DiskFault,
}

impl<'a, D: Disk> Mirror<'a, D> {
    /// Begins the copies: it syncs the lent disk, makes file 65 a whole copy of the ledger, up to the gate at which its records
    /// end, and then file 66. No other file changes. At each moment no copy is begun, or file 65 is whole. Where the
    /// ledger has no such records nothing is written, and it is a fault. After any fault the Mirror is dead. It takes no
    /// memory.
    pub fn start(&mut self) -> Result<(), StartFault>
        // That copies are on is said exactly where they are, and then nothing is done.
        ensures already { result ≡ Err StartFault.AlreadyOn ↔ self.old.on ≡ true }
        ensures idle { self.old.on ≡ true → (self.new.disk.now ≡ self.old.disk.now) × (self.new.own ≡ self.old.own) × (self.new.on ≡ self.old.on) × (self.new.end ≡ self.old.end) × (self.new.first ≡ self.old.first) × (self.new.second ≡ self.old.second) × (self.new.dead ≡ self.old.dead) }
        // A dead Mirror refuses; a fault makes it one.
        ensures refused { self.old.on ≡ false → self.old.dead ≡ true → IsRefused self.old.disk.now self.new.disk.now self.old.own self.new.own result }
        ensures dies { result ≡ Err StartFault.DiskFault → (self.new.dead ≡ true) × (self.new.on ≡ false) }
        // At Ok copies are on, and both are whole with the pieces of the ledger.
        ensures started { OnOk result ((self.new.on ≡ true) × (self.new.dead ≡ false) × (self.new.own ≡ self.old.own)) }
        ensures made { OnOk result (D.reveals → (pieces : List (List ℕ)) × ArePiecesOf ((D.state self.old.disk.now).files 0) pieces × HasStarted pieces self.new.end self.new.first self.new.second (D.state self.new.disk.now).files) }
        ensures synced { OnOk result (D.reveals → IsSynced (D.state self.new.disk.now)) }
        // What a stop leaves; no other file changes, and where there is no ledger nothing is written.
        ensures any_moment { D.reveals → self.old.on ≡ false → self.old.dead ≡ false → (pieces : List (List ℕ)) → ArePiecesOf ((D.state self.old.disk.now).files 0) pieces → During (D.state self.old.disk.now) (D.state self.new.disk.now) (λ c. MayBeStarted pieces c) }
        ensures others { D.reveals → KeepsFiles (λ f. f ≤ 64) (D.state self.old.disk.now).files (D.state self.new.disk.now).files }
        ensures crash { Follows (KeepsFiles (λ f. f ≤ 64)) (D.state self.old.disk.now) (D.state self.new.disk.now) }
        ensures bare { D.reveals → self.old.on ≡ false → NeverEnds ((D.state self.old.disk.now).files 0) → IsErr result × WritesNone D.reveals (D.state self.old.disk.now) (D.state self.new.disk.now) }
        // The Mirror shows nothing that it might not show before, and at Ok the files as they read.
        ensures shown { KeepsImages (shown D.reveals (D.state self.old.disk.now) self.old.disk.ghost_name self.old.on self.old.end self.old.dead self.old.own) (shown D.reveals (D.state self.new.disk.now) self.new.disk.ghost_name self.new.on self.new.end self.new.dead self.new.own) }
        ensures durable { OnOk result (D.reveals → IsSynced (shown D.reveals (D.state self.new.disk.now) self.new.disk.ghost_name self.new.on self.new.end self.new.dead self.new.own)) }
        ensures time { Passes (D.state self.old.disk.now) (D.state self.new.disk.now) }
        ensures earlier { HasEarlier (D.state self.old.disk.now) (D.state self.new.disk.now) }
        // When it fails: each fault is counted once; of a ledger with an end beneath; and none comes where there is space.
        ensures counts { result ≢ Err StartFault.AlreadyOn → IsCounted self.old.own self.new.own (D.state self.old.disk.now) (D.state self.new.disk.now) result }
        ensures handed { D.reveals → self.old.on ≡ false → self.old.dead ≡ false → (last : ℕ) → EndsAt ((D.state self.old.disk.now).files 0) last → (self.new.own ≡ self.old.own) × HasCause (D.state self.old.disk.now).faults (D.state self.new.disk.now).faults result }
        ensures sure { D.reveals → self.old.on ≡ false → self.old.dead ≡ false → (D.state self.old.disk.now).free → FitsStart (D.state self.old.disk.now) → IsOk result × ((D.state self.new.disk.now).faults ≡ (D.state self.old.disk.now).faults) }
        ensures lent { self.new.disk.ghost_name ≡ self.old.disk.ghost_name }
    {
        if self.on {
            return Err(StartFault::AlreadyOn);
        }
        if self.dead {
            self.refuse();
            return Err(StartFault::DiskFault);
        }
        self.dead = true;
        match begin_copies(self.disk) {
            Ok(Some(begun)) => {
                self.on = true;
                self.end = begun.end;
                self.first = begun.first;
                self.second = begun.second;
                self.dead = false;
                Ok(())
            }
            Ok(None) => {
                self.refuse();
                Err(StartFault::DiskFault)
            }
            Err(_fault) => Err(StartFault::DiskFault),
        }
    }
}
