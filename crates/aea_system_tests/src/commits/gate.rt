//! Writes after a closed gate, and then opens the gate.

ghost use Rattle.std.specs.Prelude.{◌≡◌, ◌+◌, ◌^◌, ◌≤◌, ℕ, List, [], ◌∷◌, length, OnOk};
ghost use Rattle.aea_faults.specs.Faults.{HasCause};
ghost use Rattle.aea_disk.specs.Files.{overwritten};
ghost use Rattle.aea_disk.specs.State.{During, EveryImage, Stays, Passes, IsFixed, IsHeld, KeepsOthers, HasRange, IsSure};
ghost use Rattle.aea_system_tests.specs.Gate.{IsClosed, HasOld, HasNew, HasOldOrNew, IsApart, TakesWrite, FitsWrite, TakesGate, FitsGate};

use aea_disk::{Disk, DiskFault};

/// Writes a closed gate at the start, and syncs.
pub fn begin<D: Disk>(disk: &mut D) -> Result<(), DiskFault>
    ensures closed { OnOk result (D.reveals → IsClosed 0 ((D.state disk.new).files 0)) }
    ensures fixed { OnOk result (D.reveals → IsFixed (D.state disk.new) 0) }
    ensures cause { HasCause (D.state disk.old).faults (D.state disk.new).faults result }
{
    disk.write(0, 0, &[0])?;
    disk.sync()
}

/// Writes a body after a closed gate, and syncs.
pub fn write_body<D: Disk>(disk: &mut D, gate: u64, body: &[u8]) -> Result<(), DiskFault>
    requires range { gate + 1 + length body.now ≤ 2 ^ 62 }
    requires closed { D.reveals → IsClosed gate ((D.state disk.old).files 0) }
    requires fixed { D.reveals → IsFixed (D.state disk.old) 0 }

    ensures any_moment { D.reveals → During (D.state disk.old) (D.state disk.new) (λ c. HasOld gate ((D.state disk.old).files 0) (c 0)) }
    ensures stays { D.reveals → Stays (D.state disk.old) (D.state disk.new) (λ c. HasNew gate body.now ((D.state disk.old).files 0) (c 0)) }
    ensures reads { D.reveals → HasOld gate ((D.state disk.old).files 0) ((D.state disk.new).files 0) }
    ensures written { OnOk result (D.reveals → (D.state disk.new).files 0 ≡ overwritten ((D.state disk.old).files 0) (gate + 1) body.now) }
    ensures fixed { OnOk result (D.reveals → IsFixed (D.state disk.new) 0) }

    ensures others { KeepsOthers D.reveals 0 (D.state disk.old) (D.state disk.new) }
    ensures time { Passes (D.state disk.old) (D.state disk.new) }
    ensures cause { HasCause (D.state disk.old).faults (D.state disk.new).faults result }
    ensures sure { IsSure (D.reveals × TakesWrite (D.state disk.old) 0 (gate + 1) body.now) (FitsWrite (D.state disk.old) 0 (gate + 1) body.now) (D.state disk.old) (D.state disk.new) result }
{
    disk.write(0, gate + 1, body)?;
    disk.sync()
}

/// Opens a closed gate, and syncs.
pub fn open_gate<D: Disk>(disk: &mut D, gate: u64, body: &[u8]) -> Result<(), DiskFault>
    requires range { gate + 1 ≤ 2 ^ 62 }
    requires closed { D.reveals → IsClosed gate ((D.state disk.old).files 0) }
    requires staged { D.reveals → HasRange 0 (gate + 1) body.now (D.state disk.old).files }
    requires fixed { D.reveals → IsFixed (D.state disk.old) 0 }

    ensures any_moment { D.reveals → During (D.state disk.old) (D.state disk.new) (λ c. HasOldOrNew gate body.now ((D.state disk.old).files 0) (c 0)) }
    ensures stays { D.reveals → Stays (D.state disk.old) (D.state disk.new) (λ c. HasNew gate body.now ((D.state disk.old).files 0) (c 0)) }
    ensures reads { D.reveals → HasOldOrNew gate body.now ((D.state disk.old).files 0) ((D.state disk.new).files 0) }
    ensures opened { OnOk result (D.reveals → HasNew gate body.now ((D.state disk.old).files 0) ((D.state disk.new).files 0)) }
    ensures fixed { OnOk result (D.reveals → IsFixed (D.state disk.new) 0) }

    ensures others { KeepsOthers D.reveals 0 (D.state disk.old) (D.state disk.new) }
    ensures time { Passes (D.state disk.old) (D.state disk.new) }
    ensures cause { HasCause (D.state disk.old).faults (D.state disk.new).faults result }
    ensures sure { IsSure (D.reveals × TakesWrite (D.state disk.old) 0 gate (1 ∷ [])) (FitsWrite (D.state disk.old) 0 gate (1 ∷ [])) (D.state disk.old) (D.state disk.new) result }
{
    disk.write(0, gate, &[1])?;
    disk.sync()
}

/// Commits a body: at `Ok` every crash leaves it, and at any moment a crash leaves the old bytes or the new.
pub fn commit<D: Disk>(disk: &mut D, gate: u64, body: &[u8]) -> Result<(), DiskFault>
    requires range { gate + 1 + length body.now ≤ 2 ^ 62 }
    requires closed { D.reveals → IsClosed gate ((D.state disk.old).files 0) }
    requires fixed { D.reveals → IsFixed (D.state disk.old) 0 }

    ensures any_moment { D.reveals → During (D.state disk.old) (D.state disk.new) (λ c. HasOldOrNew gate body.now ((D.state disk.old).files 0) (c 0)) }
    ensures stays { D.reveals → Stays (D.state disk.old) (D.state disk.new) (λ c. HasNew gate body.now ((D.state disk.old).files 0) (c 0)) }
    ensures reads { D.reveals → HasOldOrNew gate body.now ((D.state disk.old).files 0) ((D.state disk.new).files 0) }
    ensures committed { OnOk result (D.reveals → EveryImage (D.state disk.new) (λ c. HasNew gate body.now ((D.state disk.old).files 0) (c 0))) }
    ensures opened { OnOk result (D.reveals → HasNew gate body.now ((D.state disk.old).files 0) ((D.state disk.new).files 0)) }

    ensures others { KeepsOthers D.reveals 0 (D.state disk.old) (D.state disk.new) }
    ensures time { Passes (D.state disk.old) (D.state disk.new) }
    ensures cause { HasCause (D.state disk.old).faults (D.state disk.new).faults result }
    ensures sure { IsSure (D.reveals × TakesGate (D.state disk.old) gate body.now) (FitsGate (D.state disk.old) gate body.now) (D.state disk.old) (D.state disk.new) result }
{
    write_body(disk, gate, body)?;
    open_gate(disk, gate, body)
}

/// Writes a range of a file. What every crash leaves of another range stays so at each moment of the call.
pub fn write_apart<D: Disk>(disk: &mut D, file: u8, at: u64, bytes: &[u8]) -> Result<(), DiskFault>
    requires file { file ≤ 66 }
    requires range { at + length bytes.now ≤ 2 ^ 62 }

    ensures durable { OnOk result (D.reveals → IsHeld (D.state disk.new) file at bytes.now) }
    ensures held { (a : ℕ) (kept : List ℕ) → IsApart a (length kept) at (length bytes.now) → IsHeld (D.state disk.old) file a kept → During (D.state disk.old) (D.state disk.new) (HasRange file a kept) }
    ensures others { KeepsOthers D.reveals file (D.state disk.old) (D.state disk.new) }
    ensures time { Passes (D.state disk.old) (D.state disk.new) }
    ensures cause { HasCause (D.state disk.old).faults (D.state disk.new).faults result }
    ensures sure { IsSure (D.reveals × TakesWrite (D.state disk.old) file at bytes.now) (FitsWrite (D.state disk.old) file at bytes.now) (D.state disk.old) (D.state disk.new) result }
{
    disk.write(file, at, bytes)?;
    disk.sync()
}
