//! `upgrade`: a raise of the archive's limit on nodes.

ghost use Rattle.std.specs.Prelude.{◌≡◌, ◌≢◌, ◌≤◌, OnOk};
ghost use Rattle.aea_faults.specs.Faults.{Rose};
ghost use Rattle.aea_io.specs.Written.{IsFlushed};
ghost use Rattle.aea_command_store.specs.Adding.{AddsRecord, KeepsTheRest};
ghost use Rattle.aea_command.specs.Causes.{Refuses};
ghost use Rattle.aea_command.specs.Failures.{NeverClashes};
ghost use Rattle.aea_command_store.specs.Upgrade.{next_raise, UpgradeCauses, Upgrades};

use aea_command::{Failure, Status, open};
use aea_disk::Disk;
use aea_io::{Sink, put_text};
use aea_records::{ledgers_are_archives, ledgers_are_not_bad, ledgers_have_one_reading};
use std::alloc::Global;

// Opens the archive, and raises its limit on nodes.
fn add_raise<D: Disk>(alloc: Global, disk: &mut D) -> Result<(), Failure>
    ensures adds { AddsRecord next_raise D.reveals (D.state disk.old) (D.state disk.new) result }
    ensures refuses { Refuses D.reveals (UpgradeCauses ((D.state disk.old).files 0)) result }
    ensures words { result ≢ Err Failure.Words }
    ensures clash { NeverClashes result }
    ensures input { result ≢ Err Failure.Input }
    ensures output { result ≢ Err Failure.Output }
    ensures rest { KeepsTheRest D.reveals (result ≡ Err Failure.Disk) (D.state disk.old) (D.state disk.new) }
{
    ledgers_are_archives();
    ledgers_are_not_bad();
    ledgers_have_one_reading();
    let mut ledger = open(alloc, disk)?;
    Ok(ledger.append_upgrade(disk)?)
}

/// Raises the archive's limit on nodes, and then prints `upgraded 1048576`. It takes no memory once the archive is opened.
pub fn upgrade<D: Disk, O: Sink>(
    alloc: Global,
    disk: &mut D,
    out: &mut O,
) -> Result<Status, Failure>
    ensures upgrades { Upgrades D.reveals (D.state disk.old) (D.state disk.new) (O.state out.old) (O.state out.new) result }
    ensures refuses { Refuses D.reveals (UpgradeCauses ((D.state disk.old).files 0)) result }
    ensures words { result ≢ Err Failure.Words }
    ensures clash { NeverClashes result }
    ensures input { result ≢ Err Failure.Input }
    ensures flushed { OnOk result (IsFlushed (O.state out.new)) }

    // The disk and the output in any case.
    ensures rest { KeepsTheRest D.reveals (result ≡ Err Failure.Disk) (D.state disk.old) (D.state disk.new) }
    ensures out_kept { (O.state out.old).faults ≤ (O.state out.new).faults }
    ensures out_cause { result ≡ Err Failure.Output → Rose (O.state out.old).faults (O.state out.new).faults }
    ensures out_still { result ≢ Err Failure.Output → (O.state out.new).faults ≡ (O.state out.old).faults }
{
    add_raise(alloc, disk)?;
    put_text(out, b"upgraded 1048576\n")?;
    Ok(Status::Done)
}
