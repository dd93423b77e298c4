//! `copies`: both copies of the ledger are begun.

ghost use Rattle.std.specs.Prelude.{◌≡◌, ◌≢◌, ◌≤◌, false, IsOk, OnOk};
ghost use Rattle.aea_faults.specs.Faults.{Rose};
ghost use Rattle.aea_io.specs.Written.{IsFlushed};
ghost use Rattle.aea_disk.specs.State.{IsSynced};
ghost use Rattle.aea_mirror.specs.Mirrored.{shown};
ghost use Rattle.aea_command.specs.Causes.{Refuses};
ghost use Rattle.aea_command.specs.Failures.{NeverClashes};
ghost use Rattle.aea_command_copies.specs.Copies.{CopiesCauses, EndsBegun, Begins, BeginsOver};

use aea_command::{Failure, Refusal, Status, open};
use aea_disk::Disk;
use aea_io::{Sink, put_text};
use aea_mirror::{Mirror, StartFault};
use std::alloc::Global;

// Opens the archive, and begins the copies.
fn begin<'a, D: Disk>(alloc: Global, mirror: &mut Mirror<'a, D>) -> Result<(), Failure>
    requires fresh { mirror.old.own ≡ 0 }
    requires alive { mirror.old.dead ≡ false }
    requires synced { D.reveals → IsSynced (shown D.reveals (D.state mirror.old.disk.now) mirror.old.disk.ghost_name mirror.old.on mirror.old.end mirror.old.dead mirror.old.own) }
    ensures begins { BeginsOver D.reveals mirror.old.on (result ≡ Err Failure.Disk) (IsOk result) (D.state mirror.old.disk.now) (D.state mirror.new.disk.now)
        (shown D.reveals (D.state mirror.old.disk.now) mirror.old.disk.ghost_name mirror.old.on mirror.old.end mirror.old.dead mirror.old.own)
        (shown D.reveals (D.state mirror.new.disk.now) mirror.new.disk.ghost_name mirror.new.on mirror.new.end mirror.new.dead mirror.new.own) }
    ensures refuses { Refuses D.reveals (CopiesCauses ((D.state mirror.old.disk.now).files 0) mirror.old.on) result }
    ensures words { result ≢ Err Failure.Words }
    ensures clash { NeverClashes result }
    ensures input { result ≢ Err Failure.Input }
    ensures output { result ≢ Err Failure.Output }
    ensures lent { mirror.new.disk.ghost_name ≡ mirror.old.disk.ghost_name }
{
    open(alloc, mirror)?;
    match mirror.start() {
        Ok(()) => Ok(()),
        Err(StartFault::AlreadyOn) => Err(Failure::Refused {
            why: Refusal::CopiesAreOn,
        }),
        Err(StartFault::DiskFault) => Err(Failure::Disk),
    }
}

/// Opens the archive, begins both copies of its ledger, and then prints `copies on`. It is refused where copies are on. It takes no
/// memory once the archive is opened.
pub fn copies<'a, D: Disk, O: Sink>(
    alloc: Global,
    mirror: &mut Mirror<'a, D>,
    out: &mut O,
) -> Result<Status, Failure>
    requires fresh { mirror.old.own ≡ 0 }
    requires alive { mirror.old.dead ≡ false }
    requires synced { D.reveals → IsSynced (shown D.reveals (D.state mirror.old.disk.now) mirror.old.disk.ghost_name mirror.old.on mirror.old.end mirror.old.dead mirror.old.own) }
    ensures begins { Begins D.reveals
        (shown D.reveals (D.state mirror.old.disk.now) mirror.old.disk.ghost_name mirror.old.on mirror.old.end mirror.old.dead mirror.old.own)
        (shown D.reveals (D.state mirror.new.disk.now) mirror.new.disk.ghost_name mirror.new.on mirror.new.end mirror.new.dead mirror.new.own) (O.state out.old) (O.state out.new) result }
    ensures over { BeginsOver D.reveals mirror.old.on (result ≡ Err Failure.Disk) (EndsBegun result) (D.state mirror.old.disk.now) (D.state mirror.new.disk.now)
        (shown D.reveals (D.state mirror.old.disk.now) mirror.old.disk.ghost_name mirror.old.on mirror.old.end mirror.old.dead mirror.old.own)
        (shown D.reveals (D.state mirror.new.disk.now) mirror.new.disk.ghost_name mirror.new.on mirror.new.end mirror.new.dead mirror.new.own) }
    ensures refuses { Refuses D.reveals (CopiesCauses ((D.state mirror.old.disk.now).files 0) mirror.old.on) result }
    ensures words { result ≢ Err Failure.Words }
    ensures clash { NeverClashes result }
    ensures input { result ≢ Err Failure.Input }
    ensures flushed { OnOk result (IsFlushed (O.state out.new)) }
    ensures lent { mirror.new.disk.ghost_name ≡ mirror.old.disk.ghost_name }

    // The output in any case.
    ensures out_kept { (O.state out.old).faults ≤ (O.state out.new).faults }
    ensures out_cause { result ≡ Err Failure.Output → Rose (O.state out.old).faults (O.state out.new).faults }
    ensures out_still { result ≢ Err Failure.Output → (O.state out.new).faults ≡ (O.state out.old).faults }
{
    begin(alloc, mirror)?;
    put_text(out, b"copies on\n")?;
    Ok(Status::Done)
}
