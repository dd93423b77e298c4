//! `create`: a new archive.

ghost use Rattle.std.specs.Prelude.{◌≡◌, ◌≢◌, ◌≤◌, string_bytes, IfOk, OnOk};
ghost use Rattle.aea_faults.specs.Faults.{Rose};
ghost use Rattle.aea_io.specs.Written.{IsFlushed};
ghost use Rattle.aea_disk.specs.Files.{ChangesOnly};
ghost use Rattle.aea_disk.specs.Frames.{OnlyWrites};
ghost use Rattle.aea_disk.specs.State.{IsReady};
ghost use Rattle.aea_ledger.specs.Taking.{FitsMaking};
ghost use Rattle.aea_command.specs.Causes.{Refuses};
ghost use Rattle.aea_command_store.specs.Create.{created_line, CreateCauses, Creates};
ghost use Rattle.aea_command.specs.Failures.{NeverClashes};

use aea_command::{Failure, Status};
use aea_disk::Disk;
use aea_io::{Sink, put_text};
use aea_lattice::Shape;
use aea_ledger::create_ledger;
use std::alloc::{AllocError, Global};

// `created A S P B M`
fn line_of(alloc: Global, shape: &Shape) -> Result<String, AllocError>
    ensures { IfOk result (λ line. string_bytes line ≡ created_line shape.now) }
{
    let alpha = shape.alpha();
    let s = shape.s();
    let p = shape.p();
    let block = shape.block();
    let sites = shape.sites();
    format!(in alloc; "created {alpha} {s} {p} {block} {sites}\n")
}

/// Makes an archive of this shape in a folder that has none, and then prints `created A S P B M`.
pub fn create<D: Disk, O: Sink>(
    alloc: Global,
    shape: &Shape,
    disk: &mut D,
    out: &mut O,
) -> Result<Status, Failure>
    ensures creates { Creates shape.now D.reveals (D.state disk.old) (D.state disk.new) (O.state out.old) (O.state out.new) result }
    ensures refuses { Refuses D.reveals (CreateCauses ((D.state disk.old).files 0)) result }
    ensures words { result ≢ Err Failure.Words }
    ensures clash { NeverClashes result }
    ensures input { result ≢ Err Failure.Input }
    ensures flushed { OnOk result (IsFlushed (O.state out.new)) }

    // The disk and the output in any case.
    ensures writes { OnlyWrites D.reveals (IsReady (D.state disk.old)) (FitsMaking (D.state disk.old) shape.now) (result ≡ Err Failure.Disk) (ChangesOnly 0) (D.state disk.old) (D.state disk.new) }
    ensures out_kept { (O.state out.old).faults ≤ (O.state out.new).faults }
    ensures out_cause { result ≡ Err Failure.Output → Rose (O.state out.old).faults (O.state out.new).faults }
    ensures out_still { result ≢ Err Failure.Output → (O.state out.new).faults ≡ (O.state out.old).faults }
{
    let line = line_of(alloc, shape)?;
    create_ledger(disk, shape)?;
    put_text(out, line.as_bytes())?;
    Ok(Status::Done)
}
