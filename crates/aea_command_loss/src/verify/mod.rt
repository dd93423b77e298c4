//! `verify`: a loss report is judged against the archive as it is.

ghost use Rattle.std.specs.Prelude.{◌≡◌, ◌≢◌, ◌≤◌, [], IfOk, IsSome, OnOk, unwrap_or};
ghost use Rattle.aea_faults.specs.Faults.{Rose};
ghost use Rattle.aea_io.specs.Written.{IsFlushed};
ghost use Rattle.aea_disk.specs.Frames.{OnlyReads};
ghost use Rattle.aea_command.specs.Causes.{RefusesBy, IsDecided};
ghost use Rattle.aea_command.specs.Failures.{IsWell, NeverClashes};
ghost use Rattle.aea_command.specs.Openings.{IsAfterOpening};
ghost use Rattle.aea_command_loss.specs.Verify.{VerifyCauses, Verifies};

mod lines;

use aea_command::{Failure, Status, open};
use aea_disk::Disk;
use aea_io::{Sink, Source};
use aea_records::ledgers_have_one_reading;
use aea_verify::verify;
use lines::put_verdict;
use std::alloc::Global;

/// Opens the archive, reads the cell of each block once, and then the input to its end, which it judges as a loss report:
/// `accepted` where it fits the archive as it is, and otherwise `rejected LINE WHY`, the first rule that it breaks. The
/// status says which. The disk is only read. Beside the opened ledger it takes what `aea_verify` says.
pub fn verify_report<D: Disk, S: Source, O: Sink>(
    alloc: Global,
    disk: &mut D,
    input: &mut S,
    out: &mut O,
) -> Result<Status, Failure>
    ensures verifies { Verifies D.reveals (D.state disk.old) (D.state disk.new) (S.state input.old) (S.state input.new) (O.state out.old) (O.state out.new) result }
    ensures refuses { RefusesBy (IsDecided D.reveals (IsSome (S.state input.old).left) IsAfterOpening) (VerifyCauses ((D.state disk.old).files 0) (unwrap_or (S.state input.old).left [])) result }
    ensures words { result ≢ Err Failure.Words }
    ensures clash { NeverClashes result }
    ensures kinds { IfOk result IsWell }
    ensures flushed { OnOk result (IsFlushed (O.state out.new)) }

    // The disk and the streams in any case.
    ensures reads { OnlyReads D.reveals (result ≡ Err Failure.Disk) (D.state disk.old) (D.state disk.new) }
    ensures input_kept { (S.state input.old).faults ≤ (S.state input.new).faults }
    ensures input_cause { result ≡ Err Failure.Input → Rose (S.state input.old).faults (S.state input.new).faults }
    ensures input_still { result ≢ Err Failure.Input → (S.state input.new).faults ≡ (S.state input.old).faults }
    ensures out_kept { (O.state out.old).faults ≤ (O.state out.new).faults }
    ensures out_cause { result ≡ Err Failure.Output → Rose (O.state out.old).faults (O.state out.new).faults }
    ensures out_still { result ≢ Err Failure.Output → (O.state out.new).faults ≡ (O.state out.old).faults }
{
    ledgers_have_one_reading();
    let ledger = open(alloc, disk)?;
    let verdict = verify(alloc, &ledger, disk, input)?;
    Ok(put_verdict(out, verdict)?)
}
