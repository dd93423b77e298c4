//! `sites`: what the loss of each site, and of each pair of sites, would cost.

ghost use Rattle.std.specs.Prelude.{◌≡◌, ◌≢◌, ◌≤◌, IfOk, OnOk};
ghost use Rattle.aea_faults.specs.Faults.{Rose};
ghost use Rattle.aea_io.specs.Written.{IsFlushed};
ghost use Rattle.aea_disk.specs.Frames.{OnlyReads};
ghost use Rattle.aea_command.specs.Causes.{Refuses};
ghost use Rattle.aea_command.specs.Failures.{NeverClashes};
ghost use Rattle.aea_command.specs.Openings.{OpeningCauses};
ghost use Rattle.aea_command_loss.specs.Sites.{SumsUpSites};

mod cases;
mod lines;

use aea_command::{Failure, Status, open};
use aea_disk::Disk;
use aea_io::Sink;
use cases::put_losses;
use std::alloc::Global;

/// Opens the archive, and prints for each site A `site A lost K`, and then for each pair A < B, in order of A and then of B,
/// `pair A B lost K`: how many blocks nothing brings back where all blocks of these sites are gone. Where K is not 0 the line
/// goes on with ` first BLOCK by N1 N2` and so on: the first of them, and the nodes of a codeword that contains it and no block
/// of another site. It looks at the lattice and the placement alone: the disk is only read, and no site's file. Each line is
/// printed as soon as it is computed, so where memory runs out the first lines are printed. Beside the opened ledger it takes
/// what `without` of `aea_sites` says, for one line at a time.
pub fn sum_up_sites<D: Disk, O: Sink>(
    alloc: Global,
    disk: &mut D,
    out: &mut O,
) -> Result<Status, Failure>
    ensures sums_up { SumsUpSites D.reveals (D.state disk.old) (D.state disk.new) (O.state out.old) (O.state out.new) result }
    ensures refuses { Refuses D.reveals (OpeningCauses ((D.state disk.old).files 0)) result }
    ensures words { result ≢ Err Failure.Words }
    ensures clash { NeverClashes result }
    ensures input { result ≢ Err Failure.Input }
    ensures done { IfOk result (λ status. status ≡ Status.Done) }
    ensures flushed { OnOk result (IsFlushed (O.state out.new)) }

    // The disk and the output in any case.
    ensures reads { OnlyReads D.reveals (result ≡ Err Failure.Disk) (D.state disk.old) (D.state disk.new) }
    ensures out_kept { (O.state out.old).faults ≤ (O.state out.new).faults }
    ensures out_cause { result ≡ Err Failure.Output → Rose (O.state out.old).faults (O.state out.new).faults }
    ensures out_still { result ≢ Err Failure.Output → (O.state out.new).faults ≡ (O.state out.old).faults }
{
    let ledger = open(alloc, disk)?;
    put_losses(alloc, &ledger.lattice(), ledger.shape().sites(), out)?;
    Ok(Status::Done)
}
