//! `explain`: how the other intact blocks determine a block, or why they do not.

ghost use Rattle.std.specs.Prelude.{◌≡◌, ◌≢◌, ◌≤◌, IfOk, OnOk};
ghost use Rattle.aea_faults.specs.Faults.{Rose};
ghost use Rattle.aea_io.specs.Written.{IsFlushed};
ghost use Rattle.aea_disk.specs.Frames.{OnlyReads};
ghost use Rattle.aea_command.specs.Causes.{Refuses};
ghost use Rattle.aea_command_loss.specs.Explain.{ExplainCauses, ExplainsBlock};
ghost use Rattle.aea_command.specs.Failures.{IsWell, NeverClashes};

mod lines;

use crate::drill::named_block;
use aea_command::{Failure, Refusal, Status, open};
use aea_disk::Disk;
use aea_explain::{explain, explanations_are_one};
use aea_io::Sink;
use aea_records::ledgers_have_one_reading;
use lines::put_explanation;
use std::alloc::Global;

/// Opens the archive, reads the cell of the block with this text and those around its part, and prints `intact B` or
/// `damaged B`, and after it its fate where all other intact blocks are known: `sum` with the equations that give it, or `word`
/// with the nodes of a codeword that contains it and none of them. The status says which. The disk is only read. Beside the
/// opened ledger it takes two marks a block, a bit each, and what else `aea_explain` says.
pub fn explain_word<D: Disk, O: Sink>(
    alloc: Global,
    word: &[u8],
    disk: &mut D,
    out: &mut O,
) -> Result<Status, Failure>
    ensures explains { ExplainsBlock word.now D.reveals (D.state disk.old) (D.state disk.new) (O.state out.old) (O.state out.new) result }
    ensures refuses { Refuses D.reveals (ExplainCauses word.now ((D.state disk.old).files 0)) result }
    ensures words { result ≢ Err Failure.Words }
    ensures clash { NeverClashes result }
    ensures input { result ≢ Err Failure.Input }
    ensures kinds { IfOk result IsWell }
    ensures flushed { OnOk result (IsFlushed (O.state out.new)) }

    // The disk and the output in any case.
    ensures reads { OnlyReads D.reveals (result ≡ Err Failure.Disk) (D.state disk.old) (D.state disk.new) }
    ensures out_kept { (O.state out.old).faults ≤ (O.state out.new).faults }
    ensures out_cause { result ≡ Err Failure.Output → Rose (O.state out.old).faults (O.state out.new).faults }
    ensures out_still { result ≢ Err Failure.Output → (O.state out.new).faults ≡ (O.state out.old).faults }
{
    ledgers_have_one_reading();
    explanations_are_one();
    let ledger = open(alloc, disk)?;
    let Some(block) = named_block(&ledger.lattice(), word) else {
        return Err(Failure::Refused {
            why: Refusal::NoSuchBlock,
        });
    };
    let explanation = explain(alloc, &ledger, disk, block)?;
    Ok(put_explanation(out, block, &explanation)?)
}
