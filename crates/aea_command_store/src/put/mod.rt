//! `put`: an object that is stored.

ghost use Rattle.std.specs.Prelude.{◌≡◌, ◌≢◌, ◌≤◌, IfOk, IsSome, OnOk, unwrap_or, []};
ghost use Rattle.aea_faults.specs.Faults.{Rose};
ghost use Rattle.aea_io.specs.Written.{IsFlushed};
ghost use Rattle.aea_command.specs.Causes.{RefusesBy, IsDecided};
ghost use Rattle.aea_command.specs.Failures.{NeverClashes};
ghost use Rattle.aea_command_store.specs.Put.{stored_text, PutCauses, IsByInput, IsStoredLine, Stores, Puts, KeepsOtherFiles};

mod line;

use aea_append::{Stored, put};
use aea_archive::survivors_stay_honest;
use aea_command::{Failure, Status, open};
use aea_disk::Disk;
use aea_io::{Page, Sink, Source};
use aea_lattice::numbers_reveal_blocks;
use aea_records::{
    digests_are_counted, ledgers_have_one_reading, new_names_are_free, objects_are_counted,
};
pub(crate) use line::write_line;
use std::alloc::Global;

// Opens the archive, and stores all that the input has under the name.
fn add_object<D: Disk, S: Source>(
    alloc: Global,
    name: &[u8],
    disk: &mut D,
    input: &mut S,
) -> Result<Stored, Failure>
    ensures stores { Stores name.now D.reveals (D.state disk.old) (D.state disk.new) (S.state input.old).left (S.state input.new).left result }
    ensures line { IfOk result (λ stored. IsStoredLine name.now D.reveals ((D.state disk.old).files 0) (S.state input.old).left (S.state input.new).left (stored_text stored.nodes stored.length stored.digest name.now)) }
    ensures refuses { RefusesBy (IsDecided D.reveals (IsSome (S.state input.old).left) IsByInput) (PutCauses name.now (D.state disk.old).files (unwrap_or (S.state input.old).left [])) result }
    ensures words { result ≢ Err Failure.Words }
    ensures clash { NeverClashes result }
    ensures output { result ≢ Err Failure.Output }
    ensures rest { KeepsOtherFiles D.reveals (result ≡ Err Failure.Disk) (D.state disk.old) (D.state disk.new) }
    ensures input_kept { (S.state input.old).faults ≤ (S.state input.new).faults }
    ensures input_cause { result ≡ Err Failure.Input → Rose (S.state input.old).faults (S.state input.new).faults }
    ensures input_still { result ≢ Err Failure.Input → (S.state input.new).faults ≡ (S.state input.old).faults }
{
    ledgers_have_one_reading();
    objects_are_counted();
    new_names_are_free();
    numbers_reveal_blocks();
    digests_are_counted();
    survivors_stay_honest();
    let mut ledger = open(alloc, disk)?;
    Ok(put(alloc, &mut ledger, disk, name, input)?)
}

/// Stores all that the input has as one object under the name, and then prints `stored NODES LENGTH DIGEST NAME`. It takes
/// memory for a block, a cell, the heads of the strands and 64 bytes for each new block beside the opened ledger; none from
/// the first write of the record on.
pub fn put_input<D: Disk, S: Source, O: Sink>(
    alloc: Global,
    name: &[u8],
    disk: &mut D,
    input: &mut S,
    out: &mut O,
) -> Result<Status, Failure>
    ensures puts { Puts name.now D.reveals (D.state disk.old) (D.state disk.new) (S.state input.old).left (S.state input.new).left (O.state out.old) (O.state out.new) result }
    ensures refuses { RefusesBy (IsDecided D.reveals (IsSome (S.state input.old).left) IsByInput) (PutCauses name.now (D.state disk.old).files (unwrap_or (S.state input.old).left [])) result }
    ensures words { result ≢ Err Failure.Words }
    ensures clash { NeverClashes result }
    ensures flushed { OnOk result (IsFlushed (O.state out.new)) }

    // The disk and the streams in any case.
    ensures rest { KeepsOtherFiles D.reveals (result ≡ Err Failure.Disk) (D.state disk.old) (D.state disk.new) }
    ensures input_kept { (S.state input.old).faults ≤ (S.state input.new).faults }
    ensures input_cause { result ≡ Err Failure.Input → Rose (S.state input.old).faults (S.state input.new).faults }
    ensures input_still { result ≢ Err Failure.Input → (S.state input.new).faults ≡ (S.state input.old).faults }
    ensures out_kept { (O.state out.old).faults ≤ (O.state out.new).faults }
    ensures out_cause { result ≡ Err Failure.Output → Rose (O.state out.old).faults (O.state out.new).faults }
    ensures out_still { result ≢ Err Failure.Output → (O.state out.new).faults ≡ (O.state out.old).faults }
{
    let stored = add_object(alloc, name, disk, input)?;
    let mut page = Page::new();
    write_line(out, &mut page, &stored, name)?;
    Ok(Status::Done)
}
