//! `ingest`: the objects of a stream of frames that are stored, one after the other.

ghost use Rattle.std.specs.Prelude.{◌≡◌, ◌≢◌, ◌≤◌, ◌++◌, codes, decimal, IsSome, OnOk, unwrap_or, [], true};
ghost use Rattle.aea_faults.specs.Faults.{Rose};
ghost use Rattle.aea_io.specs.Pages.{Prints};
ghost use Rattle.aea_io.specs.Written.{IsFlushed};
ghost use Rattle.aea_disk.specs.State.{IsReady, IsSynced};
ghost use Rattle.aea_disk.specs.Frames.{OnlyWrites};
ghost use Rattle.aea_records.specs.Format.{limit_when};
ghost use Rattle.aea_ledger.specs.Values.{HasSomeRecords, IsThisOne};
ghost use Rattle.aea_archive.specs.Blocks.{IsBlockIn};
ghost use Rattle.aea_archive.specs.Cells.{IsBesides, ChangesArchive};
ghost use Rattle.aea_command.specs.declared.refusal.Refusal.{Refusal};
ghost use Rattle.aea_command.specs.Causes.{IsDecided, Refuses, RefusesBy};
ghost use Rattle.aea_command.specs.Failures.{NeverClashes};
ghost use Rattle.aea_command.specs.Openings.{IsAfterOpening};
ghost use Rattle.aea_command_store.specs.Ingest.{OpenedCauses, IngestCauses, FitsFrames, IngestsOpened, Ingests, end_line};
ghost use Rattle.aea_command_store.specs.Put.{KeepsOtherFiles};

use crate::put::write_line;
use aea_append::{Ingest, ingest_next};
use aea_archive::{lasts_are_values, objects_record_more, survivors_stay_honest};
use aea_command::{Failure, Status, open};
use aea_disk::Disk;
use aea_envelope::{cells_have_lengths, cells_have_parts};
use aea_io::{Page, Sink, Source, WriteFault, finish, print, print_number};
use aea_lattice::numbers_reveal_blocks;
use aea_ledger::Ledger;
use aea_records::{
    digests_are_counted, ledgers_have_one_reading, new_names_are_free, objects_are_counted,
};
use std::alloc::Global;

// Prints `end K`.
fn print_end<O: Sink>(out: &mut O, page: &mut Page, count: u32) -> Result<(), WriteFault>
    ensures { Prints (O.state out.old) page.old (O.state out.new) page.new result (end_line count) }
{
    print_number(out, page, b"end ", u64::from(count))?;
    print(out, page, b"\n")
}

// Writes that line, and flushes it.
fn write_end<O: Sink>(out: &mut O, count: u32) -> Result<(), WriteFault>
    ensures flushed { OnOk result (IsFlushed (O.state out.new)) }
    ensures prints { Prints (O.state out.old) [] (O.state out.new) [] result (end_line count) }
{
    let mut page = Page::new();
    print_end(out, &mut page, count)?;
    finish(out, &mut page)?;
    Ok(())
}

// Puts the object of each frame of the input into the opened archive, and writes its line after its commit, and the last
// line.
fn put_frames<D: Disk, S: Source, O: Sink>(
    alloc: Global,
    ledger: &mut Ledger,
    disk: &mut D,
    input: &mut S,
    out: &mut O,
) -> Result<Status, Failure>
    requires opened { HasSomeRecords ledger.old }
    requires live { ledger.old.live ≡ true }
    requires this { D.reveals → IsThisOne ledger.old ((D.state disk.old).files 0) }
    requires synced { D.reveals → IsSynced (D.state disk.old) }
    ensures ingests { IngestsOpened D.reveals ledger.old (D.state disk.old) (D.state disk.new) (S.state input.old).left (S.state input.new).left (O.state out.old) (O.state out.new) result }
    ensures refuses { result ≢ Err Failure.Output → Refuses (D.reveals × IsSome (S.state input.old).left) (OpenedCauses (D.state disk.old).files (unwrap_or (S.state input.old).left [])) result }
    ensures after { (why : Refusal) → result ≡ Err (Failure.Refused why) → IsAfterOpening why }
    ensures words { result ≢ Err Failure.Words }
    ensures clash { NeverClashes result }
    ensures flushed { OnOk result (IsFlushed (O.state out.new)) }

    // The disk and the streams in any case.
    ensures writes { OnlyWrites D.reveals (IsReady (D.state disk.old)) (FitsFrames ledger.old (S.state input.old).left (D.state disk.old)) (result ≡ Err Failure.Disk) (ChangesArchive ledger.old.shape (limit_when ledger.old.raised) (IsBlockIn ledger.old.shape ledger.old.lattice.n) (IsBesides ledger.old.shape)) (D.state disk.old) (D.state disk.new) }
    ensures input_kept { (S.state input.old).faults ≤ (S.state input.new).faults }
    ensures input_cause { result ≡ Err Failure.Input → Rose (S.state input.old).faults (S.state input.new).faults }
    ensures input_still { result ≢ Err Failure.Input → (S.state input.new).faults ≡ (S.state input.old).faults }
    ensures out_kept { (O.state out.old).faults ≤ (O.state out.new).faults }
    ensures out_cause { result ≡ Err Failure.Output → Rose (O.state out.old).faults (O.state out.new).faults }
    ensures out_still { result ≢ Err Failure.Output → (O.state out.new).faults ≡ (O.state out.old).faults }
{
    ledgers_have_one_reading();
    objects_are_counted();
    new_names_are_free();
    numbers_reveal_blocks();
    digests_are_counted();
    cells_have_lengths();
    cells_have_parts();
    lasts_are_values();
    objects_record_more();
    survivors_stay_honest();
    let mut at: u64 = 0;
    let mut kept = None;
    let mut page = Page::new();
    let mut count: u32 = 0;
    while let Ingest::Stored { name, stored } = ingest_next(
        alloc, ledger, disk, input, &mut at, &mut kept,
    )? {
        write_line(out, &mut page, &stored, name.bytes())?;
        count += 1;
    }
    write_end(out, count)?;
    Ok(Status::Done)
}

/// Stores the objects of the input, a stream of frames, one after the other. It prints `stored NODES LENGTH DIGEST NAME` for
/// each as soon as its record is committed, and then `end K` with K their number. It reads the last parities once, for the
/// first object. It takes the memory of `put` for each object, and gives it back, but for a block for each strand.
pub fn ingest<D: Disk, S: Source, O: Sink>(
    alloc: Global,
    disk: &mut D,
    input: &mut S,
    out: &mut O,
) -> Result<Status, Failure>
    ensures ingests { Ingests D.reveals (D.state disk.old) (D.state disk.new) (S.state input.old).left (S.state input.new).left (O.state out.old) (O.state out.new) result }
    ensures refuses { result ≢ Err Failure.Output → RefusesBy (IsDecided D.reveals (IsSome (S.state input.old).left) IsAfterOpening) (IngestCauses (D.state disk.old).files (unwrap_or (S.state input.old).left [])) result }
    ensures words { result ≢ Err Failure.Words }
    ensures clash { NeverClashes result }
    ensures flushed { OnOk result (IsFlushed (O.state out.new)) }

    // The disk and the streams in any case.
    ensures rest { KeepsOtherFiles D.reveals (result ≡ Err Failure.Disk) (D.state disk.old) (D.state disk.new) }
    ensures input_kept { (S.state input.old).faults ≤ (S.state input.new).faults }
    ensures input_cause { result ≡ Err Failure.Input → Rose (S.state input.old).faults (S.state input.new).faults }
    ensures input_still { result ≢ Err Failure.Input → (S.state input.new).faults ≡ (S.state input.old).faults }
    ensures out_kept { (O.state out.old).faults ≤ (O.state out.new).faults }
    ensures out_cause { result ≡ Err Failure.Output → Rose (O.state out.old).faults (O.state out.new).faults }
    ensures out_still { result ≢ Err Failure.Output → (O.state out.new).faults ≡ (O.state out.old).faults }
{
    ledgers_have_one_reading();
    let mut ledger = open(alloc, disk)?;
    put_frames(alloc, &mut ledger, disk, input, out)
}
