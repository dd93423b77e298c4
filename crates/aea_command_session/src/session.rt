//! `session`: the messages of a stream, one after the other.

ghost use Rattle.std.specs.Prelude.{◌≡◌, ◌≢◌, ◌≤◌, IsSome, OnOk, unwrap_or, [], true};
ghost use Rattle.aea_faults.specs.Faults.{Rose};
ghost use Rattle.aea_io.specs.Written.{IsFlushed};
ghost use Rattle.aea_disk.specs.State.{IsReady, IsSynced};
ghost use Rattle.aea_disk.specs.Frames.{OnlyWrites};
ghost use Rattle.aea_records.specs.Format.{limit_when};
ghost use Rattle.aea_ledger.specs.Values.{HasSomeRecords, IsThisOne};
ghost use Rattle.aea_archive.specs.Blocks.{IsBlockIn};
ghost use Rattle.aea_archive.specs.Cells.{IsBesides, ChangesArchive};
ghost use Rattle.aea_command.specs.declared.refusal.Refusal.{Refusal};
ghost use Rattle.aea_command.specs.Causes.{IsDecided, RefusesBy};
ghost use Rattle.aea_command.specs.Failures.{NeverClashes};
ghost use Rattle.aea_command.specs.Openings.{IsAfterOpening};
ghost use Rattle.aea_command_store.specs.Put.{KeepsOtherFiles};
ghost use Rattle.aea_command_session.specs.Causes.{OpenedCauses, SessionCauses, IsByInput};
ghost use Rattle.aea_command_session.specs.Session.{ServesOpened, Sessions};
ghost use Rattle.aea_command_session.specs.Space.{FitsMessages};

use crate::failure::{failure_of_begin, failure_of_stop};
use aea_command::{Failure, Status, open};
use aea_disk::Disk;
use aea_envelope::cells_have_lengths;
use aea_io::{Sink, Source};
use aea_lattice::numbers_reveal_blocks;
use aea_ledger::Ledger;
use aea_machine::closed_records_join;
use aea_messages::{
    bad_are_not_cut, bad_at_one_place, messages_are_not_bad, messages_are_not_cut,
    messages_have_one_reading, streams_have_one_reading,
};
use aea_records::ledgers_have_one_reading;
use aea_session::{Session, serve};
use std::alloc::Global;

// Takes the messages of the input over the opened archive, and flushes.
fn serve_opened<D: Disk, S: Source, O: Sink>(
    alloc: Global,
    ledger: Ledger,
    disk: &mut D,
    input: &mut S,
    out: &mut O,
) -> Result<Status, Failure>
    requires opened { HasSomeRecords ledger }
    requires live { ledger.live ≡ true }
    requires this { D.reveals → IsThisOne ledger ((D.state disk.old).files 0) }
    requires synced { D.reveals → IsSynced (D.state disk.old) }
    ensures serves { ServesOpened D.reveals ledger (D.state disk.old) (D.state disk.new) (S.state input.old).left (S.state input.new).left (O.state out.old) (O.state out.new) result }
    ensures refuses { result ≢ Err Failure.Output → RefusesBy (IsDecided D.reveals (IsSome (S.state input.old).left) IsByInput) (OpenedCauses (D.state disk.old).files (unwrap_or (S.state input.old).left [])) result }
    ensures after { (why : Refusal) → result ≡ Err (Failure.Refused why) → IsAfterOpening why }
    ensures words { result ≢ Err Failure.Words }
    ensures clash { NeverClashes result }
    ensures flushed { OnOk result (IsFlushed (O.state out.new)) }

    // The disk and the streams in any case.
    ensures writes { OnlyWrites D.reveals (IsReady (D.state disk.old)) (FitsMessages ledger (S.state input.old).left (D.state disk.old)) (result ≡ Err Failure.Disk) (ChangesArchive ledger.shape (limit_when ledger.raised) (IsBlockIn ledger.shape ledger.lattice.n) (IsBesides ledger.shape)) (D.state disk.old) (D.state disk.new) }
    ensures input_kept { (S.state input.old).faults ≤ (S.state input.new).faults }
    ensures input_cause { result ≡ Err Failure.Input → Rose (S.state input.old).faults (S.state input.new).faults }
    ensures input_still { result ≢ Err Failure.Input → (S.state input.new).faults ≡ (S.state input.old).faults }
    ensures out_kept { (O.state out.old).faults ≤ (O.state out.new).faults }
    ensures out_cause { result ≡ Err Failure.Output → Rose (O.state out.old).faults (O.state out.new).faults }
    ensures out_still { result ≢ Err Failure.Output → (O.state out.new).faults ≡ (O.state out.old).faults }
{
    ledgers_have_one_reading();
    cells_have_lengths();
    closed_records_join();
    numbers_reveal_blocks();
    messages_have_one_reading();
    messages_are_not_bad();
    messages_are_not_cut();
    bad_are_not_cut();
    bad_at_one_place();
    streams_have_one_reading();
    let mut session = match Session::begin(alloc, ledger, disk) {
        Ok(session) => session,
        Err(fault) => return Err(failure_of_begin(fault)),
    };
    match serve(alloc, &mut session, disk, input, out) {
        Ok(()) => (),
        Err(stop) => return Err(failure_of_stop(stop)),
    }
    match out.flush() {
        Ok(()) => Ok(Status::Done),
        Err(_) => Err(Failure::Output),
    }
}

/// Takes the messages of the input, one after the other, over an archive whose limit was raised, and prints the reply to each,
/// which is flushed before the next message is read. It reads the last parities once. At the end of the input uploads that are
/// open are dropped. It takes the memory of the ledger, a block for each strand, a cell, one message, and 32 bytes for each
/// block that was woven since the last close, up to three times that while the list grows.
pub fn session<D: Disk, S: Source, O: Sink>(
    alloc: Global,
    disk: &mut D,
    input: &mut S,
    out: &mut O,
) -> Result<Status, Failure>
    ensures sessions { Sessions D.reveals (D.state disk.old) (D.state disk.new) (S.state input.old).left (S.state input.new).left (O.state out.old) (O.state out.new) result }
    ensures refuses { result ≢ Err Failure.Output → RefusesBy (IsDecided D.reveals (IsSome (S.state input.old).left) IsByInput) (SessionCauses (D.state disk.old).files (unwrap_or (S.state input.old).left [])) result }
    ensures words { result ≢ Err Failure.Words }
    ensures clash { NeverClashes result }
    ensures flushed { OnOk result (IsFlushed (O.state out.new)) }

    // The disk and the streams in any case.
    ensures rest { KeepsOtherFiles D.reveals (result ≡ Err Failure.Disk) (D.state disk.old) (D.state disk.new) }
    ensures input_kept { (S.state input.old).faults ≤ (S.state input.new).faults }
    ensures input_cause { result ≡ Err Failure.Input → Rose (S.state input.old).faults (S.state input.new).faults }
    ensures input_still { result ≢ Err Failure.Input → (S.state input.new).faults ≡ (S.state input.old).faults }
    ensures out_kept { (O.state out.old).faults ≤ (O.state out.new).faults }
    ensures out_cause { result ≡ Err Failure.Output → Rose (O.state out.old).faults (O.state out.new).faults }
    ensures out_still { result ≢ Err Failure.Output → (O.state out.new).faults ≡ (O.state out.old).faults }
{
    let ledger = open(alloc, disk)?;
    serve_opened(alloc, ledger, disk, input, out)
}
