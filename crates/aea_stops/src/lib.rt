//! Runs that a stop may cut off, and runs that go on from what a stop left.
//!
//! Promises to the table of the commands one law (`stops_keep_puts`): however often runs of the commands that write the ledger are
//! stopped, at any moment each, and others go on over what was left, the records that were there stay, and after them are those
//! that the runs added, in order, of each that was acknowledged; and where each run began with nothing pending, so are the blocks.
//!
//! Read `specs/GoingOn` first: `DoesRun` (what a run does), `StoppedRun`, `IsLeftBy` (the records that a stop of one leaves) and
//! `StopsKeepPuts`. It rests on what is said of each command: `Stores`, `StoresFrames` and `AddsRecord` of `aea_command_store`, and
//! `Sessions` of `aea_command_session`.
#![tactic(auto)]

ghost use Rattle.aea_stops.specs.GoingOn.{StopsKeepPuts};

use aea_disk::Disk;
use aea_envelope::{cells_have_lengths, cells_have_parts};
use aea_records::{digests_are_counted, ledgers_have_one_reading};

/// Over a disk of this kind, however often runs are stopped and others go on from what the stop left, the ledger has after
/// its old records, in order, those that the runs of `put`, `ingest`, `session`, `fence` and `upgrade` added, of each that was
/// acknowledged: its run ended, with a status that says that what it adds is there, before the stop; of an ingest of each
/// object whose line was printed, and of a session of each close whose reply was begun. And where each run began with nothing
/// pending on any file, every block of what they added is intact in what the last stop left, and so is each that was intact
/// before the first run. It is a law alone; nothing is done.
pub fn stops_keep_puts<D: Disk>(_disk: &D)
    ensures { StopsKeepPuts D.reveals D.state }
{
    ledgers_have_one_reading();
    digests_are_counted();
    cells_have_lengths();
    cells_have_parts();
}
