//! What is found of an archive with copies of its ledger after stops, damage and openings.
//!
//! Promises to the top call laws: whatever is lost of the ledger and of one copy, and however often an opening is stopped while it adopts
//! copies, what is found then are the sites as they were and the records of a ledger that a Mirror may show (`shown_is_found`), and no
//! opening finds that neither copy is good, or that they differ (`kept_stays`); so the law of stopped runs holds of runs with such
//! losses between them (`copies_keep_puts`). Read `specs/Surviving.antt` first. It rests on `aea_mirror` for what is shown, and on
//! `aea_stops` for stopped runs.
#![tactic(auto)]

ghost use Rattle.aea_survival.specs.Surviving.{ShownIsFound, KeptStays, CopiesKeepPuts};

use aea_disk::Disk;
use aea_envelope::{cells_have_lengths, cells_have_parts};
use aea_records::{digests_are_counted, ledgers_have_one_reading, records_are_short};

/// Whatever comes between a stop and the next run that goes on, that finds the sites as they were, and the records of a ledger that a
/// Mirror may show of what the stop left. It is a law alone.
pub fn shown_is_found()
    ensures { ShownIsFound }
{
    records_are_short();
}

/// And where pieces are kept in what the stop left, some are kept in what is found. It is a law alone.
pub fn kept_stays()
    ensures { KeptStays }
{}

/// Over a disk of this kind, however often runs are stopped and others go on from what the stop left, of which the ledger and one copy
/// may be lost or altered, and openings stopped, the ledger has after its old records, in order, those that the runs added, of each that
/// was acknowledged. It is a law alone; nothing is done.
pub fn copies_keep_puts<D: Disk>(_disk: &D)
    ensures { CopiesKeepPuts D.reveals D.state }
{
    records_are_short();
    ledgers_have_one_reading();
    digests_are_counted();
    cells_have_lengths();
    cells_have_parts();
}
