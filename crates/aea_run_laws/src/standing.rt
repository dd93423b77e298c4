//! Archives that stand, whole and with a lost site.

ghost use Rattle.aea_run_laws.specs.Copies.{CopiesAreMet};
ghost use Rattle.aea_run_laws.specs.Meeting.{RunsAreMet};
ghost use Rattle.aea_run_laws.specs.Sessions.{SessionsAreMet};
ghost use Rattle.aea_run_laws.specs.Standing.{DamagedArchivesStand};

use aea_archive::puts_record;
use aea_envelope::{cells_have_lengths, cells_have_parts};
use aea_records::{
    ledgers_are_archives, ledgers_are_not_bad, ledgers_have_one_reading, objects_are_of_records,
};
use aea_report::{
    printed_are_reports, printed_reports_fit, reports_are_not_bad, reports_have_one_reading,
};
use aea_verify::accepted_are_fitting;

/// Of each small object there is an archive that has it, and the same with its first site lost. It is a law alone; nothing is done.
pub fn damaged_archives_stand()
    ensures { DamagedArchivesStand }
{
    cells_have_lengths();
    cells_have_parts();
    puts_record();
}

/// Over such archives there are runs that meet all that is asked of a run over a disk, an input and an output that do not fail. It is a
/// law alone; nothing is done.
pub fn runs_are_met()
    ensures { RunsAreMet }
{
    cells_have_lengths();
    cells_have_parts();
    puts_record();
    ledgers_have_one_reading();
    ledgers_are_archives();
    ledgers_are_not_bad();
    objects_are_of_records();
    reports_have_one_reading();
    reports_are_not_bad();
    printed_are_reports();
    printed_reports_fit();
    accepted_are_fitting();
}

/// Over such an archive whose limit was raised, a session over an input without messages meets all that is asked. It is a law alone;
/// nothing is done.
pub fn sessions_are_met()
    ensures { SessionsAreMet }
{
    cells_have_lengths();
    cells_have_parts();
    puts_record();
    ledgers_have_one_reading();
    ledgers_are_archives();
    ledgers_are_not_bad();
}

/// Over such archives with two whole copies of the ledger, which are adopted as they are, the same runs meet all that is asked. It is a law
/// alone; nothing is done.
pub fn copies_are_met()
    ensures { CopiesAreMet }
{
    cells_have_lengths();
    cells_have_parts();
    puts_record();
    ledgers_have_one_reading();
    ledgers_are_archives();
    ledgers_are_not_bad();
    objects_are_of_records();
    reports_have_one_reading();
    reports_are_not_bad();
    printed_are_reports();
    printed_reports_fit();
    accepted_are_fitting();
}
