//! The check of a report against the disk.

ghost use Rattle.std.specs.Prelude.{◌≡◌, ◌≢◌, ◌≤◌, ℕ, List, Some, Err, OnOk};
ghost use Rattle.std.specs.Io.KnownBytes.{IsAtEnd};
ghost use Rattle.aea_faults.specs.Faults.{Rose};
ghost use Rattle.aea_disk.specs.Frames.{OnlyReads};
ghost use Rattle.aea_verify.specs.Answers.{Answers, IsAnswered, IsReadAs, fault_of};

use crate::laws::{accepted_are_fitting, lost_are_open};
use crate::reading::judge_report;
use crate::verdict::{Verdict, VerifyFault};
use aea_disk::Disk;
use aea_io::Source;
use aea_ledger::Ledger;
use aea_reader::ReportFault;
use aea_report::{reports_are_bad_at_one_line, reports_are_not_bad, reports_have_one_reading};
use aea_scrub::{ScanFault, scan};
use aea_walk::NextIntact;
use std::alloc::Global;

// The fault of a check whose reading of the report has this one.
fn verify_fault(fault: ReportFault) -> VerifyFault
    ensures { result ≡ fault_of fault }
{
    match fault {
        ReportFault::BadLine { line } => VerifyFault::BadLine { line },
        ReportFault::LineTooLong { line } => VerifyFault::LineTooLong { line },
        ReportFault::ReadFault => VerifyFault::ReadFault,
        ReportFault::NoMemory => VerifyFault::NoMemory,
    }
}

/// Judges a report against the disk as it is now: scans the archive, and then reads the report to its end. A line is judged
/// by the marks of the intact blocks, a table of the next intact parities, and its nodes, in time linear in the line and in
/// the blocks since the line before. It takes memory for the marks, a bit a block, for the table, 4 bytes a parity, for one
/// cell, and for one line. Nothing is written.
pub fn verify<D: Disk, S: Source>(
    alloc: Global,
    ledger: &Ledger,
    disk: &mut D,
    source: &mut S,
) -> Result<Verdict, VerifyFault>
    // A verdict has its cause in the report and the files, and these have that verdict alone.
    ensures answers { D.reveals → (input : List ℕ) → (S.state source.old).left ≡ Some input → Answers ledger.now (D.state disk.old).files input result }
    ensures exactly { D.reveals → (input : List ℕ) → (S.state source.old).left ≡ Some input → IsAnswered ledger.now (D.state disk.old).files input result }

    // Whether the input is a report, and at which line it is none, is determined by the input alone, whatever the disk is.
    ensures read { (input : List ℕ) → (S.state source.old).left ≡ Some input → IsReadAs input result }
    ensures end { OnOk result (IsAtEnd (S.state source.new).left) }

    // The disk is scanned first: after a fault of it nothing of the report was read.
    ensures unread { result ≡ Err VerifyFault.DiskFault → source.new ≡ source.old }

    // Nothing is written; when the disk and the source are at fault.
    ensures reads { OnlyReads D.reveals (result ≡ Err VerifyFault.DiskFault) (D.state disk.old) (D.state disk.new) }
    ensures source_kept { (S.state source.old).faults ≤ (S.state source.new).faults }
    ensures source_cause { result ≡ Err VerifyFault.ReadFault → Rose (S.state source.old).faults (S.state source.new).faults }
    ensures source_still { result ≢ Err VerifyFault.ReadFault → (S.state source.new).faults ≡ (S.state source.old).faults }
{
    accepted_are_fitting();
    lost_are_open();
    reports_have_one_reading();
    reports_are_not_bad();
    reports_are_bad_at_one_line();
    let _lattice = ledger.lattice();
    let marks = match scan(alloc, ledger, disk) {
        Ok(marks) => marks,
        Err(ScanFault::DiskFault) => return Err(VerifyFault::DiskFault),
        Err(ScanFault::NoMemory) => return Err(VerifyFault::NoMemory),
    };
    let next = match NextIntact::new(alloc, &marks) {
        Ok(next) => next,
        Err(_) => return Err(VerifyFault::NoMemory),
    };
    match judge_report(alloc, &marks, &next, &ledger.seal(), source) {
        Ok(verdict) => Ok(verdict),
        Err(fault) => Err(verify_fault(fault)),
    }
}
