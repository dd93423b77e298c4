//! The repair of an altered archive, and the check of its report.

ghost use Rattle.std.specs.Prelude.{◌≡◌, ◌↔◌, Bool, List, [], IfOk};
ghost use Rattle.aea_lattice.specs.declared.blocks.BlockId.{BlockId};
ghost use Rattle.aea_disk.specs.State.{Passes};
ghost use Rattle.aea_disk.specs.Frames.{OnlyReads};
ghost use Rattle.aea_report.specs.declared.head.Head.{Head};
ghost use Rattle.aea_report.specs.declared.line.Line.{Line};
ghost use Rattle.aea_report.specs.Fits.{Fits};
ghost use Rattle.aea_report.specs.Grammar.{IsReport};
ghost use Rattle.aea_report.specs.Laws.{AreReport};
ghost use Rattle.aea_archive.specs.Blocks.{RevealsSurvivors};
ghost use Rattle.aea_verify.specs.declared.verdict.Verdict.TheVariants as verdicts;
ghost use Rattle.aea_lattice.specs.Data.{IsBytes};
ghost use Rattle.aea_records.specs.TableLaws.{AreBytes};
ghost use Rattle.aea_rehearse.specs.Rooms.{IsWilling};
ghost use Rattle.aea_rehearse.specs.Checking.{IsReady, IsFitting};
ghost use Rattle.aea_rehearse.specs.Altered.{IsMended};

use aea_disk::Disk;
use aea_envelope::{cells_have_lengths, cells_have_parts};
use aea_io::{SureSink, SureSource};
use aea_ledger::Ledger;
use aea_repair::{Outcome, RepairFault, repair};
use aea_report::printed_are_reports;
use aea_verify::{Verdict, VerifyFault, verify};
use std::alloc::{AllocError, Global};

// These are bytes.
fn are_bytes(bytes: &[u8])
    ensures { AreBytes bytes.now }
{
    let _first = bytes.first();
}

// A seal has 32 bytes.
fn is_seal(seal: &[u8; 32])
    ensures { IsBytes 32 seal.now }
{
    are_bytes(seal);
}

/// Repairs the archive, with the report on a sink that has space for it.
pub fn mend<D: Disk>(
    alloc: Global,
    ledger: &Ledger,
    disk: &mut D,
    report: &mut SureSink,
) -> Result<Outcome, AllocError>
    requires reveals { D.reveals }
    requires ready { IsReady ledger.now (D.state disk.old) report.old.room }
    requires empty { report.old.bytes.items ≡ [] }
    ensures mended { IfOk result (IsMended ledger.now report.new.bytes.items (D.state disk.old).files (D.state disk.new).files) }
    ensures time { Passes (D.state disk.old) (D.state disk.new) }
    ensures steady { (D.state disk.new).faults ≡ (D.state disk.old).faults }
{
    printed_are_reports();
    let seal = ledger.seal();
    is_seal(&seal);
    match repair(alloc, ledger, disk, report) {
        Ok(outcome) => Ok(outcome),
        Err(RepairFault::NoMemory) => Err(AllocError),
        Err(RepairFault::Clash { .. }) => unreachable!(),
        Err(RepairFault::DiskFault) => unreachable!(),
        Err(RepairFault::WriteFault) => unreachable!(),
    }
}

// The verdict on a report.
fn judge_report<D: Disk>(
    alloc: Global,
    ledger: &Ledger,
    disk: &mut D,
    report: &[u8],
) -> Result<Verdict, AllocError>
    requires reveals { D.reveals }
    requires willing { IsWilling (D.state disk.old) }
    requires report { AreReport report.now }
    ensures accepted { IfOk result (λ verdict. (intact : BlockId → Bool) (h : Head) (lines : List Line) → RevealsSurvivors ledger.now.shape ledger.now.lattice.n ledger.now.digests (D.state disk.old).files intact
        → IsReport report.now h lines → (verdict ≡ verdicts.Accepted) ↔ Fits ledger.now.lattice ledger.now.seal intact h lines) }
    ensures reads { OnlyReads D.reveals ⊥ (D.state disk.old) (D.state disk.new) }
{
    let mut source = SureSource::new(report);
    match verify(alloc, ledger, disk, &mut source) {
        Ok(verdict) => Ok(verdict),
        Err(VerifyFault::NoMemory) => Err(AllocError),
        Err(VerifyFault::BadLine { .. }) => unreachable!(),
        Err(VerifyFault::LineTooLong { .. }) => unreachable!(),
        Err(VerifyFault::ReadFault) => unreachable!(),
        Err(VerifyFault::DiskFault) => unreachable!(),
    }
}

/// Checks the report of a repair, which is accepted.
pub(crate) fn check<D: Disk>(
    alloc: Global,
    ledger: &Ledger,
    disk: &mut D,
    report: &[u8],
) -> Result<(), AllocError>
    requires reveals { D.reveals }
    requires willing { IsWilling (D.state disk.old) }
    requires fits { IsFitting ledger.now (D.state disk.old).files report.now }
    ensures reads { OnlyReads D.reveals ⊥ (D.state disk.old) (D.state disk.new) }
{
    cells_have_lengths();
    cells_have_parts();
    let verdict = judge_report(alloc, ledger, disk, report)?;
    match verdict {
        Verdict::Accepted => Ok(()),
        Verdict::Rejected { .. } => unreachable!(),
    }
}
