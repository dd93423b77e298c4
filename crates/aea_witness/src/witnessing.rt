//! The witness, from the first write to what is got.

ghost use Rattle.std.specs.Prelude.{◌≡◌, [], IfOk};
ghost use Rattle.aea_disk.specs.Spaces.{files_of};
ghost use Rattle.aea_rehearse.specs.Rooms.{report_room};
ghost use Rattle.aea_witness.specs.Rooms.{HasWitnessRoom, IsEmptySink};
ghost use Rattle.aea_witness.specs.Witnessed.{IsWitnessed};

use crate::ending::Witness;
use crate::fetching::fetch;
use crate::losing::lose_and_mend;
use crate::storing::build;
use aea_disk::{Disk, SureDisk};
use aea_io::SureSink;
use aea_repair::Outcome;
use std::alloc::{AllocError, Global};

// An empty sink with so much space.
fn sink(alloc: Global, room: usize) -> Result<SureSink, AllocError>
    ensures { IfOk result (IsEmptySink room) }
{
    SureSink::new(alloc, room)
}

// The witness, on any disk whose contents are known and that has the space.
fn witness_on<D: Disk>(
    alloc: Global,
    disk: &mut D,
    report: &mut SureSink,
    got: &mut SureSink,
    at: &mut u64,
) -> Result<Outcome, AllocError>
    requires reveals { D.reveals }
    requires empty { (D.state disk.old).files 0 ≡ [] }
    requires room { HasWitnessRoom (D.state disk.old) }
    requires report { IsEmptySink (report_room 3) report.old }
    requires got { IsEmptySink 512 got.old }
    requires none { at.old ≡ 0 }
    ensures witnessed { IfOk result (IsWitnessed at.new report.new.bytes.items got.new.bytes.items (D.state disk.new).files) }
{
    let ledger = build(alloc, disk, at)?;
    let outcome = lose_and_mend(alloc, &ledger, disk, report)?;
    fetch(alloc, &ledger, disk, b"first", got)?;
    Ok(outcome)
}

/// Makes an archive of AE(3,2,5) in memory, with blocks of 512 bytes on ten sites; puts two objects into it; ingests a
/// stream with the frame of a third one, which ends inside the frame of a fourth; empties the file of the first site, which has
/// the one data block of the first object; repairs the archive, with the report on a sink; and gets the first object back.
pub fn witness(alloc: Global) -> Result<Witness, AllocError>
    ensures { IfOk result (λ w. IsWitnessed w.cut_at w.report.bytes.items w.got.bytes.items (files_of w.disk.spaces) w.outcome) }
{
    let mut disk = SureDisk::new(alloc, 10, 1000, 14_680_400)?;
    let mut report = sink(alloc, 992)?;
    let mut got = sink(alloc, 512)?;
    let mut cut_at = 0;
    let outcome = witness_on(alloc, &mut disk, &mut report, &mut got, &mut cut_at)?;
    Ok(Witness {
        disk,
        cut_at,
        outcome,
        report,
        got,
    })
}
