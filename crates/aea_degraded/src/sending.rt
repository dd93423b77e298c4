//! The second pass: the payloads of an object's data blocks, read or computed, printed in order and cut to its length.

ghost use Rattle.std.specs.Prelude.{◌≡◌, ◌≢◌, [], ℕ, List, length, All, IfErr, OnOk, Err};
ghost use Rattle.std.specs.FinMap.{get};
ghost use Rattle.aea_io.specs.Written.{IsFlushed};
ghost use Rattle.aea_lattice.specs.declared.blocks.BlockId.{BlockId};
ghost use Rattle.aea_disk.specs.Frames.{OnlyReads};
ghost use Rattle.aea_shelf.specs.Places.{cell_size};
ghost use Rattle.aea_archive.specs.Objects.{data_under};
ghost use Rattle.aea_fetch.specs.Copies.{HasCut, HasSent};
ghost use Rattle.aea_restore.specs.Drawn.{IsOtherDigest};
ghost use Rattle.aea_degraded.specs.Fetched.{IsFetched};
ghost use Rattle.aea_degraded.specs.Planned.{IsPlanned};
ghost use Rattle.aea_degraded.specs.Sent.{IsSendFault};

use crate::fault::FetchFault;
use crate::reader::PlanReader;
use aea_disk::Disk;
use aea_fetch::{SendFault, send_payloads};
use aea_gauss::FateList;
use aea_io::{Page, Sink};
use aea_ledger::Ledger;
use aea_view::Marks;

/// Appends the payloads of the data blocks of the object under the name, one after the other and cut to so many bytes, through
/// a page without bytes, and flushes. A block that is marked as damaged is computed by its fate, and another one is read; each
/// payload is judged by the digest that the ledger keeps before it is written. It takes no memory.
pub(crate) fn send_fetched<D: Disk, O: Sink>(
    ledger: &Ledger,
    disk: &mut D,
    name: &[u8],
    damaged: &Marks,
    fates: &FateList,
    most: u64,
    cell: &mut [u8],
    sum: &mut [u8],
    page: &mut Page,
    out: &mut O,
) -> Result<(), FetchFault>
    requires planned { All (IsPlanned D.reveals ledger.now (D.state disk.old).files damaged.now fates.now) (data_under (get ledger.now.objects name.now)) }
    requires cell { length cell.old ≡ cell_size ledger.now.shape }
    requires sum { length sum.old ≡ ledger.now.shape.block }
    requires empty { page.old ≡ [] }
    ensures sent { OnOk result (HasSent (IsFetched D.reveals ledger.now (D.state disk.old).files) (data_under (get ledger.now.objects name.now)) most (O.state out.old) (O.state out.new)) }
    ensures cut { IfErr result (λ fault. HasCut (IsFetched D.reveals ledger.now (D.state disk.old).files) (data_under (get ledger.now.objects name.now)) most (O.state out.old) [] (O.state out.new) (fault ≡ FetchFault.WriteFault)) }
    ensures faults { IfErr result IsSendFault }
    ensures clash { (d : BlockId) (revealed computed : List ℕ) → result ≡ Err (FetchFault.Clash d revealed computed) → IsOtherDigest ledger.now d revealed computed × (D.reveals → ⊥) }
    ensures still { result ≢ Err FetchFault.WriteFault → (O.state out.new).faults ≡ (O.state out.old).faults }
    ensures flushed { OnOk result (IsFlushed (O.state out.new)) }
    ensures reads { OnlyReads D.reveals (result ≡ Err FetchFault.DiskFault) (D.state disk.old) (D.state disk.new) }
{
    let mut payloads = PlanReader {
        damaged,
        fates,
        cell,
        sum,
    };
    match send_payloads(&mut payloads, ledger, disk, name, most, page, out) {
        Ok(()) => Ok(()),
        Err(SendFault::Payload(fault)) => Err(FetchFault::from(fault)),
        Err(SendFault::Output) => Err(FetchFault::WriteFault),
    }
}
