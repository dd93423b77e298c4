//! Payloads by what the first pass found out: read, or computed by their fates.

ghost use Rattle.std.specs.Prelude.{◌≡◌, length};
ghost use Rattle.aea_shelf.specs.Places.{cell_size};
ghost use Rattle.aea_degraded.specs.Fetched.{IsFetched};
ghost use Rattle.aea_degraded.specs.Planned.{IsPlanned};
ghost use Rattle.aea_degraded.specs.Sent.{IsPlanFault};

use crate::block::block_payload;
use crate::fault::PayloadFault;
use crate::planning::place_of;
use aea_archive::survivors_are_revealed;
use aea_disk::Disk;
use aea_fetch::PayloadSource;
use aea_gauss::FateList;
use aea_lattice::BlockId;
use aea_ledger::Ledger;
use aea_view::Marks;

/// Payloads of blocks whose fate is not listed nodes: of one that is marked as damaged it is computed by its fate, and of another
/// one read. Each is judged by the digest that the ledger keeps. It takes no memory.
#[derive(Drop)]
pub(crate) struct PlanReader<'a> {
    /// Which blocks are damaged.
    pub(crate) damaged: &'a Marks,
    /// The fates of these.
    pub(crate) fates: &'a FateList,
    /// A buffer that has the bytes of a cell, B + 48.
    pub(crate) cell: &'a mut [u8],
    /// A buffer that has the bytes of a block, B; the payload that was had last is there.
    pub(crate) sum: &'a mut [u8],
}

impl<'a> PayloadSource for PlanReader<'a> {
    type Fault = PayloadFault;

    ghost has = { λ reveals v c b p. IsFetched reveals v c b p };

    ghost says = { λ reveals v c b fault. IsPlanFault reveals v fault };

    ghost use Rattle.aea_degraded.specs.declared.fault.PayloadFault.TheVariants.{DiskFault};

    ghost is_disk = { λ fault. fault ≡ DiskFault };

    ghost ready = { λ s reveals v c b. IsPlanned reveals v c s.damaged.now s.fates.now b × (length s.cell.now ≡ cell_size v.shape) × (length s.sum.now ≡ v.shape.block) };

    ghost has_one = { λ s. Unit {0} };

    ghost held = { λ s. s.sum.now };

    fn get_one<D: Disk>(
        &mut self,
        ledger: &Ledger,
        disk: &mut D,
        b: BlockId,
    ) -> Result<(), PayloadFault> {
        survivors_are_revealed();
        let at = place_of(&ledger.lattice(), self.fates, b);
        block_payload(
            ledger,
            disk,
            self.damaged,
            self.fates,
            b,
            at,
            self.cell,
            self.sum,
        )
    }

    fn payload(&self) -> &[u8] {
        self.sum
    }
}
