//! The first pass: what a fetch finds out before it writes a byte.

ghost use Rattle.std.specs.Prelude.{◌≡◌, ◌≢◌, ◌⊎◌, false, Bool, ℕ, List, length, All, Some, slice_get, IfOk, IfErr, Err};
ghost use Rattle.std.specs.FinMap.{get};
ghost use Rattle.aea_lattice.specs.declared.blocks.BlockId.{BlockId};
ghost use Rattle.aea_lattice.specs.Data.{Determines};
ghost use Rattle.aea_lattice.specs.LeastWord.{IsWord};
ghost use Rattle.aea_disk.specs.Frames.{OnlyReads};
ghost use Rattle.aea_shelf.specs.Places.{cell_size};
ghost use Rattle.aea_gauss.specs.declared.fates.Fate.TheVariants.{Word};
ghost use Rattle.aea_archive.specs.Blocks.{RevealsSurvivors};
ghost use Rattle.aea_archive.specs.Objects.{data_under, IsOneOf};
ghost use Rattle.aea_restore.specs.Drawn.{IsOtherDigest, IsClash};
ghost use Rattle.aea_degraded.specs.Fetched.{IsFirstOpen, IsOutside};
ghost use Rattle.aea_degraded.specs.Planned.{AreFatesOf, IsRightPlan, IsPlanned, IsFirstFault};

use crate::checking::check_sums;
use crate::fault::FetchFault;
use crate::planning::first_lost;
use crate::searching::search_object;
use aea_archive::survivors_are_revealed;
use aea_disk::Disk;
use aea_fates::{sums_are_determined, words_are_open};
use aea_fetch::DataBlocks;
use aea_gauss::{Fate, FateList};
use aea_lattice::passing_are_among;
use aea_ledger::Ledger;
use aea_search::{Search, SearchFault};
use std::alloc::Global;

/// What the first pass found out: a search, in which the damaged data blocks of the object are unknown, and each block that
/// equations join with them, and the fates of the unknown blocks.
#[derive(Drop)]
pub(crate) struct Plan {
    pub(crate) search: Search,
    pub(crate) fates: FateList,
}

// A plan of a search and of fates.
fn plan_of(search: Search, fates: FateList) -> Plan
    ensures search { result.search ≡ search }
    ensures fates { result.fates ≡ fates }
{
    Plan { search, fates }
}

// The search for an object, and the fates of what it found.
fn plan_object<D: Disk>(
    alloc: Global,
    ledger: &Ledger,
    disk: &mut D,
    name: &[u8],
    cell: &mut [u8],
) -> Result<Plan, SearchFault>
    requires buffer { length cell.old ≡ cell_size ledger.now.shape }
    ensures lattice { IfOk result (λ p. p.search.unknown.lattice ≡ ledger.now.lattice) }
    ensures fates { IfOk result (λ p. AreFatesOf ledger.now.lattice p.search.unknown p.fates) }
    ensures right { IfOk result (λ p. D.reveals → (known : BlockId → Bool) → RevealsSurvivors ledger.now.shape ledger.now.lattice.n ledger.now.digests (D.state disk.old).files known
        → IsRightPlan ledger.now (D.state disk.old).files p.search.unknown p.fates (data_under (get ledger.now.objects name.now)) known) }
    ensures reads { OnlyReads D.reveals (result ≡ Err SearchFault.DiskFault) (D.state disk.old) (D.state disk.new) }
{
    let search = match search_object(alloc, ledger, disk, name, cell) {
        Ok(search) => search,
        Err(fault) => return Err(fault),
    };
    let _blocks = DataBlocks::new(ledger, name);
    let _unknown = search.unknown();
    match search.fates(alloc, &ledger.lattice()) {
        Ok(fates) => Ok(plan_of(search, fates)),
        Err(_) => Err(SearchFault::NoMemory),
    }
}

// The refusal for the block of these listed nodes.
fn undetermined(mut fates: FateList, at: usize) -> FetchFault
    requires { (b : BlockId) × (nodes : List ℕ) × (slice_get fates at ≡ Some (Word b nodes)) }
    ensures { (b : BlockId) (nodes : List ℕ) → slice_get fates at ≡ Some (Word b nodes) → result ≡ FetchFault.Undetermined b nodes }
{
    match fates.take(at) {
        Some(Fate::Word { block, nodes }) => FetchFault::Undetermined { block, nodes },
        _ => unreachable!(),
    }
}

/// Reads the object's own cells, and where some are damaged what is around these; finds the fates of the damaged blocks; and where
/// these give each damaged data block of the object computes it once. `cell` has the bytes of a cell, B + 48, and `sum` those of a
/// block, B; what is in them is of no use. Nothing is written. It takes what a `Search` and its fates take.
pub(crate) fn first_pass<D: Disk>(
    alloc: Global,
    ledger: &Ledger,
    disk: &mut D,
    name: &[u8],
    cell: &mut [u8],
    sum: &mut [u8],
) -> Result<Plan, FetchFault>
    requires cell { length cell.old ≡ cell_size ledger.now.shape }
    requires sum { length sum.old ≡ ledger.now.shape.block }
    ensures planned { IfOk result (λ p. All (IsPlanned D.reveals ledger.now (D.state disk.old).files p.search.unknown p.fates) (data_under (get ledger.now.objects name.now))) }

    // The block that is not determined.
    ensures undetermined { (b : BlockId) (nodes : List ℕ) → result ≡ Err (FetchFault.Undetermined b nodes) → IsOneOf (data_under (get ledger.now.objects name.now)) b × ((test : BlockId → Bool) × IsWord ledger.now.lattice test b nodes)
        × (D.reveals → (known : BlockId → Bool) → RevealsSurvivors ledger.now.shape ledger.now.lattice.n ledger.now.digests (D.state disk.old).files known → IsFirstOpen ledger.now.lattice known (data_under (get ledger.now.objects name.now)) b nodes) }
    ensures determined { D.reveals → (known : BlockId → Bool) → RevealsSurvivors ledger.now.shape ledger.now.lattice.n ledger.now.digests (D.state disk.old).files known
        → All (Determines ledger.now.lattice known) (data_under (get ledger.now.objects name.now)) ⊎ (((b : BlockId) × (nodes : List ℕ) × (result ≡ Err (FetchFault.Undetermined b nodes))) ⊎ IsOutside result) }

    // A clash.
    ensures clash { (d : BlockId) (revealed computed : List ℕ) → result ≡ Err (FetchFault.Clash d revealed computed) → IsOtherDigest ledger.now d revealed computed }
    ensures computed { (d : BlockId) (revealed computed : List ℕ) → result ≡ Err (FetchFault.Clash d revealed computed) → D.reveals → (known : BlockId → Bool)
        → RevealsSurvivors ledger.now.shape ledger.now.lattice.n ledger.now.digests (D.state disk.old).files known
        → IsOneOf (data_under (get ledger.now.objects name.now)) d × ((known d ≡ false) × IsClash ledger.now known (D.state disk.old).files d revealed computed) }
    ensures faults { IfErr result IsFirstFault }
    ensures reads { OnlyReads D.reveals (result ≡ Err FetchFault.DiskFault) (D.state disk.old) (D.state disk.new) }
{
    passing_are_among();
    sums_are_determined();
    words_are_open();
    survivors_are_revealed();
    let _blocks = DataBlocks::new(ledger, name);
    let plan = match plan_object(alloc, ledger, disk, name, cell) {
        Ok(plan) => plan,
        Err(SearchFault::DiskFault) => return Err(FetchFault::DiskFault),
        Err(SearchFault::NoMemory) => return Err(FetchFault::NoMemory),
    };
    if let Some(at) = first_lost(ledger, name, &plan.fates) {
        return Err(undetermined(plan.fates, at));
    }
    match check_sums(
        ledger,
        disk,
        name,
        plan.search.unknown(),
        &plan.fates,
        cell,
        sum,
    ) {
        Ok(()) => Ok(plan),
        Err(fault) => Err(FetchFault::from(fault)),
    }
}
