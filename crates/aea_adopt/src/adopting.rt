//! Both copies are adopted.

ghost use Rattle.std.specs.Prelude.{◌≡◌, ◌≢◌, ◌≤◌, ℕ, List, Ok, Err, IsErr, IfOk, OnOk};
ghost use Rattle.aea_disk.specs.Ends.{greatest_place};
ghost use Rattle.aea_disk.specs.Files.{Files, KeepsFiles};
ghost use Rattle.aea_disk.specs.State.{During, KeepsImages, IsSynced};
ghost use Rattle.aea_disk.specs.Frames.{OnlyWrites};
ghost use Rattle.aea_copies.specs.Kept.{IsCopyFile, LeavesAdopted};
ghost use Rattle.aea_ledger.specs.Stops.{IsOpened, HasOpening};
ghost use Rattle.aea_adopt.specs.Adopting.{IsAdopted, IsAnswered, IsTrueOf, AreNear, MayBeAdopted, IsSite, IsOff, RevealsKept};
ghost use Rattle.aea_adopt.specs.Choosing.{IsKept};
ghost use Rattle.aea_adopt.specs.Mending.{FitsAdopting};
ghost use Rattle.aea_adopt.specs.Keeping.{IsKnown, MayBeKept, AllKept, FitsKeeping};
ghost use Rattle.aea_adopt.specs.declared.answers.AdoptFault.{AdoptFault};

use crate::answers::{AdoptFault, Adopted};
use crate::choice::{Choice, Kept, choose};
use crate::mend::mend_ledger;
use crate::renew::renew;
use aea_copy_reader::{Judgement, judge_copies};
use aea_disk::{Disk, DiskFault};

// The ledger becomes the one that is kept, and then each copy becomes whole that is not.
fn keep<D: Disk>(disk: &mut D, judgement: &Judgement, kept: &Kept) -> Result<(), DiskFault>
    requires close { kept.now.standing.text ≤ greatest_place }
    requires source { IsCopyFile kept.now.source }
    requires synced { D.reveals → IsSynced (D.state disk.old) }
    requires known { D.reveals → (pieces : List (List ℕ)) × IsKnown (D.state disk.old).files pieces judgement.now kept.now }
    ensures any_moment { D.reveals → (pieces : List (List ℕ)) → IsKnown (D.state disk.old).files pieces judgement.now kept.now → During (D.state disk.old) (D.state disk.new) (λ c. MayBeKept pieces (D.state disk.old).files c) }
    ensures reads { D.reveals → (pieces : List (List ℕ)) → IsKnown (D.state disk.old).files pieces judgement.now kept.now → MayBeKept pieces (D.state disk.old).files (D.state disk.new).files }
    ensures kept { OnOk result (D.reveals → (pieces : List (List ℕ)) → IsKnown (D.state disk.old).files pieces judgement.now kept.now → AllKept pieces (D.state disk.old).files (D.state disk.new).files) }
    ensures idle { D.reveals → (pieces : List (List ℕ)) → IsKnown (D.state disk.old).files pieces judgement.now kept.now → AllKept pieces (D.state disk.old).files (D.state disk.old).files → KeepsImages (D.state disk.old) (D.state disk.new) × ((D.state disk.new).files ≡ (D.state disk.old).files) }
    ensures durable { OnOk result (D.reveals → IsSynced (D.state disk.new)) }
    ensures writes { OnlyWrites D.reveals (D.state disk.old).free (FitsKeeping (D.state disk.old) judgement.now kept.now) (IsErr result) (KeepsFiles IsSite) (D.state disk.old) (D.state disk.new) }
{
    mend_ledger(disk, kept)?;
    renew(disk, 65, &judgement.first, kept.standing.text)?;
    renew(disk, 66, &judgement.second, kept.standing.text)
}

// What is said where copies are not on.
fn off() -> Adopted
    ensures off { IsOff result }
    ensures near { AreNear result }
{
    Adopted {
        on: false,
        end: 0,
        gates: [0; 2],
        links: [[0; 32]; 2],
    }
}

// What is said of what is kept. A good copy has text, so copies are on; that this is asked here makes it true of any disk that
// some text is kept where they are.
fn adopted_of(kept: &Kept) -> Adopted
    requires close { (kept.now.standing.text ≤ greatest_place) × (kept.now.standing.place ≤ greatest_place) }
    ensures revealed { (files : Files) (pieces : List (List ℕ)) → IsKept files pieces kept.now → RevealsKept pieces result }
    ensures near { AreNear result }
{
    let place = kept.standing.place;
    let link = kept.standing.link;
    Adopted {
        on: kept.standing.text > 0,
        end: kept.standing.text,
        gates: [place; 2],
        links: [link; 2],
    }
}

// Adopts copies of a disk on which nothing is pending.
fn adopt_synced<D: Disk>(disk: &mut D) -> Result<Adopted, AdoptFault>
    requires synced { D.reveals → IsSynced (D.state disk.old) }
    ensures any_moment { D.reveals → During (D.state disk.old) (D.state disk.new) (λ c. MayBeAdopted (D.state disk.old).files c) }
    ensures answers { D.reveals → IsAdopted (D.state disk.old).files (D.state disk.new).files result }
    ensures near { IfOk result AreNear }
    ensures idle { D.reveals → LeavesAdopted (D.state disk.old).files (D.state disk.old).files → KeepsImages (D.state disk.old) (D.state disk.new) × ((D.state disk.new).files ≡ (D.state disk.old).files) }
    ensures synced { result ≢ Err AdoptFault.DiskFault → D.reveals → IsSynced (D.state disk.new) }
    ensures writes { OnlyWrites D.reveals (D.state disk.old).free (FitsAdopting (D.state disk.old)) (result ≡ Err AdoptFault.DiskFault) (KeepsFiles IsSite) (D.state disk.old) (D.state disk.new) }
{
    let judgement = judge_copies(disk)?;
    match choose(&judgement) {
        Choice::Off => Ok(off()),
        Choice::Bad { first, second } => Err(AdoptFault::CopiesBad { first, second }),
        Choice::Differ { at } => Err(AdoptFault::CopiesDiffer { at }),
        Choice::Keep(kept) => {
            keep(disk, &judgement, &kept)?;
            Ok(adopted_of(&kept))
        }
    }
}

/// Adopts the copies of the ledger. Where no copy is begun nothing is done. Where one is good the ledger becomes the one that is
/// made where the longer text of the good copies is kept, and each copy that is bad or has less text is made anew; then it
/// tells what is kept. Where none is good, or both are and neither text begins with the other, nothing is changed, and it says
/// so. At each moment from its first sync on a good copy has the text that is kept, if one had it. It takes no memory.
pub fn adopt<D: Disk>(disk: &mut D) -> Result<Adopted, AdoptFault>
    // Each answer has its cause in the files as they read, and says what it leaves.
    ensures answers { D.reveals → IsAdopted (D.state disk.old).files (D.state disk.new).files result }
    // What is said at Ok is true of the files as they read then; and over any disk it has no place that is too far.
    ensures revealed { IfOk result (λ a. D.reveals → IsTrueOf (D.state disk.new).files a) }
    ensures near { IfOk result AreNear }
    // But for a fault of the disk each kind of files has its answer.
    ensures exactly { D.reveals → IsAnswered (D.state disk.old).files result }
    // Where there is nothing to write, nothing is written.
    ensures idle { D.reveals → LeavesAdopted (D.state disk.old).files (D.state disk.old).files → KeepsImages (D.state disk.old) (D.state disk.new) × ((D.state disk.new).files ≡ (D.state disk.old).files) }
    // What a stop leaves: up to the first sync the images at the entry; from then on a good copy in each, if there was one.
    ensures stops { D.reveals → HasOpening (D.state disk.old) (D.state disk.new) (λ c. MayBeAdopted (D.state disk.old).files c) }
    ensures opened { result ≢ Err AdoptFault.DiskFault → D.reveals → IsOpened (D.state disk.old) (D.state disk.new) (λ c. MayBeAdopted (D.state disk.old).files c) }
    ensures synced { result ≢ Err AdoptFault.DiskFault → D.reveals → IsSynced (D.state disk.new) }
    // Files 1 to 64 are not touched; when the disk is at fault.
    ensures writes { OnlyWrites D.reveals (D.state disk.old).free (FitsAdopting (D.state disk.old)) (result ≡ Err AdoptFault.DiskFault) (KeepsFiles IsSite) (D.state disk.old) (D.state disk.new) }
{
    disk.sync()?;
    adopt_synced(disk)
}
