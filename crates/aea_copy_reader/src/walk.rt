//! A copy is walked from gate to gate, with the other copy and the ledger beside it.

ghost use Rattle.std.specs.Prelude.{◌≡◌, ◌⊎◌, ◌≤◌, ℕ, List, true, false, IsErr, IfOk, OnOk};
ghost use Rattle.aea_disk.specs.Ends.{greatest_place};
ghost use Rattle.aea_disk.specs.Frames.{OnlyReads};
ghost use Rattle.aea_copy_reader.specs.Judging.{HasRead, IsJudged, IsNear};
ghost use Rattle.aea_copy_reader.specs.Walking.{HaveCommon};
ghost use Rattle.aea_copy_reader.specs.Seen.{AreSeen};

use crate::entries::turn_at;
use crate::known::{Judged, Standing, Turn, Walked};
use crate::range::Pair;
use crate::window::Window;
use aea_disk::{Disk, DiskFault};

// The last gate up to which both copies are the same: the next one where they still are.
fn further(common: Standing, next: Standing, same: bool) -> Standing
    ensures on { same ≡ true → result ≡ next }
    ensures stays { same ≡ false → result ≡ common }
    ensures either { (result ≡ next) ⊎ (result ≡ common) }
{
    if same { next } else { common }
}

/// Walks a copy from a gate on, and judges it. It says up to which gate the other copy is the same, where it had all that was
/// before the first one.
pub fn walk<D: Disk>(
    disk: &mut D,
    pair: Pair,
    from: &Standing,
    own: &mut Window,
    twin: &mut Window,
    ledger: &mut Window,
    had: bool,
) -> Result<Walked, DiskFault>
    requires file { (pair.file ≤ 66) × (pair.other ≤ 66) }
    requires place { from.now.place ≤ greatest_place }
    requires small { from.now.text ≤ from.now.place }
    requires read { D.reveals → (pieces : List (List ℕ)) × HasRead ((D.state disk.old).files 0) ((D.state disk.old).files pair.file) pieces from.now }
    requires seen { D.reveals → AreSeen (D.state disk.old).files pair.file pair.other own.old twin.old ledger.old }
    ensures judged { IfOk result (λ w. D.reveals → IsJudged (D.state disk.old).files pair.file w.judged) }
    ensures near { IfOk result (λ w. IsNear w.judged) }
    ensures common { IfOk result (λ w. D.reveals → had ≡ true → (pieces : List (List ℕ)) → HasRead ((D.state disk.old).files 0) ((D.state disk.old).files pair.file) pieces from.now → HasRead ((D.state disk.old).files 0) ((D.state disk.old).files pair.other) pieces from.now
        → HaveCommon ((D.state disk.old).files 0) ((D.state disk.old).files pair.file) ((D.state disk.old).files pair.other) w) }
    ensures small { IfOk result (λ w. (w.common.place ≤ greatest_place) × (w.common.text ≤ w.common.place)) }
    ensures seen { OnOk result (D.reveals → AreSeen (D.state disk.old).files pair.file pair.other own.new twin.new ledger.new) }
    ensures reads { OnlyReads D.reveals (IsErr result) (D.state disk.old) (D.state disk.new) }
{
    let mut stands = *from;
    let mut common = *from;
    let mut same = had;
    'entries: loop {
        match turn_at(disk, pair, &stands, own, twin, ledger, same)? {
            Turn::Ends => {
                return Ok(Walked {
                    judged: Judged::Good(stands),
                    common,
                    same,
                });
            }
            Turn::BadHere => {
                return Ok(Walked {
                    judged: Judged::Bad { at: stands.place },
                    common,
                    same,
                });
            }
            Turn::GoesOn { next, same: still } => {
                common = further(common, next, still);
                stands = next;
                same = still;
            }
        }
    }
}
