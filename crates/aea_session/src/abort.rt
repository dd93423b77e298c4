//! An upload that is given up.

ghost use Rattle.std.specs.Prelude.{◌≡◌};
ghost use Rattle.aea_messages.specs.declared.message.Message.TheVariants.{Abort};
ghost use Rattle.aea_session.specs.Stands.{KeepsSomeMachine};
ghost use Rattle.aea_session.specs.Steps.{MakesStep, KeepsArchive, made_by};

use crate::work::Work;
use aea_machine::{Refusal, limits_stay, names_stay_own};

/// Gives up the upload in the slot: the slot is free, and the memory of the upload is given back. The blocks that were woven
/// of it stay in W, and the next close records them. No disk is used, and no memory is taken.
pub fn abort_upload(work: &mut Work, slot: u8) -> Result<(), Refusal>
    requires keeps { KeepsSomeMachine work.old }
    ensures steps { MakesStep made_by work.old work.new (Abort slot) result }
    ensures archive { KeepsArchive work.old work.new }
{
    names_stay_own();
    limits_stay();
    if slot >= 16 {
        return Err(Refusal::BadSlot);
    }
    if work.slots[slot as usize].is_none() {
        return Err(Refusal::SlotFree);
    }
    work.slots[slot as usize] = None;
    Ok(())
}
