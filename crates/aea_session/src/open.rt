//! An upload that is opened.

ghost use Rattle.std.specs.Prelude.{◌≡◌, ◌<◌, None, IfOk, IsErr};
ghost use Rattle.std.specs.List.{list_any};
ghost use Rattle.aea_messages.specs.declared.message.Message.TheVariants.{Open};
ghost use Rattle.aea_machine.specs.Machine.{Machine, step, slots_count};
ghost use Rattle.aea_session.specs.Opening.{keeps_name, opened_unless};
ghost use Rattle.aea_session.specs.Stands.{KeepsMachine, KeepsSomeMachine};
ghost use Rattle.aea_session.specs.Steps.{MakesStep, KeepsArchive, made_by};

use crate::work::Work;
use aea_catalog::check_name;
use aea_machine::{Refusal, limits_stay, names_stay_own};
use aea_uploads::Slot;
use std::alloc::{AllocError, Global};

// Whether an upload of this name is kept in the slot.
fn is_named(slot: &Option<Slot>, name: &[u8]) -> bool
    ensures { result ≡ keeps_name name.now slot.now }
{
    match slot {
        Some(upload) => name == upload.name.bytes(),
        None => false,
    }
}

// Whether an upload of this name is kept in some slot.
fn is_open(slots: &[Option<Slot>], name: &[u8]) -> bool
    ensures { result ≡ list_any (keeps_name name.now) slots.now }
{
    for slot in slots {
        if is_named(slot, name) {
            return true;
        }
    }
    false
}

// Why an open of this name in the slot is refused, if it is.
fn open_refusal(work: &Work, slot: u8, name: &[u8]) -> Option<Refusal>
    ensures steps { (m : Machine) → KeepsMachine work.now m → step work.now.ledger.shape m (Open slot name.now) ≡ opened_unless m slot name.now result }
    ensures inside { result ≡ None → slot < slots_count }
{
    if slot >= 16 {
        return Some(Refusal::BadSlot);
    }
    if work.slots[slot as usize].is_some() {
        return Some(Refusal::SlotTaken);
    }
    if !check_name(name) {
        return Some(Refusal::BadName);
    }
    if work.ledger.catalog().find(name).is_some() {
        return Some(Refusal::NameTaken);
    }
    if is_open(&work.slots, name) {
        return Some(Refusal::NameOpen);
    }
    None
}

/// Opens an upload under this name in the slot. It takes the memory of the name, some 120 bytes and one block, B bytes; want of
/// it is the only error, and leaves all as it was. No disk is used.
pub fn open_upload(
    alloc: Global,
    work: &mut Work,
    slot: u8,
    name: &[u8],
) -> Result<Result<(), Refusal>, AllocError>
    requires keeps { KeepsSomeMachine work.old }
    ensures steps { IfOk result (λ made. MakesStep made_by work.old work.new (Open slot name.now) made) }
    ensures archive { KeepsArchive work.old work.new }
    ensures unchanged { IsErr result → work.new ≡ work.old }
{
    names_stay_own();
    limits_stay();
    if let Some(refusal) = open_refusal(work, slot, name) {
        return Ok(Err(refusal));
    }
    let upload = Slot::new(alloc, &work.ledger.shape(), name)?;
    work.slots[slot as usize] = Some(upload);
    Ok(Ok(()))
}
