//! The rest of a message behind its first byte, for each kind of message.

ghost use Rattle.std.specs.Prelude.{◌≡◌, ◌≢◌, ◌+◌, ◌≤◌, ◌^◌, [], ◌∷◌, Err};
ghost use Rattle.aea_faults.specs.Faults.{Rose};
ghost use Rattle.aea_messages.specs.Fields.{ReadsBehind};

use crate::fault::MessageFault;
use crate::fields::{take_byte, take_chunk, take_long, take_name, take_short};
use crate::message::Message;
use aea_io::Source;
use std::alloc::Global;

// The most bytes of a chunk.
const GREATEST_CHUNK: u32 = 65_536;

// The rest of an open.
fn read_open<S: Source>(
    alloc: Global,
    source: &mut S,
    at: &mut u64,
) -> Result<Message, MessageFault>
    requires count { at.old ≤ 2 ^ 63 + 1 }
    ensures reads { ReadsBehind (1 ∷ []) (S.state source.old).left (S.state source.new).left at.old at.new result }
    ensures kept { (S.state source.old).faults ≤ (S.state source.new).faults }
    ensures cause { result ≡ Err MessageFault.ReadFault → Rose (S.state source.old).faults (S.state source.new).faults }
    ensures still { result ≢ Err MessageFault.ReadFault → (S.state source.new).faults ≡ (S.state source.old).faults }
{
    let slot = match take_byte(source, at) {
        Ok(slot) => slot,
        Err(fault) => return Err(fault),
    };
    let long = match take_short(source, at) {
        Ok(long) => long,
        Err(fault) => return Err(fault),
    };
    let name = match take_name(alloc, source, usize::from(long), at) {
        Ok(name) => name,
        Err(fault) => return Err(fault),
    };
    Ok(Message::Open { slot, name })
}

// The rest of a chunk.
fn read_chunk<S: Source>(
    alloc: Global,
    source: &mut S,
    at: &mut u64,
) -> Result<Message, MessageFault>
    requires count { at.old ≤ 2 ^ 63 + 1 }
    ensures reads { ReadsBehind (2 ∷ []) (S.state source.old).left (S.state source.new).left at.old at.new result }
    ensures kept { (S.state source.old).faults ≤ (S.state source.new).faults }
    ensures cause { result ≡ Err MessageFault.ReadFault → Rose (S.state source.old).faults (S.state source.new).faults }
    ensures still { result ≢ Err MessageFault.ReadFault → (S.state source.new).faults ≡ (S.state source.old).faults }
{
    let slot = match take_byte(source, at) {
        Ok(slot) => slot,
        Err(fault) => return Err(fault),
    };
    let place = *at;
    let long = match take_long(source, at) {
        Ok(long) => long,
        Err(fault) => return Err(fault),
    };
    if long > GREATEST_CHUNK {
        return Err(MessageFault::BadMessage { at: place });
    }
    let bytes = match take_chunk(alloc, source, long as usize, at) {
        Ok(bytes) => bytes,
        Err(fault) => return Err(fault),
    };
    Ok(Message::Chunk { slot, bytes })
}

// The rest of a close.
fn read_close<S: Source>(source: &mut S, at: &mut u64) -> Result<Message, MessageFault>
    requires count { at.old ≤ 2 ^ 63 + 1 }
    ensures reads { ReadsBehind (3 ∷ []) (S.state source.old).left (S.state source.new).left at.old at.new result }
    ensures kept { (S.state source.old).faults ≤ (S.state source.new).faults }
    ensures cause { result ≡ Err MessageFault.ReadFault → Rose (S.state source.old).faults (S.state source.new).faults }
    ensures still { result ≢ Err MessageFault.ReadFault → (S.state source.new).faults ≡ (S.state source.old).faults }
{
    let slot = match take_byte(source, at) {
        Ok(slot) => slot,
        Err(fault) => return Err(fault),
    };
    Ok(Message::Close { slot })
}

// The rest of an abort.
fn read_abort<S: Source>(source: &mut S, at: &mut u64) -> Result<Message, MessageFault>
    requires count { at.old ≤ 2 ^ 63 + 1 }
    ensures reads { ReadsBehind (4 ∷ []) (S.state source.old).left (S.state source.new).left at.old at.new result }
    ensures kept { (S.state source.old).faults ≤ (S.state source.new).faults }
    ensures cause { result ≡ Err MessageFault.ReadFault → Rose (S.state source.old).faults (S.state source.new).faults }
    ensures still { result ≢ Err MessageFault.ReadFault → (S.state source.new).faults ≡ (S.state source.old).faults }
{
    let slot = match take_byte(source, at) {
        Ok(slot) => slot,
        Err(fault) => return Err(fault),
    };
    Ok(Message::Abort { slot })
}

// The rest of a read.
fn read_read<S: Source>(
    alloc: Global,
    source: &mut S,
    at: &mut u64,
) -> Result<Message, MessageFault>
    requires count { at.old ≤ 2 ^ 63 + 1 }
    ensures reads { ReadsBehind (5 ∷ []) (S.state source.old).left (S.state source.new).left at.old at.new result }
    ensures kept { (S.state source.old).faults ≤ (S.state source.new).faults }
    ensures cause { result ≡ Err MessageFault.ReadFault → Rose (S.state source.old).faults (S.state source.new).faults }
    ensures still { result ≢ Err MessageFault.ReadFault → (S.state source.new).faults ≡ (S.state source.old).faults }
{
    let long = match take_short(source, at) {
        Ok(long) => long,
        Err(fault) => return Err(fault),
    };
    let name = match take_name(alloc, source, usize::from(long), at) {
        Ok(name) => name,
        Err(fault) => return Err(fault),
    };
    Ok(Message::Read { name })
}

// The rest of a patrol.
fn read_patrol<S: Source>(source: &mut S, at: &mut u64) -> Result<Message, MessageFault>
    requires count { at.old ≤ 2 ^ 63 + 1 }
    ensures reads { ReadsBehind (6 ∷ []) (S.state source.old).left (S.state source.new).left at.old at.new result }
    ensures kept { (S.state source.old).faults ≤ (S.state source.new).faults }
    ensures cause { result ≡ Err MessageFault.ReadFault → Rose (S.state source.old).faults (S.state source.new).faults }
    ensures still { result ≢ Err MessageFault.ReadFault → (S.state source.new).faults ≡ (S.state source.old).faults }
{
    let first = match take_long(source, at) {
        Ok(first) => first,
        Err(fault) => return Err(fault),
    };
    let count = match take_long(source, at) {
        Ok(count) => count,
        Err(fault) => return Err(fault),
    };
    Ok(Message::Patrol { first, count })
}

// The rest of a message of this kind; `at` stands behind it.
pub(crate) fn read_kind<S: Source>(
    alloc: Global,
    source: &mut S,
    kind: u8,
    at: &mut u64,
) -> Result<Message, MessageFault>
    requires count { at.old ≤ 2 ^ 63 + 1 }
    requires some { 1 ≤ at.old }
    ensures reads { ReadsBehind (kind ∷ []) (S.state source.old).left (S.state source.new).left at.old at.new result }
    ensures kept { (S.state source.old).faults ≤ (S.state source.new).faults }
    ensures cause { result ≡ Err MessageFault.ReadFault → Rose (S.state source.old).faults (S.state source.new).faults }
    ensures still { result ≢ Err MessageFault.ReadFault → (S.state source.new).faults ≡ (S.state source.old).faults }
{
    match kind {
        1 => read_open(alloc, source, at),
        2 => read_chunk(alloc, source, at),
        3 => read_close(source, at),
        4 => read_abort(source, at),
        5 => read_read(alloc, source, at),
        6 => read_patrol(source, at),
        _ => Err(MessageFault::BadMessage { at: *at - 1 }),
    }
}
