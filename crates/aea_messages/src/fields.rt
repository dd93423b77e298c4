//! The fields of messages.

ghost use Rattle.std.specs.Prelude.{◌≡◌, ◌≢◌, ◌+◌, ◌<◌, ◌≤◌, ◌^◌, [], ◌∷◌, length, Err, IfOk};
ghost use Rattle.std.specs.Int.{w16, w32, to_be_bytes};
ghost use Rattle.aea_faults.specs.Faults.{Rose};
ghost use Rattle.aea_records.specs.TableLaws.{AreBytes};
ghost use Rattle.aea_messages.specs.Fields.{FillsField, ReadsField};

use crate::fault::MessageFault;
use crate::message::ChunkBytes;
use aea_catalog::NameText;
use aea_io::{FillFault, Source, fill};
use std::alloc::Global;

// These are bytes.
fn are_bytes(bytes: &[u8])
    ensures { AreBytes bytes.now }
{
    let _first = bytes.first();
}

// Fills the buffer with the bytes of a field.
fn fill_field<S: Source>(source: &mut S, buf: &mut [u8], at: &mut u64) -> Result<(), MessageFault>
    requires count { at.old + length buf.old < 2 ^ 64 }
    ensures fills { FillsField (S.state source.old).left (S.state source.new).left at.old at.new buf.new result }
    ensures bytes { AreBytes buf.new }
    ensures memory { result ≢ Err MessageFault.NoMemory }
    ensures kept { (S.state source.old).faults ≤ (S.state source.new).faults }
    ensures cause { result ≡ Err MessageFault.ReadFault → Rose (S.state source.old).faults (S.state source.new).faults }
    ensures still { result ≢ Err MessageFault.ReadFault → (S.state source.new).faults ≡ (S.state source.old).faults }
{
    let filled = fill(source, buf, at);
    are_bytes(buf);
    match filled {
        Ok(()) => Ok(()),
        Err(FillFault::Ended) => Err(MessageFault::BadStream { at: *at }),
        Err(FillFault::ReadFault) => Err(MessageFault::ReadFault),
    }
}

// A byte.
pub(crate) fn take_byte<S: Source>(source: &mut S, at: &mut u64) -> Result<u8, MessageFault>
    requires count { at.old ≤ 2 ^ 63 + 65536 }
    ensures reads { ReadsField (S.state source.old).left (S.state source.new).left at.old at.new 1 (λ byte. byte ∷ []) result }
    ensures memory { result ≢ Err MessageFault.NoMemory }
    ensures kept { (S.state source.old).faults ≤ (S.state source.new).faults }
    ensures cause { result ≡ Err MessageFault.ReadFault → Rose (S.state source.old).faults (S.state source.new).faults }
    ensures still { result ≢ Err MessageFault.ReadFault → (S.state source.new).faults ≡ (S.state source.old).faults }
{
    let mut one = [0; 1];
    match fill_field(source, &mut one, at) {
        Ok(()) => Ok(one[0]),
        Err(fault) => Err(fault),
    }
}

// A number in 2 bytes.
pub(crate) fn take_short<S: Source>(source: &mut S, at: &mut u64) -> Result<u16, MessageFault>
    requires count { at.old ≤ 2 ^ 63 + 65536 }
    ensures reads { ReadsField (S.state source.old).left (S.state source.new).left at.old at.new 2 (λ number. to_be_bytes w16 number) result }
    ensures memory { result ≢ Err MessageFault.NoMemory }
    ensures kept { (S.state source.old).faults ≤ (S.state source.new).faults }
    ensures cause { result ≡ Err MessageFault.ReadFault → Rose (S.state source.old).faults (S.state source.new).faults }
    ensures still { result ≢ Err MessageFault.ReadFault → (S.state source.new).faults ≡ (S.state source.old).faults }
{
    let mut two = [0; 2];
    match fill_field(source, &mut two, at) {
        Ok(()) => Ok(u16::from_be_bytes(two)),
        Err(fault) => Err(fault),
    }
}

// A number in 4 bytes.
pub(crate) fn take_long<S: Source>(source: &mut S, at: &mut u64) -> Result<u32, MessageFault>
    requires count { at.old ≤ 2 ^ 63 + 65536 }
    ensures reads { ReadsField (S.state source.old).left (S.state source.new).left at.old at.new 4 (λ number. to_be_bytes w32 number) result }
    ensures memory { result ≢ Err MessageFault.NoMemory }
    ensures kept { (S.state source.old).faults ≤ (S.state source.new).faults }
    ensures cause { result ≡ Err MessageFault.ReadFault → Rose (S.state source.old).faults (S.state source.new).faults }
    ensures still { result ≢ Err MessageFault.ReadFault → (S.state source.new).faults ≡ (S.state source.old).faults }
{
    let mut four = [0; 4];
    match fill_field(source, &mut four, at) {
        Ok(()) => Ok(u32::from_be_bytes(four)),
        Err(fault) => Err(fault),
    }
}

// So many bytes.
fn take_bytes<S: Source>(
    alloc: Global,
    source: &mut S,
    long: usize,
    at: &mut u64,
) -> Result<Vec<u8>, MessageFault>
    requires count { at.old ≤ 2 ^ 63 + 65536 }
    requires long { long ≤ 65536 }
    ensures reads { ReadsField (S.state source.old).left (S.state source.new).left at.old at.new long (λ bytes. bytes.items) result }
    ensures wide { IfOk result (λ bytes. length bytes.items ≡ long) }
    ensures bytes { IfOk result (λ bytes. AreBytes bytes.items) }
    ensures kept { (S.state source.old).faults ≤ (S.state source.new).faults }
    ensures cause { result ≡ Err MessageFault.ReadFault → Rose (S.state source.old).faults (S.state source.new).faults }
    ensures still { result ≢ Err MessageFault.ReadFault → (S.state source.new).faults ≡ (S.state source.old).faults }
{
    let Ok(mut bytes) = vec![in alloc; 0u8; long] else {
        return Err(MessageFault::NoMemory);
    };
    match fill_field(source, &mut bytes, at) {
        Ok(()) => Ok(bytes),
        Err(fault) => Err(fault),
    }
}

// A name of so many bytes.
pub(crate) fn take_name<S: Source>(
    alloc: Global,
    source: &mut S,
    long: usize,
    at: &mut u64,
) -> Result<NameText, MessageFault>
    requires count { at.old ≤ 2 ^ 63 + 65536 }
    requires long { long ≤ 65536 }
    ensures reads { ReadsField (S.state source.old).left (S.state source.new).left at.old at.new long (λ name. name) result }
    ensures wide { IfOk result (λ name. length name ≡ long) }
    ensures bytes { IfOk result (λ name. AreBytes name) }
    ensures kept { (S.state source.old).faults ≤ (S.state source.new).faults }
    ensures cause { result ≡ Err MessageFault.ReadFault → Rose (S.state source.old).faults (S.state source.new).faults }
    ensures still { result ≢ Err MessageFault.ReadFault → (S.state source.new).faults ≡ (S.state source.old).faults }
{
    let bytes = match take_bytes(alloc, source, long, at) {
        Ok(bytes) => bytes,
        Err(fault) => return Err(fault),
    };
    match NameText::copied(alloc, &bytes) {
        Ok(name) => Ok(name),
        Err(_) => Err(MessageFault::NoMemory),
    }
}

// The bytes of a chunk, so many.
pub(crate) fn take_chunk<S: Source>(
    alloc: Global,
    source: &mut S,
    long: usize,
    at: &mut u64,
) -> Result<ChunkBytes, MessageFault>
    requires count { at.old ≤ 2 ^ 63 + 65536 }
    requires long { long ≤ 65536 }
    ensures reads { ReadsField (S.state source.old).left (S.state source.new).left at.old at.new long (λ bytes. bytes) result }
    ensures wide { IfOk result (λ bytes. length bytes ≡ long) }
    ensures bytes { IfOk result (λ bytes. AreBytes bytes) }
    ensures kept { (S.state source.old).faults ≤ (S.state source.new).faults }
    ensures cause { result ≡ Err MessageFault.ReadFault → Rose (S.state source.old).faults (S.state source.new).faults }
    ensures still { result ≢ Err MessageFault.ReadFault → (S.state source.new).faults ≡ (S.state source.old).faults }
{
    match take_bytes(alloc, source, long, at) {
        Ok(bytes) => Ok(ChunkBytes::of(bytes)),
        Err(fault) => Err(fault),
    }
}
