//! The bytes of records.

ghost use Rattle.std.specs.Prelude.{◌≡◌, ◌+◌, ◌≤◌, ◌^◌, ◌<◌, [], ◌∷◌, ◌++◌, length, is_ok, if◌then◌else◌, option_map, IfOk, OnOk, IfSome};
ghost use Rattle.std.specs.List.{flat_map};
ghost use Rattle.std.specs.Int.{w32, to_be_bytes};
ghost use Rattle.aea_records.specs.Format.{Record, Object, Joined, Fence, Raise, front, part, body};
ghost use Rattle.aea_records.specs.Objects.{stored_as, made};

use crate::heads::ObjectFields;
use aea_catalog::Extent;
use std::alloc::{AllocError, Global};

/// What follows the gate of a fence that is the last record: its body, and a gate that is not open.
pub fn fence_body(node: u32) -> [u8; 10]
    ensures { result ≡ body (Fence node) ++ 0 ∷ [] }
{
    let [b0, b1, b2, b3] = node.to_be_bytes();
    [2, 0, 0, 0, 4, b0, b1, b2, b3, 0]
}

/// The same of a raise of the limit.
pub fn raise_body() -> [u8; 10]
    ensures { result ≡ body Raise ++ 0 ∷ [] }
{
    [4, 0, 0, 0, 4, 0, 0x10, 0, 0, 0]
}

// Puts bytes after others.
fn extend(bytes: &mut Vec<u8>, more: &[u8]) -> Result<(), AllocError>
    ensures items { bytes.new.items ≡ (if is_ok result then bytes.old.items ++ more.now else bytes.old.items) }
{
    bytes.extend_from_slice(more)
}

// The bytes of a record's body up to the number of its object's new nodes, where so many bytes follow the field that says
// so. There is space for so many more.
fn opened_body(
    alloc: Global,
    kind: u8,
    bytes: u32,
    name: &[u8],
    object: &ObjectFields,
    room: usize,
) -> Result<Vec<u8>, AllocError>
    requires name { length name.now ≤ 255 }
    requires room { room ≤ 2 ^ 40 }
    ensures items { IfOk result (λ start. start.items ≡ kind ∷ to_be_bytes w32 bytes ++ front (stored_as name.now object.now [])) }
    ensures digest { OnOk result (length object.now.digest ≡ 32) }
{
    let mut body = Vec::with_capacity(alloc, 55 + name.len() + room)?;
    body.push(kind)?;
    extend(&mut body, &bytes.to_be_bytes())?;
    extend(&mut body, &(name.len() as u16).to_be_bytes())?;
    extend(&mut body, name)?;
    extend(&mut body, &object.size.to_be_bytes())?;
    extend(&mut body, &object.digest)?;
    extend(&mut body, &object.first.to_be_bytes())?;
    extend(&mut body, &object.count.to_be_bytes())?;
    Ok(body)
}

// What comes before the digests in the body of an object whose nodes are all new.
fn alone_front(
    alloc: Global,
    name: &[u8],
    object: &ObjectFields,
    digests: &[[u8; 32]],
) -> Result<Vec<u8>, AllocError>
    requires name { length name.now ≤ 255 }
    requires digests { length digests.now ≤ 2 ^ 22 }
    ensures { IfOk result (λ bytes. bytes.items ++ flat_map (λ d. d) digests.now ≡ body (Object (stored_as name.now object.now digests.now))) }
{
    let rest = 50 + name.len() + digests.as_flattened().len();
    let body = opened_body(alloc, 1, rest as u32, name, object, 0)?;
    Ok(body)
}

// Puts a part after bytes.
fn extend_part(bytes: &mut Vec<u8>, extent: &Extent) -> Result<(), AllocError>
    ensures { OnOk result (bytes.new.items ≡ bytes.old.items ++ part extent.now) }
{
    extend(bytes, &extent.first.to_be_bytes())?;
    extend(bytes, &extent.count.to_be_bytes())
}

// Puts parts after bytes.
fn extend_parts(bytes: &mut Vec<u8>, parts: &[Extent]) -> Result<(), AllocError>
    ensures { OnOk result (bytes.new.items ≡ bytes.old.items ++ flat_map part parts.now) }
{
    for extent in parts {
        extend_part(bytes, extent)?;
    }
    Ok(())
}

// What comes before the digests in the body of an object in parts.
fn joined_front(
    alloc: Global,
    name: &[u8],
    object: &ObjectFields,
    parts: &[Extent],
    digests: &[[u8; 32]],
) -> Result<Vec<u8>, AllocError>
    requires name { length name.now ≤ 255 }
    requires parts { length parts.now ≤ 2 ^ 20 }
    requires digests { length digests.now ≤ 2 ^ 22 }
    ensures { IfOk result (λ bytes. bytes.items ++ flat_map (λ d. d) digests.now ≡ body (Joined (stored_as name.now object.now digests.now) parts.now)) }
{
    let room = 8 * parts.len();
    let rest = 54 + name.len() + room + digests.as_flattened().len();
    let mut body = opened_body(alloc, 3, rest as u32, name, object, 4 + room)?;
    extend(&mut body, &(parts.len() as u32).to_be_bytes())?;
    extend_parts(&mut body, parts)?;
    Ok(body)
}

/// What comes before the digests in the body of an object, which is in parts where there are some. It takes memory for these
/// bytes alone, and none for the digests.
pub fn body_front(
    alloc: Global,
    name: &[u8],
    object: &ObjectFields,
    parts: Option<&[Extent]>,
    digests: &[[u8; 32]],
) -> Result<Vec<u8>, AllocError>
    requires name { length name.now ≤ 255 }
    requires parts { IfSome parts (λ extents. length extents.now ≤ 2 ^ 20) }
    requires digests { length digests.now ≤ 2 ^ 22 }
    ensures { IfOk result (λ bytes. bytes.items ++ flat_map (λ d. d) digests.now ≡ body (made (stored_as name.now object.now digests.now) (option_map (λ extents. extents.now) parts.entry))) }
{
    match parts {
        None => alone_front(alloc, name, object, digests),
        Some(parts) => joined_front(alloc, name, object, parts, digests),
    }
}
