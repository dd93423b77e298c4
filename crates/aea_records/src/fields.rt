// Fields, judged in their order.

ghost use Rattle.std.specs.Prelude.{◌≡◌, ◌&&◌, ◌+◌, ◌≤◌, ◌<◌, ◌^◌, true, false, Bool, List, ℕ, length, IsTrue, IfOk, IfErr, OnOk, OnErr, Ok, Err};
ghost use Rattle.std.specs.Int.{w16, w32, w64, from_be_bytes};
ghost use Rattle.aea_lattice.specs.Fences.{greatest_fences, last_fence};
ghost use Rattle.aea_records.specs.Tables.{has, bytes_at};
ghost use Rattle.aea_records.specs.Known.{Known};
ghost use Rattle.aea_records.specs.Format.{nodes_for, raised_limit};
ghost use Rattle.aea_records.specs.Fields.{is_length, is_new_name, is_within, is_next_fence};
ghost use Rattle.aea_records.specs.Reads.{known_in, IsFrontJudged};

use aea_catalog::{Catalog, check_name};
use aea_lattice::{Lattice, Shape};

// The bytes of a field, or its place where they are not all there.
fn part(window: &[u8], at: usize, n: usize) -> Result<&[u8], u64>
    requires { at + n < 2 ^ 32 }
    ensures bytes { IfOk result (λ b. b.now ≡ bytes_at n at window.now) }
    ensures there { OnOk result (has window.now (at + n) ≡ true) }
    ensures place { IfErr result (λ place. place ≡ at) }
    ensures none { OnErr result (has window.now (at + n) ≡ false) }
{
    if window.len() < at + n {
        return Err(at as u64);
    }
    Ok(&window[at..at + n])
}

// A field that is a number of 2 bytes.
fn number16(window: &[u8], at: usize) -> Result<u16, u64>
    requires { at < 2 ^ 30 }
    ensures value { IfOk result (λ n. n ≡ from_be_bytes w16 (bytes_at 2 at window.now)) }
    ensures there { OnOk result (has window.now (at + 2) ≡ true) }
    ensures place { IfErr result (λ place. place ≡ at) }
    ensures none { OnErr result (has window.now (at + 2) ≡ false) }
{
    let bytes = part(window, at, 2)?;
    match bytes.first_chunk::<2>() {
        Some(chunk) => Ok(u16::from_be_bytes(*chunk)),
        None => unreachable!(),
    }
}

// A field that is a number of 4 bytes.
pub(crate) fn number32(window: &[u8], at: usize) -> Result<u32, u64>
    requires { at < 2 ^ 30 }
    ensures value { IfOk result (λ n. n ≡ from_be_bytes w32 (bytes_at 4 at window.now)) }
    ensures there { OnOk result (has window.now (at + 4) ≡ true) }
    ensures place { IfErr result (λ place. place ≡ at) }
    ensures none { OnErr result (has window.now (at + 4) ≡ false) }
{
    let bytes = part(window, at, 4)?;
    match bytes.first_chunk::<4>() {
        Some(chunk) => Ok(u32::from_be_bytes(*chunk)),
        None => unreachable!(),
    }
}

// A field that is a number of 8 bytes.
fn number64(window: &[u8], at: usize) -> Result<u64, u64>
    requires { at < 2 ^ 30 }
    ensures value { IfOk result (λ n. n ≡ from_be_bytes w64 (bytes_at 8 at window.now)) }
    ensures there { OnOk result (has window.now (at + 8) ≡ true) }
    ensures place { IfErr result (λ place. place ≡ at) }
    ensures none { OnErr result (has window.now (at + 8) ≡ false) }
{
    let bytes = part(window, at, 8)?;
    match bytes.first_chunk::<8>() {
        Some(chunk) => Ok(u64::from_be_bytes(*chunk)),
        None => unreachable!(),
    }
}

// The digest at a place.
fn digest_at(bytes: &[u8], at: usize) -> [u8; 32]
    requires { at + 32 ≤ length bytes.now }
    ensures { result ≡ bytes_at 32 at bytes.now }
{
    match bytes[at..].first_chunk::<32>() {
        Some(chunk) => *chunk,
        None => unreachable!(),
    }
}

// The digest at a place, or the place where it is not there.
fn digest_in(window: &[u8], at: usize) -> Result<[u8; 32], u64>
    requires { at < 2 ^ 30 }
    ensures value { IfOk result (λ d. d ≡ bytes_at 32 at window.now) }
    ensures there { OnOk result (has window.now (at + 32) ≡ true) }
    ensures place { IfErr result (λ place. place ≡ at) }
    ensures none { OnErr result (has window.now (at + 32) ≡ false) }
{
    part(window, at, 32)?;
    Ok(digest_at(window, at))
}

// Whether a fence may follow this node of the lattice.
pub(crate) fn is_next_fence(lattice: &Lattice, node: u32) -> bool
    ensures value { (known : Known) → known.nodes ≡ lattice.now.n → known.fences ≡ lattice.now.fences → result ≡ is_next_fence known node }
    ensures room { IsTrue result → (last_fence lattice.now.fences < lattice.now.n) × (length lattice.now.fences < greatest_fences) }
{
    if node != lattice.n {
        return false;
    }
    match lattice.fenced() {
        Some(_) => true,
        None => false,
    }
}

// How many nodes an object of so many bytes takes.
pub(crate) fn nodes_for(shape: &Shape, length: u64) -> u64
    ensures { result ≡ nodes_for shape.now length }
{
    length.div_ceil(u64::from(shape.block()))
}

// Whether so many new nodes are within the limit.
pub(crate) fn is_within(nodes: u32, raised: bool, count: u32) -> bool
    requires { nodes ≤ 1048576 }
    ensures value { (known : Known) → known.nodes ≡ nodes → known.raised ≡ raised → result ≡ is_within known count }
    ensures few { IsTrue result → nodes + count ≤ raised_limit }
{
    let limit = if raised { 1_048_576 } else { 65_536 };
    u64::from(nodes) + u64::from(count) <= limit
}

// The first fields of an object, up to its first new node.
#[derive(Clone, Copy)]
pub(crate) struct Front {
    pub(crate) long: usize,
    pub(crate) size: u64,
    pub(crate) digest: [u8; 32],
    pub(crate) first: u32,
}

// The length of a name, which is valid.
fn length_in(window: &[u8]) -> Result<usize, u64>
    ensures value { IfOk result (λ n. n ≡ from_be_bytes w16 (bytes_at 2 6 window.now)) }
    ensures there { OnOk result (has window.now 8 ≡ true) }
    ensures good { IfOk result (λ n. is_length n ≡ true) }
    ensures place { IfErr result (λ place. place ≡ 6) }
    ensures bad { OnErr result ((has window.now 8 && is_length (from_be_bytes w16 (bytes_at 2 6 window.now))) ≡ false) }
{
    let long = number16(window, 6)?;
    if long < 1 || long > 255 {
        return Err(6);
    }
    Ok(usize::from(long))
}

// Whether the name is one and is not taken.
fn is_new(catalog: &Catalog, name: &[u8]) -> bool
    ensures { (nodes : ℕ) (fences : List ℕ) (raised : Bool) → result ≡ is_new_name (known_in catalog.now.objects nodes fences raised) name.now }
{
    check_name(name) && catalog.find(name).is_none()
}

// The name of this length, and its place where it is not there or not valid.
fn name_in<'a>(catalog: &Catalog, long: usize, window: &'a [u8]) -> Result<&'a [u8], u64>
    requires { long ≤ 255 }
    ensures bytes { IfOk result (λ b. b.now ≡ bytes_at long 8 window.now) }
    ensures there { OnOk result (has window.now (8 + long) ≡ true) }
    ensures good { OnOk result ((nodes : ℕ) (fences : List ℕ) (raised : Bool) → is_new_name (known_in catalog.now.objects nodes fences raised) (bytes_at long 8 window.now) ≡ true) }
    ensures place { IfErr result (λ place. place ≡ 8) }
    ensures bad { OnErr result ((nodes : ℕ) (fences : List ℕ) (raised : Bool) → (has window.now (8 + long) && is_new_name (known_in catalog.now.objects nodes fences raised) (bytes_at long 8 window.now)) ≡ false) }
{
    let name = part(window, 8, long)?;
    if !is_new(catalog, name) {
        return Err(8);
    }
    Ok(name)
}

// The first fields of an object, where so many nodes come before it.
pub(crate) fn front_in(catalog: &Catalog, nodes: u32, window: &[u8]) -> Result<Front, u64>
    requires { nodes ≤ 1048576 }
    ensures judged { (fences : List ℕ) (raised : Bool) → IsFrontJudged (known_in catalog.now.objects nodes fences raised) window.now result }
    ensures short { IfOk result (λ f. f.long ≤ 255) }
    ensures near { IfErr result (λ at. at ≤ 315) }
{
    let long = length_in(window)?;
    name_in(catalog, long, window)?;
    let size = number64(window, 8 + long)?;
    let digest = digest_in(window, 8 + long + 8)?;
    let first = number32(window, 8 + long + 8 + 32)?;
    if first != nodes + 1 {
        return Err((8 + long + 8 + 32) as u64);
    }
    Ok(Front {
        long,
        size,
        digest,
        first,
    })
}
