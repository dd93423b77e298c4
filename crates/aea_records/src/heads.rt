//! The heads of records: their fields up to the first that may be long.

ghost use Rattle.std.specs.Prelude.{◌≡◌, ◌+◌, ◌<◌, ◌≤◌, ◌==◌, ◌&&◌, ◌||◌, true, false, Bool, List, ℕ, length, slice_index, IfOk, IfErr, IfSome, IfNone, IsTrue, OnOk};
ghost use Rattle.std.specs.FinMap as map;
ghost use Rattle.aea_lattice.specs.Fences.{greatest_fences, last_fence};
ghost use Rattle.aea_records.specs.Tables.{judge};
ghost use Rattle.aea_records.specs.Format.{raised_limit, nodes_for, Fence, Raise};
ghost use Rattle.aea_records.specs.Known.{Known};
ghost use Rattle.aea_records.specs.Fields.{ObjectHead, JoinedHead, Whole, is_kind, is_within, front_fields, object_fields, joined_fields, kind_fields, head_fields};
ghost use Rattle.aea_records.specs.Faults.{is_full};
ghost use Rattle.aea_records.specs.Reads.{known_in, IsJudged, stored_at, head_at, found_at, object_end, head_end, IsSmall, GoesOn, IsClosed, IsHead, IsBadWindow};

use crate::fields::{Front, front_in, is_next_fence, is_within, nodes_for, number32};
use aea_catalog::Catalog;
use aea_lattice::{Lattice, Shape};

/// The fields of an object after its number of bytes: the length of its name, its length and its digest, its first new
/// node, and how many new nodes it has.
#[derive(Clone, Copy, Debug)]
pub struct ObjectFields {
    pub long: usize,
    pub size: u64,
    pub digest: [u8; 32],
    pub first: u32,
    pub count: u32,
}

/// The fields at the head of a record, by its kind.
#[derive(Clone, Copy, Debug)]
pub enum HeadFields {
    /// An object whose nodes are all new.
    Alone(ObjectFields),
    /// An object in parts, and how many parts there are.
    InParts(ObjectFields, u32),
    /// A fence after this node.
    Fenced(u32),
    /// A raise of the limit on nodes.
    Raised,
}

/// A head that was found: how many bytes the record has by its own words, and its fields.
#[derive(Clone, Copy, Debug)]
pub struct Found {
    pub bytes: u32,
    pub fields: HeadFields,
}

impl HeadFields {
    /// The number of bytes of the gate and the head.
    pub fn end(&self) -> usize
        requires { IsSmall self.now }
        ensures end { result ≡ head_end self.now }
        ensures short { result ≤ 315 }
    {
        match self {
            HeadFields::Alone(o) => 8 + o.long + 8 + 32 + 4 + 4,
            HeadFields::InParts(o, _) => 8 + o.long + 8 + 32 + 4 + 4 + 4,
            HeadFields::Fenced(_) => 10,
            HeadFields::Raised => 10,
        }
    }
}

// The fields of an object with these first ones and so many new nodes.
fn with_count(front: Front, count: u32) -> ObjectFields
    ensures { result ≡ record { long = front.long; size = front.size; digest = front.digest; first = front.first; count = count } }
{
    let Front {
        long,
        size,
        digest,
        first,
    } = front;
    ObjectFields {
        long,
        size,
        digest,
        first,
        count,
    }
}

// Whether an object of so many bytes takes so many nodes, and they are within the limit.
fn is_count(shape: &Shape, nodes: u32, raised: bool, size: u64, count: u32) -> bool
    requires { nodes ≤ 1048576 }
    ensures value { (known : Known) → known.nodes ≡ nodes → known.raised ≡ raised → result ≡ (count == nodes_for shape.now size && is_within known count) }
    ensures few { IsTrue result → nodes + count ≤ raised_limit }
{
    u64::from(count) == nodes_for(shape, size) && is_within(nodes, raised, count)
}

// The fields of an object whose nodes are all new.
fn alone_in(
    shape: &Shape,
    catalog: &Catalog,
    nodes: u32,
    raised: bool,
    window: &[u8],
) -> Result<ObjectFields, u64>
    requires { nodes ≤ 1048576 }
    ensures judged { (fences : List ℕ) (bytes : ℕ) → IsJudged (λ o. (bytes, ObjectHead (stored_at window.now o))) (λ o. object_end o) result (judge (front_fields (known_in catalog.now.objects nodes fences raised) (object_fields shape.now (known_in catalog.now.objects nodes fences raised) bytes)) 6 window.now) }
    ensures small { IfOk result (λ o. (o.long ≤ 255) × (o.count ≤ raised_limit)) }
    ensures goes { IfOk result (λ o. nodes + o.count ≤ raised_limit) }
    ensures near { IfErr result (λ at. at ≤ 315) }
{
    let front = front_in(catalog, nodes, window)?;
    let at = 8 + front.long + 8 + 32 + 4;
    let count = number32(window, at)?;
    if !is_count(shape, nodes, raised, front.size, count) {
        return Err(at as u64);
    }
    Ok(with_count(front, count))
}

// The fields of an object in parts, and how many parts there are.
fn joined_in(
    catalog: &Catalog,
    nodes: u32,
    raised: bool,
    window: &[u8],
) -> Result<(ObjectFields, u32), u64>
    requires { nodes ≤ 1048576 }
    ensures judged { (fences : List ℕ) (bytes : ℕ) → IsJudged (λ o. (bytes, JoinedHead (stored_at window.now o.0) o.1)) (λ o. object_end o.0 + 4) result (judge (front_fields (known_in catalog.now.objects nodes fences raised) (joined_fields (known_in catalog.now.objects nodes fences raised) bytes)) 6 window.now) }
    ensures goes { IfOk result (λ o. nodes + o.0.count ≤ raised_limit) }
    ensures small { IfOk result (λ o. ((o.0.long ≤ 255) × (o.0.count ≤ raised_limit)) × (o.1 ≤ raised_limit)) }
    ensures near { IfErr result (λ at. at ≤ 315) }
{
    let front = front_in(catalog, nodes, window)?;
    let at = 8 + front.long + 8 + 32 + 4;
    let count = number32(window, at)?;
    if !is_within(nodes, raised, count) {
        return Err(at as u64);
    }
    let parts = number32(window, at + 4)?;
    if parts > 1_048_576 {
        return Err((at + 4) as u64);
    }
    Ok((with_count(front, count), parts))
}

// The node of a fence.
fn fence_in(lattice: &Lattice, window: &[u8]) -> Result<u32, u64>
    ensures judged { (shape : Shape) (known : Known) (bytes : ℕ) → known.nodes ≡ lattice.now.n → known.fences ≡ lattice.now.fences → IsJudged (λ node. (bytes, Whole (Fence node))) (λ node. 10) result (judge (kind_fields shape known bytes 2) 6 window.now) }
    ensures room { OnOk result ((last_fence lattice.now.fences < lattice.now.n) × (length lattice.now.fences < greatest_fences)) }
    ensures near { IfErr result (λ at. at ≤ 315) }
{
    let node = number32(window, 6)?;
    if !is_next_fence(lattice, node) {
        return Err(6);
    }
    Ok(node)
}

// The limit of a raise, for the first time.
fn raise_in(raised: bool, window: &[u8]) -> Result<(), u64>
    ensures judged { (shape : Shape) (known : Known) (bytes : ℕ) → known.raised ≡ raised → IsJudged (λ done. (bytes, Whole Raise)) (λ done. 10) result (judge (kind_fields shape known bytes 4) 6 window.now) }
    ensures near { IfErr result (λ at. at ≤ 315) }
{
    let limit = number32(window, 6)?;
    if !(limit == 1_048_576 && !raised) {
        return Err(6);
    }
    Ok(())
}

// The fields of a record of this kind.
fn fields_in(
    shape: &Shape,
    lattice: &Lattice,
    catalog: &Catalog,
    raised: bool,
    kind: u8,
    window: &[u8],
) -> Result<HeadFields, u64>
    requires { is_kind (known_in catalog.now.objects lattice.now.n lattice.now.fences raised) kind ≡ true }
    ensures judged { (bytes : ℕ) → IsJudged (λ f. (bytes, head_at window.now f)) (λ f. head_end f) result (judge (kind_fields shape.now (known_in catalog.now.objects lattice.now.n lattice.now.fences raised) bytes kind) 6 window.now) }
    ensures small { IfOk result IsSmall }
    ensures goes { IfOk result (GoesOn lattice.now) }
    ensures near { IfErr result (λ at. at ≤ 315) }
{
    if kind == 1 {
        return Ok(HeadFields::Alone(alone_in(shape, catalog, lattice.n, raised, window)?));
    }
    if kind == 2 {
        return Ok(HeadFields::Fenced(fence_in(lattice, window)?));
    }
    if kind == 3 {
        let (object, parts) = joined_in(catalog, lattice.n, raised, window)?;
        return Ok(HeadFields::InParts(object, parts));
    }
    raise_in(raised, window)?;
    Ok(HeadFields::Raised)
}

// The byte at a place, or 0 where there is none.
fn byte_at(window: &[u8], at: usize) -> u8
    ensures { result ≡ slice_index window.now at }
{
    match window.get(at) {
        Some(&byte) => byte,
        None => 0,
    }
}

// The kind of a record, where one of this kind may come.
fn kind_in(raised: bool, window: &[u8]) -> Result<u8, u64>
    ensures value { IfOk result (λ kind. kind ≡ slice_index window.now 1) }
    ensures there { OnOk result (2 ≤ length window.now) }
    ensures good { IfOk result (λ kind. (known : Known) → known.raised ≡ raised → is_kind known kind ≡ true) }
    ensures place { IfErr result (λ place. place ≡ 1) }
    ensures bad { IfErr result (λ place. (known : Known) → known.raised ≡ raised → 2 ≤ length window.now → is_kind known (slice_index window.now 1) ≡ false) }
{
    if window.len() < 2 {
        return Err(1);
    }
    let kind = window[1];
    if !(kind == 1 || kind == 2 || kind == 4 || (kind == 3 && raised)) {
        return Err(1);
    }
    Ok(kind)
}

// The head in a window, or the place of its first bad field.
fn head_in(
    shape: &Shape,
    lattice: &Lattice,
    catalog: &Catalog,
    raised: bool,
    window: &[u8],
) -> Result<Found, u64>
    ensures judged { IsJudged (λ f. found_at window.now f) (λ f. head_end f.fields) result (judge (head_fields shape.now (known_in catalog.now.objects lattice.now.n lattice.now.fences raised)) 1 window.now) }
    ensures small { IfOk result (λ f. IsSmall f.fields) }
    ensures goes { IfOk result (λ f. GoesOn lattice.now f.fields) }
    ensures near { IfErr result (λ at. at ≤ 315) }
{
    let kind = kind_in(raised, window)?;
    let bytes = number32(window, 2)?;
    let fields = fields_in(shape, lattice, catalog, raised, kind, window)?;
    Ok(Found { bytes, fields })
}

// Whether an object follows though there are the most already.
fn is_full(catalog: &Catalog, raised: bool, window: &[u8]) -> bool
    ensures { (nodes : ℕ) (fences : List ℕ) → result ≡ is_full (known_in catalog.now.objects nodes fences raised) window.now }
{
    let kind = byte_at(window, 1);
    catalog.len() == 65_536 && (kind == 1 || (kind == 3 && raised))
}

/// The head after the gate with which a window begins, None where the gate is closed, or the place at which they are
/// bad. The window has 315 bytes, or all that are left of the file.
pub fn gate_in(
    shape: &Shape,
    lattice: &Lattice,
    catalog: &Catalog,
    raised: bool,
    window: &[u8],
) -> Result<Option<Found>, u64>
    requires few { length window.now ≤ 315 }
    ensures bad { IfErr result (λ at. IsBadWindow shape.now (known_in catalog.now.objects lattice.now.n lattice.now.fences raised) window.now at) }
    ensures near { IfErr result (λ at. at ≤ 315) }
    ensures closed { IfOk result (λ found. IfNone found (IsClosed window.now)) }
    ensures open { IfOk result (λ found. IfSome found (λ f. IsHead shape.now (known_in catalog.now.objects lattice.now.n lattice.now.fences raised) window.now (found_at window.now f) (head_end f.fields))) }
    ensures within { IfOk result (λ found. IfSome found (λ f. head_end f.fields ≤ length window.now)) }
    ensures small { IfOk result (λ found. IfSome found (λ f. IsSmall f.fields)) }
    ensures goes { IfOk result (λ found. IfSome found (λ f. GoesOn lattice.now f.fields)) }
{
    if window.is_empty() {
        return Err(0);
    }
    if window[0] != 1 {
        return Ok(None);
    }
    if is_full(catalog, raised, window) {
        return Err(0);
    }
    let found = head_in(shape, lattice, catalog, raised, window)?;
    Ok(Some(found))
}
