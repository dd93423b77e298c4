//! A plain reader of ledgers, which judges the tables of fields one by one.

use aea_catalog::check_name;
use std::alloc::{AllocError, Global};

/// What a file is.
#[derive(Clone, Copy, PartialEq, Eq)]
pub enum Reading {
    NoArchive,
    Bad { at: u64 },
    Ledger { nodes: u64, objects: u64 },
    /// It was not read, since the disk failed or memory ran out.
    Unread,
}

/// The bytes from a place on, so many of them, or as many as there are.
pub fn part(bytes: &[u8], at: u64, count: u64) -> &[u8] {
    let end = bytes.len() as u64;
    let start = at.min(end);
    let stop = start.saturating_add(count).min(end).max(start);
    &bytes[start as usize..stop as usize]
}

// The number of so many bytes at a place.
fn number(bytes: &[u8], at: u64, count: u64) -> u64 {
    let mut number = 0u64;
    for byte in part(bytes, at, count) {
        number = number.wrapping_mul(256).wrapping_add(u64::from(*byte));
    }
    number
}

// The place of the first field that fails its test.
fn first_bad(fields: &[(u64, bool)]) -> Option<u64> {
    for (at, valid) in fields {
        if !*valid {
            return Some(*at);
        }
    }
    None
}

// Whether a number is one of these.
fn is_within(number: u64, least: u64, greatest: u64) -> bool {
    least <= number && number <= greatest
}

// Whether s is one that α may have.
fn is_s(alpha: u64, s: u64) -> bool {
    if alpha == 1 {
        s == 1
    } else {
        is_within(s, 2, 16)
    }
}

// Whether p is one that α and s may have.
fn is_p(alpha: u64, s: u64, p: u64) -> bool {
    if alpha == 1 {
        p == 0
    } else {
        is_within(p, s, 64)
    }
}

// The fields of the header.
fn header_fields(bytes: &[u8]) -> [(u64, bool); 6] {
    let alpha = number(bytes, 9, 1);
    let s = number(bytes, 10, 1);
    let p = number(bytes, 11, 1);
    [
        (1, part(bytes, 1, 8) == b"AEALEDG1".as_slice()),
        (9, is_within(alpha, 1, 3)),
        (10, is_s(alpha, s)),
        (11, is_p(alpha, s, p)),
        (12, is_within(number(bytes, 12, 1), 1, 64)),
        (13, is_within(number(bytes, 13, 4), 16, 65_536)),
    ]
}

// What is known of a ledger so far: α, the block size, the nodes, the names, the fences, and whether the limit was raised.
#[derive(Drop)]
struct SoFar {
    alpha: u64,
    block: u64,
    nodes: u64,
    names: Vec<Vec<u8>>,
    fences: Vec<u64>,
    raised: bool,
}

impl SoFar {
    // How many nodes there may be.
    fn limit(&self) -> u64 {
        if self.raised { 1_048_576 } else { 65_536 }
    }

    // Whether a fence may come after this node.
    fn may_fence(&self, node: u64) -> bool {
        node == self.nodes && node != 0 && !self.fences.contains(&node) && self.fences.len() < 16
    }

    // Whether a record of this kind may come.
    fn may_come(&self, kind: u64) -> bool {
        kind == 1 || kind == 2 || kind == 4 || (kind == 3 && self.raised)
    }
}

// Whether the parts from a place on lie apart, in order, up to the last node, and have so many nodes together.
fn are_parts(bytes: &[u8], at: u64, parts: u64, last: u64, nodes: u64) -> bool {
    let mut after = 0u64;
    let mut sum = 0u64;
    for k in 0..parts {
        let place = at.saturating_add(k.saturating_mul(8));
        let first = number(bytes, place, 4);
        let count = number(bytes, place.saturating_add(4), 4);
        let end = first.saturating_add(count).saturating_sub(1);
        if first <= after || count == 0 || end > last {
            return false;
        }
        after = end;
        sum = sum.saturating_add(count);
    }
    sum == nodes
}

// Whether there are so many bytes.
fn has(bytes: &[u8], end: u64) -> bool {
    end <= bytes.len() as u64
}

// The fields of a fence or a raise after an open gate, with which the bytes begin.
fn short_fields(far: &SoFar, bytes: &[u8], kind: u64) -> [(u64, bool); 4] {
    let value = number(bytes, 6, 4);
    let may_be = if kind == 2 {
        far.may_fence(value)
    } else {
        value == 1_048_576 && !far.raised
    };
    [
        (1, has(bytes, 2) && far.may_come(kind)),
        (2, has(bytes, 6)),
        (6, has(bytes, 10) && may_be),
        (2, number(bytes, 2, 4) == 4),
    ]
}

// Whether an object has this name.
fn is_taken(far: &SoFar, name: &[u8]) -> bool {
    far.names.iter().any(|known| known.as_slice() == name)
}

// The fields of an object after an open gate, with which the bytes begin, up to its name.
fn name_fields(far: &SoFar, bytes: &[u8], kind: u64) -> [(u64, bool); 4] {
    let long = number(bytes, 6, 2);
    let name = part(bytes, 8, long);
    let may_be = check_name(name) && !is_taken(far, name);
    [
        (1, has(bytes, 2) && far.may_come(kind)),
        (2, has(bytes, 6)),
        (6, has(bytes, 8) && is_within(long, 1, 255)),
        (8, has(bytes, long.saturating_add(8)) && may_be),
    ]
}

// Where the fields of an object begin after its name: those of each object, the parts, the digests, and what comes behind them.
#[derive(Clone, Copy)]
struct Places {
    after: u64,
    parts: u64,
    digests: u64,
    end: u64,
}

// How many nodes an object adds, whose fields after its name begin there.
fn added_nodes(bytes: &[u8], after: u64) -> u64 {
    number(bytes, after.saturating_add(44), 4)
}

// How many nodes its bytes take.
fn own_nodes(far: &SoFar, bytes: &[u8], after: u64) -> u64 {
    number(bytes, after, 8).div_ceil(far.block.max(1))
}

// How many parts it has; none where it is not one in parts.
fn part_count(bytes: &[u8], after: u64, joined: bool) -> u64 {
    if joined {
        number(bytes, after.saturating_add(48), 4)
    } else {
        0
    }
}

// Where its fields begin. One in parts has four bytes and the parts between.
fn places_of(far: &SoFar, bytes: &[u8], joined: bool) -> Places {
    let after = number(bytes, 6, 2).saturating_add(8);
    let parts = after.saturating_add(if joined { 52 } else { 48 });
    let digests = parts.saturating_add(part_count(bytes, after, joined).saturating_mul(8));
    let blocks = added_nodes(bytes, after).saturating_mul(far.alpha.saturating_add(1));
    Places {
        after,
        parts,
        digests,
        end: digests.saturating_add(blocks.saturating_mul(32)),
    }
}

// Whether the numbers of nodes that an object adds may be.
fn may_add(far: &SoFar, bytes: &[u8], after: u64, joined: bool) -> bool {
    let count = added_nodes(bytes, after);
    (joined || count == own_nodes(far, bytes, after))
        && far.nodes.saturating_add(count) <= far.limit()
}

// The fields of an object after its name, up to the number of nodes that it adds.
fn node_fields(far: &SoFar, bytes: &[u8], joined: bool, after: u64) -> [(u64, bool); 4] {
    let size_end = after.saturating_add(8);
    let digest_end = after.saturating_add(40);
    let first_end = after.saturating_add(44);
    let is_next = number(bytes, digest_end, 4) == far.nodes.saturating_add(1);
    let is_added = may_add(far, bytes, after, joined);
    [
        (after, has(bytes, size_end)),
        (size_end, has(bytes, digest_end)),
        (digest_end, has(bytes, first_end) && is_next),
        (first_end, has(bytes, after.saturating_add(48)) && is_added),
    ]
}

// Whether its parts may be.
fn may_join(far: &SoFar, bytes: &[u8], places: Places) -> bool {
    let after = places.after;
    let count = part_count(bytes, after, true);
    let last = far.nodes.saturating_add(added_nodes(bytes, after));
    let own = own_nodes(far, bytes, after);
    are_parts(bytes, places.parts, count, last, own)
}

// Its fields after these, and last the value of the number of bytes.
fn part_fields(far: &SoFar, bytes: &[u8], joined: bool, places: Places) -> [(u64, bool); 4] {
    let Places {
        after,
        parts,
        digests,
        end,
    } = places;
    let is_few = !joined || has(bytes, parts) && part_count(bytes, after, true) <= 1_048_576;
    let is_joined = !joined || has(bytes, digests) && may_join(far, bytes, places);
    [
        (after.saturating_add(48), is_few),
        (parts, is_joined),
        (digests, has(bytes, end)),
        (2, number(bytes, 2, 4) == end.saturating_sub(6)),
    ]
}

// The place of what is bad in an object after its name, if anything is.
fn bad_object(far: &SoFar, bytes: &[u8], joined: bool) -> Option<u64> {
    let places = places_of(far, bytes, joined);
    let bad = first_bad(&node_fields(far, bytes, joined, places.after));
    bad.or(first_bad(&part_fields(far, bytes, joined, places)))
}

// Takes the record after an open gate, which is valid.
fn take(alloc: Global, far: &mut SoFar, bytes: &[u8], kind: u64) -> Result<(), AllocError> {
    if kind == 2 {
        far.fences.push(number(bytes, 6, 4))?;
    } else if kind == 4 {
        far.raised = true;
    } else {
        let long = number(bytes, 6, 2);
        far.nodes = far
            .nodes
            .saturating_add(number(bytes, long.saturating_add(52), 4));
        far.names
            .push(Vec::from_slice(alloc, part(bytes, 8, long))?)?;
    }
    Ok(())
}

// The place of what is bad in the record after an open gate, if anything is.
fn bad_record(far: &SoFar, bytes: &[u8], kind: u64) -> Option<u64> {
    if kind == 2 || kind == 4 {
        first_bad(&short_fields(far, bytes, kind))
    } else {
        first_bad(&name_fields(far, bytes, kind)).or(bad_object(far, bytes, kind == 3))
    }
}

// What the bytes are by the gate there, from which on there are these: none where it is open, and the record after it is valid.
fn judge_record(far: &SoFar, gate: u64, rest: &[u8]) -> Option<Reading> {
    let Some(first) = rest.first() else {
        return Some(Reading::Bad { at: gate });
    };
    let objects = far.names.len() as u64;
    if *first != 1 {
        return Some(Reading::Ledger {
            nodes: far.nodes,
            objects,
        });
    }
    let kind = number(rest, 1, 1);
    if objects == 65_536 && (kind == 1 || (kind == 3 && far.raised)) {
        return Some(Reading::Bad { at: gate });
    }
    let at = gate.saturating_add(bad_record(far, rest, kind)?);
    Some(Reading::Bad { at })
}

// What the bytes after the header are.
fn read_records(alloc: Global, far: &mut SoFar, bytes: &[u8]) -> Result<Reading, AllocError> {
    let mut gate = 17u64;
    for _ in 0..70_000u64 {
        let rest = part(bytes, gate, u64::MAX);
        if let Some(reading) = judge_record(far, gate, rest) {
            return Ok(reading);
        }
        take(alloc, far, rest, number(rest, 1, 1))?;
        gate = gate.saturating_add(number(rest, 2, 4)).saturating_add(6);
    }
    Ok(Reading::NoArchive)
}

/// What the bytes are, by the tables.
pub fn read_plainly(alloc: Global, bytes: &[u8]) -> Result<Reading, AllocError> {
    if bytes.len() < 18 || bytes[0] != 1 {
        return Ok(Reading::NoArchive);
    }
    if let Some(at) = first_bad(&header_fields(bytes)) {
        return Ok(Reading::Bad { at });
    }
    let mut far = SoFar {
        alpha: number(bytes, 9, 1),
        block: number(bytes, 13, 4),
        nodes: 0,
        names: Vec::new(alloc),
        fences: Vec::new(alloc),
        raised: false,
    };
    read_records(alloc, &mut far, bytes)
}
