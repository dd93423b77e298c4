//! A plain machine: sixteen uploads, objects and damaged blocks, as lists in memory.

use aea_test_helpers::some_bytes;
use sha2::{Digest, Sha256};
use std::alloc::{AllocError, Global};

/// A message; the bytes of a chunk are so many from a first one on.
#[derive(Clone, Copy, Debug)]
pub enum Act {
    Open { slot: u8, name: u8 },
    Chunk { slot: u8, count: u32, first: u32 },
    Close { slot: u8 },
    Abort { slot: u8 },
    Read { name: u8 },
    Patrol { first: u32, count: u32 },
}

// These bytes, one part after the other. None where memory runs out, here and below.
fn joined(alloc: Global, first: &[u8], next: &[u8], last: &[u8]) -> Option<Vec<u8>> {
    let mut bytes = Vec::new(alloc);
    for part in [first, next, last] {
        bytes.extend_from_slice(part).ok()?;
    }
    Some(bytes)
}

// How a chunk of so many bytes from a first one on is spelled.
fn spelled_chunk(alloc: Global, slot: u8, count: u32, first: u32) -> Option<Vec<u8>> {
    match some_bytes(alloc, count, first) {
        Ok(bytes) => joined(alloc, &[2, slot], &count.to_be_bytes(), bytes.as_slice()),
        Err(_) => None,
    }
}

/// How a message is spelled.
pub fn spelled(alloc: Global, act: &Act) -> Option<Vec<u8>> {
    match act {
        Act::Open { slot, name } => joined(alloc, &[1, *slot], &[0, 1], &[*name]),
        Act::Chunk { slot, count, first } => spelled_chunk(alloc, *slot, *count, *first),
        Act::Close { slot } => joined(alloc, &[3], &[*slot], &[]),
        Act::Abort { slot } => joined(alloc, &[4], &[*slot], &[]),
        Act::Read { name } => joined(alloc, &[5], &[0, 1], &[*name]),
        Act::Patrol { first, count } => {
            joined(alloc, &[6], &first.to_be_bytes(), &count.to_be_bytes())
        }
    }
}

// A number of 4 bytes.
fn count_of(many: usize) -> u32 {
    u32::try_from(many).unwrap_or(u32::MAX)
}

/// Bytes under a name of one byte, with the nodes of their blocks.
#[derive(Drop)]
pub struct Upload {
    pub name: u8,
    pub bytes: Vec<u8>,
    pub nodes: Vec<u32>,
}

impl Upload {
    // Adds the next node that is woven. Says whether there was memory, here and below.
    fn weave(&mut self, woven: &mut u32) -> bool {
        *woven = woven.saturating_add(1);
        self.nodes.push(*woven).is_ok()
    }

    // Adds these bytes, and the nodes of the blocks that they fill.
    fn fill(&mut self, bytes: &[u8], woven: &mut u32) -> bool {
        let mut is_kept = self.bytes.extend_from_slice(bytes).is_ok();
        let filled = self.bytes.len() / 16;
        for _ in self.nodes.len()..filled {
            is_kept = is_kept && self.weave(woven);
        }
        is_kept
    }

    // Adds the node of the last block, where it is not filled.
    fn finish(&mut self, woven: &mut u32) -> bool {
        self.bytes.len() % 16 == 0 || self.weave(woven)
    }
}

// The reply to the close of this upload.
fn closed(alloc: Global, upload: &Upload) -> Option<Vec<u8>> {
    let nodes = count_of(upload.nodes.len());
    let long = upload.bytes.len() as u64;
    let counts = joined(alloc, &[3, 0], &nodes.to_be_bytes(), &long.to_be_bytes())?;
    joined(
        alloc,
        counts.as_slice(),
        &Sha256::digest(upload.bytes.as_slice()),
        &[],
    )
}

/// An archive in blocks of 16 bytes, with so many blocks a node, and what a session over it keeps.
#[derive(Drop)]
pub struct Plain {
    pub alloc: Global,
    pub classes: u32,
    /// How many nodes are recorded, and how many are woven.
    pub recorded: u32,
    pub woven: u32,
    pub objects: Vec<Upload>,
    pub slots: Vec<Option<Upload>>,
    /// The numbers of the damaged blocks.
    pub damaged: Vec<u32>,
}

impl Plain {
    /// The machine over an archive without nodes.
    pub fn new(alloc: Global, classes: u32) -> Result<Plain, AllocError> {
        let mut slots = Vec::new(alloc);
        for _ in 0..16 {
            slots.push(None)?;
        }
        Ok(Plain {
            alloc,
            classes,
            recorded: 0,
            woven: 0,
            objects: Vec::new(alloc),
            slots,
            damaged: Vec::new(alloc),
        })
    }

    /// Every slot is free, and nothing is woven that is not recorded, as where a session begins.
    pub fn begin(&mut self) {
        for slot in self.slots.iter_mut() {
            *slot = None;
        }
        self.woven = self.recorded;
    }

    // Whether an object has the name.
    fn is_stored(&self, name: u8) -> bool {
        self.objects.iter().any(|object| object.name == name)
    }

    // Whether an upload has the name.
    fn is_open(&self, name: u8) -> bool {
        self.slots.iter().any(|slot| match slot {
            Some(upload) => upload.name == name,
            None => false,
        })
    }

    // Whether a block is damaged.
    fn is_damaged(&self, number: u32) -> bool {
        self.damaged.iter().any(|other| *other == number)
    }

    /// The code of an open.
    fn open(&mut self, slot: u8, name: u8) -> u8 {
        let is_stored = self.is_stored(name);
        let is_open = self.is_open(name);
        let alloc = self.alloc;
        match self.slots.get_mut(usize::from(slot)) {
            None => 1,
            Some(Some(_)) => 2,
            Some(_) if name < 32 || name == 127 => 4,
            Some(_) if is_stored => 5,
            Some(_) if is_open => 6,
            Some(free) => {
                *free = Some(Upload {
                    name,
                    bytes: Vec::new(alloc),
                    nodes: Vec::new(alloc),
                });
                0
            }
        }
    }

    // The code of a chunk.
    fn chunk(&mut self, slot: u8, bytes: &[u8]) -> Option<u8> {
        match self.slots.get_mut(usize::from(slot)) {
            None => Some(1),
            Some(None) => Some(3),
            Some(Some(upload)) => upload.fill(bytes, &mut self.woven).then_some(0),
        }
    }

    // The reply to a chunk of these bytes.
    fn reply_to_chunk(&mut self, slot: u8, bytes: &[u8]) -> Option<Vec<u8>> {
        match self.chunk(slot, bytes) {
            Some(code) => joined(self.alloc, &[2], &[code], &[]),
            None => None,
        }
    }

    // The reply to a chunk of so many bytes from a first one on.
    fn take_chunk(&mut self, slot: u8, count: u32, first: u32) -> Option<Vec<u8>> {
        match some_bytes(self.alloc, count, first) {
            Ok(bytes) => self.reply_to_chunk(slot, bytes.as_slice()),
            Err(_) => None,
        }
    }

    // The reply to the close of this upload, which becomes an object.
    fn record(&mut self, mut upload: Upload) -> Option<Vec<u8>> {
        let is_woven = upload.finish(&mut self.woven);
        self.recorded = self.woven;
        let reply = closed(self.alloc, &upload);
        let is_kept = self.objects.push(upload).is_ok();
        if is_woven && is_kept { reply } else { None }
    }

    // The reply to a close.
    fn close(&mut self, slot: u8) -> Option<Vec<u8>> {
        match self.slots.get_mut(usize::from(slot)) {
            None => joined(self.alloc, &[3], &[1], &[]),
            Some(place) => match place.take() {
                None => joined(self.alloc, &[3], &[3], &[]),
                Some(upload) => self.record(upload),
            },
        }
    }

    // The code of an abort.
    fn abort(&mut self, slot: u8) -> u8 {
        match self.slots.get_mut(usize::from(slot)) {
            None => 1,
            Some(place) => match place.take() {
                None => 3,
                Some(_) => 0,
            },
        }
    }

    // The number of the first damaged data block of these nodes.
    fn first_damaged(&self, nodes: &[u32]) -> Option<u32> {
        for node in nodes {
            let number = node.saturating_sub(1).saturating_mul(self.classes);
            if self.is_damaged(number) {
                return Some(number);
            }
        }
        None
    }

    // The reply to a read of this object.
    fn read_object(&self, object: &Upload) -> Option<Vec<u8>> {
        let long = object.bytes.len() as u64;
        match self.first_damaged(object.nodes.as_slice()) {
            Some(number) => joined(self.alloc, &[5], &[10], &number.to_be_bytes()),
            None => joined(
                self.alloc,
                &[5, 0],
                &long.to_be_bytes(),
                object.bytes.as_slice(),
            ),
        }
    }

    // The reply to a read.
    fn read(&self, name: u8) -> Option<Vec<u8>> {
        match self.objects.iter().find(|object| object.name == name) {
            Some(object) => self.read_object(object),
            None => joined(self.alloc, &[5], &[9], &[]),
        }
    }

    // The numbers, of 4 bytes each, of the damaged ones of so many blocks from a first one on.
    fn damaged_among(&self, first: u32, count: u32) -> Option<Vec<u8>> {
        let mut numbers = Vec::new(self.alloc);
        for more in 0..count {
            let number = first.saturating_add(more);
            if self.is_damaged(number) {
                numbers.extend_from_slice(&number.to_be_bytes()).ok()?;
            }
        }
        Some(numbers)
    }

    // The reply to a patrol of blocks that there are.
    fn patrolled(&self, first: u32, count: u32) -> Option<Vec<u8>> {
        let numbers = self.damaged_among(first, count)?;
        let found = count_of(numbers.len() / 4);
        joined(
            self.alloc,
            &[6, 0],
            &found.to_be_bytes(),
            numbers.as_slice(),
        )
    }

    // The reply to a patrol.
    fn patrol(&self, first: u32, count: u32) -> Option<Vec<u8>> {
        let blocks = u64::from(self.recorded).saturating_mul(u64::from(self.classes));
        let end = u64::from(first).saturating_add(u64::from(count));
        if count == 0 || 4096 < count || blocks < end {
            joined(self.alloc, &[6], &[11], &[])
        } else {
            self.patrolled(first, count)
        }
    }

    /// Makes the step of a message, and gives its reply.
    pub fn take(&mut self, act: &Act) -> Option<Vec<u8>> {
        match act {
            Act::Open { slot, name } => {
                let code = self.open(*slot, *name);
                joined(self.alloc, &[1], &[code], &[])
            }
            Act::Chunk { slot, count, first } => self.take_chunk(*slot, *count, *first),
            Act::Close { slot } => self.close(*slot),
            Act::Abort { slot } => {
                let code = self.abort(*slot);
                joined(self.alloc, &[4], &[code], &[])
            }
            Act::Read { name } => self.read(*name),
            Act::Patrol { first, count } => self.patrol(*first, *count),
        }
    }
}
