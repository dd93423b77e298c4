ghost use Rattle.std.specs.Prelude.{◌<◌};

use std::alloc::Global;

// Bytes of a file, from offset `start` to before offset `end`.
#[derive(Clone, Copy)]
struct Range {
    file: u8,
    start: u64,
    end: u64,
}

impl Range {
    // Becomes both, if the other one is of the same file and touches it; returns whether it is.
    fn join(&mut self, file: u8, start: u64, end: u64) -> bool {
        let touches = self.file == file && start <= self.end && self.start <= end;
        if touches {
            self.start = self.start.min(start);
            self.end = self.end.max(end);
        }
        touches
    }
}

// How many ranges are kept beside the record, and how many in memory of their own, 97 KB, which a command that writes little does
// not ask for.
const FEW: usize = 64;

const MORE: usize = 4032;

// What was written since the last sync, to the byte, in ranges of which some may overlap.
#[derive(Drop)]
pub struct Ranges {
    alloc: Global,
    few: [Range; FEW],
    more: Vec<Range>,
    count: usize,
    // for each file where its newest range may be
    newest: [u16; 67],
}

impl Ranges {
    pub fn new(alloc: Global) -> Ranges {
        let none = Range {
            file: 0,
            start: 0,
            end: 0,
        };
        Ranges {
            alloc,
            few: [none; FEW],
            more: Vec::new(alloc),
            count: 0,
            newest: [0; 67],
        }
    }

    // Adds a range of a file; returns false if there is no space for it. A range that touches the newest one of the file
    // is joined with it, so writes one after the other take one range.
    pub fn add(&mut self, file: u8, start: u64, end: u64) -> bool
        requires { file < 67 }
    {
        if self.join(self.newest[file as usize] as usize, file, start, end) {
            return true;
        }
        let count = self.count;
        if self.push(Range { file, start, end }) {
            self.newest[file as usize] = count.min(FEW + MORE) as u16;
            self.count = count.saturating_add(1);
            return true;
        }
        false
    }

    // Makes the range at place `k` longer, if it is one of the file that touches the new one; returns whether it is.
    fn join(&mut self, k: usize, file: u8, start: u64, end: u64) -> bool {
        if k >= self.count {
            return false;
        }
        match k.checked_sub(FEW) {
            Some(further) => match self.more.get_mut(further) {
                Some(range) => range.join(file, start, end),
                None => false,
            },
            None => match self.few.get_mut(k) {
                Some(range) => range.join(file, start, end),
                None => false,
            },
        }
    }

    // Puts a range behind the others; returns false if there is no space for it.
    fn push(&mut self, range: Range) -> bool {
        if let Some(place) = self.few.get_mut(self.count) {
            *place = range;
            return true;
        }
        if self.more.capacity() == 0
            && let Ok(list) = Vec::with_capacity(self.alloc, MORE)
        {
            self.more = list;
        }
        self.more.len() < self.more.capacity() && self.more.push(range).is_ok()
    }

    // How many ranges there are.
    pub fn count(&self) -> usize {
        self.count
    }

    // The range at place `k`, from where to before where, if it is one of this file.
    pub fn of(&self, file: u8, k: usize) -> Option<(u64, u64)> {
        let range = match k.checked_sub(FEW) {
            Some(further) => self.more.get(further),
            None => self.few.get(k),
        };
        match range {
            Some(range) if range.file == file => Some((range.start, range.end)),
            _ => None,
        }
    }

    // Forgets all ranges.
    pub fn clear(&mut self) {
        self.count = 0;
        self.more.clear();
    }
}
