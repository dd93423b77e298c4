//! A disk that counts the calls that it hands on.

use aea_disk::{Disk, DiskFault};
use aea_faults::risen;

/// A disk over another one, which counts its calls, the reads, writes, cuts and syncs among them; and tells with which call file
/// 65 was written or cut last, and file 66 first, 0 where it was not.
#[derive(Drop)]
pub struct Watched<D: Disk> {
    pub inner: D,
    pub calls: u64,
    pub reads: u64,
    pub writes: u64,
    pub cuts: u64,
    pub syncs: u64,
    pub last_of_first: u64,
    pub first_of_second: u64,
}

impl<D: Disk> Watched<D> {
    /// A disk over this one that has counted nothing.
    pub fn new(inner: D) -> Watched<D> {
        Watched {
            inner,
            calls: 0,
            reads: 0,
            writes: 0,
            cuts: 0,
            syncs: 0,
            last_of_first: 0,
            first_of_second: 0,
        }
    }
}

// The last call that changed file 65, where the call with this number changes this file.
fn last_of(was: u64, file: u8, call: u64) -> u64 {
    if file == 65 { call } else { was }
}

// The first call that changed file 66.
fn first_of(was: u64, file: u8, call: u64) -> u64 {
    if file == 66 && was == 0 { call } else { was }
}

impl<D: Disk> Disk for Watched<D> {
    ghost state = { λ d. D.state d.inner };

    ghost reveals = { D.reveals };

    ghost as_it_reads = { λ d t c revealed here. D.as_it_reads d.inner t c revealed here };

    ghost later_taken = { λ d f b m n le has. D.later_taken d.inner f b m n le has };

    ghost site_taken = { λ d f b m n some within has. D.site_taken d.inner f b m n some within has };

    ghost ended_taken = { λ d b c m n ends has. D.ended_taken d.inner b c m n ends has };

    ghost bare_taken = { λ d b c m bare has. D.bare_taken d.inner b c m bare has };

    ghost free_taken = { λ d f b m is. D.free_taken d.inner f b m is };

    ghost alike_kept = { λ d b c n one two same has. D.alike_kept d.inner b c n one two same has };

    ghost bare_kept = { λ d b c none also has. D.bare_kept d.inner b c none also has };

    ghost smaller_fits = { λ d f m n le has. D.smaller_fits d.inner f m n le has };

    fn len(&mut self, file: u8) -> Result<u64, DiskFault> {
        self.calls = risen(self.calls);
        self.inner.len(file)
    }

    fn read(&mut self, file: u8, at: u64, buf: &mut [u8]) -> Result<usize, DiskFault> {
        self.calls = risen(self.calls);
        self.reads = risen(self.reads);
        self.inner.read(file, at, buf)
    }

    fn write(&mut self, file: u8, at: u64, bytes: &[u8]) -> Result<(), DiskFault> {
        self.calls = risen(self.calls);
        self.writes = risen(self.writes);
        self.last_of_first = last_of(self.last_of_first, file, self.calls);
        self.first_of_second = first_of(self.first_of_second, file, self.calls);
        self.inner.write(file, at, bytes)
    }

    fn cut(&mut self, file: u8, len: u64) -> Result<(), DiskFault> {
        self.calls = risen(self.calls);
        self.cuts = risen(self.cuts);
        self.last_of_first = last_of(self.last_of_first, file, self.calls);
        self.first_of_second = first_of(self.first_of_second, file, self.calls);
        self.inner.cut(file, len)
    }

    fn sync(&mut self) -> Result<(), DiskFault> {
        self.calls = risen(self.calls);
        self.syncs = risen(self.syncs);
        self.inner.sync()
    }
}
