//! A disk that flips a bit of what is read, from one read on.

ghost use Rattle.std.specs.Prelude.{◌≡◌, length};

use aea_disk::{Disk, DiskFault};

/// A disk over another one, whose contents are not known: in what is read of one file, the last bit of the byte at this place of the
/// buffer is flipped from the read of the file with this number on, counted from 1.
#[derive(Drop)]
pub struct FlippingDisk<D: Disk> {
    pub inner: D,
    pub file: u8,
    pub byte: usize,
    pub from: u64,
    pub reads: u64,
}

impl<D: Disk> FlippingDisk<D> {
    // Counts a read, and changes what it gave where its turn has come.
    fn flip(&mut self, file: u8, bytes: &mut [u8])
        ensures same { self.new.inner ≡ self.old.inner }
        ensures long { length bytes.new ≡ length bytes.old }
    {
        if file != self.file {
            return;
        }
        self.reads = self.reads.saturating_add(1);
        if self.from <= self.reads
            && let Some(byte) = bytes.get_mut(self.byte)
        {
            *byte ^= 1;
        }
    }
}

impl<D: Disk> Disk for FlippingDisk<D> {
    ghost state = { λ d. D.state d.inner };

    ghost reveals = { ⊥ };

    ghost as_it_reads = { λ d t c revealed here. absurd revealed };

    ghost later_taken = { λ d f b m n le has. D.later_taken d.inner f b m n le has };

    ghost site_taken = { λ d f b m n some within has. D.site_taken d.inner f b m n some within has };

    ghost ended_taken = { λ d b c m n ends has. D.ended_taken d.inner b c m n ends has };

    ghost bare_taken = { λ d b c m bare has. D.bare_taken d.inner b c m bare has };

    ghost free_taken = { λ d f b m is. D.free_taken d.inner f b m is };

    ghost alike_kept = { λ d b c n one two same has. D.alike_kept d.inner b c n one two same has };

    ghost bare_kept = { λ d b c none also has. D.bare_kept d.inner b c none also has };

    ghost smaller_fits = { λ d f m n le has. D.smaller_fits d.inner f m n le has };

    fn len(&mut self, file: u8) -> Result<u64, DiskFault> {
        self.inner.len(file)
    }

    fn read(&mut self, file: u8, at: u64, buf: &mut [u8]) -> Result<usize, DiskFault> {
        let count = self.inner.read(file, at, buf)?;
        self.flip(file, buf);
        Ok(count)
    }

    fn write(&mut self, file: u8, at: u64, bytes: &[u8]) -> Result<(), DiskFault> {
        self.inner.write(file, at, bytes)
    }

    // Cuts nothing: whoever reads or repairs asks for no cut, and a disk whose contents are not known may leave a file as it is.
    fn cut(&mut self, _file: u8, _len: u64) -> Result<(), DiskFault> {
        self.inner.sync()
    }

    fn sync(&mut self) -> Result<(), DiskFault> {
        self.inner.sync()
    }
}
