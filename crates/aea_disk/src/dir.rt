ghost use Rattle.std.specs.Prelude.{◌≡◌, ◌+◌, ◌≤◌, length, IfOk};
ghost use Rattle.aea_faults.specs.Faults.{HasCause};
ghost use Rattle.aea_disk.specs.Count.{faults_after};
ghost use Rattle.aea_disk.specs.Silent.{silent_state};
ghost use Rattle.aea_disk.specs.State.{Passes};

use crate::folder::Folder;
use crate::{Disk, DiskFault};
use aea_faults::risen;
use std::alloc::Global;
use std::fs::File;
use std::io;
use std::marker::Model;
use std::rt::Files;

/// The files of the current folder: `ledger.aea`, `ledger-2.aea` and `ledger-3.aea`, and for the sites
/// `site-01/blocks.aea` to `site-64/blocks.aea`. A missing file has length 0, and is made with its folder at the
/// first write. Each other error of the system is a fault. Its contents are not known.
#[derive(Drop)]
pub struct DirDisk<R: Files<File = File>> {
    folder: Folder<R>,
    faults: u64,
}

impl<R: Files<File = File>> Model for DirDisk<R> {
    ghost use Rattle.std.specs.Prelude.{ℕ};

    ghost Value = { ℕ };

    ghost view = { λ d. d.faults };
}

impl<R: Files<File = File>> DirDisk<R> {
    pub fn new(alloc: Global, rt: R) -> DirDisk<R>
        ensures { result ≡ 0 }
    {
        DirDisk {
            folder: Folder::new(alloc, rt),
            faults: 0,
        }
    }

    // Counts the call where it failed.
    #[tactic(auto, using(crate::proofs::Lending::silent_passes))]
    fn counted<T>(&mut self, answer: io::Result<T>) -> Result<T, DiskFault>
        ensures ok { IfOk result (λ v. answer ≡ Ok v) }
        ensures counted { self.new ≡ faults_after self.old result }
        ensures cause { HasCause self.old self.new result }
        ensures time { Passes (silent_state self.old) (silent_state self.new) }
    {
        match answer {
            Ok(value) => Ok(value),
            Err(_) => {
                self.faults = risen(self.faults);
                Err(DiskFault)
            }
        }
    }
}

impl<R: Files<File = File>> Disk for DirDisk<R> {
    ghost state = { silent_state };

    ghost reveals = { ⊥ };

    ghost as_it_reads = { λ d t c revealed here. absurd revealed };

    ghost later_taken = { λ d f b m n le has. tt };

    ghost site_taken = { λ d f b m n some within has. tt };

    ghost ended_taken = { λ d b c m n ends has. tt };

    ghost bare_taken = { λ d b c m bare has. tt };

    ghost free_taken = { λ d f b m is. tt };

    ghost alike_kept = { λ d b c n one two same has. tt };

    ghost bare_kept = { λ d b c none also has. tt };

    ghost smaller_fits = { λ d f m n le has. has };

    fn len(&mut self, file: u8) -> Result<u64, DiskFault> {
        let answer = self.folder.len(file);
        self.counted(answer)
    }

    fn read(&mut self, file: u8, at: u64, buf: &mut [u8]) -> Result<usize, DiskFault> {
        let answer = self.folder.read(file, at, buf);
        self.counted(answer)
    }

    fn write(&mut self, file: u8, at: u64, bytes: &[u8]) -> Result<(), DiskFault> {
        let answer = self.folder.write(file, at, bytes);
        self.counted(answer)
    }

    fn cut(&mut self, file: u8, len: u64) -> Result<(), DiskFault> {
        let answer = self.folder.cut(file, len);
        self.counted(answer)
    }

    fn sync(&mut self) -> Result<(), DiskFault> {
        let answer = self.folder.sync();
        self.counted(answer)
    }
}
