ghost use Rattle.std.specs.Prelude.{◌≡◌, ◌↔◌, ◌+◌, ◌-◌, ◌^◌, ◌<◌, ◌≤◌, ℕ, length, take, drop, min, vec_len, IfOk, OnOk, OnErr, IsOk, IsErr, IsOkAnd};
ghost use Rattle.aea_faults.specs.Faults.{HasCause};
ghost use Rattle.aea_disk.specs.Count.{one_more};
ghost use Rattle.aea_disk.specs.Files.{ChangesFile, Holds, IsCut};
ghost use Rattle.aea_disk.specs.Spaces.{files_of, room_of, room_for, sure_state, IsFresh, AreFresh};
ghost use Rattle.aea_disk.specs.State.{Passes, Follows, Settles};

use crate::space::Space;
use crate::{Disk, DiskFault};
use aea_faults::risen;
use std::alloc::{AllocError, Global};
use std::marker::Model;

/// A disk in memory that fails only where a write ends past the capacity of its file.
#[derive(Drop)]
pub struct SureDisk {
    spaces: Vec<Space>,
    faults: u64,
}

impl Model for SureDisk {
    ghost use Rattle.aea_disk.specs.Spaces.{Memory};

    ghost Value = { Memory };

    ghost view = { λ d. record { spaces = d.spaces.items; faults = d.faults } };

    ghost use Rattle.std.specs.Prelude.{◌≡◌, vec_len};

    ghost invariant = { λ d. vec_len d.spaces ≡ 67 };
}

impl SureDisk {
    /// Reserves all the space at once, in bytes: `ledger_room` for each of the three ledger files, and `site_room`
    /// for each of the first `sites` sites. The other sites have none.
    pub fn new(
        alloc: Global,
        sites: u8,
        ledger_room: usize,
        site_room: usize,
    ) -> Result<SureDisk, AllocError>
        ensures { IfOk result (IsFresh sites ledger_room site_room) }
    {
        Ok(SureDisk {
            spaces: fresh_spaces(alloc, sites, ledger_room, site_room)?,
            faults: 0,
        })
    }

    // The disk with these files.
    pub(crate) fn of_spaces(spaces: Vec<Space>) -> SureDisk
        requires { vec_len spaces ≡ 67 }
        ensures { result ≡ record { spaces = spaces.items; faults = 0 } }
    {
        SureDisk { spaces, faults: 0 }
    }
}

// Files without bytes, in the order of their numbers.
pub(crate) fn fresh_spaces(
    alloc: Global,
    sites: u8,
    ledger_room: usize,
    site_room: usize,
) -> Result<Vec<Space>, AllocError>
    ensures fresh { IfOk result (λ spaces. AreFresh sites ledger_room site_room spaces.items) }
    ensures count { IfOk result (λ spaces. vec_len spaces ≡ 67) }
{
    let mut spaces = Vec::with_capacity(alloc, 67)?;
    for file in 0..67u8 {
        let room = file_room(sites, ledger_room, site_room, file);
        spaces.push(Space::new(alloc, room)?)?;
    }
    Ok(spaces)
}

fn file_room(sites: u8, ledger_room: usize, site_room: usize, file: u8) -> usize
    requires { file < 67 }
    ensures { result ≡ room_for sites ledger_room site_room file }
{
    match file {
        0 | 65 | 66 => ledger_room,
        site if site <= sites => site_room,
        _ => 0,
    }
}

impl Disk for SureDisk {
    ghost state = { sure_state };

    ghost reveals = { Unit {0} };

    ghost use Rattle.aea_disk.specs.Spaces.{room_smaller};

    ghost as_it_reads = { λ d t c revealed here. here };

    ghost later_taken = { λ d f b m n le has. tt };

    ghost site_taken = { λ d f b m n some within has. tt };

    ghost ended_taken = { λ d b c m n ends has. tt };

    ghost bare_taken = { λ d b c m bare has. tt };

    ghost free_taken = { λ d f b m is. tt };

    ghost alike_kept = { λ d b c n one two same has. tt };

    ghost bare_kept = { λ d b c none also has. tt };

    ghost smaller_fits = { λ d f m n le has. room_smaller d f m n le has };

    #[tactic(auto, using(crate::proofs::Lending::sure_time))]
    fn len(&mut self, file: u8) -> Result<u64, DiskFault>
        requires { file ≤ 66 }
        ensures length { IsOkAnd result (λ n. n ≡ length (files_of self.old.spaces file)) }
        ensures same { self.new ≡ self.old }
        ensures time { Passes (sure_state self.old) (sure_state self.new) }
    {
        Ok(self.spaces[file as usize].len() as u64)
    }

    #[tactic(auto, using(crate::proofs::Lending::sure_time))]
    fn read(&mut self, file: u8, at: u64, buf: &mut [u8]) -> Result<usize, DiskFault>
        requires file { file ≤ 66 }
        requires range { at + length buf.old ≤ 2 ^ 62 }
        ensures count { IsOkAnd result (λ k. k ≡ min (length buf.new) (length (files_of self.old.spaces file) - at)) }
        ensures bytes { IfOk result (λ k. take k buf.new ≡ take k (drop at (files_of self.old.spaces file))) }
        ensures same { self.new ≡ self.old }
        ensures time { Passes (sure_state self.old) (sure_state self.new) }
    {
        Ok(self.spaces[file as usize].read(at as usize, buf))
    }

    #[tactic(auto, using(crate::proofs::Lending::sure_time))]
    fn write(&mut self, file: u8, at: u64, bytes: &[u8]) -> Result<(), DiskFault>
        requires file { file ≤ 66 }
        requires range { at + length bytes.now ≤ 2 ^ 62 }
        ensures full { IsErr result ↔ (room_of self.old.spaces file < at + length bytes.now) }
        ensures written { OnOk result (ChangesFile file (Holds at bytes.now) (files_of self.old.spaces) (files_of self.new.spaces)) }
        ensures refused { OnErr result (self.new ≡ record self.old { faults = one_more self.old.faults }) }
        ensures rooms { (f : ℕ) → room_of self.new.spaces f ≡ room_of self.old.spaces f }
        ensures count { OnOk result (self.new.faults ≡ self.old.faults) }
        ensures cause { HasCause self.old.faults self.new.faults result }
        ensures time { Passes (sure_state self.old) (sure_state self.new) }
    {
        let space = &mut self.spaces[file as usize];
        if at as usize + bytes.len() > space.room() {
            self.faults = risen(self.faults);
            return Err(DiskFault);
        }
        space.write(at as usize, bytes);
        Ok(())
    }

    #[tactic(auto, using(crate::proofs::Lending::sure_time))]
    fn cut(&mut self, file: u8, len: u64) -> Result<(), DiskFault>
        requires file { file ≤ 66 }
        requires range { len ≤ 2 ^ 62 }
        ensures cut { IsOk result × ChangesFile file (IsCut len) (files_of self.old.spaces) (files_of self.new.spaces) }
        ensures rooms { (f : ℕ) → room_of self.new.spaces f ≡ room_of self.old.spaces f }
        ensures count { self.new.faults ≡ self.old.faults }
        ensures time { Passes (sure_state self.old) (sure_state self.new) }
    {
        self.spaces[file as usize].cut(len as usize);
        Ok(())
    }

    #[tactic(auto, using(crate::proofs::Lending::sure_time))]
    fn sync(&mut self) -> Result<(), DiskFault>
        ensures ok { IsOk result }
        ensures same { self.new ≡ self.old }
        ensures time { Passes (sure_state self.old) (sure_state self.new) }
    {
        Ok(())
    }
}
