ghost use Rattle.std.specs.Prelude.{◌≡◌, ◌↔◌, ◌⊎◌, ◌+◌, ◌-◌, ◌^◌, ◌<◌, ◌≤◌, ◌++◌, ◌∷◌, [], ℕ, length, take, drop, min, vec_len, IfOk, OnOk, OnErr, IsErr, IsTrue};
ghost use Rattle.aea_faults.specs.Faults.{HasCause};
ghost use Rattle.aea_disk.specs.Count.{one_more};
ghost use Rattle.aea_disk.specs.Files.{ChangesFile, Holds, Torn, IsCut, MayBeCut};
ghost use Rattle.aea_disk.specs.State.{Passes, Follows, KeepsImages, Settles, IsSynced};
ghost use Rattle.aea_disk.specs.Spaces.{files_of, room_of};
ghost use Rattle.aea_disk.specs.Logged.{log_state, log_as_it_reads, event_of, events_of, IsLogged, Lists, IsListFull, IsWriteRefused, IsQuiet};
ghost use Rattle.aea_disk.specs.Loss.{lost_at};

use crate::replay::replay_all;
use crate::space::Space;
use crate::sure::{SureDisk, fresh_spaces};
use crate::{Disk, DiskFault};
use aea_faults::risen;
use std::alloc::{AllocError, Global};
use std::marker::Model;

/// A call that a `MemDisk` was asked for. A write's bytes are in the disk's list of bytes, from a place on.
#[derive(Clone, Copy, Debug, PartialEq, Eq)]
pub enum Call {
    Len,
    Read,
    Write(u8, u64, usize, usize),
    Cut(u8, u64),
    Sync,
}

/// What happens to all that is pending at a crash: as written, as before, all bytes 1, all bytes 0.
#[derive(Clone, Copy, Debug, PartialEq, Eq)]
pub enum Loss {
    Kept,
    Dropped,
    Ones,
    Zeros,
}

/// A disk in memory that keeps its calls, by which it is known what a crash may leave.
#[derive(Drop)]
pub struct MemDisk {
    spaces: Vec<Space>,
    calls: Vec<Call>,
    bytes: Vec<u8>,
    calls_room: usize,
    bytes_room: usize,
    faults: u64,
}

impl Model for MemDisk {
    ghost use Rattle.aea_disk.specs.Log.{Log};

    ghost Value = { Log };

    ghost view = { λ s. record { spaces = s.spaces.items; calls = s.calls.items; bytes = s.bytes.items; calls_room = s.calls_room; bytes_room = s.bytes_room; faults = s.faults } };

    ghost use Rattle.std.specs.Prelude.{◌≤◌, ◌≡◌, vec_len, vec_capacity};
    ghost use Rattle.aea_disk.specs.Logged.{IsLogged};

    ghost invariant = { λ s. (vec_len s.spaces ≡ 67) × (vec_len s.calls ≤ s.calls_room) × (s.calls_room ≤ vec_capacity s.calls) × (vec_len s.bytes ≤ s.bytes_room) × (s.bytes_room ≤ vec_capacity s.bytes) × IsLogged s.spaces.items s.calls.items s.bytes.items };
}

impl MemDisk {
    ghost use Rattle.aea_disk.specs.Logged.{IsFreshLog};

    /// The capacities of the files are those of a `SureDisk`. The list of calls has space for `log_calls` calls, and for
    /// `log_bytes` written bytes in all.
    pub fn new(
        alloc: Global,
        sites: u8,
        ledger_room: usize,
        site_room: usize,
        log_calls: usize,
        log_bytes: usize,
    ) -> Result<MemDisk, AllocError>
        ensures fresh { IfOk result (IsFreshLog sites ledger_room site_room log_calls log_bytes) }
        ensures synced { IfOk result (λ d. IsSynced (log_state d)) }
    {
        Ok(MemDisk {
            spaces: fresh_spaces(alloc, sites, ledger_room, site_room)?,
            calls: Vec::with_capacity(alloc, log_calls)?,
            bytes: Vec::with_capacity(alloc, log_bytes)?,
            calls_room: log_calls,
            bytes_room: log_bytes,
            faults: 0,
        })
    }

    /// The disk that a crash leaves when `after` calls have returned and the next has not begun.
    pub fn image(&self, alloc: Global, after: u64, loss: Loss) -> Result<SureDisk, AllocError>
        requires { after ≤ length self.now.calls }
        ensures exact { IfOk result (λ disk. (f : ℕ) → files_of disk.spaces f ≡ lost_at loss (events_of self.now.calls self.now.bytes) after f) }
        ensures image { IfOk result (λ disk. (log_state self.now).image after (files_of disk.spaces)) }
        ensures rooms { IfOk result (λ disk. (f : ℕ) → room_of disk.spaces f ≡ room_of self.now.spaces f) }
        ensures faults { IfOk result (λ disk. disk.faults ≡ 0) }
    {
        let spaces = replay_all(
            alloc,
            &self.spaces,
            &self.calls,
            &self.bytes,
            after as usize,
            loss,
        )?;
        Ok(SureDisk::of_spaces(spaces))
    }

    /// The number of calls that are listed.
    pub fn calls(&self) -> u64
        ensures { result ≡ length self.now.calls }
    {
        self.calls.len() as u64
    }

    fn is_list_full(&self) -> bool
        ensures { IsTrue result ↔ IsListFull self.now }
    {
        self.calls.len() >= self.calls_room
    }

    fn is_write_refused(&self, file: u8, at: usize, count: usize) -> bool
        requires file { file ≤ 66 }
        requires range { at + count ≤ 2 ^ 62 }
        ensures { IsTrue result ↔ IsWriteRefused self.now file at count }
    {
        self.is_list_full()
            || count > self.bytes_room - self.bytes.len()
            || at + count > self.spaces[file as usize].room()
    }

    // Counts a fault.
    #[tactic(auto, using(crate::proofs::Lending::refused_log))]
    fn refuse(&mut self) -> DiskFault
        ensures counted { self.new ≡ record self.old { faults = one_more self.old.faults } }
        ensures cause { self.old.faults ≤ self.new.faults }
        ensures contents { (log_state self.new).files ≡ (log_state self.old).files }
        ensures crash { KeepsImages (log_state self.old) (log_state self.new) }
        ensures settled { Settles (log_state self.old) (log_state self.new) }
        ensures time { Passes (log_state self.old) (log_state self.new) }
    {
        self.faults = risen(self.faults);
        DiskFault
    }

    // Lists a call that leaves the files as they read.
    fn list(&mut self, call: Call)
        requires quiet { IsQuiet call }
        requires room { ¬ IsListFull self.old }
        ensures logged { IsLogged self.old.spaces self.old.calls self.old.bytes }
        ensures lists { Lists self.old self.new call [] }
        ensures spaces { self.new.spaces ≡ self.old.spaces }
    {
        self.calls.push(call).unwrap();
    }

    // The answer of a call that leaves the files as they read.
    fn look(&mut self, call: Call) -> Result<(), DiskFault>
        requires { IsQuiet call }
        ensures contents { (log_state self.new).files ≡ (log_state self.old).files }
        ensures crash { KeepsImages (log_state self.old) (log_state self.new) }
        ensures settled { Settles (log_state self.old) (log_state self.new) }
        ensures time { Passes (log_state self.old) (log_state self.new) }
        ensures cause { HasCause self.old.faults self.new.faults result }
        ensures full { IsErr result ↔ IsListFull self.old }
        ensures listed { OnOk result (Lists self.old self.new call []) }
        ensures refused { OnErr result (self.new ≡ record self.old { faults = one_more self.old.faults }) }
        ensures files { OnOk result ((f : ℕ) → files_of self.new.spaces f ≡ (log_state self.old).files f) }
        ensures durable { OnOk result (call ≡ Call.Sync → IsSynced (log_state self.new)) }
    {
        if self.is_list_full() {
            return Err(self.refuse());
        }
        self.list(call);
        Ok(())
    }

    // Lists a write, and writes.
    fn put(&mut self, file: u8, at: usize, bytes: &[u8])
        requires file { file ≤ 66 }
        requires room { ¬ IsWriteRefused self.old file at (length bytes.now) }
        ensures logged { IsLogged self.old.spaces self.old.calls self.old.bytes }
        ensures lists { Lists self.old self.new (Call.Write file at (length self.old.bytes) (length bytes.now)) bytes.now }
    {
        let from = self.bytes.len();
        let call = Call::Write(file, at as u64, from, bytes.len());
        self.calls.push(call).unwrap();
        self.bytes.extend_from_slice(bytes).unwrap();
        self.spaces[file as usize].write(at, bytes);
    }

    // Lists a cut, and cuts.
    fn shorten(&mut self, file: u8, len: usize)
        requires file { file ≤ 66 }
        requires room { ¬ IsListFull self.old }
        ensures logged { IsLogged self.old.spaces self.old.calls self.old.bytes }
        ensures lists { Lists self.old self.new (Call.Cut file len) [] }
    {
        self.calls.push(Call::Cut(file, len as u64)).unwrap();
        self.spaces[file as usize].cut(len);
    }
}

impl Disk for MemDisk {
    ghost state = { log_state };

    ghost reveals = { Unit {0} };

    ghost as_it_reads = { λ s t c revealed here. log_as_it_reads s t c here };

    ghost later_taken = { λ d f b m n le has. tt };

    ghost site_taken = { λ d f b m n some within has. tt };

    ghost ended_taken = { λ d b c m n ends has. tt };

    ghost bare_taken = { λ d b c m bare has. tt };

    ghost free_taken = { λ d f b m is. tt };

    ghost alike_kept = { λ d b c n one two same has. tt };

    ghost bare_kept = { λ d b c none also has. tt };

    ghost smaller_fits = { λ s f m n le has. has };

    fn len(&mut self, file: u8) -> Result<u64, DiskFault>
        requires { file ≤ 66 }
        ensures length { IfOk result (λ n. n ≡ length ((log_state self.old).files file)) }
        ensures contents { (log_state self.new).files ≡ (log_state self.old).files }
        ensures crash { KeepsImages (log_state self.old) (log_state self.new) }
        ensures settled { Settles (log_state self.old) (log_state self.new) }
        ensures time { Passes (log_state self.old) (log_state self.new) }
        ensures cause { HasCause self.old.faults self.new.faults result }
        ensures full { IsErr result ↔ IsListFull self.old }
        ensures listed { OnOk result (Lists self.old self.new Call.Len []) }
        ensures refused { OnErr result (self.new ≡ record self.old { faults = one_more self.old.faults }) }
    {
        self.look(Call::Len)?;
        Ok(self.spaces[file as usize].len() as u64)
    }

    fn read(&mut self, file: u8, at: u64, buf: &mut [u8]) -> Result<usize, DiskFault>
        requires file { file ≤ 66 }
        requires range { at + length buf.old ≤ 2 ^ 62 }
        ensures count { IfOk result (λ k. k ≡ min (length buf.new) (length ((log_state self.old).files file) - at)) }
        ensures bytes { IfOk result (λ k. take k buf.new ≡ take k (drop at ((log_state self.old).files file))) }
        ensures contents { (log_state self.new).files ≡ (log_state self.old).files }
        ensures crash { KeepsImages (log_state self.old) (log_state self.new) }
        ensures settled { Settles (log_state self.old) (log_state self.new) }
        ensures time { Passes (log_state self.old) (log_state self.new) }
        ensures cause { HasCause self.old.faults self.new.faults result }
        ensures full { IsErr result ↔ IsListFull self.old }
        ensures listed { OnOk result (Lists self.old self.new Call.Read []) }
        ensures refused { OnErr result (self.new ≡ record self.old { faults = one_more self.old.faults }) }
    {
        self.look(Call::Read)?;
        Ok(self.spaces[file as usize].read(at as usize, buf))
    }

    fn write(&mut self, file: u8, at: u64, bytes: &[u8]) -> Result<(), DiskFault>
        requires file { file ≤ 66 }
        requires range { at + length bytes.now ≤ 2 ^ 62 }
        ensures written { OnOk result (ChangesFile file (Holds at bytes.now) (log_state self.old).files (log_state self.new).files) }
        ensures torn { OnErr result (ChangesFile file (Torn at (length bytes.now)) (log_state self.old).files (log_state self.new).files) }
        ensures crash { Follows (ChangesFile file (Torn at (length bytes.now))) (log_state self.old) (log_state self.new) }
        ensures settled { Settles (log_state self.old) (log_state self.new) }
        ensures time { Passes (log_state self.old) (log_state self.new) }
        ensures cause { HasCause self.old.faults self.new.faults result }
        ensures full { IsErr result ↔ IsWriteRefused self.old file at (length bytes.now) }
        ensures listed { OnOk result (Lists self.old self.new (Call.Write file at (length self.old.bytes) (length bytes.now)) bytes.now) }
        ensures refused { OnErr result (self.new ≡ record self.old { faults = one_more self.old.faults }) }
    {
        if self.is_write_refused(file, at as usize, bytes.len()) {
            return Err(self.refuse());
        }
        self.put(file, at as usize, bytes);
        Ok(())
    }

    fn cut(&mut self, file: u8, len: u64) -> Result<(), DiskFault>
        requires file { file ≤ 66 }
        requires range { len ≤ 2 ^ 62 }
        ensures cut { OnOk result (ChangesFile file (IsCut len) (log_state self.old).files (log_state self.new).files) }
        ensures torn { OnErr result (ChangesFile file (MayBeCut len) (log_state self.old).files (log_state self.new).files) }
        ensures crash { Follows (ChangesFile file (MayBeCut len)) (log_state self.old) (log_state self.new) }
        ensures settled { Settles (log_state self.old) (log_state self.new) }
        ensures time { Passes (log_state self.old) (log_state self.new) }
        ensures cause { HasCause self.old.faults self.new.faults result }
        ensures full { IsErr result ↔ IsListFull self.old }
        ensures listed { OnOk result (Lists self.old self.new (Call.Cut file len) []) }
        ensures refused { OnErr result (self.new ≡ record self.old { faults = one_more self.old.faults }) }
    {
        if self.is_list_full() {
            return Err(self.refuse());
        }
        self.shorten(file, len as usize);
        Ok(())
    }

    fn sync(&mut self) -> Result<(), DiskFault>
        ensures durable { OnOk result (IsSynced (log_state self.new)) }
        ensures contents { (log_state self.new).files ≡ (log_state self.old).files }
        ensures crash { KeepsImages (log_state self.old) (log_state self.new) }
        ensures settled { Settles (log_state self.old) (log_state self.new) }
        ensures time { Passes (log_state self.old) (log_state self.new) }
        ensures cause { HasCause self.old.faults self.new.faults result }
        ensures full { IsErr result ↔ IsListFull self.old }
        ensures listed { OnOk result (Lists self.old self.new Call.Sync []) }
        ensures refused { OnErr result (self.new ≡ record self.old { faults = one_more self.old.faults }) }
    {
        self.look(Call::Sync)
    }
}
