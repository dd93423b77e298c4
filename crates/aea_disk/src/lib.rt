//! The disk: 67 files, what a crash may leave of them, and who keeps them.
//!
//! Promises to the layers above, by the trait `Disk`, of each call: how the files read after it, what a crash may leave
//! at each moment of it, that a fault comes only where the count rose, which an answer that is Ok leaves as it was, and that
//! a call that the disk takes fails only where the count beneath rose, and never within the capacity. Which calls it takes is
//! decided by the bytes of the ledger file, so that a disk may be put before another and refuse some by a rule; by the laws
//! of the trait an engine shows that its own calls are taken, whatever the disk is. `SureDisk`, `MemDisk`, `FailDisk` and
//! `DirDisk` are disks without such a rule. Read first in `specs/`: `Files`, `State`, `Ends`, and `Frames` (`OnlyReads`,
//! `OnlyWrites`). It rests on `aea_faults`.
//!
//! A function over any disk gets its clauses from those of its calls by these lemmas of
//! `Rattle.aea_disk.proofs.Moments`, and of `Stays` beside it (those that begin with `stays`, `earlier` and `gives`). Each
//! takes the states before, between and after the calls.
//!
//! - time: `passes_none`, `passes_both`
//! - a fact about every image: `during_none` before the first call; `during_step`, `during_change`, `during_kept`
//!   for one call; `during_both` for two runs, `during_then_kept` where the second keeps the images;
//!   `during_more` for a weaker fact; `during_start`, `during_end` for the images of the first and the last moment
//! - what stays once every image has it: `stays_none`, `stays_step`, `stays_kept`, `stays_both`, `stays_same` and
//!   `stays_same_during` for a fact that means the same, on all files or on the images of the calls, `stays_during`,
//!   `stays_never` where no image has it
//! - moments that have an image: `earlier_none`, `earlier_step`, `earlier_kept`, `earlier_both`
//! - what every image has where some image has another fact: `gives_every`, `gives_none`, `gives_both`
//! - nothing pending: `synced_fixed` after a sync, `fixed_others` on a file that the calls do not touch
//! - the other files: `others_none`, `others_change`, `others_kept`, `others_both`, `others_then_kept`, and what
//!   follows of one by `during_others` and `held_by_others`
//! - several files: `where_none`, `where_change`, `where_kept`, `where_both`, `where_others`
//! - a range that is held: `range_kept` for one change of a file, `held_change` over one more call
//! - a call that takes no time: `no_time`
//!
//! The frames of `specs/Frames.antt` go together by these lemmas of `Rattle.aea_disk.proofs.Frames`.
//!
//! - calls that only read: `reads_none` where no call was made; `reads_one` for one call, `reads_made` where
//!   it did not fail, `reads_failed` where it did; `reads_both` for two runs; `reads_as` and `reads_faulted` for another
//!   name of the fault; `reads_synced` for what is synced; `ready_later` and `roomy_later` for what is taken and fits after them
//! - calls that change the files by one step: `writes_none`, `writes_one`, `writes_failed`, `writes_both`, `writes_as`,
//!   `writes_faulted`; `writes_wider` for a wider step and a smaller capacity; `torn_anyway` and `cut_anyway` for the step of a
//!   write and of a cut, whatever it returns
//! - both kinds: `reads_writes`, `writes_then_reads`, `reads_then_writes`
//! - the other files: `writes_others`, `writes_where`, `keeps_both`
//!
//! What a write or a cut does to the bytes of a file follows by the lemmas of `Rattle.aea_disk.specs.Steps`:
//! `length-overwritten`, `get_or-overwritten_before`, `_gap`, `_at`, `_after` and `range-overwritten` of a write that
//! was made; `torn_front`, `torn_back`, `torn_range` and `holds_torn` of one that may be torn; `cut_range` of a cut;
//! `torn_none`, `changes_none` and `changes_wider` of any step.
#![tactic(auto)]

ghost use Rattle.std.specs.Prelude.{◌≡◌, ◌+◌, ◌-◌, ◌^◌, ◌≤◌, ℕ, List, length, take, drop, min, IfOk, OnOk, OnErr};
ghost use Rattle.aea_faults.specs.Faults.{HasCause};
ghost use Rattle.aea_disk.specs.Ends.{EndsAt, IsBare};
ghost use Rattle.aea_disk.specs.Files.{Files, ChangesFile, Holds, Torn, IsCut, MayBeCut};
ghost use Rattle.aea_disk.specs.State.{State, Passes, Follows, KeepsImages, Settles, EveryImage, IsSynced, IsSure, IsReady, IsRoomy, TakesFrom, HasRoom};

mod dir;
mod fail;
mod folder;
mod handle;
mod mem;
mod names;
mod opening;
mod ranges;
mod replay;
mod space;
mod sure;

pub use dir::DirDisk;
pub use fail::FailDisk;
pub use mem::{Loss, MemDisk};
pub use sure::SureDisk;

/// A call of a disk failed. The disk has counted it.
#[derive(Clone, Copy, Debug, PartialEq, Eq)]
pub struct DiskFault;

/// Files numbered 0 to 66: the ledger, 64 sites and two more ledgers. Places and lengths are in bytes.
pub trait Disk {
    /// The files as they read, the clock, the images of each moment, the count of faults and the one beneath, the capacities, and
    /// which calls the disk takes.
    ghost state: { Self → State };

    /// The contents of the disk's files are known.
    ghost reveals: { Type 0 };

    /// The number of bytes of a file.
    fn len(&mut self, file: u8) -> Result<u64, DiskFault>
        requires { file ≤ 66 }
        ensures length { IfOk result (λ n. reveals → n ≡ length ((state self.old).files file)) }
        ensures contents { reveals → (state self.new).files ≡ (state self.old).files }
        ensures crash { KeepsImages (state self.old) (state self.new) }
        ensures settled { Settles (state self.old) (state self.new) }
        ensures time { Passes (state self.old) (state self.new) }
        ensures cause { HasCause (state self.old).faults (state self.new).faults result }
        ensures sure { IsSure (reveals × IsReady (state self.old)) (IsRoomy (state self.old)) (state self.old) (state self.new) result };

    /// The bytes of a file from a place on, as many as there are and the buffer holds.
    fn read(&mut self, file: u8, at: u64, buf: &mut [u8]) -> Result<usize, DiskFault>
        requires file { file ≤ 66 }
        requires range { at + length buf.old ≤ 2 ^ 62 }
        ensures bound { IfOk result (λ k. k ≤ length buf.new) }
        ensures count { IfOk result (λ k. reveals → k ≡ min (length buf.new) (length ((state self.old).files file) - at)) }
        ensures bytes { IfOk result (λ k. reveals → take k buf.new ≡ take k (drop at ((state self.old).files file))) }
        ensures contents { reveals → (state self.new).files ≡ (state self.old).files }
        ensures crash { KeepsImages (state self.old) (state self.new) }
        ensures settled { Settles (state self.old) (state self.new) }
        ensures time { Passes (state self.old) (state self.new) }
        ensures cause { HasCause (state self.old).faults (state self.new).faults result }
        ensures sure { IsSure (reveals × IsReady (state self.old)) (IsRoomy (state self.old)) (state self.old) (state self.new) result };

    /// Writes over what is there and past the end; a gap is filled with zeros. After a fault, and until a sync in
    /// what a crash leaves, the range and whatever lies past the old end may hold any bytes.
    fn write(&mut self, file: u8, at: u64, bytes: &[u8]) -> Result<(), DiskFault>
        requires file { file ≤ 66 }
        requires range { at + length bytes.now ≤ 2 ^ 62 }
        ensures written { OnOk result (reveals → ChangesFile file (Holds at bytes.now) (state self.old).files (state self.new).files) }
        ensures torn { OnErr result (reveals → ChangesFile file (Torn at (length bytes.now)) (state self.old).files (state self.new).files) }
        ensures crash { Follows (ChangesFile file (Torn at (length bytes.now))) (state self.old) (state self.new) }
        ensures settled { Settles (state self.old) (state self.new) }
        ensures time { Passes (state self.old) (state self.new) }
        ensures cause { HasCause (state self.old).faults (state self.new).faults result }
        ensures sure { IsSure (reveals × TakesFrom (state self.old) file at) ((state self.old).room file (at + length bytes.now)) (state self.old) (state self.new) result }
        ensures full { OnOk result (HasRoom (state self.old) → (state self.old).room file (at + length bytes.now)) };

    /// Keeps the first bytes of a file. After a fault, and until a sync in what a crash leaves, it may not have
    /// happened.
    fn cut(&mut self, file: u8, len: u64) -> Result<(), DiskFault>
        requires file { file ≤ 66 }
        requires range { len ≤ 2 ^ 62 }
        requires within { reveals → len ≤ length ((state self.old).files file) }
        ensures cut { OnOk result (reveals → ChangesFile file (IsCut len) (state self.old).files (state self.new).files) }
        ensures torn { OnErr result (reveals → ChangesFile file (MayBeCut len) (state self.old).files (state self.new).files) }
        ensures crash { Follows (ChangesFile file (MayBeCut len)) (state self.old) (state self.new) }
        ensures settled { Settles (state self.old) (state self.new) }
        ensures time { Passes (state self.old) (state self.new) }
        ensures cause { HasCause (state self.old).faults (state self.new).faults result }
        ensures sure { IsSure (reveals × TakesFrom (state self.old) file 0) ((state self.old).room file 0) (state self.old) (state self.new) result };

    /// Makes all files durable: after it a crash leaves what a read gives.
    fn sync(&mut self) -> Result<(), DiskFault>
        ensures durable { OnOk result (reveals → IsSynced (state self.new)) }
        ensures contents { reveals → (state self.new).files ≡ (state self.old).files }
        ensures crash { KeepsImages (state self.old) (state self.new) }
        ensures settled { Settles (state self.old) (state self.new) }
        ensures time { Passes (state self.old) (state self.new) }
        ensures cause { HasCause (state self.old).faults (state self.new).faults result }
        ensures sure { IsSure (reveals × IsReady (state self.old)) (IsRoomy (state self.old)) (state self.old) (state self.new) result };

    /// A disk whose images are known may be left as it reads.
    ghost as_it_reads: { (d : Self) (t : ℕ) (c : Files) → reveals → (state d).image t c → (state d).image (state d).moment (state d).files };

    /// What is taken from a place on is taken from a later one.
    ghost later_taken: { (d : Self) (f : ℕ) (b : List ℕ) (m n : ℕ) → m ≤ n → (state d).takes f b m → (state d).takes f b n };

    /// A disk that takes calls takes writes of the sites.
    ghost site_taken: { (d : Self) (f : ℕ) (b : List ℕ) (m n : ℕ) → 1 ≤ f → f ≤ 64 → (state d).takes 0 b m → (state d).takes f b n };

    /// It takes writes of the ledger file past where the records end.
    ghost ended_taken: { (d : Self) (b c : List ℕ) (m n : ℕ) → EndsAt c n → (state d).takes 0 b m → (state d).takes 0 c n };

    /// It takes any write of the ledger file where that has no ledger.
    ghost bare_taken: { (d : Self) (b c : List ℕ) (m : ℕ) → IsBare c → (state d).takes 0 b m → (state d).takes 0 c 0 };

    /// A disk without a rule takes all.
    ghost free_taken: { (d : Self) (f : ℕ) (b : List ℕ) (m : ℕ) → (state d).free → (state d).takes f b m };

    /// What a sync needs is decided by the length of the text and the number of its records alone.
    ghost alike_kept: { (d : Self) (b c : List ℕ) (n : ℕ) → (one : EndsAt b n) → (two : EndsAt c n) → one.records ≡ two.records → (state d).keeps b → (state d).keeps c };

    /// So it is the same of any two texts that are no ledger.
    ghost bare_kept: { (d : Self) (b c : List ℕ) → IsBare b → IsBare c → (state d).keeps b → (state d).keeps c };

    /// What is within a smaller range is within the capacity.
    ghost smaller_fits: { (d : Self) (f m n : ℕ) → m ≤ n → (state d).room f n → (state d).room f m };
}
