ghost use Rattle.std.specs.Prelude.{◌≡◌, ◌+◌, ◌-◌, ◌^◌, ◌≤◌, [], ℕ, length, take, drop, min, IfOk, OnOk, OnErr, IsTrue, ◌↔◌};
ghost use Rattle.aea_faults.specs.Faults.{HasCause};
ghost use Rattle.aea_disk.specs.Count.{faults_after};
ghost use Rattle.aea_disk.specs.Fail.{with_faults, next_call, IsListed, Counts, FailsAlone, PassesOn};
ghost use Rattle.aea_disk.specs.Files.{ChangesFile, Holds, Torn, IsCut, MayBeCut};
ghost use Rattle.aea_disk.specs.State.{Passes, Follows, KeepsImages, Settles, IsSynced, IsReady, IsRoomy, TakesFrom};

use crate::{Disk, DiskFault};
use aea_faults::risen;
use std::alloc::{AllocError, Global};
use std::marker::Model;

/// A disk whose listed calls fail, and which hands each other call on to the disk inside.
#[derive(Drop)]
pub struct FailDisk<D: Disk> {
    inner: D,
    fails: Vec<u64>,
    calls: u64,
    faults: u64,
}

impl<D: Disk> Model for FailDisk<D> {
    ghost use Rattle.aea_disk.specs.Fail.{Failing};

    ghost Value = { Failing D };

    ghost view = { λ d. record { inner = d.inner; fails = d.fails.items; calls = d.calls; faults = d.faults } };
}

impl<D: Disk> FailDisk<D> {
    /// The calls are counted from 1, of whatever kind they are.
    pub fn new(alloc: Global, inner: D, fails: &[u64]) -> Result<FailDisk<D>, AllocError>
    where
        D: Drop,
        ensures { IfOk result (λ d. d ≡ record { inner = inner; fails = fails.now; calls = 0; faults = 0 }) }
    {
        Ok(FailDisk {
            inner,
            fails: Vec::from_slice(alloc, fails)?,
            calls: 0,
            faults: 0,
        })
    }

    // Counts the call, and says whether it is a listed one.
    fn fails_now(&mut self) -> bool
        ensures listed { IsTrue result ↔ IsListed self.old }
        ensures calls { self.new.calls ≡ next_call self.old.calls }
        ensures inner { self.new.inner ≡ self.old.inner }
        ensures fails { self.new.fails ≡ self.old.fails }
        ensures faults { self.new.faults ≡ self.old.faults }
    {
        self.calls = risen(self.calls);
        self.fails.contains(&self.calls)
    }

    // Counts the call where it failed.
    fn counted<T>(&mut self, answer: Result<T, DiskFault>) -> Result<T, DiskFault>
        ensures same { result ≡ answer }
        ensures faults { self.new.faults ≡ faults_after self.old.faults answer }
        ensures cause { HasCause self.old.faults self.new.faults answer }
        ensures inner { self.new.inner ≡ self.old.inner }
        ensures fails { self.new.fails ≡ self.old.fails }
        ensures calls { self.new.calls ≡ self.old.calls }
    {
        if answer.is_err() {
            self.faults = risen(self.faults);
        }
        answer
    }
}

impl<D: Disk> Disk for FailDisk<D> {
    ghost state = { λ d. with_faults (D.state d.inner) d.faults };

    ghost reveals = { D.reveals };

    ghost as_it_reads = { λ d t c revealed here. D.as_it_reads d.inner t c revealed here };

    ghost later_taken = { λ d f b m n le has. tt };

    ghost site_taken = { λ d f b m n some within has. tt };

    ghost ended_taken = { λ d b c m n ends has. tt };

    ghost bare_taken = { λ d b c m bare has. tt };

    ghost free_taken = { λ d f b m is. tt };

    ghost alike_kept = { λ d b c n one two same has. tt };

    ghost bare_kept = { λ d b c none also has. tt };

    ghost smaller_fits = { λ d f m n le has. has };

    fn len(&mut self, file: u8) -> Result<u64, DiskFault>
        requires { file ≤ 66 }
        ensures length { IfOk result (λ n. D.reveals → n ≡ length ((D.state self.old.inner).files file)) }
        ensures contents { D.reveals → (D.state self.new.inner).files ≡ (D.state self.old.inner).files }
        ensures crash { KeepsImages (D.state self.old.inner) (D.state self.new.inner) }
        ensures settled { Settles (D.state self.old.inner) (D.state self.new.inner) }
        ensures time { Passes (with_faults (D.state self.old.inner) self.old.faults) (with_faults (D.state self.new.inner) self.new.faults) }
        ensures cause { HasCause self.old.faults self.new.faults result }
        ensures counts { Counts self.old self.new result }
        ensures listed { IsListed self.old → FailsAlone self.old self.new result }
        ensures passed { ¬ IsListed self.old → PassesOn (D.reveals × IsReady (D.state self.old.inner)) (IsRoomy (D.state self.old.inner)) (D.state self.old.inner) (D.state self.new.inner) result }
    {
        if self.fails_now() {
            return self.counted(Err(DiskFault));
        }
        let answer = self.inner.len(file);
        self.counted(answer)
    }

    fn read(&mut self, file: u8, at: u64, buf: &mut [u8]) -> Result<usize, DiskFault>
        requires file { file ≤ 66 }
        requires range { at + length buf.old ≤ 2 ^ 62 }
        ensures bound { IfOk result (λ k. k ≤ length buf.new) }
        ensures count { IfOk result (λ k. D.reveals → k ≡ min (length buf.new) (length ((D.state self.old.inner).files file) - at)) }
        ensures bytes { IfOk result (λ k. D.reveals → take k buf.new ≡ take k (drop at ((D.state self.old.inner).files file))) }
        ensures contents { D.reveals → (D.state self.new.inner).files ≡ (D.state self.old.inner).files }
        ensures crash { KeepsImages (D.state self.old.inner) (D.state self.new.inner) }
        ensures settled { Settles (D.state self.old.inner) (D.state self.new.inner) }
        ensures time { Passes (with_faults (D.state self.old.inner) self.old.faults) (with_faults (D.state self.new.inner) self.new.faults) }
        ensures cause { HasCause self.old.faults self.new.faults result }
        ensures counts { Counts self.old self.new result }
        ensures listed { IsListed self.old → FailsAlone self.old self.new result }
        ensures passed { ¬ IsListed self.old → PassesOn (D.reveals × IsReady (D.state self.old.inner)) (IsRoomy (D.state self.old.inner)) (D.state self.old.inner) (D.state self.new.inner) result }
    {
        if self.fails_now() {
            return self.counted(Err(DiskFault));
        }
        let answer = self.inner.read(file, at, buf);
        self.counted(answer)
    }

    fn write(&mut self, file: u8, at: u64, bytes: &[u8]) -> Result<(), DiskFault>
        requires file { file ≤ 66 }
        requires range { at + length bytes.now ≤ 2 ^ 62 }
        ensures written { OnOk result (D.reveals → ChangesFile file (Holds at bytes.now) (D.state self.old.inner).files (D.state self.new.inner).files) }
        ensures torn { OnErr result (D.reveals → ChangesFile file (Torn at (length bytes.now)) (D.state self.old.inner).files (D.state self.new.inner).files) }
        ensures crash { Follows (ChangesFile file (Torn at (length bytes.now))) (D.state self.old.inner) (D.state self.new.inner) }
        ensures settled { Settles (D.state self.old.inner) (D.state self.new.inner) }
        ensures time { Passes (with_faults (D.state self.old.inner) self.old.faults) (with_faults (D.state self.new.inner) self.new.faults) }
        ensures cause { HasCause self.old.faults self.new.faults result }
        ensures counts { Counts self.old self.new result }
        ensures listed { IsListed self.old → FailsAlone self.old self.new result }
        ensures passed { ¬ IsListed self.old → PassesOn (D.reveals × TakesFrom (D.state self.old.inner) file at) ((D.state self.old.inner).room file (at + length bytes.now)) (D.state self.old.inner) (D.state self.new.inner) result }
    {
        if self.fails_now() {
            return self.counted(Err(DiskFault));
        }
        let answer = self.inner.write(file, at, bytes);
        self.counted(answer)
    }

    fn cut(&mut self, file: u8, len: u64) -> Result<(), DiskFault>
        requires file { file ≤ 66 }
        requires range { len ≤ 2 ^ 62 }
        requires within { D.reveals → len ≤ length ((D.state self.old.inner).files file) }
        ensures cut { OnOk result (D.reveals → ChangesFile file (IsCut len) (D.state self.old.inner).files (D.state self.new.inner).files) }
        ensures torn { OnErr result (D.reveals → ChangesFile file (MayBeCut len) (D.state self.old.inner).files (D.state self.new.inner).files) }
        ensures crash { Follows (ChangesFile file (MayBeCut len)) (D.state self.old.inner) (D.state self.new.inner) }
        ensures settled { Settles (D.state self.old.inner) (D.state self.new.inner) }
        ensures time { Passes (with_faults (D.state self.old.inner) self.old.faults) (with_faults (D.state self.new.inner) self.new.faults) }
        ensures cause { HasCause self.old.faults self.new.faults result }
        ensures counts { Counts self.old self.new result }
        ensures listed { IsListed self.old → FailsAlone self.old self.new result }
        ensures passed { ¬ IsListed self.old → PassesOn (D.reveals × TakesFrom (D.state self.old.inner) file 0) ((D.state self.old.inner).room file 0) (D.state self.old.inner) (D.state self.new.inner) result }
    {
        if self.fails_now() {
            return self.counted(Err(DiskFault));
        }
        let answer = self.inner.cut(file, len);
        self.counted(answer)
    }

    fn sync(&mut self) -> Result<(), DiskFault>
        ensures durable { OnOk result (D.reveals → IsSynced (D.state self.new.inner)) }
        ensures contents { D.reveals → (D.state self.new.inner).files ≡ (D.state self.old.inner).files }
        ensures crash { KeepsImages (D.state self.old.inner) (D.state self.new.inner) }
        ensures settled { Settles (D.state self.old.inner) (D.state self.new.inner) }
        ensures time { Passes (with_faults (D.state self.old.inner) self.old.faults) (with_faults (D.state self.new.inner) self.new.faults) }
        ensures cause { HasCause self.old.faults self.new.faults result }
        ensures counts { Counts self.old self.new result }
        ensures listed { IsListed self.old → FailsAlone self.old self.new result }
        ensures passed { ¬ IsListed self.old → PassesOn (D.reveals × IsReady (D.state self.old.inner)) (IsRoomy (D.state self.old.inner)) (D.state self.old.inner) (D.state self.new.inner) result }
    {
        if self.fails_now() {
            return self.counted(Err(DiskFault));
        }
        let answer = self.inner.sync();
        self.counted(answer)
    }
}
