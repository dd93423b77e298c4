//! A disk over a lent one, which keeps two copies of the ledger.

ghost use Rattle.std.specs.Prelude.{◌≡◌, ◌⊎◌, ◌≤◌, ◌<◌, ◌+◌, ◌-◌, ◌^◌, [], length, take, drop, get_or, min, true, false, IsTrue, ◌↔◌, Ok, IsErr, IfOk, OnOk, OnErr};
ghost use Rattle.aea_faults.specs.Faults.{HasCause};
ghost use Rattle.aea_adopt.specs.Adopting.{AreNear, IsTrueOf};
ghost use Rattle.aea_disk.specs.Count.{one_more};
ghost use Rattle.aea_disk.specs.Files.{ChangesFile, Holds, Torn, IsCut, MayBeCut};
ghost use Rattle.aea_disk.specs.State.{Passes, Follows, KeepsImages, Settles, IsSynced, IsSure, IsReady, IsRoomy, TakesFrom, HasRoom};
ghost use Rattle.aea_mirror.specs.Mirrored.{mirror_state, shown};
ghost use Rattle.aea_mirror.specs.Refusing.{RefusesWrite, RefusesCut, IsRefused, IsCounted, WritesNone, NeverEnds};
ghost use Rattle.aea_mirror.specs.Guarding.{Guards};

use crate::extend::extend_both;
use crate::further::{Further, look_further};
use crate::tail::Tail;
use aea_adopt::Adopted;
use aea_disk::{Disk, DiskFault};
use aea_faults::risen;

/// A disk over a lent one. It shows the ledger and the sites of that, and hides the files of the copies. Where copies are on
/// it refuses what would change the kept text, and a sync writes what the ledger has more into both copies.
#[derive(Drop)]
pub struct Mirror<'a, D: Disk> {
    pub(crate) disk: &'a mut D,
    pub(crate) on: bool,
    pub(crate) end: u64,
    pub(crate) first: Tail,
    pub(crate) second: Tail,
    pub(crate) dead: bool,
    pub(crate) own: u64,
    ghost near: { (end ≤ 2 ^ 58) × (first.gate ≤ 2 ^ 58) × (second.gate ≤ 2 ^ 58) × (on ≡ true → 1 ≤ end) },
    ghost guards: { dead ≡ false → D.reveals → ∥ Guards (D.state disk.now) on end first second ∥₁ },
}

impl<'a, D: Disk> Mirror<'a, D> {
    /// A Mirror over a lent disk whose copies were adopted, with what was said of them. It takes no memory.
    pub fn new(disk: &'a mut D, adopted: Adopted) -> Mirror<'a, D>
        requires near { AreNear adopted }
        requires revealed { D.reveals → IsTrueOf (D.state disk.old).files adopted }
        requires synced { D.reveals → IsSynced (D.state disk.old) }
        ensures same { result.disk.ghost_name ≡ disk.entry.ghost_name }
        ensures now { result.disk.now ≡ disk.old }
        ensures on { result.on ≡ adopted.on }
        ensures end { result.end ≡ adopted.end }
        ensures gates { (result.first.gate ≡ get_or adopted.gates 0 0) × (result.second.gate ≡ get_or adopted.gates 1 0) }
        ensures links { (result.first.link ≡ get_or adopted.links 0 []) × (result.second.link ≡ get_or adopted.links 1 []) }
        ensures alive { result.dead ≡ false }
        ensures none { result.own ≡ 0 }
    {
        let gates = adopted.gates;
        let links = adopted.links;
        let first = Tail {
            gate: gates[0],
            link: links[0],
        };
        let second = Tail {
            gate: gates[1],
            link: links[1],
        };
        Mirror {
            disk,
            on: adopted.on,
            end: adopted.end,
            first,
            second,
            dead: false,
            own: 0,
        }
    }

    // Refuses a call, and counts it.
    pub(crate) fn refuse(&mut self) -> DiskFault
        ensures same { self.new.disk.ghost_name ≡ self.old.disk.ghost_name }
        ensures disk { self.new.disk.now ≡ self.old.disk.now }
        ensures on { self.new.on ≡ self.old.on }
        ensures end { self.new.end ≡ self.old.end }
        ensures first { self.new.first ≡ self.old.first }
        ensures second { self.new.second ≡ self.old.second }
        ensures dead { self.new.dead ≡ self.old.dead }
        ensures own { self.new.own ≡ one_more self.old.own }
    {
        self.own = risen(self.own);
        DiskFault
    }

    // The Mirror refuses a write of this file from this place on.
    fn refuses_write(&self, file: u8, at: u64) -> bool
        ensures refused { IsTrue result ↔ RefusesWrite self.now.on self.now.end self.now.dead file at }
    {
        file > 64 || self.dead || (self.on && file == 0 && at < self.end)
    }

    // The Mirror refuses a cut of this file to this length.
    fn refuses_cut(&self, file: u8, len: u64) -> bool
        ensures refused { IsTrue result ↔ RefusesCut self.now.on self.now.end self.now.dead file len }
    {
        file > 64 || self.dead || (self.on && file == 0 && len <= self.end)
    }
}

impl<'a, D: Disk> Disk for Mirror<'a, D> {
    ghost use Rattle.aea_mirror.specs.Mirrored.{Kept};
    ghost use Rattle.aea_mirror.specs.States.{shown_as_read, takes_later, takes_sites, takes_ended, takes_bare, keeps_alike, keeps_bare};

    ghost state = { λ m. mirror_state D.reveals (D.state m.disk.now) (record { name = m.disk.ghost_name; on = m.on; end = m.end; dead = m.dead; own = m.own }) };

    ghost reveals = { D.reveals };

    ghost as_it_reads = { λ m t c revealed here. shown_as_read D.reveals (D.state m.disk.now) (record { name = m.disk.ghost_name; on = m.on; end = m.end; dead = m.dead; own = m.own }) (λ u d revealed image. D.as_it_reads m.disk.now u d revealed image) t c here };

    ghost later_taken = { λ m f b i j le has. takes_later D.reveals (D.state m.disk.now) (record { name = m.disk.ghost_name; on = m.on; end = m.end; dead = m.dead; own = m.own }) f b i j le has };

    ghost site_taken = { λ m f b i j some near has. takes_sites D.reveals (D.state m.disk.now) (record { name = m.disk.ghost_name; on = m.on; end = m.end; dead = m.dead; own = m.own }) f b i j some near has };

    ghost ended_taken = { λ m b c i j ends has. takes_ended D.reveals (D.state m.disk.now) (record { name = m.disk.ghost_name; on = m.on; end = m.end; dead = m.dead; own = m.own }) b c i j ends has };

    ghost bare_taken = { λ m b c i bare has. takes_bare D.reveals (D.state m.disk.now) (record { name = m.disk.ghost_name; on = m.on; end = m.end; dead = m.dead; own = m.own }) b c i bare has };

    ghost free_taken = { λ m f b i is. absurd is };

    ghost alike_kept = { λ m b c n one two same has. keeps_alike (D.state m.disk.now) m.on (D.alike_kept m.disk.now) b c n one two same has };

    ghost bare_kept = { λ m b c one two has. keeps_bare (D.state m.disk.now) m.on (D.bare_kept m.disk.now) b c one two has };

    ghost smaller_fits = { λ m f i j le has. (has.0, (has.1.0, D.smaller_fits m.disk.now f i j le has.1.1)) };

    fn len(&mut self, file: u8) -> Result<u64, DiskFault>
        requires { file ≤ 66 }
        ensures length { IfOk result (λ n. D.reveals → n ≡ length ((shown D.reveals (D.state self.old.disk.now) self.old.disk.ghost_name self.old.on self.old.end self.old.dead self.old.own).files file)) }
        ensures contents { D.reveals → (shown D.reveals (D.state self.new.disk.now) self.new.disk.ghost_name self.new.on self.new.end self.new.dead self.new.own).files ≡ (shown D.reveals (D.state self.old.disk.now) self.old.disk.ghost_name self.old.on self.old.end self.old.dead self.old.own).files }
        ensures crash { KeepsImages (shown D.reveals (D.state self.old.disk.now) self.old.disk.ghost_name self.old.on self.old.end self.old.dead self.old.own) (shown D.reveals (D.state self.new.disk.now) self.new.disk.ghost_name self.new.on self.new.end self.new.dead self.new.own) }
        ensures settled { Settles (shown D.reveals (D.state self.old.disk.now) self.old.disk.ghost_name self.old.on self.old.end self.old.dead self.old.own) (shown D.reveals (D.state self.new.disk.now) self.new.disk.ghost_name self.new.on self.new.end self.new.dead self.new.own) }
        ensures time { Passes (shown D.reveals (D.state self.old.disk.now) self.old.disk.ghost_name self.old.on self.old.end self.old.dead self.old.own) (shown D.reveals (D.state self.new.disk.now) self.new.disk.ghost_name self.new.on self.new.end self.new.dead self.new.own) }
        ensures cause { HasCause (shown D.reveals (D.state self.old.disk.now) self.old.disk.ghost_name self.old.on self.old.end self.old.dead self.old.own).faults (shown D.reveals (D.state self.new.disk.now) self.new.disk.ghost_name self.new.on self.new.end self.new.dead self.new.own).faults result }
        ensures sure { IsSure (D.reveals × IsReady (shown D.reveals (D.state self.old.disk.now) self.old.disk.ghost_name self.old.on self.old.end self.old.dead self.old.own)) (IsRoomy (shown D.reveals (D.state self.old.disk.now) self.old.disk.ghost_name self.old.on self.old.end self.old.dead self.old.own)) (shown D.reveals (D.state self.old.disk.now) self.old.disk.ghost_name self.old.on self.old.end self.old.dead self.old.own) (shown D.reveals (D.state self.new.disk.now) self.new.disk.ghost_name self.new.on self.new.end self.new.dead self.new.own) result }
        ensures hidden { 64 < file → (result ≡ Ok 0) × (self.new.disk.now ≡ self.old.disk.now) }
        ensures counts { IsCounted self.old.own self.new.own (D.state self.old.disk.now) (D.state self.new.disk.now) result }
        ensures same { (self.new.on ≡ self.old.on) × (self.new.end ≡ self.old.end) × (self.new.first ≡ self.old.first) × (self.new.second ≡ self.old.second) × (self.new.dead ≡ self.old.dead) }
        ensures lent { self.new.disk.ghost_name ≡ self.old.disk.ghost_name }
    {
        if file > 64 {
            return Ok(0);
        }
        self.disk.len(file)
    }

    fn read(&mut self, file: u8, at: u64, buf: &mut [u8]) -> Result<usize, DiskFault>
        requires file { file ≤ 66 }
        requires range { at + length buf.old ≤ 2 ^ 62 }
        ensures bound { IfOk result (λ k. k ≤ length buf.new) }
        ensures count { IfOk result (λ k. D.reveals → k ≡ min (length buf.new) (length ((shown D.reveals (D.state self.old.disk.now) self.old.disk.ghost_name self.old.on self.old.end self.old.dead self.old.own).files file) - at)) }
        ensures bytes { IfOk result (λ k. D.reveals → take k buf.new ≡ take k (drop at ((shown D.reveals (D.state self.old.disk.now) self.old.disk.ghost_name self.old.on self.old.end self.old.dead self.old.own).files file))) }
        ensures contents { D.reveals → (shown D.reveals (D.state self.new.disk.now) self.new.disk.ghost_name self.new.on self.new.end self.new.dead self.new.own).files ≡ (shown D.reveals (D.state self.old.disk.now) self.old.disk.ghost_name self.old.on self.old.end self.old.dead self.old.own).files }
        ensures crash { KeepsImages (shown D.reveals (D.state self.old.disk.now) self.old.disk.ghost_name self.old.on self.old.end self.old.dead self.old.own) (shown D.reveals (D.state self.new.disk.now) self.new.disk.ghost_name self.new.on self.new.end self.new.dead self.new.own) }
        ensures settled { Settles (shown D.reveals (D.state self.old.disk.now) self.old.disk.ghost_name self.old.on self.old.end self.old.dead self.old.own) (shown D.reveals (D.state self.new.disk.now) self.new.disk.ghost_name self.new.on self.new.end self.new.dead self.new.own) }
        ensures time { Passes (shown D.reveals (D.state self.old.disk.now) self.old.disk.ghost_name self.old.on self.old.end self.old.dead self.old.own) (shown D.reveals (D.state self.new.disk.now) self.new.disk.ghost_name self.new.on self.new.end self.new.dead self.new.own) }
        ensures cause { HasCause (shown D.reveals (D.state self.old.disk.now) self.old.disk.ghost_name self.old.on self.old.end self.old.dead self.old.own).faults (shown D.reveals (D.state self.new.disk.now) self.new.disk.ghost_name self.new.on self.new.end self.new.dead self.new.own).faults result }
        ensures sure { IsSure (D.reveals × IsReady (shown D.reveals (D.state self.old.disk.now) self.old.disk.ghost_name self.old.on self.old.end self.old.dead self.old.own)) (IsRoomy (shown D.reveals (D.state self.old.disk.now) self.old.disk.ghost_name self.old.on self.old.end self.old.dead self.old.own)) (shown D.reveals (D.state self.old.disk.now) self.old.disk.ghost_name self.old.on self.old.end self.old.dead self.old.own) (shown D.reveals (D.state self.new.disk.now) self.new.disk.ghost_name self.new.on self.new.end self.new.dead self.new.own) result }
        ensures hidden { 64 < file → (result ≡ Ok 0) × (self.new.disk.now ≡ self.old.disk.now) }
        ensures counts { IsCounted self.old.own self.new.own (D.state self.old.disk.now) (D.state self.new.disk.now) result }
        ensures same { (self.new.on ≡ self.old.on) × (self.new.end ≡ self.old.end) × (self.new.first ≡ self.old.first) × (self.new.second ≡ self.old.second) × (self.new.dead ≡ self.old.dead) }
        ensures lent { self.new.disk.ghost_name ≡ self.old.disk.ghost_name }
    {
        if file > 64 {
            return Ok(0);
        }
        self.disk.read(file, at, buf)
    }

    fn write(&mut self, file: u8, at: u64, bytes: &[u8]) -> Result<(), DiskFault>
        requires file { file ≤ 66 }
        requires range { at + length bytes.now ≤ 2 ^ 62 }
        ensures written { OnOk result (D.reveals → ChangesFile file (Holds at bytes.now) (shown D.reveals (D.state self.old.disk.now) self.old.disk.ghost_name self.old.on self.old.end self.old.dead self.old.own).files (shown D.reveals (D.state self.new.disk.now) self.new.disk.ghost_name self.new.on self.new.end self.new.dead self.new.own).files) }
        ensures torn { OnErr result (D.reveals → ChangesFile file (Torn at (length bytes.now)) (shown D.reveals (D.state self.old.disk.now) self.old.disk.ghost_name self.old.on self.old.end self.old.dead self.old.own).files (shown D.reveals (D.state self.new.disk.now) self.new.disk.ghost_name self.new.on self.new.end self.new.dead self.new.own).files) }
        ensures crash { Follows (ChangesFile file (Torn at (length bytes.now))) (shown D.reveals (D.state self.old.disk.now) self.old.disk.ghost_name self.old.on self.old.end self.old.dead self.old.own) (shown D.reveals (D.state self.new.disk.now) self.new.disk.ghost_name self.new.on self.new.end self.new.dead self.new.own) }
        ensures settled { Settles (shown D.reveals (D.state self.old.disk.now) self.old.disk.ghost_name self.old.on self.old.end self.old.dead self.old.own) (shown D.reveals (D.state self.new.disk.now) self.new.disk.ghost_name self.new.on self.new.end self.new.dead self.new.own) }
        ensures time { Passes (shown D.reveals (D.state self.old.disk.now) self.old.disk.ghost_name self.old.on self.old.end self.old.dead self.old.own) (shown D.reveals (D.state self.new.disk.now) self.new.disk.ghost_name self.new.on self.new.end self.new.dead self.new.own) }
        ensures cause { HasCause (shown D.reveals (D.state self.old.disk.now) self.old.disk.ghost_name self.old.on self.old.end self.old.dead self.old.own).faults (shown D.reveals (D.state self.new.disk.now) self.new.disk.ghost_name self.new.on self.new.end self.new.dead self.new.own).faults result }
        ensures sure { IsSure (D.reveals × TakesFrom (shown D.reveals (D.state self.old.disk.now) self.old.disk.ghost_name self.old.on self.old.end self.old.dead self.old.own) file at) ((shown D.reveals (D.state self.old.disk.now) self.old.disk.ghost_name self.old.on self.old.end self.old.dead self.old.own).room file (at + length bytes.now)) (shown D.reveals (D.state self.old.disk.now) self.old.disk.ghost_name self.old.on self.old.end self.old.dead self.old.own) (shown D.reveals (D.state self.new.disk.now) self.new.disk.ghost_name self.new.on self.new.end self.new.dead self.new.own) result }
        ensures full { OnOk result (HasRoom (shown D.reveals (D.state self.old.disk.now) self.old.disk.ghost_name self.old.on self.old.end self.old.dead self.old.own) → (shown D.reveals (D.state self.old.disk.now) self.old.disk.ghost_name self.old.on self.old.end self.old.dead self.old.own).room file (at + length bytes.now)) }
        ensures refused { RefusesWrite self.old.on self.old.end self.old.dead file at → IsRefused self.old.disk.now self.new.disk.now self.old.own self.new.own result }
        ensures counts { IsCounted self.old.own self.new.own (D.state self.old.disk.now) (D.state self.new.disk.now) result }
        ensures same { (self.new.on ≡ self.old.on) × (self.new.end ≡ self.old.end) × (self.new.first ≡ self.old.first) × (self.new.second ≡ self.old.second) × (self.new.dead ≡ self.old.dead) }
        ensures lent { self.new.disk.ghost_name ≡ self.old.disk.ghost_name }
    {
        if self.refuses_write(file, at) {
            return Err(self.refuse());
        }
        self.disk.write(file, at, bytes)
    }

    fn cut(&mut self, file: u8, len: u64) -> Result<(), DiskFault>
        requires file { file ≤ 66 }
        requires range { len ≤ 2 ^ 62 }
        requires within { D.reveals → len ≤ length ((shown D.reveals (D.state self.old.disk.now) self.old.disk.ghost_name self.old.on self.old.end self.old.dead self.old.own).files file) }
        ensures cut { OnOk result (D.reveals → ChangesFile file (IsCut len) (shown D.reveals (D.state self.old.disk.now) self.old.disk.ghost_name self.old.on self.old.end self.old.dead self.old.own).files (shown D.reveals (D.state self.new.disk.now) self.new.disk.ghost_name self.new.on self.new.end self.new.dead self.new.own).files) }
        ensures torn { OnErr result (D.reveals → ChangesFile file (MayBeCut len) (shown D.reveals (D.state self.old.disk.now) self.old.disk.ghost_name self.old.on self.old.end self.old.dead self.old.own).files (shown D.reveals (D.state self.new.disk.now) self.new.disk.ghost_name self.new.on self.new.end self.new.dead self.new.own).files) }
        ensures crash { Follows (ChangesFile file (MayBeCut len)) (shown D.reveals (D.state self.old.disk.now) self.old.disk.ghost_name self.old.on self.old.end self.old.dead self.old.own) (shown D.reveals (D.state self.new.disk.now) self.new.disk.ghost_name self.new.on self.new.end self.new.dead self.new.own) }
        ensures settled { Settles (shown D.reveals (D.state self.old.disk.now) self.old.disk.ghost_name self.old.on self.old.end self.old.dead self.old.own) (shown D.reveals (D.state self.new.disk.now) self.new.disk.ghost_name self.new.on self.new.end self.new.dead self.new.own) }
        ensures time { Passes (shown D.reveals (D.state self.old.disk.now) self.old.disk.ghost_name self.old.on self.old.end self.old.dead self.old.own) (shown D.reveals (D.state self.new.disk.now) self.new.disk.ghost_name self.new.on self.new.end self.new.dead self.new.own) }
        ensures cause { HasCause (shown D.reveals (D.state self.old.disk.now) self.old.disk.ghost_name self.old.on self.old.end self.old.dead self.old.own).faults (shown D.reveals (D.state self.new.disk.now) self.new.disk.ghost_name self.new.on self.new.end self.new.dead self.new.own).faults result }
        ensures sure { IsSure (D.reveals × TakesFrom (shown D.reveals (D.state self.old.disk.now) self.old.disk.ghost_name self.old.on self.old.end self.old.dead self.old.own) file 0) ((shown D.reveals (D.state self.old.disk.now) self.old.disk.ghost_name self.old.on self.old.end self.old.dead self.old.own).room file 0) (shown D.reveals (D.state self.old.disk.now) self.old.disk.ghost_name self.old.on self.old.end self.old.dead self.old.own) (shown D.reveals (D.state self.new.disk.now) self.new.disk.ghost_name self.new.on self.new.end self.new.dead self.new.own) result }
        ensures refused { RefusesCut self.old.on self.old.end self.old.dead file len → IsRefused self.old.disk.now self.new.disk.now self.old.own self.new.own result }
        ensures counts { IsCounted self.old.own self.new.own (D.state self.old.disk.now) (D.state self.new.disk.now) result }
        ensures same { (self.new.on ≡ self.old.on) × (self.new.end ≡ self.old.end) × (self.new.first ≡ self.old.first) × (self.new.second ≡ self.old.second) × (self.new.dead ≡ self.old.dead) }
        ensures lent { self.new.disk.ghost_name ≡ self.old.disk.ghost_name }
    {
        if self.refuses_cut(file, len) {
            return Err(self.refuse());
        }
        self.disk.cut(file, len)
    }

    fn sync(&mut self) -> Result<(), DiskFault>
        ensures durable { OnOk result (D.reveals → IsSynced (shown D.reveals (D.state self.new.disk.now) self.new.disk.ghost_name self.new.on self.new.end self.new.dead self.new.own)) }
        ensures contents { D.reveals → (shown D.reveals (D.state self.new.disk.now) self.new.disk.ghost_name self.new.on self.new.end self.new.dead self.new.own).files ≡ (shown D.reveals (D.state self.old.disk.now) self.old.disk.ghost_name self.old.on self.old.end self.old.dead self.old.own).files }
        ensures crash { KeepsImages (shown D.reveals (D.state self.old.disk.now) self.old.disk.ghost_name self.old.on self.old.end self.old.dead self.old.own) (shown D.reveals (D.state self.new.disk.now) self.new.disk.ghost_name self.new.on self.new.end self.new.dead self.new.own) }
        ensures settled { Settles (shown D.reveals (D.state self.old.disk.now) self.old.disk.ghost_name self.old.on self.old.end self.old.dead self.old.own) (shown D.reveals (D.state self.new.disk.now) self.new.disk.ghost_name self.new.on self.new.end self.new.dead self.new.own) }
        ensures time { Passes (shown D.reveals (D.state self.old.disk.now) self.old.disk.ghost_name self.old.on self.old.end self.old.dead self.old.own) (shown D.reveals (D.state self.new.disk.now) self.new.disk.ghost_name self.new.on self.new.end self.new.dead self.new.own) }
        ensures cause { HasCause (shown D.reveals (D.state self.old.disk.now) self.old.disk.ghost_name self.old.on self.old.end self.old.dead self.old.own).faults (shown D.reveals (D.state self.new.disk.now) self.new.disk.ghost_name self.new.on self.new.end self.new.dead self.new.own).faults result }
        ensures sure { IsSure (D.reveals × IsReady (shown D.reveals (D.state self.old.disk.now) self.old.disk.ghost_name self.old.on self.old.end self.old.dead self.old.own)) (IsRoomy (shown D.reveals (D.state self.old.disk.now) self.old.disk.ghost_name self.old.on self.old.end self.old.dead self.old.own)) (shown D.reveals (D.state self.old.disk.now) self.old.disk.ghost_name self.old.on self.old.end self.old.dead self.old.own) (shown D.reveals (D.state self.new.disk.now) self.new.disk.ghost_name self.new.on self.new.end self.new.dead self.new.own) result }
        ensures refused { self.old.dead ≡ true → IsRefused self.old.disk.now self.new.disk.now self.old.own self.new.own result }
        ensures broken { D.reveals → self.old.on ≡ true → NeverEnds ((D.state self.old.disk.now).files 0) → IsErr result × WritesNone D.reveals (D.state self.old.disk.now) (D.state self.new.disk.now) × (self.new.dead ≡ self.old.dead) }
        ensures dies { OnErr result ((self.new.dead ≡ true) ⊎ WritesNone D.reveals (D.state self.old.disk.now) (D.state self.new.disk.now)) }
        ensures lives { OnOk result (self.new.dead ≡ false) }
        ensures counts { IsCounted self.old.own self.new.own (D.state self.old.disk.now) (D.state self.new.disk.now) result }
        ensures on { self.new.on ≡ self.old.on }
        ensures lent { self.new.disk.ghost_name ≡ self.old.disk.ghost_name }
    {
        if self.dead {
            return Err(self.refuse());
        }
        self.disk.sync()?;
        if !self.on {
            return Ok(());
        }
        let last = match look_further(self.disk, self.end, self.first.gate)? {
            Further::Nothing => return Ok(()),
            Further::Broken => return Err(self.refuse()),
            Further::Until { last } => last,
        };
        match extend_both(self.disk, &self.first, &self.second, self.end, last) {
            Ok(Some((first, second))) => {
                self.end = last;
                self.first = first;
                self.second = second;
                Ok(())
            }
            Ok(None) => {
                self.dead = true;
                Err(self.refuse())
            }
            Err(fault) => {
                self.dead = true;
                Err(fault)
            }
        }
    }
}
