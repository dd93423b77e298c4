//! A session.

ghost use Rattle.std.specs.Prelude.{◌≡◌, ◌⊎◌, ◌↔◌, ℕ, true, false, List, length, IfOk, OnOk, IsOk, IsErr};
ghost use Rattle.aea_faults.specs.Faults.{Rose};
ghost use Rattle.aea_lattice.specs.declared.blocks.BlockId.{BlockId};
ghost use Rattle.aea_disk.specs.Frames.{OnlyReads};
ghost use Rattle.aea_disk.specs.State.{HasEarlier, IsFixed};
ghost use Rattle.aea_records.specs.Format.{Record};
ghost use Rattle.aea_ledger.specs.Recorded.{AreRecordsOf};
ghost use Rattle.aea_ledger.specs.Values.{HasRecords, IsThisOne};
ghost use Rattle.aea_archive.specs.Lasts.{IsLastParity, IsDamagedLast, IsFirstDamagedLast, AreLastsIntact, AreLastsHonest};
ghost use Rattle.aea_machine.specs.Machine.{begun};
ghost use Rattle.aea_uploads.specs.Laws.{AreWide};
ghost use Rattle.aea_session.specs.Stands.{KeepsMachine, StandsFor, IsTheSessions};
ghost use Rattle.aea_session.specs.Takes.{Takes};

use crate::begin::{BeginFault, free_slots, is_upgraded};
use crate::fault::TakeFault;
use crate::take::take_message;
use crate::work::Work;
use aea_append::{HeadFault, load_heads};
use aea_archive::cell_buffer;
use aea_disk::Disk;
use aea_io::Sink;
use aea_lattice::BlockId;
use aea_ledger::Ledger;
use aea_machine::none_have_names;
use aea_messages::Message;
use aea_records::{objects_are_counted, records_are_few};
use std::alloc::Global;
use std::marker::Model;

/// A session of up to sixteen uploads over an opened archive, which `begin` gives.
#[derive(Drop)]
pub struct Session {
    work: Work,
    live: bool,
}

impl Model for Session {
    ghost use Rattle.aea_session.specs.Sessions.{SessionValue, session_code, IsUsable};

    ghost Value = { SessionValue };

    ghost coded = { session_code };

    ghost view = { λ s. record { work = s.work; live = s.live } };

    ghost invariant = { λ s. IsUsable s.work s.live };
}

impl Session {
    /// Begins a session over an opened archive: every slot is free. Only an archive whose limit was raised has sessions, which is
    /// looked at first; then the heads are read from the last parities. On a refusal the ledger is dropped, and the archive is as it
    /// was. It takes memory for the heads, a block for each strand, and for a cell, B + 48 bytes; twice, one of them for the time
    /// of the call. All of it is taken before the first read, and nothing is written. It may be used if the ledger may be
    /// appended to.
    pub fn begin<D: Disk>(
        alloc: Global,
        ledger: Ledger,
        disk: &mut D,
    ) -> Result<Session, BeginFault>
        // It has the ledger and, with each data list of its nodes, keeps the state of the machine in which nothing was woven.
        ensures live { IfOk result (λ session. session.live ≡ ledger.live) }
        ensures ledger { IfOk result (λ session. session.work.ledger ≡ ledger) }
        ensures keeps { IfOk result (λ session. (datas : List (List ℕ)) → length datas ≡ ledger.lattice.n → AreWide ledger.shape datas → KeepsMachine session.work (begun datas ledger.objects)) }

        // It stands for a data list that the ledger records, where the last parities are honest for it, and the disk is its own.
        ensures stands { IfOk result (λ session. D.reveals → (records : List Record) (datas : List (List ℕ)) → HasRecords ledger records → AreRecordsOf ledger.shape records datas
            → AreLastsHonest ledger.shape ledger.lattice ledger.digests datas (D.state disk.old).files → StandsFor session.work (begun datas ledger.objects)) }
        ensures this { IfOk result (λ session. D.reveals → IsThisOne ledger ((D.state disk.old).files 0) → IsTheSessions session.work (D.state disk.new).files) }

        // An archive whose limit was not raised.
        ensures not_upgraded { (result ≡ Err BeginFault.NotUpgraded) ↔ (ledger.raised ≡ false) }
        ensures unread { result ≡ Err BeginFault.NotUpgraded → disk.new ≡ disk.old }

        // A last parity that is damaged.
        ensures head { (b : BlockId) → result ≡ Err (BeginFault.HeadDamaged b) → IsLastParity ledger.lattice b × (D.reveals → IsFirstDamagedLast ledger.shape ledger.lattice ledger.digests (D.state disk.old).files b) }
        ensures head_refused { ledger.raised ≡ true → D.reveals → (a : BlockId) → IsDamagedLast ledger.shape ledger.lattice ledger.digests (D.state disk.old).files a
            → ((b : BlockId) × (result ≡ Err (BeginFault.HeadDamaged b))) ⊎ ((result ≡ Err BeginFault.DiskFault) ⊎ (result ≡ Err BeginFault.NoMemory)) }
        ensures complete { ledger.raised ≡ true → D.reveals → AreLastsIntact ledger.shape ledger.lattice ledger.digests (D.state disk.old).files → (Rose (D.state disk.old).faults (D.state disk.new).faults → ⊥)
            → IsOk result ⊎ (result ≡ Err BeginFault.NoMemory) }

        // The disk is only read, and not at all where there is no memory.
        ensures memory { result ≡ Err BeginFault.NoMemory → disk.new ≡ disk.old }
        ensures earlier { HasEarlier (D.state disk.old) (D.state disk.new) }
        ensures reads { OnlyReads D.reveals (result ≡ Err BeginFault.DiskFault) (D.state disk.old) (D.state disk.new) }
    {
        none_have_names();
        objects_are_counted();
        records_are_few();
        if !is_upgraded(&ledger) {
            return Err(BeginFault::NotUpgraded);
        }
        let live = ledger.live();
        let Ok(cell) = cell_buffer(alloc, &ledger) else {
            return Err(BeginFault::NoMemory);
        };
        match load_heads(alloc, &ledger, disk) {
            Ok(heads) => {
                let work = Work {
                    ledger,
                    heads,
                    digests: Vec::new(alloc),
                    slots: free_slots(),
                    cell,
                };
                Ok(Session { work, live })
            }
            Err(HeadFault::HeadDamaged { block }) => Err(BeginFault::HeadDamaged { block }),
            Err(HeadFault::DiskFault) => Err(BeginFault::DiskFault),
            Err(HeadFault::NoMemory) => Err(BeginFault::NoMemory),
        }
    }

    /// Whether it may be used.
    pub fn live(&self) -> bool
        ensures { result ≡ self.now.live }
    {
        self.live
    }

    /// Its opened ledger.
    pub fn ledger(&self) -> &Ledger
        ensures { result.now ≡ self.now.work.ledger }
    {
        &self.work.ledger
    }

    /// Takes a message: makes the step of the machine, and gives the reply, which it flushes and whose code it returns. A full block
    /// of a chunk is woven, and its cell written, when the chunk is taken; a close makes the cells of all blocks that were woven
    /// since the last one sure, and then records them in one commit, before it replies. After a fault the session is of no use.
    /// It takes memory as the message does: an open that of the name, some 120 bytes and a block; a chunk 32 bytes for each block
    /// that is woven, up to three times that while the list grows and once more until it is taken, and 8 for each part; a close that of the name, the parts and the
    /// digests in the ledger; a read 64 KiB and a patrol 4 bytes a block while they last.
    pub fn take<D: Disk, O: Sink>(
        &mut self,
        disk: &mut D,
        message: &Message,
        out: &mut O,
    ) -> Result<u8, TakeFault>
        requires live { self.old.live ≡ true }
        requires this { D.reveals → IsTheSessions self.old.work (D.state disk.old).files }
        requires fixed { D.reveals → IsFixed (D.state disk.old) 0 }
        ensures takes { Takes D.reveals self.old.work self.new.work message.now (D.state disk.old) (D.state disk.new) (O.state out.old) (O.state out.new) result }
        ensures live { OnOk result (self.new.live ≡ true) }
        ensures dead { IsErr result → self.new.live ≡ false }
    {
        let alloc = *self.work.digests.allocator();
        let taken = take_message(alloc, &mut self.work, disk, message, out);
        self.live = taken.is_ok();
        taken
    }
}
