//! How the payload of a block is had, whatever way that is.

ghost use Rattle.std.specs.Prelude.{◌≡◌, ℕ, List, length, OnOk, IfErr, IsErrAnd};
ghost use Rattle.aea_lattice.specs.declared.blocks.BlockId.{BlockId};
ghost use Rattle.aea_lattice.specs.Blocks.{HasBlock};
ghost use Rattle.aea_disk.specs.Files.{Files};
ghost use Rattle.aea_disk.specs.Frames.{OnlyReads};
ghost use Rattle.aea_ledger.specs.Values.{Opened};

use aea_disk::Disk;
use aea_lattice::BlockId;
use aea_ledger::Ledger;

/// A way to have the payloads of blocks, one block after the other. It only reads the disk.
pub trait PayloadSource {
    /// Why a payload is not had.
    type Fault;

    /// Which bytes are a payload of a block to it: by whether the disk's contents are known, by the ledger, and by the files.
    ghost has: { Type 0 → Opened → Files → BlockId → List ℕ → Type 0 };

    /// What a fault says that came at a block.
    ghost says: { Type 0 → Opened → Files → BlockId → Self.Fault → Type 0 };

    /// The fault is one of the disk.
    ghost is_disk: { Self.Fault → Type 0 };

    /// It may be asked for the payload of this block of an archive with this ledger and these files, where the contents are
    /// known or not.
    ghost ready: { Self → Type 0 → Opened → Files → BlockId → Type 0 };

    /// It has had a payload.
    ghost has_one: { Self → Type 0 };

    /// The payload that it had last.
    ghost held: { Self → List ℕ };

    /// Gets the payload of a block of the archive. Its clauses hold by any files that read as the disk's do, where these are
    /// known. What it may be asked for before, it may be asked for after.
    fn get_one<D: Disk>(
        &mut self,
        ledger: &Ledger,
        disk: &mut D,
        b: BlockId,
    ) -> Result<(), Self::Fault>
        requires ready { ready self.old D.reveals ledger.now (D.state disk.old).files b }
        requires block { HasBlock ledger.now.lattice b }
        ensures ready { (d : BlockId) → ready self.old D.reveals ledger.now (D.state disk.old).files d → ready self.new D.reveals ledger.now (D.state disk.new).files d }
        ensures one { OnOk result (has_one self.new) }
        ensures wide { OnOk result (length (held self.new) ≡ ledger.now.shape.block) }
        ensures had { OnOk result ((c : Files) → (D.reveals → (D.state disk.old).files ≡ c) → has D.reveals ledger.now c b (held self.new)) }
        ensures why { IfErr result (λ fault. (c : Files) → (D.reveals → (D.state disk.old).files ≡ c) → says D.reveals ledger.now c b fault) }
        ensures reads { OnlyReads D.reveals (IsErrAnd result is_disk) (D.state disk.old) (D.state disk.new) };

    /// The bytes of the payload that it had last.
    fn payload(&self) -> &[u8]
        requires { has_one self.now }
        ensures { result.now ≡ held self.now };
}

/// Why payloads were not all sent.
#[derive(Debug, Drop)]
pub enum SendFault<F> {
    /// The payload of a block was not had.
    Payload(F),
    /// A write of the sink failed. The sink has counted it.
    Output,
}
