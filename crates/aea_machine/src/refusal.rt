//! Why a message is refused.

ghost use Rattle.std.specs.Prelude.{◌≡◌};
ghost use Rattle.aea_machine.specs.Refusals.{refused_by};
ghost use Rattle.aea_machine.specs.Replies.{code_of};

/// Why a session refuses a message, whatever its disk has. A refusal leaves its state as it was.
#[derive(Clone, Copy, Debug, PartialEq, Eq)]
pub enum Refusal {
    /// There is no such slot: they are numbered from 0 to 15.
    BadSlot,
    /// The slot has an upload.
    SlotTaken,
    /// The slot has none.
    SlotFree,
    /// The bytes are no name.
    BadName,
    /// An object stands under the name.
    NameTaken,
    /// Another slot has an upload under the name.
    NameOpen,
    /// There is no node for a further block: so many are used.
    Full { nodes: u32 },
    /// There are as many objects as an archive may have.
    CatalogFull,
    /// No object stands under the name.
    UnknownName,
    /// The range is empty, has more than 4,096 blocks, or passes those of the archive.
    BadRange,
}

impl Refusal {
    /// Its code, as a reply has it.
    pub fn code(&self) -> u8
        ensures { result ≡ code_of (refused_by self.now) }
    {
        match self {
            Refusal::BadSlot => 1,
            Refusal::SlotTaken => 2,
            Refusal::SlotFree => 3,
            Refusal::BadName => 4,
            Refusal::NameTaken => 5,
            Refusal::NameOpen => 6,
            Refusal::Full { .. } => 7,
            Refusal::CatalogFull => 8,
            Refusal::UnknownName => 9,
            Refusal::BadRange => 11,
        }
    }
}
