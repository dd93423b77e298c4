//! The words of the command line.

ghost use Rattle.std.specs.Prelude.{◌↔◌, map, string_bytes, IsTrue, IfSome, IfNone, IfOk, OnErr};
ghost use Rattle.aea_dispatch.specs.Does.{UsesDisk};
ghost use Rattle.aea_dispatch.specs.Words.{Means, AreNoPlain, AreNoCommand, HaveName, HaveNoName};

use crate::create_words::parse_create;
use crate::drill_words::parse_drill;
use crate::rehearse_words::parse_rehearse;
use crate::words::{is_word, kept, word_behind};
use aea_catalog::NameText;
use aea_lattice::{Lattice, Shape};
use std::alloc::{AllocError, Global};

/// A command of the program.
#[derive(Drop)]
pub enum Command {
    /// Plans the repair of a damage list, over no archive.
    Drill {
        lattice: Lattice,
    },
    /// Makes an archive.
    Create {
        shape: Shape,
    },
    /// Prints what is in the archive.
    Stat,
    /// Prints the objects of the archive.
    List,
    /// Stores the input as an object under the name.
    Put {
        name: NameText,
    },
    /// Stores the input, a stream of frames, as objects under the names in it.
    Ingest,
    /// Writes the object under the name.
    Get {
        name: NameText,
    },
    /// Writes the object under the name, of which blocks may be damaged.
    Fetch {
        name: NameText,
    },
    /// Adds a fence after the last node of the archive.
    Fence,
    /// Raises the archive's limit on nodes.
    Upgrade,
    /// Prints the damaged blocks of the archive.
    Scrub,
    /// Restores the damaged blocks of the archive that the others determine, and prints the loss report.
    Repair,
    /// Prints how the other intact blocks determine the block with this text, or why they do not.
    Explain {
        block: NameText,
    },
    /// Judges the input, a loss report, against the archive as it is.
    Verify,
    /// Makes an archive in memory from a number, damages so many blocks in a thousand, repairs it, and prints how many of each
    /// fate there were.
    Rehearse {
        number: u64,
        nodes: u32,
        permille: u32,
    },
    /// Prints what the loss of each site, and of each pair of sites, would cost.
    Sites,
    /// Takes the input, messages of up to sixteen uploads at once, and prints the reply to each.
    Session,
    /// Begins two copies of the archive's ledger.
    Copies,
}

impl Command {
    /// The command makes calls of the disk.
    pub fn uses_disk(&self) -> bool
        ensures { IsTrue result ↔ UsesDisk self.now }
    {
        !matches!(self, Command::Drill { .. } | Command::Rehearse { .. })
    }
}

// The command of one word alone, if the words are one.
fn plain_command(words: &[String]) -> Option<Command>
    ensures found { IfSome result (Means (map string_bytes words.now)) }
    ensures none { IfNone result (AreNoPlain (map string_bytes words.now)) }
{
    if is_word(words, "stat") {
        return Some(Command::Stat);
    }
    if is_word(words, "list") {
        return Some(Command::List);
    }
    if is_word(words, "ingest") {
        return Some(Command::Ingest);
    }
    if is_word(words, "fence") {
        return Some(Command::Fence);
    }
    if is_word(words, "upgrade") {
        return Some(Command::Upgrade);
    }
    if is_word(words, "scrub") {
        return Some(Command::Scrub);
    }
    if is_word(words, "repair") {
        return Some(Command::Repair);
    }
    if is_word(words, "verify") {
        return Some(Command::Verify);
    }
    if is_word(words, "sites") {
        return Some(Command::Sites);
    }
    if is_word(words, "session") {
        return Some(Command::Session);
    }
    if is_word(words, "copies") {
        return Some(Command::Copies);
    }
    None
}

// The command of two words, of which any may be the second, if the words are one. It takes memory for that word alone.
fn named_command(alloc: Global, words: &[String]) -> Result<Option<Command>, AllocError>
    ensures found { IfOk result (λ answer. IfSome answer (Means (map string_bytes words.now))) }
    ensures none { IfOk result (λ answer. IfNone answer (HaveNoName (map string_bytes words.now))) }
    ensures memory { OnErr result (HaveName (map string_bytes words.now)) }
{
    if let Some(word) = word_behind(words, "put") {
        let name = kept(alloc, word.as_bytes())?;
        return Ok(Some(Command::Put { name }));
    }
    if let Some(word) = word_behind(words, "get") {
        let name = kept(alloc, word.as_bytes())?;
        return Ok(Some(Command::Get { name }));
    }
    if let Some(word) = word_behind(words, "fetch") {
        let name = kept(alloc, word.as_bytes())?;
        return Ok(Some(Command::Fetch { name }));
    }
    if let Some(word) = word_behind(words, "explain") {
        let block = kept(alloc, word.as_bytes())?;
        return Ok(Some(Command::Explain { block }));
    }
    Ok(None)
}

// The command of the words, if they are one.
fn command_of(alloc: Global, words: &[String]) -> Result<Option<Command>, AllocError>
    ensures found { IfOk result (λ answer. IfSome answer (Means (map string_bytes words.now))) }
    ensures none { IfOk result (λ answer. IfNone answer (AreNoCommand (map string_bytes words.now))) }
    ensures memory { OnErr result (HaveName (map string_bytes words.now)) }
{
    if let Some(lattice) = parse_drill(words) {
        return Ok(Some(Command::Drill { lattice }));
    }
    if let Some(shape) = parse_create(words) {
        return Ok(Some(Command::Create { shape }));
    }
    if let Some(command) = parse_rehearse(words) {
        return Ok(Some(command));
    }
    if let Some(command) = named_command(alloc, words)? {
        return Ok(Some(command));
    }
    Ok(plain_command(words))
}

/// The command that the words mean, None where they mean none: `drill A S P N` with the numbers of a lattice,
/// `create A S P B M` with those of the shape of an archive, `stat`, `list`, `put NAME`, `ingest`, `get NAME`, `fetch NAME`, `fence`,
/// `upgrade`, `scrub`, `repair`, `explain BLOCK`, `verify`, `sites`, `session`, `copies`, and `rehearse NUMBER NODES PERMILLE` with at most 2,000 nodes and
/// 1,000 in a thousand, each number in decimal without sign and leading zeros. It takes memory for a name or the text of a block
/// alone.
pub fn parse_words(alloc: Global, words: &[String]) -> Result<Option<Command>, AllocError>
    ensures found { IfOk result (λ answer. IfSome answer (Means (map string_bytes words.now))) }
    ensures none { IfOk result (λ answer. IfNone answer (AreNoCommand (map string_bytes words.now))) }
    ensures memory { OnErr result (HaveName (map string_bytes words.now)) }
{
    command_of(alloc, words)
}
