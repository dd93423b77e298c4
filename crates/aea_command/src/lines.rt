//! The line on `err` where a command did not end well.

ghost use Rattle.std.specs.Prelude.{◌≡◌, ◌≤◌, [], ◌++◌, decimal, OnOk};
ghost use Rattle.aea_lattice.specs.Texts.{text_of};
ghost use Rattle.aea_report.specs.Format.{numbers_text};
ghost use Rattle.aea_command.specs.Lines.{newline};
ghost use Rattle.hex.specs.Hex.{encode_lower};
ghost use Rattle.aea_command.specs.Refusals.{refusal_line, clash_line};
ghost use Rattle.aea_command.specs.Failures.{failure_line, failure_status};
ghost use Rattle.aea_io.specs.Written.{IsFlushed};
ghost use Rattle.aea_io.specs.Pages.{Prints};
ghost use Rattle.aea_command.specs.Printed.{PutsLine};

use crate::digits::digits_of;
use crate::refusal::{Failure, Refusal};
use crate::status::Status;
use aea_io::{Page, Sink, WriteFault, finish, print, print_number};
use aea_lattice::{BlockId, NodeList};

/// Prints words and the text of a block after them.
pub fn print_block<E: Sink>(
    err: &mut E,
    page: &mut Page,
    front: &[u8],
    block: BlockId,
) -> Result<(), WriteFault>
    ensures { Prints (E.state err.old) page.old (E.state err.new) page.new result (front.now ++ text_of block) }
{
    print(err, page, front)?;
    print(err, page, &[block.class.letter()])?;
    print_number(err, page, b"", u64::from(block.node))
}

/// Prints a line that ends with the text of a block.
pub fn print_with_block<E: Sink>(
    err: &mut E,
    page: &mut Page,
    front: &[u8],
    block: BlockId,
) -> Result<(), WriteFault>
    ensures { Prints (E.state err.old) page.old (E.state err.new) page.new result ((front.now ++ text_of block) ++ newline) }
{
    print_block(err, page, front, block)?;
    print(err, page, b"\n")
}

/// Prints nodes, each after a space.
pub fn print_nodes<E: Sink>(
    err: &mut E,
    page: &mut Page,
    nodes: &NodeList,
) -> Result<(), WriteFault>
    ensures { Prints (E.state err.old) page.old (E.state err.new) page.new result (numbers_text nodes.now) }
{
    for k in 0..nodes.len() {
        let Some(node) = nodes.get(k) else {
            unreachable!()
        };
        print_number(err, page, b" ", u64::from(node))?;
    }
    Ok(())
}

// Prints words and the digits of a digest after them.
fn print_digest<E: Sink>(
    err: &mut E,
    page: &mut Page,
    front: &[u8],
    digest: &[u8; 32],
) -> Result<(), WriteFault>
    ensures { Prints (E.state err.old) page.old (E.state err.new) page.new result (front.now ++ encode_lower digest.now) }
{
    print(err, page, front)?;
    print(err, page, &digits_of(digest))
}

// Prints the line of a clash.
fn print_clash<E: Sink>(
    err: &mut E,
    page: &mut Page,
    block: BlockId,
    recorded: &[u8; 32],
    computed: &[u8; 32],
) -> Result<(), WriteFault>
    ensures { Prints (E.state err.old) page.old (E.state err.new) page.new result (clash_line block recorded.now computed.now) }
{
    print_block(err, page, b"clash ", block)?;
    print_digest(err, page, b" recorded ", recorded)?;
    print_digest(err, page, b" computed ", computed)?;
    print(err, page, b"\n")
}

// Prints the line of a block that is not determined, with the nodes of a codeword that contains it.
fn print_undetermined<E: Sink>(
    err: &mut E,
    page: &mut Page,
    block: BlockId,
    nodes: &NodeList,
) -> Result<(), WriteFault>
    ensures { Prints (E.state err.old) page.old (E.state err.new) page.new result (refusal_line (Refusal.Undetermined block nodes.now)) }
{
    print_block(err, page, b"refused: undetermined ", block)?;
    print(err, page, b" by")?;
    print_nodes(err, page, nodes)?;
    print(err, page, b"\n")
}

// Prints words, a number after them, and the end of the line.
fn print_counted<E: Sink>(
    err: &mut E,
    page: &mut Page,
    front: &[u8],
    number: u64,
) -> Result<(), WriteFault>
    ensures { Prints (E.state err.old) page.old (E.state err.new) page.new result (front.now ++ decimal number ++ newline) }
{
    print_number(err, page, front, number)?;
    print(err, page, b"\n")
}

// Prints the line of two bad copies.
fn print_copies_bad<E: Sink>(
    err: &mut E,
    page: &mut Page,
    first: u64,
    second: u64,
) -> Result<(), WriteFault>
    ensures { Prints (E.state err.old) page.old (E.state err.new) page.new result (refusal_line (Refusal.CopiesBad first second)) }
{
    print_number(err, page, b"refused: copies bad at ", first)?;
    print_counted(err, page, b" and ", second)
}

// Prints the line where so many nodes are all that an archive may have.
fn print_full<E: Sink>(err: &mut E, page: &mut Page, nodes: u32) -> Result<(), WriteFault>
    ensures { Prints (E.state err.old) page.old (E.state err.new) page.new result (refusal_line (Refusal.Full nodes)) }
{
    print_number(err, page, b"refused: full at ", u64::from(nodes))?;
    print(err, page, b" nodes\n")
}

// Prints the line of a refusal.
//
// One arm for each refusal, in the order of `Refusal`: words alone; words and a number after them (`print_counted`); words
// and a block (`print_with_block`); or a line of its own form. `refusal_line` has a line for each in the same order.
fn print_refusal<E: Sink>(err: &mut E, page: &mut Page, why: &Refusal) -> Result<(), WriteFault>
    ensures { Prints (E.state err.old) page.old (E.state err.new) page.new result (refusal_line why.now) }
{
    match why {
        Refusal::InputTooLong => print(err, page, b"refused: input too long\n"),
        Refusal::BadBlock { line } => {
            print_counted(err, page, b"refused: bad block at line ", u64::from(*line))
        }
        Refusal::NoArchive => print(err, page, b"refused: no archive\n"),
        Refusal::LedgerBad { at } => print_counted(err, page, b"refused: ledger bad at ", *at),
        Refusal::Occupied => print(err, page, b"refused: occupied\n"),
        Refusal::BadName => print(err, page, b"refused: bad name\n"),
        Refusal::NameTaken => print(err, page, b"refused: name taken\n"),
        Refusal::CatalogFull => print(err, page, b"refused: catalog full\n"),
        Refusal::HeadDamaged { block } => {
            print_with_block(err, page, b"refused: head damaged ", *block)
        }
        Refusal::Full { nodes } => print_full(err, page, *nodes),
        Refusal::BadStream { at } => print_counted(err, page, b"refused: bad stream at ", *at),
        Refusal::AlreadyFenced { nodes } => {
            print_counted(err, page, b"refused: already fenced at ", u64::from(*nodes))
        }
        Refusal::TooManyFences => print(err, page, b"refused: too many fences\n"),
        Refusal::AlreadyUpgraded => print(err, page, b"refused: already upgraded\n"),
        Refusal::UnknownName => print(err, page, b"refused: unknown name\n"),
        Refusal::Damaged { block } => print_with_block(err, page, b"refused: damaged ", *block),
        Refusal::NoSuchBlock => print(err, page, b"refused: bad block\n"),
        Refusal::BadLine { line } => {
            print_counted(err, page, b"refused: bad line ", u64::from(*line))
        }
        Refusal::LineTooLong { line } => {
            print_counted(err, page, b"refused: line too long ", u64::from(*line))
        }
        Refusal::Undetermined { block, nodes } => print_undetermined(err, page, *block, nodes),
        Refusal::NotUpgraded => print(err, page, b"refused: not upgraded\n"),
        Refusal::BadMessage { at } => print_counted(err, page, b"refused: bad message at ", *at),
        Refusal::TooManyMessages => print(err, page, b"refused: too many messages\n"),
        Refusal::CopiesAreOn => print(err, page, b"refused: copies are on\n"),
        Refusal::CopiesBad { first, second } => print_copies_bad(err, page, *first, *second),
        Refusal::CopiesDiffer { at } => print_counted(
            err,
            page,
            b"refused: copies differ at ",
            *at,
        ),
    }
}

// Prints the line of a failure.
fn print_failure<E: Sink>(err: &mut E, page: &mut Page, failure: &Failure) -> Result<(), WriteFault>
    ensures { Prints (E.state err.old) page.old (E.state err.new) page.new result (failure_line failure.now) }
{
    match failure {
        Failure::Words => print(err, page, b"words: no such command\n"),
        Failure::Refused { why } => print_refusal(err, page, why),
        Failure::Disk => print(err, page, b"fault: disk\n"),
        Failure::Input => print(err, page, b"fault: input\n"),
        Failure::Output => print(err, page, b"fault: output\n"),
        Failure::Memory => print(err, page, b"fault: memory\n"),
        Failure::Clash {
            block,
            recorded,
            computed,
        } => print_clash(err, page, *block, recorded, computed),
    }
}

// Writes the line of a failure, and flushes it.
fn write_failure<E: Sink>(err: &mut E, failure: &Failure) -> Result<(), WriteFault>
    ensures flushed { OnOk result (IsFlushed (E.state err.new)) }
    ensures prints { Prints (E.state err.old) [] (E.state err.new) [] result (failure_line failure.now) }
{
    let mut page = Page::new();
    print_failure(err, &mut page, failure)?;
    finish(err, &mut page)?;
    Ok(())
}

/// Writes the line of a failure, as far as `err` takes it, and returns the status. Takes no memory.
pub fn report<E: Sink>(err: &mut E, failure: Failure) -> Status
    ensures status { result ≡ failure_status failure }
    ensures line { PutsLine (E.state err.old) (E.state err.new) (failure_line failure) }
    ensures kept { (E.state err.old).faults ≤ (E.state err.new).faults }
{
    let _ = write_failure(err, &failure);
    match failure {
        Failure::Words => Status::Words,
        Failure::Refused { .. } => Status::Refused,
        Failure::Disk => Status::Disk,
        Failure::Input => Status::Input,
        Failure::Output => Status::Output,
        Failure::Memory => Status::Memory,
        Failure::Clash { .. } => Status::Clash,
    }
}
