//! Printing through a page, on which bytes are gathered until it is full.

ghost use Rattle.std.specs.Prelude.{◌≡◌, ◌-◌, ◌≤◌, [], ◌++◌, length, take, min, decimal, IfOk, OnOk};
ghost use Rattle.aea_io.specs.Written.{IsFlushed};
ghost use Rattle.aea_io.specs.Pages.{Prints};

use crate::put::put_all;
use crate::space::Space;
use crate::traits::{Sink, WriteFault};
use itoa::Buffer;
use std::alloc::{AllocError, Global};
use std::marker::Model;

/// Bytes on their way to a sink.
#[derive(Drop)]
pub struct Page {
    space: Space,
    len: usize,
}

impl Model for Page {
    ghost use Rattle.std.specs.Prelude.{◌≤◌, ℕ, List, take, length};
    ghost use Rattle.aea_io.specs.Spaces.{bytes_of};

    ghost Value = { List ℕ };

    ghost view = { λ p. take p.len (bytes_of p.space) };

    ghost invariant = { λ p. p.len ≤ length (bytes_of p.space) };
}

impl Page {
    /// A page of 8 KiB without bytes, which takes no memory.
    pub fn new() -> Page
        ensures { result ≡ [] }
    {
        Page {
            space: Space::small(),
            len: 0,
        }
    }

    /// A page of 64 KiB without bytes, whose memory is taken here, once.
    pub fn large(alloc: Global) -> Result<Page, AllocError>
        ensures { IfOk result (λ page. page ≡ []) }
    {
        let space = Space::large(alloc)?;
        Ok(Page { space, len: 0 })
    }

    // Puts as much of the piece on the page as it has space for, and returns how many bytes these are.
    fn push(&mut self, piece: &[u8]) -> usize
        ensures most { result ≤ length piece.now }
        ensures gathered { self.new ≡ self.old ++ take result piece.now }
    {
        let count = piece.len().min(self.space.len() - self.len);
        let end = self.len + count;
        self.space.put(self.len, end, &piece[..count]);
        self.len = end;
        count
    }

    fn clear(&mut self)
        ensures { self.new ≡ [] }
    {
        self.len = 0;
    }

    fn bytes(&self) -> &[u8]
        ensures { result.now ≡ self.now }
    {
        &self.space.bytes()[..self.len]
    }
}

/// Writes all bytes of the page.
pub fn send<O: Sink>(out: &mut O, page: &mut Page) -> Result<(), WriteFault>
    ensures empty { OnOk result (page.new ≡ []) }
    ensures prints { Prints (O.state out.old) page.old (O.state out.new) page.new result [] }
{
    put_all(out, page.bytes())?;
    page.clear();
    Ok(())
}

// Prints the piece on a page without bytes.
fn print_rest<O: Sink>(out: &mut O, page: &mut Page, piece: &[u8]) -> Result<(), WriteFault>
    requires { page.old ≡ [] }
    ensures { Prints (O.state out.old) page.old (O.state out.new) page.new result piece.now }
{
    let count = page.push(piece);
    let rest = &piece[count..];
    if rest.is_empty() {
        return Ok(());
    }
    send(out, page)?;
    put_all(out, rest)
}

/// Prints the piece: gathers it on the page, which is written each time that it is full. Of a piece that is longer than the
/// page, what is left when the page has been written twice is written at once.
pub fn print<O: Sink>(out: &mut O, page: &mut Page, piece: &[u8]) -> Result<(), WriteFault>
    ensures { Prints (O.state out.old) page.old (O.state out.new) page.new result piece.now }
{
    let count = page.push(piece);
    let rest = &piece[count..];
    if rest.is_empty() {
        return Ok(());
    }
    send(out, page)?;
    print_rest(out, page, rest)
}

/// Prints the word, and after it the number in decimal.
pub fn print_number<O: Sink>(
    out: &mut O,
    page: &mut Page,
    word: &[u8],
    number: u64,
) -> Result<(), WriteFault>
    ensures { Prints (O.state out.old) page.old (O.state out.new) page.new result (word.now ++ decimal number) }
{
    print(out, page, word)?;
    let mut buffer = Buffer::new();
    print(out, page, buffer.format(number).as_bytes())
}

/// Writes what is left on the page, and flushes all.
pub fn finish<O: Sink>(out: &mut O, page: &mut Page) -> Result<(), WriteFault>
    ensures empty { OnOk result (page.new ≡ []) }
    ensures flushed { OnOk result (IsFlushed (O.state out.new)) }
    ensures prints { Prints (O.state out.old) page.old (O.state out.new) page.new result [] }
{
    send(out, page)?;
    out.flush()?;
    Ok(())
}

/// Prints the text through a page of its own, and flushes all.
pub fn put_text<O: Sink>(out: &mut O, text: &[u8]) -> Result<(), WriteFault>
    ensures flushed { OnOk result (IsFlushed (O.state out.new)) }
    ensures prints { Prints (O.state out.old) [] (O.state out.new) [] result text.now }
{
    let mut page = Page::new();
    print(out, &mut page, text)?;
    finish(out, &mut page)?;
    Ok(())
}
