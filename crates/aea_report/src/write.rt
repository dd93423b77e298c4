//! Reports that are written head by head and line by line. A command that prints a whole report prints it through one page.

ghost use Rattle.std.specs.Prelude.{◌≡◌, ◌≤◌, ◌++◌};
ghost use Rattle.aea_faults.specs.Faults.{HasCause};
ghost use Rattle.aea_io.specs.Written.{PutsAll, PutsInRoom};
ghost use Rattle.aea_report.specs.Format.{newline, joined, head_texts, line_text, block_in};

use crate::head::Head;
use crate::line::Line;
use crate::print::{print_head, print_line};
use aea_io::{Page, Sink, WriteFault, send};

/// Appends the head of a report, four lines; after a fault a first part of them.
pub fn write_head<O: Sink>(sink: &mut O, head: &Head) -> Result<(), WriteFault>
    ensures text { PutsAll (O.state sink.old).written (O.state sink.new).written result (joined (head_texts head.now)) }
    ensures in_room { PutsInRoom (O.state sink.old) (O.state sink.new) result (joined (head_texts head.now)) }
    ensures cause { HasCause (O.state sink.old).faults (O.state sink.new).faults result }
{
    let mut page = Page::new();
    print_head(sink, &mut page, head)?;
    send(sink, &mut page)?;
    Ok(())
}

/// Appends the line of a block; after a fault a first part of it. The nodes of a lost one are to be one or more of a lattice
/// that has the block, each greater than the one before: a reader takes no other line.
pub fn write_line<O: Sink>(sink: &mut O, line: &Line) -> Result<(), WriteFault>
    requires { 1 ≤ (block_in line.now).node }
    ensures text { PutsAll (O.state sink.old).written (O.state sink.new).written result (line_text line.now ++ newline) }
    ensures in_room { PutsInRoom (O.state sink.old) (O.state sink.new) result (line_text line.now ++ newline) }
    ensures cause { HasCause (O.state sink.old).faults (O.state sink.new).faults result }
{
    let mut page = Page::new();
    print_line(sink, &mut page, line)?;
    send(sink, &mut page)?;
    Ok(())
}
