//! Reports that are printed through a page of the caller.

ghost use Rattle.std.specs.Prelude.{◌≡◌, ◌≤◌, ◌++◌, ◌∷◌, []};
ghost use Rattle.aea_io.specs.Pages.{Prints};
ghost use Rattle.aea_report.specs.Format.{newline, joined, head_texts, numbers_text, lost_text, line_text, block_in};

use crate::head::Head;
use crate::line::Line;
use crate::text::{block_text, head_text, node_text};
use aea_io::{Page, Sink, WriteFault, print};
use aea_lattice::{BlockId, NodeList};

// Prints a node after a space.
fn print_node<O: Sink>(out: &mut O, page: &mut Page, node: u32) -> Result<(), WriteFault>
    ensures { Prints (O.state out.old) page.old (O.state out.new) page.new result (numbers_text (node ∷ [])) }
{
    print(out, page, node_text(node).bytes())
}

// Prints the nodes, each after a space.
fn print_nodes<O: Sink>(out: &mut O, page: &mut Page, nodes: &NodeList) -> Result<(), WriteFault>
    ensures { Prints (O.state out.old) page.old (O.state out.new) page.new result (numbers_text nodes.now) }
{
    for k in 0..nodes.len() {
        let Some(node) = nodes.get(k) else {
            unreachable!()
        };
        print_node(out, page, node)?;
    }
    Ok(())
}

/// Prints the line of a lost block. The nodes are to be one or more of a lattice that has the block, each greater than the
/// one before: a reader takes no other line.
pub fn print_lost<O: Sink>(
    out: &mut O,
    page: &mut Page,
    block: BlockId,
    nodes: &NodeList,
) -> Result<(), WriteFault>
    requires { 1 ≤ block.node }
    ensures { Prints (O.state out.old) page.old (O.state out.new) page.new result (lost_text block (numbers_text nodes.now) ++ newline) }
{
    print(out, page, block_text(b"lost ", block, b" by").bytes())?;
    print_nodes(out, page, nodes)?;
    print(out, page, b"\n")
}

/// Prints the line of a lost block, with a text of its nodes that the caller made, each in decimal after a space: many lost
/// blocks may have the same nodes.
pub fn print_lost_with<O: Sink>(
    out: &mut O,
    page: &mut Page,
    block: BlockId,
    nodes: &[u8],
) -> Result<(), WriteFault>
    requires { 1 ≤ block.node }
    ensures { Prints (O.state out.old) page.old (O.state out.new) page.new result (lost_text block nodes.now ++ newline) }
{
    print(out, page, block_text(b"lost ", block, b" by").bytes())?;
    print(out, page, nodes)?;
    print(out, page, b"\n")
}

/// Prints the head of a report, four lines.
pub fn print_head<O: Sink>(out: &mut O, page: &mut Page, head: &Head) -> Result<(), WriteFault>
    ensures { Prints (O.state out.old) page.old (O.state out.new) page.new result (joined (head_texts head.now)) }
{
    print(out, page, head_text(head).bytes())
}

/// Prints the line of a block.
pub fn print_line<O: Sink>(out: &mut O, page: &mut Page, line: &Line) -> Result<(), WriteFault>
    requires { 1 ≤ (block_in line.now).node }
    ensures { Prints (O.state out.old) page.old (O.state out.new) page.new result (line_text line.now ++ newline) }
{
    match line {
        Line::Peeled { block } => {
            print(out, page, block_text(b"peeled ", *block, b"\n").bytes())
        }
        Line::Solved { block } => {
            print(out, page, block_text(b"solved ", *block, b"\n").bytes())
        }
        Line::Lost { block, nodes } => print_lost(out, page, *block, nodes),
    }
}
