//! The printed lines of an explanation.

ghost use Rattle.std.specs.Prelude.{◌≡◌, ◌++◌, [], codes, OnOk, IfOk};
ghost use Rattle.std.specs.List.{flat_map};
ghost use Rattle.aea_io.specs.Pages.{Prints};
ghost use Rattle.aea_io.specs.Written.{IsFlushed};
ghost use Rattle.aea_report.specs.Format.{numbers_text};
ghost use Rattle.aea_command.specs.Lines.{newline};
ghost use Rattle.aea_command_loss.specs.Explain.{equation_text, fate_text, standing_text, explanation_text, fate_status};

use aea_command::{Status, print_block, print_nodes, print_with_block};
use aea_explain::Explanation;
use aea_gauss::Fate;
use aea_io::{Page, Sink, WriteFault, finish, print};
use aea_lattice::{BlockId, EqId, EqList, NodeList};

// Prints an equation after a space.
fn print_equation<O: Sink>(out: &mut O, page: &mut Page, e: EqId) -> Result<(), WriteFault>
    ensures { Prints (O.state out.old) page.old (O.state out.new) page.new result (equation_text e) }
{
    let output = BlockId {
        node: e.node,
        class: e.class,
    };
    print_block(out, page, b" ", output)
}

// Prints equations, each after a space.
fn print_equations<O: Sink>(
    out: &mut O,
    page: &mut Page,
    equations: &EqList,
) -> Result<(), WriteFault>
    ensures { Prints (O.state out.old) page.old (O.state out.new) page.new result (flat_map equation_text equations.now) }
{
    for k in 0..equations.len() {
        let Some(e) = equations.get(k) else {
            unreachable!()
        };
        print_equation(out, page, e)?;
    }
    Ok(())
}

// Prints the line of a sum.
fn print_sum<O: Sink>(out: &mut O, page: &mut Page, equations: &EqList) -> Result<(), WriteFault>
    ensures { Prints (O.state out.old) page.old (O.state out.new) page.new result (codes "sum" ++ (flat_map equation_text equations.now ++ newline)) }
{
    print(out, page, b"sum")?;
    print_equations(out, page, equations)?;
    print(out, page, b"\n")
}

// Prints the line of a codeword.
fn print_word<O: Sink>(out: &mut O, page: &mut Page, nodes: &NodeList) -> Result<(), WriteFault>
    ensures { Prints (O.state out.old) page.old (O.state out.new) page.new result (codes "word" ++ (numbers_text nodes.now ++ newline)) }
{
    print(out, page, b"word")?;
    print_nodes(out, page, nodes)?;
    print(out, page, b"\n")
}

// Prints the line of a fate.
fn print_fate<O: Sink>(out: &mut O, page: &mut Page, fate: &Fate) -> Result<(), WriteFault>
    ensures { Prints (O.state out.old) page.old (O.state out.new) page.new result (fate_text fate.now) }
{
    match fate {
        Fate::Sum { block: _, eqs } => print_sum(out, page, eqs),
        Fate::Word { block: _, nodes } => print_word(out, page, nodes),
    }
}

// Prints whether the block is intact.
fn print_standing<O: Sink>(
    out: &mut O,
    page: &mut Page,
    intact: bool,
    block: BlockId,
) -> Result<(), WriteFault>
    ensures { Prints (O.state out.old) page.old (O.state out.new) page.new result (standing_text intact block) }
{
    if intact {
        print_with_block(out, page, b"intact ", block)
    } else {
        print_with_block(out, page, b"damaged ", block)
    }
}

// Prints both lines.
fn print_explanation<O: Sink>(
    out: &mut O,
    page: &mut Page,
    block: BlockId,
    explanation: &Explanation,
) -> Result<(), WriteFault>
    ensures { Prints (O.state out.old) page.old (O.state out.new) page.new result (explanation_text block explanation.now) }
{
    print_standing(out, page, explanation.intact, block)?;
    print_fate(out, page, &explanation.fate)
}

// The status of a fate.
fn status_of(fate: &Fate) -> Status
    ensures { result ≡ fate_status fate.now }
{
    match fate {
        Fate::Sum { .. } => Status::Done,
        Fate::Word { .. } => Status::Damage,
    }
}

/// Prints an explanation of the block through a page, and flushes it. The status is that of the fate.
pub fn put_explanation<O: Sink>(
    out: &mut O,
    block: BlockId,
    explanation: &Explanation,
) -> Result<Status, WriteFault>
    ensures flushed { OnOk result (IsFlushed (O.state out.new)) }
    ensures prints { Prints (O.state out.old) [] (O.state out.new) [] result (explanation_text block explanation.now) }
    ensures status { IfOk result (λ status. status ≡ fate_status explanation.now.fate) }
{
    let mut page = Page::new();
    print_explanation(out, &mut page, block, explanation)?;
    finish(out, &mut page)?;
    Ok(status_of(&explanation.fate))
}
