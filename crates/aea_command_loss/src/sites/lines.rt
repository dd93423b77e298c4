//! The line of a case: what the loss of a site, or of two, would cost.

ghost use Rattle.std.specs.Prelude.{◌≡◌, ◌++◌, [], OnOk};
ghost use Rattle.aea_io.specs.Pages.{Prints};
ghost use Rattle.aea_io.specs.Written.{IsFlushed};
ghost use Rattle.aea_command_loss.specs.Sites.{case_text, first_text, loss_line};

use aea_command::{print_block, print_nodes};
use aea_io::{Page, Sink, WriteFault, finish, print, print_number};
use aea_sites::{FirstLost, SiteLoss};

// Prints `site A` where the two sites are the same, and else `pair A B`.
fn print_case<O: Sink>(out: &mut O, page: &mut Page, a: u8, b: u8) -> Result<(), WriteFault>
    ensures { Prints (O.state out.old) page.old (O.state out.new) page.new result (case_text (a, b)) }
{
    if a == b {
        print_number(out, page, b"site ", u64::from(a))
    } else {
        print_number(out, page, b"pair ", u64::from(a))?;
        print_number(out, page, b" ", u64::from(b))
    }
}

// Prints the first lost block and its nodes, if there is one.
fn print_first<O: Sink>(
    out: &mut O,
    page: &mut Page,
    first: &Option<FirstLost>,
) -> Result<(), WriteFault>
    ensures { Prints (O.state out.old) page.old (O.state out.new) page.new result (first_text first.now) }
{
    let Some(first) = first else {
        return Ok(());
    };
    print_block(out, page, b" first ", first.block)?;
    print(out, page, b" by")?;
    print_nodes(out, page, &first.nodes)
}

// Prints the line.
fn print_loss<O: Sink>(
    out: &mut O,
    page: &mut Page,
    a: u8,
    b: u8,
    loss: &SiteLoss,
) -> Result<(), WriteFault>
    ensures { Prints (O.state out.old) page.old (O.state out.new) page.new result (loss_line (a, b) loss.now) }
{
    print_case(out, page, a, b)?;
    print_number(out, page, b" lost ", u64::from(loss.lost))?;
    print_first(out, page, &loss.first)?;
    print(out, page, b"\n")
}

/// Writes the line of a loss through a page of its own, and flushes it. It takes no memory.
pub fn write_loss<O: Sink>(out: &mut O, a: u8, b: u8, loss: &SiteLoss) -> Result<(), WriteFault>
    ensures flushed { OnOk result (IsFlushed (O.state out.new)) }
    ensures prints { Prints (O.state out.old) [] (O.state out.new) [] result (loss_line (a, b) loss.now) }
{
    let mut page = Page::new();
    print_loss(out, &mut page, a, b, loss)?;
    finish(out, &mut page)?;
    Ok(())
}
