//! The report of a plan, printed through a page of the caller.

ghost use Rattle.std.specs.Prelude.{◌≡◌, ◌+◌, ◌*◌, ◌<◌, ◌≤◌, ◌^◌, ◌++◌, length, map, vec_capacity};
ghost use Rattle.aea_io.specs.Pages.{Prints};
ghost use Rattle.aea_lattice.specs.Blocks.{HasBlock, number_of};
ghost use Rattle.aea_report.specs.Format.{newline, joined, line_text, report_bytes};
ghost use Rattle.aea_plan.specs.Plans.{IsSound, HasRoom, head_by};
ghost use Rattle.aea_plan.specs.Texts.{KeepsText, HasRoomFor};
ghost use Rattle.aea_plan.specs.Verdicts.{AreVerdicts, lines_by, line_of};

use crate::nodes::keep_text;
use crate::plan::Plan;
use crate::verdicts::{Verdicts, listed_nodes};
use crate::walk::{Damaged, next_damaged};
use aea_io::{Page, Sink, WriteFault};
use aea_report::{Head, Line, print_head, print_line, print_lost_with};

// The head of the report.
fn head_of(plan: &Plan, seal: &Option<[u8; 32]>) -> Head
    requires { plan.now.counts.peeled + plan.now.counts.solved + plan.now.counts.lost ≤ 2 ^ 23 }
    ensures { result ≡ head_by seal.now plan.now }
{
    let lattice = plan.verdicts.damaged.lattice();
    let counts = plan.counts;
    Head {
        alpha: lattice.alpha(),
        s: lattice.s(),
        p: lattice.p(),
        n: lattice.n(),
        seal: *seal,
        damaged: counts.peeled + counts.solved + counts.lost,
        peeled: counts.peeled,
        solved: counts.solved,
        lost: counts.lost,
    }
}

// Prints the line of a damaged block.
fn print_block<O: Sink>(
    out: &mut O,
    page: &mut Page,
    verdicts: &Verdicts,
    text: &mut Vec<u8>,
    noted: &mut Option<u32>,
    damaged: Damaged,
) -> Result<(), WriteFault>
    requires verdicts { AreVerdicts verdicts.now }
    requires block { HasBlock verdicts.now.damaged.lattice damaged.block }
    requires number { number_of verdicts.now.damaged.lattice damaged.block ≡ damaged.number }
    requires room { HasRoomFor verdicts.now.losses (vec_capacity text.old) }
    requires kept { KeepsText verdicts.now.losses text.old.items noted.old }
    ensures prints { Prints (O.state out.old) page.old (O.state out.new) page.new result (line_text (line_of verdicts.now damaged.block) ++ newline) }
    ensures room { vec_capacity text.old ≤ vec_capacity text.new }
    ensures kept { KeepsText verdicts.now.losses text.new.items noted.new }
{
    let block = damaged.block;
    if verdicts.reached.get(block) {
        return print_line(out, page, &Line::Peeled { block });
    }
    match listed_nodes(&verdicts.losses, damaged.number) {
        None => print_line(out, page, &Line::Solved { block }),
        Some(nodes) => {
            keep_text(text, noted, &verdicts.losses, damaged.number, nodes);
            print_lost_with(out, page, block, text.as_slice())
        }
    }
}

// Prints the lines of all damaged blocks, in number order.
fn print_lines<O: Sink>(
    out: &mut O,
    page: &mut Page,
    verdicts: &Verdicts,
    text: &mut Vec<u8>,
) -> Result<(), WriteFault>
    requires verdicts { AreVerdicts verdicts.now }
    requires room { HasRoomFor verdicts.now.losses (vec_capacity text.old) }
    ensures { Prints (O.state out.old) page.old (O.state out.new) page.new result (joined (map line_text (lines_by verdicts.now))) }
{
    let mut noted = None;
    let mut from = 0;
    while let Some(damaged) = next_damaged(verdicts, &mut from) {
        print_block(out, page, verdicts, text, &mut noted, damaged)?;
    }
    Ok(())
}

/// Prints the whole report of a plan: its head with the seal or none, and a line for each damaged block. `text` is space for
/// the nodes of one lost block, as `Plan::text_room` takes it before; no memory is taken here.
pub fn print_report<O: Sink>(
    out: &mut O,
    page: &mut Page,
    plan: &Plan,
    text: &mut Vec<u8>,
    seal: &Option<[u8; 32]>,
) -> Result<(), WriteFault>
    requires sound { IsSound plan.now }
    requires room { HasRoom plan.now (vec_capacity text.old) }
    ensures { Prints (O.state out.old) page.old (O.state out.new) page.new result (report_bytes (head_by seal.now plan.now) (lines_by plan.now.verdicts)) }
{
    print_head(out, page, &head_of(plan, seal))?;
    print_lines(out, page, &plan.verdicts, text)
}
