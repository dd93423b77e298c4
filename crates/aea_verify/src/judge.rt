//! The first broken rule of a line.

ghost use Rattle.std.specs.Prelude.{◌≡◌};
ghost use Rattle.aea_lattice.specs.Blocks.{HasBlock};
ghost use Rattle.aea_view.specs.Marked.{is_marked};
ghost use Rattle.aea_walk.specs.Stretches.{AreNextIntact};
ghost use Rattle.aea_report.specs.Format.{block_in};
ghost use Rattle.aea_report.specs.Grammar.{AreNodes, HasNodes, IsLine};
ghost use Rattle.aea_verify.specs.Rules.{unless, kind_rules, line_rules, first_broken};

use crate::verdict::Why;
use aea_lattice::{BlockId, NodeList};
use aea_report::Line;
use aea_view::Marks;
use aea_walk::{NextIntact, first_touched, is_in_codeword, least_missing};

// The first broken rule on a restored block.
fn judge_restored(marks: &Marks, block: BlockId) -> Option<Why>
    requires { HasBlock marks.now.lattice block }
    ensures { result ≡ unless (is_marked marks.now block) (Why.StillBad block) }
{
    if marks.get(block) {
        None
    } else {
        Some(Why::StillBad { block })
    }
}

// The first broken rule on a block that is lost by these nodes.
fn judge_lost(marks: &Marks, next: &NextIntact, block: BlockId, nodes: &NodeList) -> Option<Why>
    requires next { AreNextIntact marks.now.lattice (is_marked marks.now) next.now }
    requires block { HasBlock marks.now.lattice block }
    requires nodes { AreNodes marks.now.lattice nodes.now }
    ensures { result ≡ first_broken (kind_rules marks.now.lattice (is_marked marks.now) (Line.Lost block nodes.now)) }
{
    if marks.get(block) {
        return Some(Why::NotDamaged { block });
    }
    if !is_in_codeword(marks.lattice(), nodes, block) {
        return Some(Why::WordMisses { block });
    }
    match first_touched(marks, next, nodes) {
        Some(block) => Some(Why::WordTouches { block }),
        None => None,
    }
}

// The first broken rule on a line by itself.
fn judge_kind(marks: &Marks, next: &NextIntact, line: &Line) -> Option<Why>
    requires next { AreNextIntact marks.now.lattice (is_marked marks.now) next.now }
    requires block { HasBlock marks.now.lattice (block_in line.now) }
    requires nodes { HasNodes marks.now.lattice line.now }
    ensures { result ≡ first_broken (kind_rules marks.now.lattice (is_marked marks.now) line.now) }
{
    match line {
        Line::Peeled { block } | Line::Solved { block } => judge_restored(marks, *block),
        Line::Lost { block, nodes } => judge_lost(marks, next, *block, nodes),
    }
}

/// The first broken rule of those at a line whose block may have this number or a greater one, None where the line keeps
/// them. The marked blocks are intact, and the table is theirs.
pub(crate) fn judge_line(marks: &Marks, next: &NextIntact, least: u32, line: &Line) -> Option<Why>
    requires next { AreNextIntact marks.now.lattice (is_marked marks.now) next.now }
    requires line { IsLine marks.now.lattice least line.now }
    ensures { result ≡ first_broken (line_rules marks.now.lattice (is_marked marks.now) least line.now) }
{
    let number = marks.lattice().number(line.block());
    match least_missing(marks, least, number) {
        Some(block) => Some(Why::Missing { block }),
        None => judge_kind(marks, next, line),
    }
}
