//! What was found of the lines that were read.

ghost use Rattle.std.specs.Prelude.{◌≡◌, ◌≤◌, ◌+◌, ◌++◌, ◌∷◌, [], ℕ, List, Bool, cond, option_map, true};
ghost use Rattle.std.specs.Option.{option_or};
ghost use Rattle.aea_lattice.specs.declared.blocks.BlockId.{BlockId};
ghost use Rattle.aea_lattice.specs.declared.grid.Lattice.{Lattice};
ghost use Rattle.aea_lattice.specs.Blocks.{blocks_count, number_of};
ghost use Rattle.aea_view.specs.Marked.{is_marked};
ghost use Rattle.aea_walk.specs.Missing.{missing};
ghost use Rattle.aea_walk.specs.Stretches.{AreNextIntact};
ghost use Rattle.aea_report.specs.declared.line.Line.{Line};
ghost use Rattle.aea_report.specs.Format.{block_in};
ghost use Rattle.aea_report.specs.Grammar.{IsLine};
ghost use Rattle.aea_report.specs.Fits.{is_peeled, is_solved, is_lost};
ghost use Rattle.aea_verify.specs.Rules.{unless, line_rules, first_broken, has_lattice, has_seal, verdict_by, verdict_of};
ghost use Rattle.aea_verify.specs.Tallies.{IsTally, IsSmall, counts_are, broken_by};

use crate::judge::judge_line;
use crate::verdict::{Verdict, Why};
use aea_report::{Head, Line};
use aea_view::Marks;
use aea_walk::{NextIntact, least_missing};

/// What was found of the first lines of blocks: the number of the next line, the least number that its block may have, the
/// first rule that they break with the line at which it is named, and how many there are of each kind.
#[derive(Clone, Copy, Debug, PartialEq, Eq)]
pub(crate) struct Tally {
    pub line: u32,
    pub least: u32,
    pub broken: Option<(u32, Why)>,
    pub peeled: u32,
    pub solved: u32,
    pub lost: u32,
}

// 1 where the line says that its block is peeled, else 0.
fn peeled_in(line: &Line) -> u32
    ensures value { result ≡ cond (is_peeled line.now) 1 0 }
    ensures small { result ≤ 1 }
{
    match line {
        Line::Peeled { .. } => 1,
        Line::Solved { .. } | Line::Lost { .. } => 0,
    }
}

// 1 where it says that its block is solved, else 0.
fn solved_in(line: &Line) -> u32
    ensures value { result ≡ cond (is_solved line.now) 1 0 }
    ensures small { result ≤ 1 }
{
    match line {
        Line::Solved { .. } => 1,
        Line::Peeled { .. } | Line::Lost { .. } => 0,
    }
}

// 1 where it says that its block is lost, else 0.
fn lost_in(line: &Line) -> u32
    ensures value { result ≡ cond (is_lost line.now) 1 0 }
    ensures small { result ≤ 1 }
{
    match line {
        Line::Lost { .. } => 1,
        Line::Peeled { .. } | Line::Solved { .. } => 0,
    }
}

// The first broken rule of the lines so far and of this one.
fn broken_with(marks: &Marks, next: &NextIntact, tally: &Tally, line: &Line) -> Option<(u32, Why)>
    requires next { AreNextIntact marks.now.lattice (is_marked marks.now) next.now }
    requires line { IsLine marks.now.lattice tally.now.least line.now }
    ensures { result ≡ option_or tally.now.broken (option_map (λ why. (tally.now.line, why)) (first_broken (line_rules marks.now.lattice (is_marked marks.now) tally.now.least line.now))) }
{
    match tally.broken {
        Some(broken) => Some(broken),
        None => match judge_line(marks, next, tally.least, line) {
            Some(why) => Some((tally.line, why)),
            None => None,
        },
    }
}

impl Tally {
    /// No line was read.
    pub(crate) fn begin() -> Tally
        ensures tally { (l : Lattice) (intact : BlockId → Bool) → IsTally l intact [] result }
        ensures small { (l : Lattice) → IsSmall l result }
        ensures least { result.least ≡ 0 }
    {
        Tally {
            line: 5,
            least: 0,
            broken: None,
            peeled: 0,
            solved: 0,
            lost: 0,
        }
    }

    /// The tally with one line more.
    pub(crate) fn with(&self, marks: &Marks, next: &NextIntact, line: &Line) -> Tally
        requires next { AreNextIntact marks.now.lattice (is_marked marks.now) next.now }
        requires line { IsLine marks.now.lattice self.now.least line.now }
        requires small { IsSmall marks.now.lattice self.now }
        ensures tally { (lines : List Line) → IsTally marks.now.lattice (is_marked marks.now) lines self.now → IsTally marks.now.lattice (is_marked marks.now) (lines ++ line.now ∷ []) result }
        ensures small { IsSmall marks.now.lattice result }
        ensures least { result.least ≡ number_of marks.now.lattice (block_in line.now) + 1 }
    {
        let block = line.block();
        let number = marks.lattice().number(block);
        let broken = broken_with(marks, next, self, line);
        let peeled = peeled_in(line);
        let solved = solved_in(line);
        let lost = lost_in(line);
        Tally {
            line: self.line + 1,
            least: number + 1,
            broken,
            peeled: self.peeled + peeled,
            solved: self.solved + solved,
            lost: self.lost + lost,
        }
    }

    // Whether the counts of the head are those of the tally.
    fn is_counted(&self, head: &Head) -> bool
        ensures { result ≡ counts_are head.now self.now.peeled self.now.solved self.now.lost }
    {
        let sum = u64::from(head.peeled) + u64::from(head.solved) + u64::from(head.lost);
        head.peeled == self.peeled
            && (head.solved == self.solved
                && (head.lost == self.lost && u64::from(head.damaged) == sum))
    }

    // The rule on the counts of the head, where it is broken.
    fn broken_counts(&self, head: &Head) -> Option<(u32, Why)>
        ensures { result ≡ option_map (λ why. (4, why)) (unless (counts_are head.now self.now.peeled self.now.solved self.now.lost) Why.WrongCount) }
    {
        if self.is_counted(head) {
            None
        } else {
            Some((4, Why::WrongCount))
        }
    }

    // The first broken rule after the lines.
    fn broken_behind(&self, marks: &Marks, head: &Head) -> Option<(u32, Why)>
        ensures { result ≡ option_or (option_map (λ b. (self.now.line, Why.Missing b)) (missing marks.now.lattice (is_marked marks.now) self.now.least (blocks_count marks.now.lattice)))
            (option_map (λ why. (4, why)) (unless (counts_are head.now self.now.peeled self.now.solved self.now.lost) Why.WrongCount)) }
    {
        let count = marks.lattice().blocks();
        match least_missing(marks, self.least, count) {
            Some(block) => Some((self.line, Why::Missing { block })),
            None => self.broken_counts(head),
        }
    }

    // The first broken rule of the report, where the rules on the head are kept.
    fn first_broken(&self, marks: &Marks, head: &Head) -> Option<(u32, Why)>
        ensures { result ≡ broken_by marks.now.lattice (is_marked marks.now) head.now self.now }
    {
        match self.broken {
            Some(broken) => Some(broken),
            None => self.broken_behind(marks, head),
        }
    }

    /// The verdict on a report with this head and these lines, where the rules on the head are kept.
    pub(crate) fn verdict(&self, marks: &Marks, head: &Head) -> Verdict
        ensures { (seal : List ℕ) (lines : List Line) → IsTally marks.now.lattice (is_marked marks.now) lines self.now
            → has_lattice marks.now.lattice head.now ≡ true → has_seal seal head.now.seal ≡ true
            → result ≡ verdict_of marks.now.lattice seal (is_marked marks.now) head.now lines }
    {
        let broken = self.first_broken(marks, head);
        verdict_by(broken)
    }
}

// The verdict where this is the first broken rule, if there is one.
fn verdict_by(broken: Option<(u32, Why)>) -> Verdict
    ensures { result ≡ verdict_by broken }
{
    match broken {
        Some((line, why)) => Verdict::Rejected { line, why },
        None => Verdict::Accepted,
    }
}
