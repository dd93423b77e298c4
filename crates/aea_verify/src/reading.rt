//! A report that is judged by marks of the intact blocks, line by line.

ghost use Rattle.std.specs.Prelude.{◌≡◌, ◌≢◌, ◌≤◌, ◌+◌, ◌++◌, ◌∷◌, ℕ, List, [], Some, None, true, Err, IfOk, IfNone, OnOk};
ghost use Rattle.std.specs.Io.KnownBytes.{IsAtEnd};
ghost use Rattle.aea_faults.specs.Faults.{Rose};
ghost use Rattle.aea_lattice.specs.Blocks.{number_of};
ghost use Rattle.aea_view.specs.Marked.{is_marked};
ghost use Rattle.aea_walk.specs.Stretches.{AreNextIntact};
ghost use Rattle.aea_report.specs.declared.head.Head.{Head};
ghost use Rattle.aea_report.specs.declared.line.Line.{Line};
ghost use Rattle.aea_report.specs.Format.{block_in};
ghost use Rattle.aea_report.specs.Grammar.{IsLine};
ghost use Rattle.aea_reader.specs.Readings.{IsReading};
ghost use Rattle.aea_verify.specs.Rules.{has_lattice, has_seal, verdict_of};
ghost use Rattle.aea_verify.specs.Tallies.{IsTally, IsSmall};
ghost use Rattle.aea_verify.specs.Judged.{HasSameBlocks, IsGoing, GoesOn, HasSome, LineSays, LinesSay, HeadSays, ReportSays};

use crate::tally::Tally;
use crate::verdict::{Verdict, Why};
use aea_io::Source;
use aea_lattice::Lattice;
use aea_reader::{Next, Reader, ReportFault};
use aea_report::{Head, Line};
use aea_view::Marks;
use aea_walk::NextIntact;
use std::alloc::Global;

// The tally with one line more, where the lines are judged.
fn tally_with(judged: bool, marks: &Marks, next: &NextIntact, tally: &Tally, line: &Line) -> Tally
    requires next { AreNextIntact marks.now.lattice (is_marked marks.now) next.now }
    requires line { judged ≡ true → IsLine marks.now.lattice tally.now.least line.now }
    requires small { judged ≡ true → IsSmall marks.now.lattice tally.now }
    ensures tally { judged ≡ true → (lines : List Line) → IsTally marks.now.lattice (is_marked marks.now) lines tally.now → IsTally marks.now.lattice (is_marked marks.now) (lines ++ line.now ∷ []) result }
    ensures small { judged ≡ true → IsSmall marks.now.lattice result }
    ensures least { judged ≡ true → result.least ≡ number_of marks.now.lattice (block_in line.now) + 1 }
{
    if judged {
        tally.with(marks, next, line)
    } else {
        *tally
    }
}

// Reads the next line. The answer is the tally with it, None at the end of the report.
fn read_line<S: Source>(
    alloc: Global,
    judged: bool,
    marks: &Marks,
    next: &NextIntact,
    tally: &Tally,
    reader: &mut Reader,
    source: &mut S,
) -> Result<Option<Tally>, ReportFault>
    requires next { AreNextIntact marks.now.lattice (is_marked marks.now) next.now }
    requires open_still { reader.old.settled ≡ None }
    requires going { judged ≡ true → IsGoing marks.now.lattice reader.old tally.now }
    ensures goes { IfOk result (GoesOn judged marks.now.lattice reader.old reader.new) }
    ensures reads { (input : List ℕ) (h : Head) → HasSome judged marks.now.lattice (is_marked marks.now) input h reader.old (S.state source.old).left tally.now
        → LineSays judged marks.now.lattice (is_marked marks.now) input h reader.new (S.state source.new).left tally.now result }
    ensures end { IfOk result (λ next. IfNone next (IsAtEnd (S.state source.new).left)) }
    ensures kept { (S.state source.old).faults ≤ (S.state source.new).faults }
    ensures cause { result ≡ Err ReportFault.ReadFault → Rose (S.state source.old).faults (S.state source.new).faults }
    ensures still { result ≢ Err ReportFault.ReadFault → (S.state source.new).faults ≡ (S.state source.old).faults }
{
    let read = match reader.next(alloc, source) {
        Ok(read) => read,
        Err(fault) => return Err(fault),
    };
    match read {
        Next::Line { line } => Ok(Some(tally_with(judged, marks, next, tally, &line))),
        Next::End => Ok(None),
    }
}

// Reads the lines of a report to its end, and judges them where its head fits.
fn read_lines<S: Source>(
    alloc: Global,
    judged: bool,
    marks: &Marks,
    next: &NextIntact,
    reader: &mut Reader,
    source: &mut S,
) -> Result<Tally, ReportFault>
    requires next { AreNextIntact marks.now.lattice (is_marked marks.now) next.now }
    requires blocks { judged ≡ true → HasSameBlocks marks.now.lattice reader.old.lattice }
    requires open_still { reader.old.settled ≡ None }
    requires first { reader.old.least ≡ 0 }
    ensures reads { (input : List ℕ) (h : Head) → IsReading input h [] reader.old (S.state source.old).left → LinesSay judged marks.now.lattice (is_marked marks.now) input h result }
    ensures end { OnOk result (IsAtEnd (S.state source.new).left) }
    ensures kept { (S.state source.old).faults ≤ (S.state source.new).faults }
    ensures cause { result ≡ Err ReportFault.ReadFault → Rose (S.state source.old).faults (S.state source.new).faults }
    ensures still { result ≢ Err ReportFault.ReadFault → (S.state source.new).faults ≡ (S.state source.old).faults }
{
    let mut tally = Tally::begin();
    'lines: loop {
        let read = match read_line(alloc, judged, marks, next, &tally, reader, source) {
            Ok(read) => read,
            Err(fault) => return Err(fault),
        };
        match read {
            Some(more) => tally = more,
            None => return Ok(tally),
        }
    }
}

// The line at which the head breaks its first rule, if it breaks one: another lattice, or another seal.
fn judge_head(lattice: &Lattice, seal: &[u8; 32], head: &Head) -> Option<u32>
    ensures { HeadSays lattice.now seal.now head.now result }
{
    if !has_lattice(lattice, head) {
        return Some(2);
    }
    if !has_seal(seal, &head.seal) {
        return Some(3);
    }
    None
}

// Whether the head has the shape of this lattice and its number of nodes.
fn has_lattice(lattice: &Lattice, head: &Head) -> bool
    ensures { result ≡ has_lattice lattice.now head.now }
{
    head.alpha == lattice.alpha()
        && (head.s == lattice.s() && (head.p == lattice.p() && head.n == lattice.n()))
}

// Whether the seal is this one.
fn has_seal(seal: &[u8; 32], revealed: &Option<[u8; 32]>) -> bool
    ensures { result ≡ has_seal seal.now revealed.now }
{
    match revealed {
        Some(revealed) => revealed.as_slice() == seal.as_slice(),
        None => false,
    }
}

// The verdict on a report with this head and this tally of its lines, where this is the line of the head's first broken
// rule.
fn verdict_with(marks: &Marks, head: &Head, broken: Option<u32>, tally: &Tally) -> Verdict
    ensures { (seal : List ℕ) (lines : List Line) → HeadSays marks.now.lattice seal head.now broken
        → (broken ≡ None → IsTally marks.now.lattice (is_marked marks.now) lines tally.now) → result ≡ verdict_of marks.now.lattice seal (is_marked marks.now) head.now lines }
{
    match broken {
        Some(line) => Verdict::Rejected {
            line,
            why: Why::OtherArchive,
        },
        None => tally.verdict(marks, head),
    }
}

/// Reads a report to its end, and judges it where the marked blocks are intact, and the table is theirs.
pub(crate) fn judge_report<S: Source>(
    alloc: Global,
    marks: &Marks,
    next: &NextIntact,
    seal: &[u8; 32],
    source: &mut S,
) -> Result<Verdict, ReportFault>
    requires next { AreNextIntact marks.now.lattice (is_marked marks.now) next.now }
    ensures says { (input : List ℕ) → (S.state source.old).left ≡ Some input → ReportSays marks.now.lattice seal.now (is_marked marks.now) input result }
    ensures end { OnOk result (IsAtEnd (S.state source.new).left) }
    ensures kept { (S.state source.old).faults ≤ (S.state source.new).faults }
    ensures cause { result ≡ Err ReportFault.ReadFault → Rose (S.state source.old).faults (S.state source.new).faults }
    ensures still { result ≢ Err ReportFault.ReadFault → (S.state source.new).faults ≡ (S.state source.old).faults }
{
    let begun = match Reader::begin(alloc, source) {
        Ok(begun) => begun,
        Err(fault) => return Err(fault),
    };
    let (mut reader, head) = begun;
    let broken = judge_head(marks.lattice(), seal, &head);
    let tally = match read_lines(alloc, broken.is_none(), marks, next, &mut reader, source) {
        Ok(tally) => tally,
        Err(fault) => return Err(fault),
    };
    Ok(verdict_with(marks, &head, broken, &tally))
}
