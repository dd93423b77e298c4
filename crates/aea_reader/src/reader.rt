//! A reader of reports, line by line.

ghost use Rattle.std.specs.Prelude.{◌≡◌, ◌≢◌, ◌-◌, ◌+◌, ◌≤◌, ℕ, List, length, Option, Some, None, IfOk, Ok, Err};
ghost use Rattle.std.specs.Io.KnownBytes.{IsAtEnd};
ghost use Rattle.aea_faults.specs.Faults.{Rose};
ghost use Rattle.aea_io.specs.Taken.{TakesAtMost};
ghost use Rattle.aea_lattice.specs.Blocks.{number_of};
ghost use Rattle.aea_report.specs.declared.head.Head.{Head};
ghost use Rattle.aea_report.specs.declared.line.Line.{Line};
ghost use Rattle.aea_report.specs.Faults.{greatest_line};
ghost use Rattle.aea_report.specs.Grammar.{IsHeadOf};
ghost use Rattle.aea_reader.specs.declared.answer.Ending.{Ending};
ghost use Rattle.aea_reader.specs.Readings.{IsReading, HasBegun, HasRead, Advances, answer_of, Settles};

use crate::ahead::Ahead;
use crate::answer::{Ending, Next};
use crate::begin::read_head;
use crate::fault::ReportFault;
use crate::judge::line_in;
use crate::walk::next_line;
use aea_io::Source;
use aea_lattice::Lattice;
use aea_report::{Head, Line, reports_have_one_reading};
use std::alloc::Global;
use std::marker::Model;

/// A reader that has read the head of a report, and some lines after it.
#[derive(Drop)]
pub struct Reader {
    lattice: Lattice,
    line: u32,
    least: u32,
    ahead: Ahead,
    settled: Option<Ending>,
}

impl Model for Reader {
    ghost use Rattle.std.specs.Prelude.{◌≤◌, ◌+◌};
    ghost use Rattle.aea_lattice.specs.Blocks.{blocks_count};
    ghost use Rattle.aea_reader.specs.Readings.{Reading, reading_code};

    ghost Value = { Reading };

    ghost coded = { reading_code };

    ghost view = { λ r. record { lattice = r.lattice; line = r.line; least = r.least; ahead = r.ahead; settled = r.settled } };

    ghost invariant = { λ r. (r.least ≤ blocks_count r.lattice) × (r.line ≤ 5 + r.least) };
}

impl Reader {
    /// Reads the head of a report. It takes memory as the lines grow, and never for more than one.
    pub fn begin<S: Source>(alloc: Global, source: &mut S) -> Result<(Reader, Head), ReportFault>
        ensures head { IfOk result (λ r. IsHeadOf r.0.lattice r.1) }
        ensures first { IfOk result (λ r. (r.0.settled ≡ None) × ((r.0.line ≡ 5) × (r.0.least ≡ 0))) }
        ensures begun { (input : List ℕ) → (S.state source.old).left ≡ Some input → HasBegun input (S.state source.new).left result }
        ensures kept { (S.state source.old).faults ≤ (S.state source.new).faults }
        ensures cause { result ≡ Err ReportFault.ReadFault → Rose (S.state source.old).faults (S.state source.new).faults }
        ensures still { result ≢ Err ReportFault.ReadFault → (S.state source.new).faults ≡ (S.state source.old).faults }
    {
        let mut ahead = Ahead::new();
        let (lattice, head) = read_head(alloc, &mut ahead, source)?;
        let reader = Reader {
            lattice,
            line: 5,
            least: 0,
            ahead,
            settled: None,
        };
        Ok((reader, head))
    }

    // Reads the next line of a reader that is not settled, or finds the end of the report.
    fn advance<S: Source>(&mut self, alloc: Global, source: &mut S) -> Result<Next, ReportFault>
        requires { self.old.settled ≡ None }
        ensures lattice { self.new.lattice ≡ self.old.lattice }
        ensures line { (line : Line) → result ≡ Ok (Next.Line line) → Advances self.old self.new line }
        ensures read { (input : List ℕ) (h : Head) (lines : List Line) → IsReading input h lines self.old (S.state source.old).left
            → HasRead input h lines self.new (S.state source.new).left result }
        ensures end { result ≡ Ok Next.End → IsAtEnd (S.state source.new).left }
        ensures most { TakesAtMost (S.state source.old).left (S.state source.new).left (greatest_line + 1 - length self.old.ahead) }
        ensures kept { (S.state source.old).faults ≤ (S.state source.new).faults }
        ensures cause { result ≡ Err ReportFault.ReadFault → Rose (S.state source.old).faults (S.state source.new).faults }
        ensures still { result ≢ Err ReportFault.ReadFault → (S.state source.new).faults ≡ (S.state source.old).faults }
    {
        let k = self.line;
        let mut text = Vec::new(alloc);
        if !next_line(&mut self.ahead, &mut text, source, k)? {
            return Ok(Next::End);
        }
        match line_in(alloc, &self.lattice, self.least, &text) {
            Ok(Some(line)) => {
                self.least = self.lattice.number(line.block()) + 1;
                self.line = k + 1;
                Ok(Next::Line { line })
            }
            Ok(None) => {
                reports_have_one_reading();
                Err(ReportFault::BadLine { line: k })
            }
            Err(_) => Err(ReportFault::NoMemory),
        }
    }

    // From now on the reader returns this.
    fn settle(&mut self, ending: Ending)
        ensures lattice { self.new.lattice ≡ self.old.lattice }
        ensures ahead { self.new.ahead ≡ self.old.ahead }
        ensures settled { self.new.settled ≡ Some ending }
    {
        self.settled = Some(ending);
    }

    /// Reads the next line, or finds the end of the report. Once it has returned the end or a fault, it returns the same
    /// from then on, and reads nothing. Of a line that is too long it takes no byte after the first that is too many.
    pub fn next<S: Source>(&mut self, alloc: Global, source: &mut S) -> Result<Next, ReportFault>
        ensures lattice { self.new.lattice ≡ self.old.lattice }
        ensures line { (line : Line) → result ≡ Ok (Next.Line line) → Advances self.old self.new line }
        ensures settles { self.old.settled ≡ None → Settles result self.new.settled }
        ensures read { (input : List ℕ) (h : Head) (lines : List Line) → IsReading input h lines self.old (S.state source.old).left
            → HasRead input h lines self.new (S.state source.new).left result }
        ensures again { (ending : Ending) → self.old.settled ≡ Some ending
            → (result ≡ answer_of ending) × ((self.new ≡ self.old) × (S.state source.new ≡ S.state source.old)) }
        ensures end { result ≡ Ok Next.End → self.old.settled ≡ None → IsAtEnd (S.state source.new).left }
        ensures most { TakesAtMost (S.state source.old).left (S.state source.new).left (greatest_line + 1 - length self.old.ahead) }
        ensures kept { (S.state source.old).faults ≤ (S.state source.new).faults }
        ensures cause { self.old.settled ≡ None → result ≡ Err ReportFault.ReadFault → Rose (S.state source.old).faults (S.state source.new).faults }
        ensures still { result ≢ Err ReportFault.ReadFault → (S.state source.new).faults ≡ (S.state source.old).faults }
    {
        match self.settled {
            Some(Ending::Ended) => Ok(Next::End),
            Some(Ending::Failed { fault }) => Err(fault),
            None => match self.advance(alloc, source) {
                Ok(Next::Line { line }) => Ok(Next::Line { line }),
                Ok(Next::End) => {
                    self.settle(Ending::Ended);
                    Ok(Next::End)
                }
                Err(fault) => {
                    self.settle(Ending::Failed { fault });
                    Err(fault)
                }
            },
        }
    }
}
