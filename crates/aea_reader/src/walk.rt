//! The lines of a report, one after the other, where they are in the input.

ghost use Rattle.std.specs.Prelude.{◌≡◌, ◌≢◌, ◌+◌, ◌-◌, ◌≤◌, ℕ, List, [], false, length, MatchResult, Ok, Err};
ghost use Rattle.std.specs.Io.KnownBytes.{IsAtEnd};
ghost use Rattle.aea_faults.specs.Faults.{Rose};
ghost use Rattle.aea_io.specs.Taken.{TakesAtMost};
ghost use Rattle.aea_report.specs.Faults.{greatest_line};
ghost use Rattle.aea_reader.specs.Places.{IsAt, HasText, IsFault, HasFound};

use crate::ahead::Ahead;
use crate::fault::ReportFault;
use crate::lines::{LineEnd, LineFault, read_line};
use aea_io::Source;
use std::alloc::Global;

/// Reads line k. It says whether there was a line, or nothing was left.
pub fn next_line<S: Source>(
    ahead: &mut Ahead,
    line: &mut Vec<u8>,
    source: &mut S,
    k: u32,
) -> Result<bool, ReportFault>
    requires { line.old.items ≡ [] }
    ensures found { (input : List ℕ) (texts : List (List ℕ)) → IsAt input k texts ahead.old (S.state source.old).left
        → HasFound input k texts line.new.items ahead.new (S.state source.new).left result }
    ensures end { result ≡ Ok false → IsAtEnd (S.state source.new).left }
    ensures most { TakesAtMost (S.state source.old).left (S.state source.new).left (greatest_line + 1 - length ahead.old) }
    ensures kept { (S.state source.old).faults ≤ (S.state source.new).faults }
    ensures cause { result ≡ Err ReportFault.ReadFault → Rose (S.state source.old).faults (S.state source.new).faults }
    ensures still { result ≢ Err ReportFault.ReadFault → (S.state source.new).faults ≡ (S.state source.old).faults }
{
    match read_line(ahead, line, source) {
        Ok(LineEnd::Newline) => Ok(true),
        Ok(LineEnd::Last) => if line.is_empty() {
            Ok(false)
        } else {
            Err(ReportFault::BadLine { line: k })
        },
        Ok(LineEnd::TooLong) => Err(ReportFault::LineTooLong { line: k }),
        Err(LineFault::ReadFault) => Err(ReportFault::ReadFault),
        Err(LineFault::NoMemory) => Err(ReportFault::NoMemory),
    }
}

/// Reads line k of a head, which has to be there, without its newline.
pub fn head_line<S: Source>(
    alloc: Global,
    ahead: &mut Ahead,
    source: &mut S,
    k: u32,
) -> Result<Vec<u8>, ReportFault>
    requires { k ≤ 4 }
    ensures found { (input : List ℕ) (texts : List (List ℕ)) → IsAt input k texts ahead.old (S.state source.old).left
        → MatchResult result (λ line. HasText input k texts line.items ahead.new (S.state source.new).left)
        (IsFault input k (S.state source.new).left) }
    ensures kept { (S.state source.old).faults ≤ (S.state source.new).faults }
    ensures cause { result ≡ Err ReportFault.ReadFault → Rose (S.state source.old).faults (S.state source.new).faults }
    ensures still { result ≢ Err ReportFault.ReadFault → (S.state source.new).faults ≡ (S.state source.old).faults }
{
    let mut line = Vec::new(alloc);
    match next_line(ahead, &mut line, source, k) {
        Ok(true) => Ok(line),
        Ok(false) => Err(ReportFault::BadLine { line: k }),
        Err(fault) => Err(fault),
    }
}
