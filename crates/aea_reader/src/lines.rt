//! Lines of a source.

ghost use Rattle.std.specs.Prelude.{◌≡◌, ◌≢◌, ◌⊎◌, ◌+◌, ◌-◌, ◌<◌, ◌≤◌, ◌==◌, ◌++◌, [], length, position, IfSome, IfOk, OnOk, Err, vec_len};
ghost use Rattle.aea_faults.specs.Faults.{Rose};
ghost use Rattle.aea_io.specs.Taken.{TakesAtMost};
ghost use Rattle.aea_report.specs.Faults.{greatest_line};
ghost use Rattle.aea_reader.specs.Words.{IsFree};
ghost use Rattle.aea_reader.specs.Pieces.{Moves, HasLine};

use crate::ahead::Ahead;
use aea_io::Source;
use std::alloc::AllocError;

// The most bytes of a line.
const LONGEST: usize = 16_777_216;

/// Why a line was not read.
#[derive(Clone, Copy, Debug, PartialEq, Eq)]
pub enum LineFault {
    ReadFault,
    NoMemory,
}

/// How a line ended: with a newline, with the end of the source, or with its first byte that is too many.
#[derive(Clone, Copy, Debug, PartialEq, Eq)]
pub enum LineEnd {
    Newline,
    Last,
    TooLong,
}

// The place of the first newline, if there is one.
fn find_newline(text: &[u8]) -> Option<usize>
    ensures found { result ≡ position (λ x. x == 10) text.now }
    ensures below { IfSome result (λ k. k < length text.now) }
{
    text.iter().position(|x| *x == b'\n')
}

// Puts the piece at the end of the line. The memory doubles, but never past one byte more than the longest line has.
fn append(line: &mut Vec<u8>, piece: &[u8]) -> Result<(), AllocError>
    requires { vec_len line.old + length piece.now ≤ LONGEST + 1 }
    ensures { OnOk result (line.new.items ≡ line.old.items ++ piece.now) }
{
    let len = line.len();
    if line.capacity() - len < piece.len() {
        line.reserve_exact(len.max(piece.len()).min(LONGEST + 1 - len))?;
    }
    line.extend_from_slice(piece)
}

// Moves what is ahead to the line, up to the first newline. It says whether it met one.
fn take_piece(ahead: &mut Ahead, line: &mut Vec<u8>) -> Result<bool, AllocError>
    requires { (line.old.items ≡ []) ⊎ (length line.old.items + length ahead.old ≤ greatest_line + 1) }
    ensures moves { IfOk result (Moves line.old.items ahead.old line.new.items ahead.new) }
    ensures short { length line.old.items + length ahead.old ≤ greatest_line + 1 }
{
    let text = ahead.bytes();
    match find_newline(text) {
        Some(end) => {
            append(line, &text[..end])?;
            ahead.skip(end + 1);
            Ok(true)
        }
        None => {
            let count = text.len();
            append(line, text)?;
            ahead.skip(count);
            Ok(false)
        }
    }
}

/// Reads the next line, without its newline, or as much of it as shows that it is too long.
pub fn read_line<S: Source>(
    ahead: &mut Ahead,
    line: &mut Vec<u8>,
    source: &mut S,
) -> Result<LineEnd, LineFault>
    requires { line.old.items ≡ [] }
    ensures plain { OnOk result (IsFree 10 line.new.items) }
    ensures line { IfOk result (HasLine ahead.old (S.state source.old).left (S.state source.new).left line.new.items ahead.new) }
    ensures most { TakesAtMost (S.state source.old).left (S.state source.new).left (greatest_line + 1 - length ahead.old) }
    ensures kept { (S.state source.old).faults ≤ (S.state source.new).faults }
    ensures cause { result ≡ Err LineFault.ReadFault → Rose (S.state source.old).faults (S.state source.new).faults }
    ensures still { result ≢ Err LineFault.ReadFault → (S.state source.new).faults ≡ (S.state source.old).faults }
{
    'pieces: loop {
        let Ok(met) = take_piece(ahead, line) else {
            return Err(LineFault::NoMemory);
        };
        if met {
            return Ok(LineEnd::Newline);
        }
        let len = line.len();
        if len > LONGEST {
            return Ok(LineEnd::TooLong);
        }
        let Ok(more) = ahead.refill(source, LONGEST + 1 - len) else {
            return Err(LineFault::ReadFault);
        };
        if !more {
            return Ok(LineEnd::Last);
        }
    }
}
