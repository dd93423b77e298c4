//! A report that is read whole, beside a plain reader.

use crate::plain::plain_outcome;
use aea_io::{Source, SureSink, SureSource};
use aea_reader::{Next, Reader, ReportFault};
use aea_report::{Head, Line, write_head, write_line};
use std::alloc::Global;
use std::test::Fail;

/// A report of AE(2,2,2) with 11 nodes that has lines of each kind. Its counts are read, and not judged.
pub fn report() -> &'static [u8] {
    b"aea-report 1\nlattice 2 2 2 11\nledger \
ba7816bf8f01cfea414140de5dae2223b00361a396177a9cb410ff61f20015ad\ncounts 19 0 3 16\n\
lost d1 by 1 3 4 6\nsolved h3\npeeled r3\nlost d4 by 1 10 11\npeeled r11\n"
}

/// What a reader returns for some bytes: how many of them it has read as lines, and the fault at which it stopped.
#[derive(Clone, Copy, PartialEq, Eq)]
pub struct Found {
    pub read: usize,
    pub fault: Option<ReportFault>,
}

/// Whether the line is of a block of a node, and is written behind what is there.
pub fn is_written(sink: &mut SureSink, line: &Line) -> bool {
    1 <= line.block().node && write_line(sink, line) == Ok(())
}

// Whether the reader says once more that it is at the end.
fn is_at_end<S: Source>(alloc: Global, reader: &mut Reader, source: &mut S) -> bool {
    matches!(reader.next(alloc, source), Ok(Next::End))
}

// Whether the reader answers this fault once more.
fn is_at_fault<S: Source>(
    alloc: Global,
    reader: &mut Reader,
    source: &mut S,
    fault: ReportFault,
) -> bool {
    match reader.next(alloc, source) {
        Err(again) => again == fault,
        Ok(_) => false,
    }
}

// What comes of the next line.
#[derive(Clone, Copy, PartialEq, Eq)]
enum Came {
    Line,
    End,
    Fault { fault: ReportFault },
    /// So many lines that no end came.
    Endless,
    /// A line that is not written again, or an answer that does not stay.
    Otherwise,
}

// Reads a line and writes it into the sink. The end and a fault are asked for once more.
fn take_line<S: Source>(
    alloc: Global,
    reader: &mut Reader,
    source: &mut S,
    sink: &mut SureSink,
) -> Came {
    let (came, is_so) = match reader.next(alloc, source) {
        Ok(Next::Line { line }) => (Came::Line, is_written(sink, &line)),
        Ok(Next::End) => (Came::End, is_at_end(alloc, reader, source)),
        Err(fault) => (
            Came::Fault { fault },
            is_at_fault(alloc, reader, source, fault),
        ),
    };
    if is_so { came } else { Came::Otherwise }
}

// Reads lines up to what is none, and writes them into the sink.
fn take_lines<S: Source>(
    alloc: Global,
    reader: &mut Reader,
    source: &mut S,
    sink: &mut SureSink,
    most: usize,
) -> Came {
    for _ in 0..most {
        let came = take_line(alloc, reader, source, sink);
        if came != Came::Line {
            return came;
        }
    }
    Came::Endless
}

// What is found where this came behind the lines that were written, if these are the first bytes, and all of them at the end.
fn found_by(came: Came, read: &[u8], bytes: &[u8]) -> Option<Found> {
    match came {
        Came::End if read == bytes => Some(Found {
            read: bytes.len(),
            fault: None,
        }),
        Came::Fault { fault } if bytes.get(..read.len()) == Some(read) => Some(Found {
            read: read.len(),
            fault: Some(fault),
        }),
        _ => None,
    }
}

// What is found behind this head.
fn read_behind<S: Source>(
    alloc: Global,
    reader: &mut Reader,
    head: &Head,
    source: &mut S,
    bytes: &[u8],
) -> Result<Option<Found>, Fail> {
    let mut sink = SureSink::new(alloc, bytes.len())?;
    if write_head(&mut sink, head) != Ok(()) {
        return Ok(None);
    }
    let came = take_lines(alloc, reader, source, &mut sink, bytes.len());
    if came == Came::Endless {
        return Err(Fail::new("a reader that does not end"));
    }
    Ok(found_by(came, sink.bytes(), bytes))
}

/// Reads a report to its end or to a fault, and asks once more: the answer is the same, and nothing is read. The lines that
/// were read, written again, are the first bytes. None where any of this is not so.
pub fn read_whole<S: Source>(
    alloc: Global,
    source: &mut S,
    bytes: &[u8],
) -> Result<Option<Found>, Fail> {
    match Reader::begin(alloc, source) {
        Ok((mut reader, head)) => read_behind(alloc, &mut reader, &head, source, bytes),
        Err(fault) => Ok(Some(Found {
            read: 0,
            fault: Some(fault),
        })),
    }
}

/// Whether the reader and the plain one say the same of these bytes.
pub fn judge(alloc: Global, bytes: &[u8]) -> Result<bool, Fail> {
    let want = plain_outcome(alloc, bytes)?;
    let mut source = SureSource::new(bytes);
    Ok(read_whole(alloc, &mut source, bytes)? == Some(want))
}

#[test]
fn a_report_is_read(rt: HostRuntime) -> Result<(), Fail> {
    let bytes = report();
    let mut source = SureSource::new(bytes);
    let whole = Found {
        read: bytes.len(),
        fault: None,
    };
    assert!(rt; read_whole(rt.alloc(), &mut source, bytes)? == Some(whole));
    assert!(rt; judge(rt.alloc(), bytes)?);
    Ok(())
}
