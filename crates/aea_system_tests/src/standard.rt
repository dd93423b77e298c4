//! Sources and sinks over readers and writers of std, which give parts, are interrupted and fail.

ghost use Rattle.std.specs.Prelude.{◌≡◌, IfOk};

use aea_io::{ReadFault, Sink, Source, StdSink, StdSource, WriteFault};
use std::alloc::{AllocError, Global};
use std::io::{self, ErrorKind, Read, Write};

// Returns these kinds of errors, the last first, and then the end or that nothing was taken.
#[derive(Drop)]
struct Failing {
    kinds: Vec<ErrorKind>,
}

impl Failing {
    fn next(&mut self) -> io::Result<usize>
        ensures { IfOk result (λ k. k ≡ 0) }
    {
        match self.kinds.pop() {
            Some(kind) => Err(kind.into()),
            None => Ok(0),
        }
    }
}

impl Read for Failing {
    fn read(&mut self, _buf: &mut [u8]) -> io::Result<usize> {
        self.next()
    }
}

impl Write for Failing {
    fn write(&mut self, _buf: &[u8]) -> io::Result<usize> {
        self.next()
    }

    fn flush(&mut self) -> io::Result<()> {
        self.next()?;
        Ok(())
    }
}

// The number of bytes of the first read that does not give its row: how many bytes, and what the buffer has.
fn wrong_read(source: &mut StdSource<&[u8]>) -> Option<usize> {
    let mut buf = [0; 3];
    let mut wrong = None;
    for (count, want) in [(3, *b"abc"), (2, *b"dec"), (0, *b"dec")] {
        let is_right = source.read(&mut buf) == Ok(count) && buf == want;
        wrong = wrong.or((!is_right).then_some(count));
    }
    wrong
}

#[test]
fn reads_what_the_reader_has(rt: HostRuntime) {
    let mut source = StdSource::new(b"abcde".as_slice());
    let wrong = wrong_read(&mut source);
    assert!(rt; wrong == None && source.faults == 0, "{wrong:?} bytes");
}

// Whether three bytes are written to the writer without a fault.
fn writes(sink: &mut StdSink<Vec<u8>>) -> bool {
    sink.write(b"abc") == Ok(3)
        && sink.write(b"") == Ok(0)
        && sink.flush() == Ok(())
        && sink.writer.as_slice() == b"abc".as_slice()
        && sink.faults == 0
}

#[test]
fn writes_to_the_writer(rt: HostRuntime) {
    let mut sink = StdSink::new(Vec::new(rt.alloc()));
    assert!(rt; writes(&mut sink));
}

// A reader and writer with so many errors of this kind.
fn with_errors(alloc: Global, kind: ErrorKind, times: usize) -> Result<Failing, AllocError> {
    let kinds = vec![in alloc; kind; times]?;
    Ok(Failing { kinds })
}

// Whether a read gives this, with so many faults.
fn reads(inner: Failing, want: Result<usize, ReadFault>, faults: u64) -> bool {
    let mut source = StdSource::new(inner);
    source.read(&mut [0]) == want && source.faults == faults
}

#[test]
fn tries_again_where_interrupted(rt: HostRuntime) {
    for (kind, times, want, faults) in [
        (ErrorKind::Interrupted, 3, Ok(0), 0),
        (ErrorKind::Interrupted, 101, Err(ReadFault), 1),
        (ErrorKind::Other, 1, Err(ReadFault), 1),
    ] {
        let inner = with_errors(rt.alloc(), kind, times);
        let is_right = inner.is_ok_and(|inner| reads(inner, want, faults));
        assert!(rt; is_right, "{kind:?} {times} times");
    }
}

// Whether a write fails, and is a fault.
fn fails_to_write(inner: Failing) -> bool {
    let mut sink = StdSink::new(inner);
    sink.write(b"a") == Err(WriteFault) && sink.faults == 1
}

// Whether a flush fails where there is an error, and the next one does not.
fn flushes_again(inner: Failing) -> bool {
    let mut sink = StdSink::new(inner);
    sink.flush() == Err(WriteFault) && sink.flush() == Ok(()) && sink.faults == 1
}

#[test]
fn counts_each_failed_write(rt: HostRuntime) {
    for (kind, times) in [
        (ErrorKind::Interrupted, 3),
        (ErrorKind::Interrupted, 101),
        (ErrorKind::Other, 2),
        (ErrorKind::Other, 0),
    ] {
        let inner = with_errors(rt.alloc(), kind, times);
        let is_right = inner.is_ok_and(|inner| fails_to_write(inner));
        assert!(rt; is_right, "{kind:?} {times} times");
    }
    let other = with_errors(rt.alloc(), ErrorKind::Other, 1);
    assert!(rt; other.is_ok_and(|inner| flushes_again(inner)));
}
