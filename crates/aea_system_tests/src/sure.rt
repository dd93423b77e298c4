//! Sources and sinks in memory that fail only for lack of space.

use aea_io::{Sink, Source, SureSink, SureSource, WriteFault};
use std::test::Fail;

// The number of bytes of the first read that does not give its row: how many bytes, and what the buffer has.
fn wrong_read(source: &mut SureSource) -> Option<usize> {
    let mut buf = [0; 4];
    let mut wrong = None;
    for (count, want) in [(4, *b"abcd"), (2, *b"efcd"), (0, *b"efcd")] {
        let is_right = source.read(&mut buf) == Ok(count) && buf == want;
        wrong = wrong.or((!is_right).then_some(count));
    }
    wrong
}

#[test]
fn gives_its_bytes_and_ends(rt: HostRuntime) {
    let mut source = SureSource::new(b"abcdef");
    let wrong = wrong_read(&mut source);
    assert!(rt; wrong == None, "{wrong:?} bytes");
}

// The number of bytes after the first write that does not give its row.
fn wrong_write(sink: &mut SureSink) -> Option<usize> {
    let pieces: [(&[u8], Result<usize, WriteFault>); 5] = [
        (b"abc", Ok(3)),
        (b"", Ok(0)),
        (b"defg", Ok(2)),
        (b"h", Err(WriteFault)),
        (b"", Ok(0)),
    ];
    let mut wrong = None;
    for (piece, want) in pieces {
        let is_right = sink.write(piece) == want;
        wrong = wrong.or((!is_right).then_some(sink.bytes.len()));
    }
    wrong
}

// Whether a flush then has five bytes, and one write was a fault.
fn is_flushed(sink: &mut SureSink) -> bool {
    sink.flush() == Ok(())
        && sink.bytes() == b"abcde".as_slice()
        && (sink.flushed, sink.faults) == (5, 1)
}

#[test]
fn appends_what_fits(rt: HostRuntime) -> Result<(), Fail> {
    let mut sink = SureSink::new(rt.alloc(), 5)?;
    let wrong = wrong_write(&mut sink);
    assert!(rt; wrong == None, "after {wrong:?} bytes");
    assert!(rt; is_flushed(&mut sink));
    Ok(())
}
