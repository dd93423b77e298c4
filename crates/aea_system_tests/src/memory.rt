//! Sources and sinks in memory, which fail at chosen calls.

use aea_io::{MemSink, MemSource, ReadFault, Sink, Source, WriteFault};
use std::test::Fail;

// The number of the first read that does not give its row.
fn wrong_read(source: &mut MemSource) -> Option<u64> {
    let mut buf = [0; 3];
    let mut wrong = None;
    for want in [Ok(3), Err(ReadFault), Ok(2), Ok(0)] {
        let is_right = source.read(&mut buf) == want;
        wrong = wrong.or((!is_right).then_some(source.fails.calls));
    }
    wrong
}

#[test]
fn fails_at_its_second_read(rt: HostRuntime) -> Result<(), Fail> {
    let mut source = MemSource::new(rt.alloc(), b"abcde", &[2])?;
    let wrong = wrong_read(&mut source);
    assert!(rt; wrong == None && source.faults == 1, "at call {wrong:?}");
    Ok(())
}

// The number of the first write that does not give its row.
fn wrong_write(sink: &mut MemSink) -> Option<u64> {
    let pieces: [(&[u8], Result<usize, WriteFault>); 5] = [
        (b"ab", Ok(2)),
        (b"x", Err(WriteFault)),
        (b"cde", Ok(2)),
        (b"x", Err(WriteFault)),
        (b"", Ok(0)),
    ];
    let mut wrong = None;
    for (piece, want) in pieces {
        let is_right = sink.write(piece) == want;
        wrong = wrong.or((!is_right).then_some(sink.fails.calls));
    }
    wrong
}

// Whether a flush then has four bytes, a write of none is the third fault, and these are the bytes.
fn ends_with_a_fault(sink: &mut MemSink) -> bool {
    sink.flush() == Ok(())
        && sink.write(b"") == Err(WriteFault)
        && sink.bytes() == b"abcd".as_slice()
        && (sink.sink.flushed, sink.sink.faults) == (4, 3)
}

#[test]
fn fails_at_its_second_write(rt: HostRuntime) -> Result<(), Fail> {
    let mut sink = MemSink::new(rt.alloc(), 4, &[7, 2])?;
    let wrong = wrong_write(&mut sink);
    assert!(rt; wrong == None, "at call {wrong:?}");
    assert!(rt; ends_with_a_fault(&mut sink));
    Ok(())
}

// Whether the first flush fails, and the second has both bytes.
fn flushes_again(sink: &mut MemSink) -> bool {
    sink.write(b"ab") == Ok(2)
        && sink.flush() == Err(WriteFault)
        && (sink.sink.flushed, sink.sink.faults) == (0, 1)
        && sink.flush() == Ok(())
        && sink.sink.flushed == 2
}

#[test]
fn fails_at_a_flush(rt: HostRuntime) -> Result<(), Fail> {
    let mut sink = MemSink::new(rt.alloc(), 4, &[2])?;
    assert!(rt; flushes_again(&mut sink));
    Ok(())
}
