//! All bytes are put, or a first part and a fault.

use aea_io::{MemSink, StdSink, put_all};
use std::alloc::Global;
use std::io::{self, Write};

// A writer that takes two bytes at a time.
#[derive(Drop)]
struct Slow {
    taken: Vec<u8>,
}

impl Write for Slow {
    fn write(&mut self, buf: &[u8]) -> io::Result<usize> {
        let count = buf.len().min(2);
        self.taken.extend_from_slice(&buf[..count])?;
        Ok(count)
    }

    fn flush(&mut self) -> io::Result<()> {
        Ok(())
    }
}

// Whether all seven bytes are put, two at a time, and then none.
fn puts_all(sink: &mut StdSink<Slow>) -> bool {
    put_all(sink, b"abcdefg") == Ok(())
        && put_all(sink, b"") == Ok(())
        && sink.writer.taken.as_slice() == b"abcdefg".as_slice()
}

#[test]
fn goes_on_after_short_writes(rt: HostRuntime) {
    let taken = Vec::new(rt.alloc());
    let mut sink = StdSink::new(Slow { taken });
    assert!(rt; puts_all(&mut sink));
}

// Whether a sink with so much room that fails at this call has these of seven bytes, and a fault where it has fewer.
fn puts(alloc: Global, room: usize, fails: u32, want: &[u8]) -> bool {
    match MemSink::new(alloc, room, &[fails]) {
        Ok(mut sink) => {
            let all = want.len() == 7;
            put_all(&mut sink, b"abcdefg").is_ok() == all && sink.bytes() == want
        }
        Err(_) => false,
    }
}

#[test]
fn stops_at_a_fault(rt: HostRuntime) {
    for (room, fails, want) in [(4, 9, b"abcd".as_slice()), (9, 1, b""), (7, 2, b"abcdefg")] {
        assert!(rt; puts(rt.alloc(), room, fails, want), "room {room}");
    }
}
