//! A buffer is filled, or the end is reached.

use aea_io::{FillFault, MemSource, ReadFault, StdSource, fill, read_full};
use std::alloc::Global;
use std::io::{self, Read};

// A reader that gives two bytes at a time.
#[derive(Drop)]
struct Slow<'a> {
    rest: &'a [u8],
}

impl Read for Slow<'_> {
    fn read(&mut self, buf: &mut [u8]) -> io::Result<usize> {
        let count = buf.len().min(2);
        self.rest.read(&mut buf[..count])
    }
}

// Where the first read begins that does not give its row: how much is read, what the buffer has, and where the read ends. It is
// 0 where an empty buffer is wrong.
fn wrong_read(source: &mut StdSource<Slow>) -> Option<u32> {
    let mut buf = [0; 5];
    let mut wrong = None;
    for (start, count, want, taken) in [
        (7_u32, 5, *b"abcde", 12),
        (12, 3, *b"fghde", 15),
        (15, 0, *b"fghde", 15),
    ] {
        let mut at = u64::from(start);
        let is_read = read_full(source, &mut buf, &mut at) == Ok(count);
        let is_right = is_read && buf == want && at == taken;
        wrong = wrong.or((!is_right).then_some(start));
    }
    let is_right = read_full(source, &mut [], &mut 0) == Ok(0);
    wrong.or((!is_right).then_some(0))
}

#[test]
fn goes_on_after_short_reads(rt: HostRuntime) {
    let mut source = StdSource::new(Slow { rest: b"abcdefgh" });
    let wrong = wrong_read(&mut source);
    assert!(rt; wrong == None, "from {wrong:?}");
}

// Where the first filling begins that does not give its row.
fn wrong_filling(source: &mut StdSource<Slow>) -> Option<u32> {
    let mut buf = [0; 5];
    let mut wrong = None;
    for (start, filled, want, taken) in [
        (7_u32, Ok(()), *b"abcde", 12),
        (12, Err(FillFault::Ended), *b"fghde", 15),
        (15, Err(FillFault::Ended), *b"fghde", 15),
    ] {
        let mut at = u64::from(start);
        let is_filled = fill(source, &mut buf, &mut at) == filled;
        let is_right = is_filled && buf == want && at == taken;
        wrong = wrong.or((!is_right).then_some(start));
    }
    wrong
}

#[test]
fn says_that_the_source_ended(rt: HostRuntime) {
    let mut source = StdSource::new(Slow { rest: b"abcdefgh" });
    let wrong = wrong_filling(&mut source);
    assert!(rt; wrong == None, "from {wrong:?}");
}

// Whether a read from a source that fails at this call gives this, and takes so many bytes.
fn reads(alloc: Global, call: u32, want: Result<usize, ReadFault>, taken: u64) -> bool {
    match MemSource::new(alloc, b"abc", &[call]) {
        Ok(mut source) => {
            let mut at = 0;
            read_full(&mut source, &mut [0; 9], &mut at) == want && at == taken
        }
        Err(_) => false,
    }
}

#[test]
fn hands_a_read_fault_on(rt: HostRuntime) {
    for (call, want, taken) in [
        (1, Err(ReadFault), 0),
        (2, Err(ReadFault), 3),
        (3, Ok(3), 3),
    ] {
        assert!(rt; reads(rt.alloc(), call, want, taken), "call {call}");
    }
}
