//! A reader that gives one byte at a time.

use std::io::{self, ErrorKind, Read};

/// A reader of std that gives these bytes one at a time, and fails at one call, counted from 1; at 0 none does.
#[derive(Drop)]
pub struct SlowReader<'a> {
    pub rest: &'a [u8],
    pub calls: usize,
    pub fails: usize,
}

impl Read for SlowReader<'_> {
    fn read(&mut self, buf: &mut [u8]) -> io::Result<usize> {
        self.calls = self.calls.saturating_add(1);
        if self.calls == self.fails {
            return Err(io::Error::from(ErrorKind::BrokenPipe));
        }
        let count = buf.len().min(1);
        self.rest.read(&mut buf[..count])
    }
}
