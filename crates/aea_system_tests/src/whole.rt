//! A source is read to its end, or to one byte past the limit.

ghost use Rattle.std.specs.Prelude.{◌<◌};

use aea_io::{MemSource, SureSource, WholeFault, read_whole};
use std::alloc::Global;

// How many bytes are asked for at a time.
const PIECE: usize = 8192;

// Whether of these bytes so many are read up to the limit, into no more room than for one more, and so many are left.
fn reads(alloc: Global, bytes: &[u8], limit: usize, want: usize, left: usize) -> bool
    requires { limit < usize.MAX }
{
    let mut source = SureSource::new(bytes);
    match read_whole(alloc, &mut source, limit) {
        Ok(whole) => {
            whole.len() == want && source.rest.len() == left && whole.capacity() <= limit + 1
        }
        Err(_) => false,
    }
}

// Whether of the first bytes of this number they are.
fn reads_first(alloc: Global, length: usize, limit: usize, want: usize, left: usize) -> bool
    requires { limit < usize.MAX }
{
    let bytes = [7; 3 * PIECE];
    match bytes.get(..length) {
        Some(bytes) => reads(alloc, bytes, limit, want, left),
        None => false,
    }
}

#[test]
fn reads_one_byte_past_the_limit(rt: HostRuntime) {
    for limit in [5, 2 * PIECE] {
        for (length, want, left) in [
            (0, 0, 0),
            (limit, limit, 0),
            (limit + 1, limit + 1, 0),
            (limit + 2, limit + 1, 1),
        ] {
            let is_right = reads_first(rt.alloc(), length, limit, want, left);
            assert!(rt; is_right, "limit {limit}, length {length}");
        }
    }
}

// What a source of three bytes gives that fails at this call: how many bytes.
fn read_failing(alloc: Global, call: u32) -> Option<Result<usize, WholeFault>> {
    match MemSource::new(alloc, b"abc", &[call]) {
        Ok(mut source) => Some(read_whole(alloc, &mut source, 9).map(|whole| whole.len())),
        Err(_) => None,
    }
}

#[test]
fn hands_a_read_fault_on(rt: HostRuntime) {
    for (call, want) in [
        (1, Err(WholeFault::ReadFault)),
        (2, Err(WholeFault::ReadFault)),
        (3, Ok(3)),
    ] {
        assert!(rt; read_failing(rt.alloc(), call) == Some(want), "call {call}");
    }
}
