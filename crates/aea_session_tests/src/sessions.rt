//! Sessions over archives in memory, and the first worked example.

use aea_disk::Disk;
use aea_io::{MemSink, MemSource, Sink, Source};
use aea_ledger::open_ledger;
use aea_session::{BeginFault, Session, Stop, serve};
use std::alloc::{AllocError, Global};

/// The messages of the first example, as one stream.
pub fn stream() -> &'static [u8] {
    b"\x01\0\0\x01a\x01\x01\0\x01b\x02\0\0\0\0\x03abc\x02\x01\0\0\0\x10qqqqqqqqqqqqqqqq\x03\0\
\x04\x01\x05\0\x01a\x06\0\0\0\0\0\0\0\x04"
}

/// Where each of its messages ends.
pub fn ends() -> [usize; 9] {
    [0, 5, 10, 19, 41, 43, 45, 49, 58]
}

/// The first of its messages, so many.
pub fn first_messages(count: usize) -> &'static [u8] {
    let end = ends().get(count).copied().unwrap_or(0);
    stream().get(..end).unwrap_or(&[])
}

/// The replies to them. The 32 bytes in the reply to the close are the SHA-256 of `abc`.
pub fn replies() -> &'static [u8] {
    b"\x01\0\x01\0\x02\0\x02\0\x03\0\0\0\0\x01\0\0\0\0\0\0\0\x03\
\xba\x78\x16\xbf\x8f\x01\xcf\xea\x41\x41\x40\xde\x5d\xae\x22\x23\
\xb0\x03\x61\xa3\x96\x17\x7a\x9c\xb4\x10\xff\x61\xf2\x00\x15\xad\
\x04\0\x05\0\0\0\0\0\0\0\0\x03abc\x06\0\0\0\0\0"
}

/// Where each of the replies ends.
pub fn reply_ends() -> [usize; 9] {
    [0, 2, 4, 6, 8, 54, 56, 69, 75]
}

/// The replies to the same messages where `a` is there before.
pub fn replies_again() -> &'static [u8] {
    b"\x01\x05\x01\0\x02\x03\x02\0\x03\x03\x04\0\x05\0\0\0\0\0\0\0\0\x03abc\x06\0\0\0\0\0"
}

/// How a session ended.
#[derive(Clone, Copy, PartialEq, Eq)]
pub enum Ended {
    NoLedger,
    NotBegun(BeginFault),
    Done,
    Stopped(Stop),
}

/// What a session leaves: how it ended, whether it may be used on, and its replies.
#[derive(Drop)]
pub struct Served {
    pub ended: Ended,
    pub live: bool,
    pub out: MemSink,
}

// Opens the archive, and serves a session over it. Returns how it ended, and whether it may be used on.
fn run<D: Disk, S: Source, O: Sink>(
    alloc: Global,
    disk: &mut D,
    input: &mut S,
    out: &mut O,
) -> (Ended, bool) {
    match open_ledger(alloc, disk) {
        Ok(ledger) => match Session::begin(alloc, ledger, disk) {
            Ok(mut session) => match serve(alloc, &mut session, disk, input, out) {
                Ok(()) => (Ended::Done, session.live()),
                Err(stop) => (Ended::Stopped(stop), session.live()),
            },
            Err(fault) => (Ended::NotBegun(fault), false),
        },
        Err(_) => (Ended::NoLedger, false),
    }
}

/// Serves a session of this input over the archive, with so many bytes of space for the replies. An error is lack of memory, here
/// and below.
pub fn serve_input<D: Disk, S: Source>(
    alloc: Global,
    disk: &mut D,
    input: &mut S,
    space: usize,
) -> Result<Served, AllocError> {
    let mut out = MemSink::new(alloc, space, &[])?;
    let (ended, live) = run(alloc, disk, input, &mut out);
    Ok(Served { ended, live, out })
}

/// Serves a session of these bytes over the archive, with so many bytes of space for the replies.
pub fn serve_bytes<D: Disk>(
    alloc: Global,
    disk: &mut D,
    bytes: &[u8],
    space: usize,
) -> Result<Served, AllocError> {
    let mut input = MemSource::new(alloc, bytes, &[])?;
    serve_input(alloc, disk, &mut input, space)
}

/// Serves a session of these bytes. Says whether it ends so and gives these replies, and whether it may be used on unless a message
/// was not taken.
pub fn serves<D: Disk>(
    alloc: Global,
    disk: &mut D,
    bytes: &[u8],
    ended: Ended,
    wanted: &[u8],
) -> bool {
    let begun = !matches!(ended, Ended::NoLedger | Ended::NotBegun(_));
    serve_bytes(alloc, disk, bytes, 16_384).is_ok_and(|served| {
        served.ended == ended && served.live == begun && served.out.bytes() == wanted
    })
}
