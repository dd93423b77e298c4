//! Streams that come a byte at a time or are cut, and inputs and outputs that fail.

use crate::archives::{contents, raised};
use crate::sessions::{
    Ended, Served, ends, replies, reply_ends, serve_bytes, serve_input, serves, stream,
};
use aea_disk::SureDisk;
use aea_io::StdSource;
use aea_session::{Stop, TakeFault};
use aea_test_helpers::SlowReader;
use std::alloc::{AllocError, Global};
use std::test::Fail;

// How a session ends where the stream is cut behind so many bytes, and how many bytes of replies it gives.
fn cut_at(end: usize) -> (Ended, usize) {
    let mut whole = false;
    let mut given = 0;
    for (place, long) in ends().iter().zip(reply_ends().iter()) {
        if *place <= end {
            given = *long;
            whole = *place == end;
        }
    }
    let ended = if whole {
        Ended::Done
    } else {
        Ended::Stopped(Stop::BadStream { at: end as u64 })
    };
    (ended, given)
}

// Whether the session ends so and gives these replies where this is the stream.
fn serves_all(alloc: Global, bytes: &[u8], ended: Ended, wanted: &[u8]) -> bool {
    match raised(alloc) {
        Some(mut disk) => serves(alloc, &mut disk, bytes, ended, wanted),
        None => false,
    }
}

// Whether the session ends as it should where the stream is cut behind so many bytes.
fn is_cut_well(alloc: Global, end: usize) -> bool {
    let (ended, given) = cut_at(end);
    let wanted = replies().get(..given).unwrap_or(&[]);
    match stream().get(..end) {
        Some(bytes) => serves_all(alloc, bytes, ended, wanted),
        None => false,
    }
}

// The first place where the stream may be cut so that the session does not end as it should.
fn first_wrong_cut(alloc: Global) -> Option<usize> {
    (0..stream().len().saturating_add(1)).find(|end| !is_cut_well(alloc, *end))
}

#[test]
fn the_stream_is_cut_at_each_byte(rt: HostRuntime) -> Result<(), Fail> {
    let wrong = first_wrong_cut(rt.alloc());
    assert!(rt; wrong.is_none(), "{wrong:?}");
    Ok(())
}

// Whether the archive has so many objects.
fn has_objects(alloc: Global, disk: &mut SureDisk, count: usize) -> bool {
    contents(alloc, disk).is_some_and(|found| found.0 == count)
}

// Serves a session of the example, whose stream comes a byte at a time and one read fails, counted from 1; at 0 none does.
fn serve_slowly(alloc: Global, disk: &mut SureDisk, fails: usize) -> Result<Served, AllocError> {
    let mut input = StdSource::new(SlowReader {
        rest: stream(),
        calls: 0,
        fails,
    });
    serve_input(alloc, disk, &mut input, 1024)
}

// Whether such a session ends so, gives these replies and may be used on; and whether what was closed is there.
fn serves_slowly(
    alloc: Global,
    disk: &mut SureDisk,
    fails: usize,
    ended: Ended,
    wanted: &[u8],
) -> bool {
    let objects = usize::from(wanted.len() >= 54);
    let is_right = serve_slowly(alloc, disk, fails).is_ok_and(|served| {
        served.ended == ended && served.live && served.out.bytes() == wanted
    });
    is_right && has_objects(alloc, disk, objects)
}

// How such a session ends, and how many bytes of replies it gives.
fn slow_end(fails: usize) -> (Ended, usize) {
    if fails == 0 {
        (Ended::Done, replies().len())
    } else {
        let (_, given) = cut_at(fails.saturating_sub(1));
        (Ended::Stopped(Stop::Input), given)
    }
}

// Whether such a session over a new archive ends as it should.
fn bears_read(alloc: Global, fails: usize) -> bool {
    let (ended, given) = slow_end(fails);
    let wanted = replies().get(..given).unwrap_or(&[]);
    match raised(alloc) {
        Some(mut disk) => serves_slowly(alloc, &mut disk, fails, ended, wanted),
        None => false,
    }
}

// The first read whose failing a session does not bear, 0 where it does not even bear that none fails. There are as many reads as bytes,
// and one that finds the end.
fn first_wrong_read(alloc: Global) -> Option<usize> {
    (0..stream().len().saturating_add(2)).find(|fails| !bears_read(alloc, *fails))
}

#[test]
fn the_stream_comes_a_byte_at_a_time_and_each_read_fails(rt: HostRuntime) -> Result<(), Fail> {
    let wrong = first_wrong_read(rt.alloc());
    assert!(rt; wrong.is_none(), "{wrong:?}");
    Ok(())
}

// Whether an output with so little space stops the session where a reply does not fit, when it may not be used any more, with the
// bytes of the replies that fit; and whether what was closed is there.
fn stops_at_space(alloc: Global, disk: &mut SureDisk, space: usize) -> bool {
    let ended = Ended::Stopped(Stop::Taken {
        fault: TakeFault::WriteFault,
    });
    let is_right = serve_bytes(alloc, disk, stream(), space).is_ok_and(|served| {
        served.ended == ended && !served.live && replies().starts_with(served.out.bytes())
    });
    // a close is made where its reply fails
    is_right && has_objects(alloc, disk, usize::from(space >= 8))
}

// The same over a new archive.
fn bears_space(alloc: Global, space: usize) -> bool {
    match raised(alloc) {
        Some(mut disk) => stops_at_space(alloc, &mut disk, space),
        None => false,
    }
}

// The first such space that the session does not bear.
fn first_wrong_space(alloc: Global) -> Option<usize> {
    (0..replies().len()).find(|space| !bears_space(alloc, *space))
}

#[test]
fn the_output_has_too_little_space(rt: HostRuntime) -> Result<(), Fail> {
    let wrong = first_wrong_space(rt.alloc());
    assert!(rt; wrong.is_none(), "{wrong:?}");
    Ok(())
}
