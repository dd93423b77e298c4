//! The longest chunks and names, each first byte, and what stands behind a message.

use crate::messages::reading::{Found, Wanted, chunk, open, read_bytes};
use aea_io::SureSource;
use aea_messages::{ChunkBytes, Message, MessageFault, read_message};
use std::alloc::{AllocError, Global};
use std::test::Fail;

// A head, so many bytes behind it, and an abort.
fn long_stream(alloc: Global, head: &[u8], long: usize) -> Result<Vec<u8>, AllocError> {
    let mut bytes = head.to_vec(alloc)?;
    for k in 0..long {
        bytes.push((k % 251) as u8)?;
    }
    bytes.extend_from_slice(b"\x04\0")?;
    Ok(bytes)
}

// Reads this message, and an abort behind it.
fn read_both(alloc: Global, bytes: &[u8], wanted: Wanted) -> Found {
    read_bytes(alloc, bytes, &[wanted, Wanted::Abort { slot: 0 }])
}

// Whether a chunk of 65,536 bytes is read, and the message behind it.
fn is_greatest_read(alloc: Global) -> bool {
    match long_stream(alloc, b"\x02\x03\0\x01\0\0", 65_536) {
        Ok(bytes) => {
            let wanted = chunk(3, bytes.get(6..65_542).unwrap_or(&[]));
            read_both(alloc, bytes.as_slice(), wanted) == Found::new(2, None, 65_544)
        }
        Err(_) => false,
    }
}

#[test]
fn the_greatest_chunk_is_read(rt: HostRuntime) -> Result<(), Fail> {
    assert!(rt; is_greatest_read(rt.alloc()));
    Ok(())
}

// Whether one of 65,537 bytes is bad at its length.
fn is_length_bad(alloc: Global) -> bool {
    let want = Found::new(1, Some(MessageFault::BadMessage { at: 4 }), 8);
    match long_stream(alloc, b"\x04\x03\x02\x03\0\x01\0\x01", 65_537) {
        Ok(bytes) => read_bytes(alloc, bytes.as_slice(), &[Wanted::Abort { slot: 3 }]) == want,
        Err(_) => false,
    }
}

#[test]
fn one_byte_more_is_bad_at_its_length(rt: HostRuntime) -> Result<(), Fail> {
    assert!(rt; is_length_bad(rt.alloc()));
    Ok(())
}

// Whether the message that opens an upload under the longest name is read, and the one behind it.
fn opens_longest(alloc: Global) -> bool {
    match long_stream(alloc, b"\x01\x07\xff\xff", 65_535) {
        Ok(bytes) => {
            let wanted = open(7, bytes.get(4..65_539).unwrap_or(&[]));
            let both = read_both(alloc, bytes.as_slice(), wanted);
            both.count == 2 && both.taken == 65_541
        }
        Err(_) => false,
    }
}

// Whether the one that reads an object under it is.
fn reads_longest(alloc: Global) -> bool {
    match long_stream(alloc, b"\x05\xff\xff", 65_535) {
        Ok(bytes) => {
            let name = bytes.get(3..65_538).unwrap_or(&[]);
            let both = read_both(alloc, bytes.as_slice(), Wanted::Read { name });
            both.count == 2 && both.taken == 65_540
        }
        Err(_) => false,
    }
}

#[test]
fn the_longest_names_are_read(rt: HostRuntime) -> Result<(), Fail> {
    assert!(rt; opens_longest(rt.alloc()) && reads_longest(rt.alloc()));
    Ok(())
}

#[test]
fn each_first_byte_begins_a_message_or_none(rt: HostRuntime) {
    for kind in 0..=255u8 {
        let fault = if kind >= 1 && kind <= 6 {
            MessageFault::BadStream { at: 1 }
        } else {
            MessageFault::BadMessage { at: 0 }
        };
        let want = Found::new(0, Some(fault), 1);
        assert!(rt; read_bytes(rt.alloc(), &[kind], &[]) == want, "{kind}");
    }
}

// Whether the next message is the one that closes slot 2, where at most 100 bytes are taken before it.
fn is_close(alloc: Global, source: &mut SureSource, taken: &mut u64) -> bool {
    *taken <= 100
        && matches!(
            read_message(alloc, source, taken),
            Ok(Some(Message::Close { slot: 2 }))
        )
}

#[test]
fn bytes_behind_a_message_stay_in_the_source(rt: HostRuntime) {
    let mut source = SureSource::new(b"\x03\x02\x09\x09");
    let mut taken = 100;
    let is_so = is_close(rt.alloc(), &mut source, &mut taken);
    assert!(rt; is_so && source.rest == b"\x09\x09".as_slice() && taken == 102);
}

// Whether a chunk to which three bytes are added has these.
fn is_made_of_three(alloc: Global) -> bool {
    let mut bytes = ChunkBytes::new(alloc);
    let mut are_added = true;
    for byte in b"abc" {
        are_added = are_added && bytes.push(*byte).is_ok();
    }
    are_added && bytes.bytes() == b"abc".as_slice()
}

#[test]
fn a_chunk_is_made_byte_by_byte(rt: HostRuntime) -> Result<(), Fail> {
    assert!(rt; is_made_of_three(rt.alloc()));
    Ok(())
}
