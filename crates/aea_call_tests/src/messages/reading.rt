//! Streams of messages in memory.

use aea_io::{Source, SureSource};
use aea_messages::{Message, MessageFault, read_message};
use std::alloc::Global;

/// What is wanted of a message.
#[derive(Clone, Copy)]
pub enum Wanted<'a> {
    Open { slot: u8, name: &'a [u8] },
    Chunk { slot: u8, bytes: &'a [u8] },
    Close { slot: u8 },
    Abort { slot: u8 },
    Read { name: &'a [u8] },
    Patrol { first: u32, count: u32 },
}

impl Wanted<'_> {
    /// Whether the message is this one.
    pub fn is(&self, message: &Message) -> bool {
        match (self, message) {
            (Wanted::Open { slot, name }, Message::Open { slot: s, name: n }) => {
                slot == s && *name == n.bytes()
            }
            (Wanted::Chunk { slot, bytes }, Message::Chunk { slot: s, bytes: b }) => {
                slot == s && *bytes == b.bytes()
            }
            (Wanted::Close { slot }, Message::Close { slot: s }) => slot == s,
            (Wanted::Abort { slot }, Message::Abort { slot: s }) => slot == s,
            (Wanted::Read { name }, Message::Read { name: n }) => *name == n.bytes(),
            (Wanted::Patrol { first, count }, Message::Patrol { first: f, count: c }) => {
                first == f && count == c
            }
            _ => false,
        }
    }
}

/// What was read of a stream: how many of the wanted messages came first, why no further one did, if it did not end, and
/// how many bytes were taken.
#[derive(Clone, Copy, PartialEq, Eq)]
pub struct Found {
    pub count: usize,
    pub fault: Option<MessageFault>,
    pub taken: u64,
}

impl Found {
    /// So many messages, this reason, and so many bytes.
    pub fn new(count: usize, fault: Option<MessageFault>, taken: u64) -> Found {
        Found {
            count,
            fault,
            taken,
        }
    }
}

/// The message that opens this slot under the name.
pub fn open(slot: u8, name: &[u8]) -> Wanted<'_> {
    Wanted::Open { slot, name }
}

/// The message that adds these bytes to the slot.
pub fn chunk(slot: u8, bytes: &[u8]) -> Wanted<'_> {
    Wanted::Chunk { slot, bytes }
}

// What no reading answers: a message that is not the wanted one.
const OTHER: MessageFault = MessageFault::BadMessage { at: u64::MAX };

// More bytes than a stream of these tests has.
const LONGEST: u64 = 1_000_000;

// Whether the message is the wanted one, where one is wanted.
fn is_wanted(wanted: Option<&Wanted>, message: &Message) -> bool {
    match wanted {
        Some(wanted) => wanted.is(message),
        None => false,
    }
}

// Whether the message is the wanted one, with a fault that says that it is another where it is not.
fn judged(wanted: Option<&Wanted>, message: &Message) -> Result<(), Option<MessageFault>> {
    if is_wanted(wanted, message) {
        Ok(())
    } else {
        Err(Some(OTHER))
    }
}

// Reads the wanted message. Where it does not come, the error says why, if the stream did not end.
fn read_wanted<S: Source>(
    alloc: Global,
    source: &mut S,
    wanted: Option<&Wanted>,
    taken: &mut u64,
) -> Result<(), Option<MessageFault>> {
    if *taken > LONGEST {
        Err(Some(OTHER))
    } else {
        match read_message(alloc, source, taken) {
            Ok(Some(message)) => judged(wanted, &message),
            Ok(None) => Err(None),
            Err(fault) => Err(Some(fault)),
        }
    }
}

/// Reads the wanted messages, and then up to what is none.
pub fn read_all<S: Source>(alloc: Global, source: &mut S, wanted: &[Wanted]) -> Found {
    let mut taken = 0;
    for count in 0..=wanted.len() {
        if let Err(fault) = read_wanted(alloc, source, wanted.get(count), &mut taken) {
            return Found::new(count, fault, taken);
        }
    }
    Found::new(wanted.len(), Some(OTHER), taken)
}

/// Reads a stream in memory.
pub fn read_bytes(alloc: Global, bytes: &[u8], wanted: &[Wanted]) -> Found {
    let mut source = SureSource::new(bytes);
    read_all(alloc, &mut source, wanted)
}

/// A stream with two uploads whose messages fall between each other, an abort, a read and a patrol.
pub fn stream() -> &'static [u8] {
    b"\x01\0\0\x01a\x01\x01\0\x02bc\x02\0\0\0\0\x03xyz\x02\x01\0\0\0\x10qrstqrstqrstqrst\x03\0\
\x04\x01\x05\0\x01a\x06\0\x01\x02\x03\0\0\x10\0"
}

/// Its messages.
pub fn messages() -> [Wanted<'static>; 8] {
    [
        open(0, b"a"),
        open(1, b"bc"),
        chunk(0, b"xyz"),
        chunk(1, b"qrstqrstqrstqrst"),
        Wanted::Close { slot: 0 },
        Wanted::Abort { slot: 1 },
        Wanted::Read { name: b"a" },
        Wanted::Patrol {
            first: 66_051,
            count: 4096,
        },
    ]
}

/// Where its messages end.
pub fn ends() -> [u64; 9] {
    [0, 5, 11, 20, 42, 44, 46, 50, 59]
}

/// What is found where it is cut behind so many bytes.
pub fn cut_at(end: usize) -> Found {
    let taken = end as u64;
    let mut count = 0;
    let mut whole = false;
    for (k, place) in ends().iter().enumerate() {
        if *place <= taken {
            count = k;
            whole = *place == taken;
        }
    }
    let fault = if whole {
        None
    } else {
        Some(MessageFault::BadStream { at: taken })
    };
    Found::new(count, fault, taken)
}

#[test]
fn a_stream_is_read_whole_and_cut_at_each_byte(rt: HostRuntime) {
    let bytes = stream();
    let wanted = messages();
    for end in 0..=bytes.len() {
        assert!(rt;
            read_bytes(rt.alloc(), &bytes[..end], &wanted) == cut_at(end),
            "{end}"
        );
    }
}

// Streams that begin no message, what is told of each, and how many bytes of it are taken.
fn no_messages() -> [(&'static [u8], Option<MessageFault>, u64); 12] {
    [
        (b"", None, 0),
        (b"\x07\x04\0", Some(MessageFault::BadMessage { at: 0 }), 1),
        (b"\0", Some(MessageFault::BadMessage { at: 0 }), 1),
        (b"\x04", Some(MessageFault::BadStream { at: 1 }), 1),
        (
            b"\x02\0\0\x01\0\x01\0",
            Some(MessageFault::BadMessage { at: 2 }),
            6,
        ),
        (
            b"\x02\0\xff\xff\xff\xff",
            Some(MessageFault::BadMessage { at: 2 }),
            6,
        ),
        (
            b"\x02\0\xff\xff\xff",
            Some(MessageFault::BadStream { at: 5 }),
            5,
        ),
        (
            b"\x02\0\0\x01\0\0",
            Some(MessageFault::BadStream { at: 6 }),
            6,
        ),
        (
            b"\x02\0\0\0\0\x03ab",
            Some(MessageFault::BadStream { at: 8 }),
            8,
        ),
        (
            b"\x05\xff\xffabc",
            Some(MessageFault::BadStream { at: 6 }),
            6,
        ),
        (b"\x01\0\0\x02a", Some(MessageFault::BadStream { at: 5 }), 5),
        (
            b"\x06\0\0\0\0\0\0\0",
            Some(MessageFault::BadStream { at: 8 }),
            8,
        ),
    ]
}

#[test]
fn bad_and_cut_messages_have_their_places(rt: HostRuntime) {
    for (bytes, fault, taken) in no_messages() {
        let want = Found::new(0, fault, taken);
        assert!(rt; read_bytes(rt.alloc(), bytes, &[]) == want);
    }
}

#[test]
fn places_are_those_in_the_whole_stream(rt: HostRuntime) {
    let wanted = [Wanted::Abort { slot: 9 }];
    let rows: [(&[u8], MessageFault, u64); 4] = [
        (b"\x04\x09\xff", MessageFault::BadMessage { at: 2 }, 3),
        (
            b"\x04\x09\x02\0\0\x02\0\0",
            MessageFault::BadMessage { at: 4 },
            8,
        ),
        (b"\x04\x09\x03", MessageFault::BadStream { at: 3 }, 3),
        (b"\x04\x09\x02\0\0", MessageFault::BadStream { at: 5 }, 5),
    ];
    for (bytes, fault, taken) in rows {
        let want = Found::new(1, Some(fault), taken);
        assert!(rt; read_bytes(rt.alloc(), bytes, &wanted) == want);
    }
}

#[test]
fn slots_and_names_are_not_judged(rt: HostRuntime) {
    let bytes = b"\x01\xff\0\0\x05\0\x02\0\xff\x06\0\0\0\0\0\0\0\0\x02\x10\0\0\0\0";
    let wanted = [
        open(255, b""),
        Wanted::Read { name: b"\0\xff" },
        Wanted::Patrol { first: 0, count: 0 },
        chunk(16, b""),
    ];
    let want = Found::new(4, None, 24);
    assert!(rt; read_bytes(rt.alloc(), bytes, &wanted) == want);
}

#[test]
fn examples_that_are_bad_or_cut_have_their_places(rt: HostRuntime) {
    let wanted = [open(0, b"a"), open(0, b"b"), chunk(3, b""), open(16, b"c")];
    let rows: [(&[u8], MessageFault); 2] = [
        (
            b"\x01\0\0\x01a\x01\0\0\x01b\x02\x03\0\0\0\0\x01\x10\0\x01c\x07",
            MessageFault::BadMessage { at: 21 },
        ),
        (
            b"\x01\0\0\x01a\x01\0\0\x01b\x02\x03\0\0\0\0\x01\x10\0\x01c\x03",
            MessageFault::BadStream { at: 22 },
        ),
    ];
    for (bytes, fault) in rows {
        let want = Found::new(4, Some(fault), 22);
        assert!(rt; read_bytes(rt.alloc(), bytes, &wanted) == want);
    }
}
