//! Random messages over sixteen slots, with reads and patrols between them and damage under way, against a plain machine.

use crate::archives::make_of;
use crate::plain::{Act, Plain, spelled};
use aea_disk::{Disk, SureDisk};
use aea_io::{MemSink, MemSource};
use aea_lattice::Shape;
use aea_ledger::open_ledger;
use aea_runs::step;
use aea_session::{Session, serve};
use aea_test_helpers::{FlippingDisk, SMALL, WOVEN, spoil_block};
use std::alloc::{AllocError, Global};
use std::test::Fail;

// Chance: a number below a bound, and the next state.
fn below(x: &mut u64, bound: u32) -> u32 {
    *x = step(*x);
    let high = (*x >> 33) as u32;
    if bound == 0 { 0 } else { high % bound }
}

// A slot, mostly one that there is.
fn some_slot(x: &mut u64) -> u8 {
    u8::try_from(below(x, 17)).unwrap_or(0)
}

// A name, seldom one that is none.
fn some_name(x: &mut u64) -> u8 {
    let letter = u8::try_from(below(x, 40)).unwrap_or(0);
    if letter == 39 {
        127
    } else {
        letter.saturating_add(65)
    }
}

// A message by chance.
fn some_act(x: &mut u64, blocks: u32) -> Act {
    match below(x, 12) {
        0..=2 => Act::Open {
            slot: some_slot(x),
            name: some_name(x),
        },
        3..=6 => Act::Chunk {
            slot: some_slot(x),
            count: below(x, 60),
            first: below(x, 200),
        },
        7 => Act::Close { slot: some_slot(x) },
        8 => Act::Abort { slot: some_slot(x) },
        9..=10 => Act::Read { name: some_name(x) },
        _ => Act::Patrol {
            first: below(x, blocks.saturating_add(1)),
            count: below(x, 40),
        },
    }
}

// A disk whose contents are not known, so that its cells may change during a session; it changes none by itself.
type Changing = FlippingDisk<SureDisk>;

// A raised archive without nodes.
fn raised(alloc: Global, shape: &Shape) -> Result<Changing, AllocError> {
    let mut inner = SureDisk::new(alloc, 4, 1 << 16, 1 << 17)?;
    let _made = make_of(alloc, &mut inner, shape);
    Ok(FlippingDisk {
        inner,
        file: 255,
        byte: 0,
        from: u64::MAX,
        reads: 0,
    })
}

// Mends the block that was damaged last, if there is one. False where the disk fails or memory runs out, here and below.
fn mend_last(disk: &mut Changing, shape: &Shape, plain: &mut Plain) -> bool {
    match plain.damaged.pop() {
        Some(number) => spoil_block(disk, shape, number).is_ok(),
        None => true,
    }
}

// Damages this block, if the file of its site has it.
fn damage(disk: &mut Changing, shape: &Shape, plain: &mut Plain, number: u32) -> bool {
    match spoil_block(disk, shape, number) {
        Ok(true) => plain.damaged.push(number).is_ok(),
        Ok(false) => true,
        Err(_) => false,
    }
}

// Mends a block that was damaged, and damages one of the archive, by chance.
fn rot(x: &mut u64, disk: &mut Changing, shape: &Shape, plain: &mut Plain) -> bool {
    let blocks = plain.recorded.saturating_mul(plain.classes);
    let is_mended = mend_last(disk, shape, plain);
    let is_damaged = if blocks != 0 && below(x, 3) != 0 {
        let number = below(x, blocks);
        damage(disk, shape, plain, number)
    } else {
        true
    };
    is_mended && is_damaged && disk.sync().is_ok()
}

// Whether the session replies so to the message of this input, and may be used after it.
fn replies_so(
    alloc: Global,
    session: &mut Session,
    disk: &mut Changing,
    input: &mut MemSource,
    want: &[u8],
) -> bool {
    match MemSink::new(alloc, 16_384, &[]) {
        Ok(mut out) => {
            session.live()
                && serve(alloc, session, disk, input, &mut out).is_ok()
                && out.bytes() == want
        }
        Err(_) => false,
    }
}

// The same of the bytes of a message.
fn replies_to(
    alloc: Global,
    session: &mut Session,
    disk: &mut Changing,
    message: &[u8],
    want: &[u8],
) -> bool {
    match MemSource::new(alloc, message, &[]) {
        Ok(mut input) => replies_so(alloc, session, disk, &mut input, want),
        Err(_) => false,
    }
}

// Whether the session replies to this as the plain machine does.
fn is_alike(
    alloc: Global,
    session: &mut Session,
    disk: &mut Changing,
    plain: &mut Plain,
    act: &Act,
) -> bool {
    match spelled(alloc, act) {
        Some(message) => match plain.take(act) {
            Some(want) => replies_to(alloc, session, disk, message.as_slice(), want.as_slice()),
            None => false,
        },
        None => false,
    }
}

// Takes so many random messages, each with its reply compared. Returns how many had another reply, or met a disk that failed.
fn unlike_in(
    alloc: Global,
    x: &mut u64,
    session: &mut Session,
    disk: &mut Changing,
    shape: &Shape,
    plain: &mut Plain,
    count: u32,
) -> u32 {
    let mut unlike = 0u32;
    for _ in 0..count {
        let act = some_act(x, plain.recorded.saturating_mul(plain.classes));
        let is_right = is_alike(alloc, session, disk, plain, &act);
        if !rot(x, disk, shape, plain) || !is_right {
            unlike = unlike.saturating_add(1);
        }
    }
    unlike
}

// The same of so many in a session that begins now.
fn unlike_in_one(
    alloc: Global,
    x: &mut u64,
    disk: &mut Changing,
    shape: &Shape,
    plain: &mut Plain,
    count: u32,
) -> u32 {
    match open_ledger(alloc, disk) {
        Ok(ledger) => match Session::begin(alloc, ledger, disk) {
            Ok(mut session) => {
                plain.begin();
                unlike_in(alloc, x, &mut session, disk, shape, plain, count)
            }
            Err(_) => count,
        },
        Err(_) => count,
    }
}

// Mends every damaged block.
fn mend(disk: &mut Changing, shape: &Shape, plain: &mut Plain) -> bool {
    let mut is_mended = true;
    for _ in 0..plain.damaged.len() {
        is_mended = mend_last(disk, shape, plain) && is_mended;
    }
    is_mended
}

// How many replies of sessions one after the other over this disk are not those of the plain machine.
fn unlike_over(
    alloc: Global,
    disk: &mut Changing,
    shape: &Shape,
    plain: &mut Plain,
    seed: u64,
) -> u32 {
    let mut x = seed;
    let mut unlike = 0u32;
    for _ in 0..4 {
        let more = unlike_in_one(alloc, &mut x, disk, shape, plain, 120);
        unlike = unlike.saturating_add(more);
        // a damaged last parity would refuse the next session
        if !mend(disk, shape, plain) {
            unlike = 999;
        }
    }
    if plain.objects.len() < 5 { 999 } else { unlike }
}

// The same over a new archive; 999 where memory runs out.
fn unlike_from(alloc: Global, shape: &Shape, classes: u32, seed: u64) -> u32 {
    match raised(alloc, shape) {
        Ok(mut disk) => match Plain::new(alloc, classes) {
            Ok(mut plain) => unlike_over(alloc, &mut disk, shape, &mut plain, seed),
            Err(_) => 999,
        },
        Err(_) => 999,
    }
}

// The first seed, with the classes of an archive, from which a reply is not that of the plain machine.
fn first_unlike(alloc: Global) -> Option<(u64, u32)> {
    for seed in 1..9 {
        for (shape, classes) in [(SMALL, 2), (WOVEN, 3)] {
            if unlike_from(alloc, &shape, classes, seed) != 0 {
                return Some((seed, classes));
            }
        }
    }
    None
}

#[test]
fn random_messages_are_answered_as_a_plain_machine_does(rt: HostRuntime) -> Result<(), Fail> {
    let unlike = first_unlike(rt.alloc());
    assert!(rt; unlike.is_none(), "{unlike:?}");
    Ok(())
}
