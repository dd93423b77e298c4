//! Copies with each byte changed and each cut, beside a plain judge; and two good copies with other texts.

use crate::example::{ENDS, copy_of, example_copy, fenced, ledger, other_text};
use crate::joining::joined;
use crate::plain::{Plain, judge_plainly, part};
use crate::three::{Answer, EXAMPLE, Three, adopts, copied_disk, has_example, leaves, whole};
use sha2::{Digest, Sha256};
use std::alloc::Global;
use std::test::Fail;

// The SHA-256 of the example's copy, as another program computes it.
const SUM: &[u8; 32] =
    b"\xc4\xf1\x41\x1c\x83\x72\x96\xd0\x0e\xc4\x17\x9e\x27\xbb\xd3\x2c\x6e\x6c\xb5\xf8\x61\x23\x8f\xb8\xac\xe1\xb1\xaa\x94\x52\x3e\xc8";

// What the example's copy is.
const WHOLE: Plain = Plain::Good {
    end: 285,
    text: 202,
};

// Whether the example's copy has this digest, and is that for the plain judge.
fn is_spelled_as_by_another(alloc: Global) -> bool {
    match example_copy(alloc) {
        Some(copy) => {
            copy.len() == 286
                && Sha256::digest(copy.as_slice()) == *SUM
                && judge_plainly(alloc, copy.as_slice()) == Some(WHOLE)
        }
        None => false,
    }
}

#[test]
fn the_example_is_spelled_as_by_another_program(rt: HostRuntime) -> Result<(), Fail> {
    assert!(rt; is_spelled_as_by_another(rt.alloc()));
    Ok(())
}

// What adopting answers where both copies are such a file.
fn answer_of(plain: Plain) -> Answer {
    match plain {
        Plain::Good { end, text } => Answer::On {
            end: text,
            gate: end,
        },
        Plain::Bad { at: 0 } => Answer::Off,
        Plain::Bad { at } => Answer::Bad {
            first: at,
            second: at,
        },
    }
}

// What the example's ledger becomes where both copies are such a file: a gate is closed behind the text of a good one.
fn ledger_of(plain: Plain) -> [u8; 203] {
    let mut bytes = ledger();
    if let Plain::Good { end: _, text } = plain
        && let Some(gate) = bytes.get_mut(text as usize)
    {
        *gate = 0;
    }
    bytes
}

// Whether both copies with these bytes, which are this, are answered and left, and the ledger mended, as the plain judge has it.
fn are_adopted_rightly(alloc: Global, ledger: &[u8], bytes: &[u8], plain: Plain) -> bool {
    let new = ledger_of(plain);
    let want = answer_of(plain);
    leaves(alloc, &whole(ledger, bytes), want, &whole(&new, bytes))
}

// Whether this ledger, the example's, and these two copies are adopted as the example, and it and these two copies are left.
fn becomes(alloc: Global, ledger: &[u8], copies: (&[u8], &[u8]), left: (&[u8], &[u8])) -> bool {
    let old = Three {
        ledger,
        first: copies.0,
        second: copies.1,
    };
    let new = Three {
        ledger,
        first: left.0,
        second: left.1,
    };
    leaves(alloc, &old, EXAMPLE, &new)
}

// Whether a copy with these bytes, which is this, is answered and mended as the plain judge has it: as both copies, and as one
// beside a good one.
fn is_adopted_as<'a>(alloc: Global, bytes: &'a [u8], good: &'a [u8], plain: Plain) -> bool {
    let stays = if plain == WHOLE { bytes } else { good };
    let ledger = ledger();
    are_adopted_rightly(alloc, &ledger, bytes, plain)
        && becomes(alloc, &ledger, (bytes, good), (stays, good))
        && becomes(alloc, &ledger, (good, bytes), (good, stays))
}

// Whether this is so of what these bytes are for the plain judge.
fn is_adopted_rightly<'a>(alloc: Global, bytes: &'a [u8], good: &'a [u8]) -> bool {
    match judge_plainly(alloc, bytes) {
        Some(plain) => is_adopted_as(alloc, bytes, good, plain),
        None => false,
    }
}

// These bytes where the one at this place is another.
fn flipped(alloc: Global, bytes: &[u8], at: usize, flips: u8) -> Option<Vec<u8>> {
    let mut changed = joined(alloc, &[bytes])?;
    if let Some(byte) = changed.get_mut(at) {
        *byte ^= flips;
    }
    Some(changed)
}

// Whether a change of the byte at this place of this copy is answered and mended as it should be.
fn is_change_judged(alloc: Global, copy: &[u8], at: usize, flips: u8) -> bool {
    match flipped(alloc, copy, at, flips) {
        Some(changed) => is_adopted_rightly(alloc, changed.as_slice(), copy),
        None => false,
    }
}

// Whether this is so of each place.
fn is_each_byte_judged(alloc: Global, flips: u8) -> bool {
    match example_copy(alloc) {
        Some(copy) => {
            (0..copy.len()).all(|at| is_change_judged(alloc, copy.as_slice(), at, flips))
        }
        None => false,
    }
}

#[test]
fn each_byte_of_a_copy_is_judged(rt: HostRuntime) -> Result<(), Fail> {
    for flips in [1u8, 2, 255] {
        assert!(rt; is_each_byte_judged(rt.alloc(), flips), "flips {flips}");
    }
    Ok(())
}

// Whether this copy, cut to this length, is answered and mended as it should be.
fn is_cut_judged(alloc: Global, copy: &[u8], long: usize) -> bool {
    is_adopted_rightly(alloc, part(copy, 0, long as u64), copy)
}

// Whether this is so of each length.
fn is_each_cut_judged(alloc: Global) -> bool {
    match example_copy(alloc) {
        Some(copy) => (0..copy.len()).all(|long| is_cut_judged(alloc, copy.as_slice(), long)),
        None => false,
    }
}

#[test]
fn each_cut_of_a_copy_is_judged(rt: HostRuntime) -> Result<(), Fail> {
    assert!(rt; is_each_cut_judged(rt.alloc()));
    Ok(())
}

// Whether this copy with bytes behind it is answered and mended as it should be.
fn is_more_judged(alloc: Global, copy: &[u8]) -> bool {
    match joined(alloc, &[copy, b"\x01behind"]) {
        Some(more) => is_adopted_rightly(alloc, more.as_slice(), copy),
        None => false,
    }
}

// Whether this is so of the example's copy.
fn is_longer_example_judged(alloc: Global) -> bool {
    match example_copy(alloc) {
        Some(copy) => is_more_judged(alloc, copy.as_slice()),
        None => false,
    }
}

// Bytes behind the gate that ends the entries are no part of a copy.
#[test]
fn what_is_behind_the_last_gate_stays(rt: HostRuntime) -> Result<(), Fail> {
    assert!(rt; is_longer_example_judged(rt.alloc()));
    Ok(())
}

// Whether these two copies are refused since their texts differ first at this place, and left as they are.
fn are_refused(alloc: Global, first: &[u8], second: &[u8], place: usize) -> bool {
    let ledger = ledger();
    let files = Three {
        ledger: &ledger,
        first,
        second,
    };
    leaves(alloc, &files, Answer::Differ { at: place as u64 }, &files)
}

// Whether this copy and one whose text differs first at this place are refused, whichever is first, and left as they are.
fn differs_at(alloc: Global, one: &[u8], place: usize) -> bool {
    match copy_of(alloc, &other_text(place, 128), ENDS) {
        Some(other) => {
            are_refused(alloc, one, other.as_slice(), place)
                && are_refused(alloc, other.as_slice(), one, place)
        }
        None => false,
    }
}

// Whether this is so of the example's copy.
fn example_differs_at(alloc: Global, place: usize) -> bool {
    match example_copy(alloc) {
        Some(copy) => differs_at(alloc, copy.as_slice(), place),
        None => false,
    }
}

// Every byte of a text may be another one but the gates and the lengths of its records.
#[test]
fn texts_that_differ_are_refused_at_the_place(rt: HostRuntime) -> Result<(), Fail> {
    for place in [1usize, 9, 16, 18, 23, 100, 201] {
        assert!(rt; example_differs_at(rt.alloc(), place), "at {place}");
    }
    Ok(())
}

// Whether of this copy and one of so many of its pieces the longer one is kept, whichever is first.
fn is_kept(alloc: Global, copy: &[u8], pieces: usize) -> bool {
    let ledger = ledger();
    match copy_of(alloc, &ledger, &ENDS[..pieces.min(ENDS.len())]) {
        Some(short) => {
            becomes(alloc, &ledger, (short.as_slice(), copy), (copy, copy))
                && becomes(alloc, &ledger, (copy, short.as_slice()), (copy, copy))
        }
        None => false,
    }
}

// Whether this is so of the example's copy.
fn keeps_the_longer(alloc: Global, pieces: usize) -> bool {
    match example_copy(alloc) {
        Some(copy) => is_kept(alloc, copy.as_slice(), pieces),
        None => false,
    }
}

#[test]
fn the_longer_copy_is_kept(rt: HostRuntime) -> Result<(), Fail> {
    for pieces in [1usize, 2] {
        assert!(rt; keeps_the_longer(rt.alloc(), pieces), "{pieces} pieces");
    }
    Ok(())
}

// Whether of these copies the second one, which has a record more, is kept, and the ledger becomes this longer one.
fn follows<'x>(alloc: Global, copy: &'x [u8], long: &'x [u8], new: &'x [u8]) -> bool {
    let old = ledger();
    let files = Three {
        second: long,
        ..whole(&old, copy)
    };
    let want = Answer::On {
        end: 212,
        gate: 332,
    };
    leaves(alloc, &files, want, &whole(new, long))
}

// The same of this copy and one of the longer ledger.
fn follows_longer(alloc: Global, copy: &[u8], new: &[u8]) -> bool {
    match copy_of(alloc, part(new, 0, 212), &[17, 202, 212]) {
        Some(long) => follows(alloc, copy, long.as_slice(), new),
        None => false,
    }
}

// The same where the longer ledger has a fence more.
fn follows_fenced(alloc: Global, copy: &[u8]) -> bool {
    match fenced(alloc) {
        Some(new) => follows_longer(alloc, copy, new.as_slice()),
        None => false,
    }
}

// A copy with a record more than the other: the ledger becomes the longer one.
fn adds_the_record(alloc: Global) -> bool {
    match example_copy(alloc) {
        Some(copy) => follows_fenced(alloc, copy.as_slice()),
        None => false,
    }
}

#[test]
fn the_ledger_follows_the_longer_copy(rt: HostRuntime) -> Result<(), Fail> {
    assert!(rt; adds_the_record(rt.alloc()));
    Ok(())
}

// Whether nothing is done without copies where the ledger is this.
fn is_off(alloc: Global, ledger: &[u8]) -> bool {
    let files = whole(ledger, b"");
    leaves(alloc, &files, Answer::Off, &files)
}

// Without copies nothing is done, whatever the ledger is.
#[test]
fn no_copies_are_off(rt: HostRuntime) -> Result<(), Fail> {
    for ledger in [b"".as_slice(), b"\x01AEALEDG1", b"\0\x01"] {
        assert!(rt; is_off(rt.alloc(), ledger));
    }
    Ok(())
}

// Whether a disk whose copies are whole is adopted twice with the same answer, and has the example's files then.
fn is_adopted_twice(alloc: Global) -> bool {
    match copied_disk(alloc, b"") {
        Some(mut disk) => {
            adopts(&mut disk) == EXAMPLE
                && adopts(&mut disk) == EXAMPLE
                && has_example(alloc, &mut disk)
        }
        None => false,
    }
}

// A disk whose ledger and copies are whole is adopted twice with the same answer.
#[test]
fn what_was_adopted_is_adopted_again(rt: HostRuntime) -> Result<(), Fail> {
    assert!(rt; is_adopted_twice(rt.alloc()));
    Ok(())
}
