//! Reports that are cut, changed, and with their lines in other orders, beside the plain reader.

use crate::reading::{judge, report};
use std::alloc::{AllocError, Global};
use std::test::Fail;

#[test]
fn a_report_is_cut_at_every_place(rt: HostRuntime) -> Result<(), Fail> {
    let bytes = report();
    for end in 0..bytes.len() {
        assert!(rt; judge(rt.alloc(), &bytes[..end])?, "{end}");
    }
    Ok(())
}

// What is tried in the place of this byte: it with each of its bits flipped, and some that have a meaning in a report.
fn others(byte: u8) -> [u8; 20] {
    [
        byte ^ 1,
        byte ^ 2,
        byte ^ 4,
        byte ^ 8,
        byte ^ 16,
        byte ^ 32,
        byte ^ 64,
        byte ^ 128,
        b'0',
        b'1',
        b'2',
        b'9',
        b' ',
        b'\n',
        b'd',
        b'l',
        b'f',
        b'g',
        b'A',
        0,
    ]
}

// Whether the two readers say the same of the report with this byte at the place.
fn is_judged_with(alloc: Global, place: usize, value: u8) -> Result<bool, Fail> {
    let mut changed = report().to_vec(alloc)?;
    if let Some(byte) = changed.get_mut(place) {
        *byte = value;
    }
    judge(alloc, &changed)
}

#[test]
fn every_byte_is_changed(rt: HostRuntime) -> Result<(), Fail> {
    let bytes = report();
    for place in 0..bytes.len() {
        for value in others(bytes[place]) {
            assert!(rt;
                is_judged_with(rt.alloc(), place, value)?,
                "{value} at {place}"
            );
        }
    }
    Ok(())
}

// The bytes of the report up to this place.
fn front(place: usize) -> &'static [u8] {
    report().get(..place).unwrap_or(&[])
}

// Its bytes from this place on.
fn behind(place: usize) -> &'static [u8] {
    report().get(place..).unwrap_or(&[])
}

// The same where this byte is put in before the place.
fn is_judged_with_more(alloc: Global, place: usize, value: u8) -> Result<bool, Fail> {
    let mut more = front(place).to_vec(alloc)?;
    more.push(value)?;
    more.extend_from_slice(behind(place))?;
    judge(alloc, &more)
}

// The same where the byte at the place is left out.
fn is_judged_without(alloc: Global, place: usize) -> Result<bool, Fail> {
    let mut fewer = front(place).to_vec(alloc)?;
    fewer.extend_from_slice(behind(place.saturating_add(1)))?;
    judge(alloc, &fewer)
}

#[test]
fn a_byte_is_put_in_or_left_out(rt: HostRuntime) -> Result<(), Fail> {
    for place in 0..report().len() {
        for value in [b'0', b'1', b'9', b' ', b'\n', b'd', b'f', b'-', 0, 255] {
            assert!(rt;
                is_judged_with_more(rt.alloc(), place, value)?,
                "{value} at {place}"
            );
        }
        assert!(rt; is_judged_without(rt.alloc(), place)?, "{place}");
    }
    Ok(())
}

// The lines of the report in this order, each with its newline.
fn in_order(alloc: Global, order: &[usize]) -> Result<Vec<u8>, AllocError> {
    let mut text = Vec::new(alloc);
    for place in order {
        if let Some(line) = report().split_inclusive(|x| *x == b'\n').nth(*place) {
            text.extend_from_slice(line)?;
        }
    }
    Ok(text)
}

// Whether the two readers say the same of the lines in this order.
fn is_judged_in_order(alloc: Global, order: &[usize]) -> Result<bool, Fail> {
    let text = in_order(alloc, order)?;
    judge(alloc, &text)
}

// Puts this line at a place of the order.
fn put(order: &mut [usize], place: usize, line: usize) {
    if let Some(kept) = order.get_mut(place) {
        *kept = line;
    }
}

// The same where the second of these lines is there in the place of the first too, and where the two are exchanged.
fn are_judged_exchanged(alloc: Global, first: usize, second: usize) -> Result<bool, Fail> {
    let mut order = [0, 1, 2, 3, 4, 5, 6, 7, 8];
    put(&mut order, first, second);
    let is_doubled = is_judged_in_order(alloc, &order)?;
    put(&mut order, second, first);
    Ok(is_doubled && is_judged_in_order(alloc, &order)?)
}

// The same where this line is there so many times.
fn is_judged_with_times(alloc: Global, line: usize, count: usize) -> Result<bool, Fail> {
    let mut order = Vec::new(alloc);
    for place in 0..9 {
        let times = if place == line { count } else { 1 };
        for _ in 0..times {
            order.push(place)?;
        }
    }
    is_judged_in_order(alloc, &order)
}

#[test]
fn lines_are_judged_exchanged_doubled_and_left_out(rt: HostRuntime) -> Result<(), Fail> {
    for first in 0..9 {
        for second in 0..9 {
            let is_so = are_judged_exchanged(rt.alloc(), first, second)?;
            assert!(rt; is_so, "{first} and {second}");
        }
        assert!(rt;
            is_judged_with_times(rt.alloc(), first, 0)?,
            "without {first}"
        );
        assert!(rt;
            is_judged_with_times(rt.alloc(), first, 2)?,
            "{first} twice"
        );
    }
    Ok(())
}
