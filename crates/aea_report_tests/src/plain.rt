//! A plain reader of reports, written from the table of their lines.

use crate::reading::Found;
use aea_reader::ReportFault;
use std::alloc::{AllocError, Global};

// The number of this decimal text, if it is one of 32 bits.
fn plain_number(text: &[u8]) -> Option<u64> {
    let mut number: u64 = 0;
    for digit in text {
        if *digit < b'0' || b'9' < *digit {
            return None;
        }
        number = number
            .saturating_mul(10)
            .saturating_add(u64::from(*digit - b'0'));
    }
    let leading = text.len() > 1 && text.first() == Some(&b'0');
    if text.is_empty() || leading || number > u64::from(u32::MAX) {
        None
    } else {
        Some(number)
    }
}

// The numbers after a word, each after a space.
fn plain_numbers(alloc: Global, word: &[u8], line: &[u8]) -> Result<Option<Vec<u64>>, AllocError> {
    let mut numbers = Vec::new(alloc);
    for (place, part) in line.split(|x| *x == b' ').enumerate() {
        if place == 0 {
            if part != word {
                return Ok(None);
            }
        } else {
            match plain_number(part) {
                Some(number) => numbers.push(number)?,
                None => return Ok(None),
            }
        }
    }
    Ok(Some(numbers))
}

// α and the number of nodes of a second line.
fn plain_shape(alloc: Global, line: &[u8]) -> Result<Option<(u64, u64)>, AllocError> {
    let Some(numbers) = plain_numbers(alloc, b"lattice", line)? else {
        return Ok(None);
    };
    let &[alpha, s, p, n] = numbers.as_slice() else {
        return Ok(None);
    };
    let one = alpha == 1 && s == 1 && p == 0;
    let more = 2 <= alpha && alpha <= 3 && 2 <= s && s <= 16 && s <= p && p <= 64;
    if (one || more) && n <= 1_048_576 {
        Ok(Some((alpha, n)))
    } else {
        Ok(None)
    }
}

// Whether this is a third line.
fn is_plain_seal(line: &[u8]) -> bool {
    match line.strip_prefix(b"ledger ".as_slice()) {
        Some(rest) => {
            rest == b"none".as_slice()
                || rest.len() == 64
                    && rest
                        .iter()
                        .all(|x| x.is_ascii_digit() || (b'a' <= *x && *x <= b'f'))
        }
        None => false,
    }
}

// Whether this is a fourth line.
fn is_plain_count(alloc: Global, line: &[u8]) -> Result<bool, AllocError> {
    match plain_numbers(alloc, b"counts", line)? {
        Some(numbers) => Ok(numbers.len() == 4),
        None => Ok(false),
    }
}

// The number of the block of this text, where the lattice of α and n nodes has it.
fn plain_block(alpha: u64, n: u64, text: &[u8]) -> Option<u64> {
    let (letter, digits) = text.split_first()?;
    let class = match *letter {
        b'd' => 0,
        b'h' => 1,
        b'r' => 2,
        b'l' => 3,
        _ => return None,
    };
    let node = plain_number(digits)?;
    if 1 <= node && node <= n && class <= alpha {
        Some(
            node.saturating_sub(1)
                .saturating_mul(alpha.saturating_add(1))
                .saturating_add(class),
        )
    } else {
        None
    }
}

// Whether these are one or more nodes in rising order.
fn are_plain_nodes(n: u64, nodes: &[u64]) -> bool {
    let mut last = 0;
    for node in nodes {
        if *node <= last || n < *node {
            return false;
        }
        last = *node;
    }
    !nodes.is_empty()
}

// The number of the block of a line after the head.
fn plain_line(alloc: Global, alpha: u64, n: u64, line: &[u8]) -> Result<Option<u64>, AllocError> {
    let mut parts = line.splitn(3, |x| *x == b' ');
    let (Some(word), Some(block)) = (parts.next(), parts.next()) else {
        return Ok(None);
    };
    let number = plain_block(alpha, n, block);
    let rest = parts.next();
    if word == b"peeled".as_slice() || word == b"solved".as_slice() {
        return Ok(if rest.is_none() { number } else { None });
    }
    if word != b"lost".as_slice() {
        return Ok(None);
    }
    let Some(rest) = rest else {
        return Ok(None);
    };
    match plain_numbers(alloc, b"by", rest)? {
        Some(nodes) => Ok(if are_plain_nodes(n, &nodes) {
            number
        } else {
            None
        }),
        None => Ok(None),
    }
}

// What the lines so far say: α, the number of nodes, and the least number that the block of the next line may have.
#[derive(Clone, Copy)]
struct SoFar {
    alpha: u64,
    n: u64,
    least: u64,
}

// Whether line k may follow those before it.
fn is_well(alloc: Global, k: u32, line: &[u8], so_far: &mut SoFar) -> Result<bool, AllocError> {
    match k {
        1 => Ok(line == b"aea-report 1".as_slice()),
        2 => match plain_shape(alloc, line)? {
            Some((alpha, n)) => {
                so_far.alpha = alpha;
                so_far.n = n;
                Ok(true)
            }
            None => Ok(false),
        },
        3 => Ok(is_plain_seal(line)),
        4 => is_plain_count(alloc, line),
        _ => match plain_line(alloc, so_far.alpha, so_far.n, line)? {
            Some(number) if so_far.least <= number => {
                so_far.least = number.saturating_add(1);
                Ok(true)
            }
            _ => Ok(false),
        },
    }
}

/// What there is to say of these bytes, which have no line that is too long.
pub fn plain_outcome(alloc: Global, bytes: &[u8]) -> Result<Found, AllocError> {
    let mut rest = bytes;
    let mut read = 0;
    let mut so_far = SoFar {
        alpha: 0,
        n: 0,
        least: 0,
    };
    let mut k: u32 = 1;
    // no line is shorter than its newline
    for _ in 0..bytes.len() {
        let Some(end) = rest.iter().position(|x| *x == b'\n') else {
            break;
        };
        let line = rest.get(..end).unwrap_or(&[]);
        if !is_well(alloc, k, line, &mut so_far)? {
            break;
        }
        rest = rest.get(end.saturating_add(1)..).unwrap_or(&[]);
        if k >= 4 {
            read = bytes.len().saturating_sub(rest.len());
        }
        k = k.saturating_add(1);
    }
    let whole = rest.is_empty() && k > 4;
    Ok(Found {
        read,
        fault: if whole {
            None
        } else {
            Some(ReportFault::BadLine { line: k })
        },
    })
}
