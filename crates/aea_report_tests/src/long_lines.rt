//! Reports with lines that are as long as a line may be, and longer.

use aea_io::SureSource;
use aea_reader::{Reader, ReportFault};
use std::alloc::{AllocError, Global};
use std::test::Fail;

// As many bytes `x`, after these.
fn long_line(alloc: Global, before: &[u8], count: usize) -> Result<Vec<u8>, AllocError> {
    let mut bytes = before.to_vec(alloc)?;
    bytes.resize(before.len().saturating_add(count), b'x')?;
    Ok(bytes)
}

// Whether a report that begins with so many bytes `x` is refused with this fault, and so many bytes of it are left.
fn is_refused(alloc: Global, count: usize, fault: ReportFault, left: usize) -> Result<bool, Fail> {
    let bytes = long_line(alloc, b"", count)?;
    let mut source = SureSource::new(&bytes);
    let is_so = match Reader::begin(alloc, &mut source) {
        Ok(_) => false,
        Err(found) => found == fault,
    };
    Ok(is_so && source.rest.len() == left)
}

#[test]
fn a_first_line_may_be_too_long(rt: HostRuntime) -> Result<(), Fail> {
    for (count, fault, left) in [
        (16_777_216, ReportFault::BadLine { line: 1 }, 0),
        (16_777_217, ReportFault::LineTooLong { line: 1 }, 0),
        (16_777_317, ReportFault::LineTooLong { line: 1 }, 100),
    ] {
        assert!(rt; is_refused(rt.alloc(), count, fault, left)?, "{count}");
    }
    Ok(())
}

// A head, and the beginning of a line with nodes.
const BEFORE: &[u8; 67] =
    b"aea-report 1\nlattice 2 2 2 11\nledger none\ncounts 0 0 0 0\nlost d1 by";

// Whether the next line of the reader is refused with this fault, and so many bytes are left.
fn stops(
    alloc: Global,
    reader: &mut Reader,
    source: &mut SureSource,
    fault: ReportFault,
    left: usize,
) -> bool {
    let is_so = match reader.next(alloc, source) {
        Ok(_) => false,
        Err(found) => found == fault,
    };
    is_so && source.rest.len() == left
}

// Whether that is so, and so once more, of a line of a report that goes on with so many bytes `x`.
fn stops_twice(alloc: Global, count: usize, fault: ReportFault, left: usize) -> Result<bool, Fail> {
    let bytes = long_line(alloc, BEFORE, count)?;
    let mut source = SureSource::new(&bytes);
    match Reader::begin(alloc, &mut source) {
        Ok((mut reader, _)) => Ok(
            stops(alloc, &mut reader, &mut source, fault, left)
                && stops(alloc, &mut reader, &mut source, fault, left),
        ),
        Err(_) => Err(Fail::new("a head that is not read")),
    }
}

#[test]
fn a_later_line_may_be_too_long(rt: HostRuntime) -> Result<(), Fail> {
    for (count, fault, left) in [
        (16_777_206, ReportFault::BadLine { line: 5 }, 0),
        (16_777_207, ReportFault::LineTooLong { line: 5 }, 0),
        (16_777_208, ReportFault::LineTooLong { line: 5 }, 1),
    ] {
        assert!(rt; stops_twice(rt.alloc(), count, fault, left)?, "{count}");
    }
    Ok(())
}
