//! Inputs that end early, come a byte at a time or fail: each reader with its input cut at each place, and with each of its reads
//! failing.

use super::ends::{Kind, Revealed, commits_in, lines_in, revealed_of};
use crate::cases::{Case, DRILL, INGEST, PUT, VERIFY, cases};
use crate::standing::{is_got, is_printed, is_whole, prepared, stands};
use aea_cli::Status;
use aea_disk::SureDisk;
use aea_runs::{Ended, Faults, Left, NONE, run_failing, run_input, run_slowly};
use std::alloc::Global;
use std::test::Fail;

// The runs that read, and what each reads.
const READERS: &[(Case, Kind)] = &[
    (DRILL, Kind::DamageList),
    (PUT, Kind::Object),
    (INGEST, Kind::Frames),
    (VERIFY, Kind::Report),
];

// The same, for proofs that do not look into the table.
fn readers() -> &'static [(Case, Kind)] {
    READERS
}

// Whether what is there is what the run stores of this first part of its input.
fn stores(alloc: Global, disk: &mut SureDisk, case: &Case, kind: Kind, part: &[u8]) -> bool {
    let commits = commits_in(case, part.len());
    match kind {
        Kind::Object => is_got(alloc, disk, "b", part),
        Kind::Frames => stands(alloc, disk, case, commits, commits),
        Kind::DamageList | Kind::Report => true,
    }
}

// Whether the run over this part of its input, which comes at once or slowly, a byte at a time, says this.
fn reveals(
    alloc: Global,
    disk: &mut SureDisk,
    case: &Case,
    part: &[u8],
    revealed: &Revealed,
    slowly: bool,
) -> bool {
    let run = if slowly {
        run_slowly(alloc, case.line, disk, part, 0)
    } else {
        run_input(alloc, case.line, disk, part)
    };
    run.is_ok_and(|left| revealed.is_of(&left))
}

// Whether the run over this part of its input, at once or slowly, says this and stores what it should.
fn ends_so(
    alloc: Global,
    case: &Case,
    kind: Kind,
    part: &[u8],
    revealed: &Revealed,
    slowly: bool,
) -> bool {
    match prepared(alloc, case) {
        Some(mut disk) => {
            reveals(alloc, &mut disk, case, part, revealed, slowly)
                && stores(alloc, &mut disk, case, kind, part)
        }
        None => false,
    }
}

// Whether the run over this first part of its input says and stores what it should, and the same where the part comes a byte at
// a time.
fn ends_well(alloc: Global, case: &Case, kind: Kind, part: &[u8]) -> bool {
    match revealed_of(alloc, case, kind, part) {
        Some(revealed) => {
            ends_so(alloc, case, kind, part, &revealed, false)
                && ends_so(alloc, case, kind, part, &revealed, true)
        }
        None => false,
    }
}

// The same where the input is cut behind so many bytes.
fn is_cut_well(alloc: Global, case: &Case, kind: Kind, end: usize) -> bool {
    match case.input.as_bytes().get(..end) {
        Some(part) => ends_well(alloc, case, kind, part),
        None => false,
    }
}

// The first place where the input may be cut so that the run does not end as it should.
fn first_wrong_end(alloc: Global, case: &Case, kind: Kind) -> Option<usize> {
    (0..case.input.len().saturating_add(1)).find(|end| !is_cut_well(alloc, case, kind, *end))
}

#[test]
fn inputs_are_cut_at_each_place(rt: HostRuntime) -> Result<(), Fail> {
    for (case, kind) in readers() {
        let found = first_wrong_end(rt.alloc(), case, *kind);
        assert!(rt; found.is_none(), "{}", case.line);
    }
    Ok(())
}

// Whether a run whose input has failed after so many commits says so, and has printed what they print.
fn reveals_fault(
    alloc: Global,
    case: &Case,
    status: Status,
    out: &[u8],
    err: &[u8],
    commits: usize,
) -> bool {
    status == Status::Input
        && err == b"fault: input\n".as_slice()
        && is_printed(alloc, case, commits, out)
}

// Whether the run has no read of this number: there are as many reads as bytes, and one that finds the end.
fn has_no_read(case: &Case, read: usize) -> bool {
    case.input.len().saturating_add(1) < read
}

// Whether the run whose read of this number fails, of an input that gives a byte at a time, has left what it should after so many
// commits: all where there is no such read.
fn ends_at_read(alloc: Global, case: &Case, left: &Left, read: usize, commits: usize) -> bool {
    let (out, err) = (left.out.bytes(), left.err.bytes());
    if has_no_read(case, read) {
        is_whole(case, left.status, out, err)
    } else {
        reveals_fault(alloc, case, left.status, out, err, commits)
    }
}

// Whether such a run over this disk has left that.
fn ends_slowly(
    alloc: Global,
    disk: &mut SureDisk,
    case: &Case,
    read: usize,
    commits: usize,
) -> bool {
    match run_slowly(alloc, case.line, disk, case.input.as_bytes(), read) {
        Ok(left) => ends_at_read(alloc, case, &left, read, commits),
        Err(_) => false,
    }
}

// Whether such a run over this disk ends as it should, and leaves what it should.
fn bears_slow_read(alloc: Global, disk: &mut SureDisk, case: &Case, read: usize) -> bool {
    let commits = commits_in(case, read.saturating_sub(1));
    ends_slowly(alloc, disk, case, read, commits)
        && (has_no_read(case, read) || stands(alloc, disk, case, commits, commits))
}

// The same over a new disk.
fn is_slow_read_borne(alloc: Global, case: &Case, read: usize) -> bool {
    match prepared(alloc, case) {
        Some(mut disk) => bears_slow_read(alloc, &mut disk, case, read),
        None => false,
    }
}

// The first such read that the run does not bear.
fn first_slow_read(alloc: Global, case: &Case) -> Option<usize> {
    (1..case.input.len().saturating_add(3)).find(|read| !is_slow_read_borne(alloc, case, *read))
}

#[test]
fn each_read_of_a_byte_fails(rt: HostRuntime) -> Result<(), Fail> {
    for (case, _kind) in readers() {
        let found = first_slow_read(rt.alloc(), case);
        assert!(rt; found.is_none(), "{}", case.line);
    }
    Ok(())
}

// How the run over this disk has ended, one of whose reads fails: none where it is whole, and else whether it says so, and leaves
// what it should.
fn bears_end(alloc: Global, disk: &mut SureDisk, case: &Case, ended: &Ended) -> Option<bool> {
    let (out, err) = (ended.out.bytes(), ended.err.bytes());
    let commits = lines_in(out);
    if is_whole(case, ended.status, out, err) {
        None
    } else {
        Some(
            reveals_fault(alloc, case, ended.status, out, err, commits)
                && stands(alloc, disk, case, commits, commits),
        )
    }
}

// The same of the run over this disk whose read of this number fails, of an input that gives as much as is asked for.
fn bears_read_over(alloc: Global, disk: &mut SureDisk, case: &Case, read: u32) -> Option<bool> {
    let faults = Faults { read, ..NONE };
    match run_failing(alloc, case.line, disk, case.input.as_bytes(), faults) {
        Ok(ended) => bears_end(alloc, disk, case, &ended),
        Err(_) => Some(false),
    }
}

// The same over a new disk.
fn bears_read(alloc: Global, case: &Case, read: u32) -> Option<bool> {
    match prepared(alloc, case) {
        Some(mut disk) => bears_read_over(alloc, &mut disk, case, read),
        None => Some(false),
    }
}

// The number of reads that the run makes, where it bears each; none where it does not.
fn reads_borne(alloc: Global, case: &Case) -> Option<u32> {
    for read in 1..99u32 {
        match bears_read(alloc, case, read) {
            None => return Some(read - 1),
            Some(true) => {}
            Some(false) => return None,
        }
    }
    None
}

#[test]
fn each_read_of_a_piece_fails(rt: HostRuntime) -> Result<(), Fail> {
    for case in cases() {
        let reads = reads_borne(rt.alloc(), case);
        // an input is read by one at least, and its end found by one; a command that takes none reads nothing
        let fits = match reads {
            Some(count) => (count == 0) == case.input.is_empty() && count != 1,
            None => false,
        };
        assert!(rt; fits, "{}: {reads:?}", case.line);
    }
    Ok(())
}
