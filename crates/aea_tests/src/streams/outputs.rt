//! Outputs and errors that fail: each command with each call of its output failing, and with too little space on both.

use super::ends::lines_in;
use crate::cases::{Case, bare, cases};
use crate::standing::{is_whole, prepared, stands};
use aea_cli::Status;
use aea_disk::SureDisk;
use aea_runs::{Ended, Faults, NONE, run_failing, run_line};
use std::alloc::{AllocError, Global};
use std::test::Fail;

// Whether the run over this disk with an output that fails so says so, and has printed this many bytes of the whole.
fn reveals_output(
    alloc: Global,
    disk: &mut SureDisk,
    case: &Case,
    faults: Faults,
    length: usize,
) -> bool {
    run_failing(alloc, case.line, disk, case.input.as_bytes(), faults).is_ok_and(|ended| {
        ended.status == Status::Output
            && ended.err.bytes() == b"fault: output\n".as_slice()
            && ended.out.bytes().len() == length
            && case.out.as_bytes().starts_with(ended.out.bytes())
    })
}

// Whether this disk has what so many commits leave, or all where there are fewer.
fn is_kept(alloc: Global, disk: &mut SureDisk, case: &Case, commits: usize) -> bool {
    let commits = commits.min(case.commits.len());
    commits == 0 || stands(alloc, disk, case, commits, commits)
}

// Whether the run with an output that fails so says so, has printed this many bytes of the whole, and leaves what so many
// commits leave, where it has as many.
fn bears_output(alloc: Global, case: &Case, faults: Faults, length: usize, commits: usize) -> bool {
    match prepared(alloc, case) {
        Some(mut disk) => {
            reveals_output(alloc, &mut disk, case, faults, length)
                && is_kept(alloc, &mut disk, case, commits)
        }
        None => false,
    }
}

// How many bytes so many lines have.
fn length_of_lines(text: &[u8], count: usize) -> usize {
    let mut length = 0usize;
    let mut lines = 0usize;
    for byte in text {
        if lines == count {
            break;
        }
        length = length.wrapping_add(1);
        if *byte == b'\n' {
            lines = lines.wrapping_add(1);
        }
    }
    length
}

// How many bytes the first pieces that are printed have.
fn length_of(case: &Case, pieces: usize) -> usize {
    if case.pieces <= pieces {
        case.out.len()
    } else {
        length_of_lines(case.out.as_bytes(), pieces)
    }
}

// What the run leaves over a new disk and streams that fail so. None where memory runs out.
fn run_with(alloc: Global, case: &Case, faults: Faults) -> Option<Ended> {
    match prepared(alloc, case) {
        Some(mut disk) => {
            run_failing(alloc, case.line, &mut disk, case.input.as_bytes(), faults).ok()
        }
        None => None,
    }
}

// Whether the run with an output that fails so is whole.
fn is_whole_with(alloc: Global, case: &Case, faults: Faults) -> bool {
    run_with(alloc, case, faults).is_some_and(|ended| {
        is_whole(case, ended.status, ended.out.bytes(), ended.err.bytes())
    })
}

// Whether the run bears that the call of the output of this number, counted from 1, fails. Each piece is written and flushed, and
// its commit made before; there is no call after the last one, so that the run is whole then.
fn bears_call(alloc: Global, case: &Case, call: u32) -> bool {
    let faults = Faults {
        out_call: call,
        ..NONE
    };
    let begun = (call as usize).div_ceil(2);
    if case.pieces < begun {
        is_whole_with(alloc, case, faults)
    } else {
        let length = length_of(case, call as usize / 2);
        bears_output(alloc, case, faults, length, begun)
    }
}

// The first call of the output, up to the one after the last, whose failing the run does not bear.
fn first_call(alloc: Global, case: &Case) -> Option<u32> {
    (1..99).find(|call| *call as usize / 2 <= case.pieces && !bears_call(alloc, case, *call))
}

#[test]
fn each_call_of_the_output_fails(rt: HostRuntime) -> Result<(), Fail> {
    for case in cases() {
        let found = first_call(rt.alloc(), case);
        assert!(rt; found.is_none(), "{}", case.line);
    }
    Ok(())
}

// Whether the run bears an output with so much space, too little for what is printed: all that fits is written, and the commit
// whose line does not fit is made.
fn bears_room(alloc: Global, case: &Case, room: usize) -> bool {
    let faults = Faults {
        out_room: room,
        ..NONE
    };
    let part = case.out.as_bytes().get(..room).unwrap_or(b"");
    let begun = lines_in(part).saturating_add(1);
    bears_output(alloc, case, faults, room, begun)
}

// The first such capacity of the output that the run does not bear.
fn first_room(alloc: Global, case: &Case) -> Option<usize> {
    (0..case.out.len()).find(|room| !bears_room(alloc, case, *room))
}

#[test]
fn the_output_fails_at_each_byte(rt: HostRuntime) -> Result<(), Fail> {
    for case in cases() {
        let found = first_room(rt.alloc(), case);
        assert!(rt; found.is_none(), "{}", case.line);
    }
    Ok(())
}

// Whether the run over streams that fail so ends with this status, with nothing printed and this on the errors.
fn has_failed(alloc: Global, case: &Case, faults: Faults, status: Status, line: &[u8]) -> bool {
    run_with(alloc, case, faults).is_some_and(|ended| {
        ended.status == status && ended.out.bytes().is_empty() && ended.err.bytes() == line
    })
}

// Whether the run over streams that fail so ends with this status, with nothing printed, and with as much of this line as there is
// space for on the errors. Where they fail at their first call, the write of the line, there is none of it, and where they fail at
// the next there is all.
fn bears_errors(alloc: Global, case: &Case, faults: Faults, status: Status, line: &str) -> bool {
    let line = line.as_bytes();
    let first = Faults {
        err_call: 1,
        ..faults
    };
    let next = Faults {
        err_call: 2,
        ..faults
    };
    let mut is_borne = has_failed(alloc, case, first, status, b"")
        && has_failed(alloc, case, next, status, line);
    for err_room in 0..=line.len() {
        let faults = Faults { err_room, ..faults };
        let want = line.get(..err_room).unwrap_or(b"");
        is_borne = is_borne && has_failed(alloc, case, faults, status, want);
    }
    is_borne
}

// The stream, the output or the input, whose failing the run does not bear where the errors fail too.
fn first_stream(alloc: Global, case: &Case) -> Option<&'static str> {
    let output = Faults {
        out_call: 1,
        ..NONE
    };
    let input = Faults { read: 1, ..NONE };
    if !bears_errors(alloc, case, output, Status::Output, "fault: output\n") {
        Some("output")
    } else if !case.input.is_empty()
        && !bears_errors(alloc, case, input, Status::Input, "fault: input\n")
    {
        Some("input")
    } else {
        None
    }
}

#[test]
fn the_errors_fail_at_each_byte(rt: HostRuntime) -> Result<(), Fail> {
    for case in cases() {
        let found = first_stream(rt.alloc(), case);
        assert!(rt; found.is_none(), "{}: {found:?}", case.line);
    }
    Ok(())
}

// Lines that are refused where there is no archive, and lines that are no command.
const REFUSED: [&str; 13] = [
    "stat",
    "list",
    "put a",
    "ingest",
    "get a",
    "fetch a",
    "fence",
    "upgrade",
    "scrub",
    "repair",
    "explain d1",
    "verify",
    "sites",
];

const NO_COMMANDS: [&str; 11] = [
    "",
    "drill",
    "drill 2 3 2 5",
    "drill 2 1 4 5",
    "drill 1 1 0 65537",
    "drill 1 1 0 03",
    "put",
    "get",
    "fetch",
    "explain",
    "rehearse 7 0 0",
];

// No call of the input, the output and the errors may be made, where each fails at the first.
const ALL: Faults = Faults {
    read: 1,
    out_call: 1,
    ..NONE
};

// Whether the run of this line makes no call of the input and the output, and so ends with this status and this line on the errors.
fn is_refused(alloc: Global, line: &'static str, status: Status, text: &str) -> bool {
    bears_errors(alloc, &bare(line), ALL, status, text)
}

#[test]
fn what_is_refused_reads_and_prints_nothing(rt: HostRuntime) -> Result<(), Fail> {
    for line in REFUSED {
        let text = "refused: no archive\n";
        assert!(rt;
            is_refused(rt.alloc(), line, Status::Refused, text),
            "{line}"
        );
    }
    Ok(())
}

#[test]
fn what_is_no_command_reads_and_prints_nothing(rt: HostRuntime) -> Result<(), Fail> {
    for line in NO_COMMANDS {
        let text = "words: no such command\n";
        assert!(rt; is_refused(rt.alloc(), line, Status::Words, text), "{line}");
    }
    Ok(())
}

// A run that prints more than a page.
const PAGES: &str = "drill 1 1 0 2000";

// The damage list that it reads: each block of data.
fn list_of_pages(alloc: Global) -> Result<String, AllocError> {
    let mut list = String::new(alloc);
    for node in 1..2001 {
        writeln!(list, "d{node}")?;
    }
    Ok(list)
}

// Whether a run over streams that fail so says that its output has failed, and has printed a first part of the whole, at most
// 10,000 bytes.
fn has_left_pages(ended: &Ended, whole: &[u8]) -> bool {
    let out = ended.out.bytes();
    ended.status == Status::Output
        && !out.is_empty()
        && out.len() <= 10_000
        && whole.starts_with(out)
}

// Whether that run over streams that fail so is so.
fn leaves_pages(alloc: Global, list: &[u8], whole: &[u8], faults: Faults) -> bool {
    match SureDisk::new(alloc, 0, 0, 0) {
        Ok(mut disk) => {
            run_failing(alloc, PAGES, &mut disk, list, faults).is_ok_and(|ended| has_left_pages(
                &ended, whole,
            ))
        }
        Err(_) => false,
    }
}

// The first row of a call of the output, counted from 1, that fails, and a capacity, with which it is not so.
fn first_wrong_page(alloc: Global, list: &[u8], whole: &[u8]) -> Option<(u32, usize)> {
    for (out_call, out_room) in [(2, 99_999), (0, 10_000)] {
        let faults = Faults {
            out_call,
            out_room,
            ..NONE
        };
        if !leaves_pages(alloc, list, whole, faults) {
            return Some((out_call, out_room));
        }
    }
    None
}

// The same, with what the run prints where nothing fails; a row without a call and space where memory runs out, here and below.
fn wrong_page_over(alloc: Global, list: &[u8]) -> Option<(u32, usize)> {
    match run_line(alloc, PAGES, list) {
        Ok(whole) => first_wrong_page(alloc, list, whole.out.bytes()),
        Err(_) => Some((0, 0)),
    }
}

// The same over its list.
fn wrong_page(alloc: Global) -> Option<(u32, usize)> {
    match list_of_pages(alloc) {
        Ok(list) => wrong_page_over(alloc, list.as_bytes()),
        Err(_) => Some((0, 0)),
    }
}

#[test]
fn a_failed_page_leaves_those_before_it(rt: HostRuntime) -> Result<(), Fail> {
    let found = wrong_page(rt.alloc());
    assert!(rt; found.is_none(), "{found:?}");
    Ok(())
}
