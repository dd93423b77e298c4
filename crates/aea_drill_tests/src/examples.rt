//! Worked examples of whole runs.

use crate::shared::command_of;
use crate::sizes::lost_site;
use aea_cli::{Command, Status};
use aea_runs::run_line;
use std::alloc::Global;
use std::test::Fail;

// The words, the damage list, the status, and what is printed. One more, of two codewords, is a case of aea_tests.
type Outcome = (&'static str, &'static str, Status, &'static str);

const OUTCOMES: &[Outcome] = &[
    (
        "drill 1 1 0 3",
        "d1\nh1\n",
        Status::Done,
        "aea-report 1\nlattice 1 1 0 3\nledger none\ncounts 2 2 0 0\npeeled d1\npeeled h1\n",
    ),
    (
        "drill 1 1 0 3",
        "d3\nh3\n",
        Status::Damage,
        "aea-report 1\nlattice 1 1 0 3\nledger none\ncounts 2 0 0 2\nlost d3 by 3\nlost h3 by 3\n",
    ),
    (
        "drill 1 1 0 3",
        "d2\nh2\nd3\n",
        Status::Damage,
        "aea-report 1\nlattice 1 1 0 3\nledger none\ncounts 3 0 0 3\n\
        lost d2 by 2 3\nlost h2 by 2 3\nlost d3 by 2 3\n",
    ),
    (
        "drill 3 2 5 0",
        "",
        Status::Done,
        "aea-report 1\nlattice 3 2 5 0\nledger none\ncounts 0 0 0 0\n",
    ),
    (
        "drill 2 2 2 11",
        "d1\nd1",
        Status::Done,
        "aea-report 1\nlattice 2 2 2 11\nledger none\ncounts 1 1 0 0\npeeled d1\n",
    ),
    (
        "drill 1 1 0 65536",
        "h65536\nd65536\nd65535\nh65536\nd1\n",
        Status::Damage,
        "aea-report 1\nlattice 1 1 0 65536\nledger none\ncounts 4 2 0 2\n\
        peeled d1\npeeled d65535\nlost d65536 by 65536\nlost h65536 by 65536\n",
    ),
];

// It is a function, so that the proof of the test does not carry the table; so is that of the lines below.
fn outcomes() -> &'static [Outcome] {
    OUTCOMES
}

// Whether the run ends so, with its list read to the end and all that it prints flushed.
fn prints(alloc: Global, line: &str, list: &str, status: Status, text: &str) -> bool {
    run_line(alloc, line, list.as_bytes()).is_ok_and(|left| {
        left.unread == 0 && left.out.flushed == left.out.bytes().len() && left.is(status, text, "")
    })
}

#[test]
fn drills_print_the_outcome(rt: HostRuntime) -> Result<(), Fail> {
    for (line, list, status, text) in outcomes() {
        assert!(rt; prints(rt.alloc(), line, list, *status, text), "{line}");
    }
    Ok(())
}

// Lines whose words are no command.
const NO_COMMANDS: &[&str] = &[
    "drill 2 3 2 5",
    "drill 2 1 4 5",
    "drill 1 1 0 65537",
    "drill 1 1 0 1048576",
    "drill 1 1 0 03",
    "drill 1 1 0 +3",
    "drill 1 1 0 4294967299",
    "drill 257 1 0 3",
    "drill",
    "",
    "Drill 1 1 0 3",
    "drill 1 1 0",
    "drill 1 1 0 3 4",
    "drill 4 2 5 3",
    "drill 3 2 65 3",
    "create 3 2 5 64",
    "create 3 2 5 64 4 4",
    "create 3 2 5 15 4",
    "create 3 2 5 65537 4",
    "create 3 2 5 64 0",
    "create 3 2 5 64 65",
    "create 3 2 5 064 4",
    "create 2 3 2 64 4",
    "stat x",
    "Stat",
    "put",
    "put a b",
    "Put a",
    "puts a",
    "pu a",
    "get",
    "get a b",
    "Get a",
    "gets a",
    "fetch",
    "fetch a b",
    "Fetch a",
    "fetches a",
    "fetc a",
    "list a",
    "List",
    "lists",
    "scrub a",
    "Scrub",
    "scrubs",
    "fence 1",
    "fences",
    "upgrade 1",
    "Upgrade",
    "repair a",
    "Repair",
    "repairs",
    "verify a",
    "Verify",
    "explain",
    "explain d1 d2",
    "Explain d1",
    "explains d1",
    "ingest a",
    "Ingest",
    "ingests",
    "rehearse",
    "rehearse 7",
    "rehearse 7 3",
    "rehearse 7 3 0 0",
    "rehearse 07 3 0",
    "rehearse 7 03 0",
    "rehearse 7 3 00",
    "rehearse +7 3 0",
    "rehearse -7 3 0",
    "rehearse 7 0 0",
    "rehearse 7 2001 0",
    "rehearse 7 4294967299 0",
    "rehearse 7 3 1001",
    "rehearse 7 3 4294967296",
    "rehearse 18446744073709551616 3 0",
    "Rehearse 7 3 0",
    "rehearses 7 3 0",
    "sites 1",
    "Sites",
    "site",
    "session 1",
    "Session",
    "sessions",
];

fn no_commands() -> &'static [&'static str] {
    NO_COMMANDS
}

// Whether the words of the line are no command, and nothing is read.
fn is_no_command(alloc: Global, line: &str) -> bool {
    run_line(alloc, line, b"d1\n").is_ok_and(|left| {
        left.is(Status::Words, "", "words: no such command\n") && left.unread == 3
    })
}

#[test]
fn words_that_are_no_command_read_nothing(rt: HostRuntime) -> Result<(), Fail> {
    for line in no_commands() {
        assert!(rt; is_no_command(rt.alloc(), line), "{line}");
    }
    Ok(())
}

// Damage lists, each with the number of its first bad line.
fn bad_lists() -> [(&'static str, u32); 13] {
    [
        ("d0", 1),
        ("d012", 1),
        ("l1", 1),
        ("d12", 1),
        ("D1", 1),
        ("\n", 1),
        ("d1\r\n", 1),
        (" d1", 1),
        ("d\n", 1),
        ("d1 d2\n", 1),
        ("d1\n\n", 2),
        ("d1\nd0\nd2", 2),
        ("d1\nd1\nr11\nr12\nx\n", 4),
    ]
}

// Whether a drill of this list is refused, with this on the errors.
fn is_refused(alloc: Global, list: &str, err: &str) -> bool {
    let left = run_line(alloc, "drill 2 2 2 11", list.as_bytes());
    left.is_ok_and(|left| left.is(Status::Refused, "", err))
}

// Whether it is refused for the line with this number.
fn is_refused_at(alloc: Global, list: &str, number: u32) -> bool {
    match format!(in alloc; "refused: bad block at line {number}\n") {
        Ok(want) => is_refused(alloc, list, want.as_str()),
        Err(_) => false,
    }
}

#[test]
fn the_first_bad_line_is_refused(rt: HostRuntime) -> Result<(), Fail> {
    for (list, number) in bad_lists() {
        assert!(rt; is_refused_at(rt.alloc(), list, number), "{list:?}");
    }
    Ok(())
}

// Whether the drill of this list is done, with this report, and the list is read to its end.
fn is_peeled(alloc: Global, list: &str, want: &str) -> bool {
    let left = run_line(alloc, "drill 3 2 5 40", list.as_bytes());
    left.is_ok_and(|left| left.is(Status::Done, want, "") && left.unread == 0)
}

// Whether the drill of a lost site is done, with this head of its report and these lines behind it.
fn is_site_peeled(alloc: Global, head: &str, first: &str) -> bool {
    lost_site(alloc, 40, head).is_some_and(|site| {
        is_peeled(alloc, site.list.as_str(), site.want.as_str())
            && site.want.as_str().contains(first)
    })
}

#[test]
fn a_lost_site_of_four_is_peeled(rt: HostRuntime) -> Result<(), Fail> {
    let head = "aea-report 1\nlattice 3 2 5 40\nledger none\ncounts 40 40 0 0\n";
    let first = "0\npeeled h1\npeeled d2\npeeled l3\npeeled r4\npeeled h5\n";
    assert!(rt; is_site_peeled(rt.alloc(), head, first));
    Ok(())
}

// α, s, p and n of the drill that the words of the line are, none where they are none.
fn drill_of(alloc: Global, line: &str) -> Option<(u8, u8, u8, u32)> {
    let command = command_of(alloc, line);
    match &command {
        Some(Command::Drill { lattice }) => {
            Some((lattice.alpha(), lattice.s(), lattice.p(), lattice.n()))
        }
        _ => None,
    }
}

#[test]
fn words_are_parsed(rt: HostRuntime) -> Result<(), Fail> {
    assert!(rt; drill_of(rt.alloc(), "drill 3 2 5 40") == Some((3, 2, 5, 40)));
    Ok(())
}
