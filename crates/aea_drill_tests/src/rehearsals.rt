//! The lines of rehearsals.

use crate::shared::command_of;
use aea_cli::{Command, Status};
use aea_runs::run_line;
use std::alloc::Global;
use std::test::Fail;

// The words, the status, and the line. The numbers are those of worked examples, or were counted by another program from the
// definitions.
fn lines() -> [(&'static str, Status, &'static str); 7] {
    [
        (
            "rehearse 7 3 0",
            Status::Done,
            "nodes 3 blocks 12 damaged 0 peeled 0 solved 0 lost 0 accepted\n",
        ),
        (
            "rehearse 7 1 1000",
            Status::Damage,
            "nodes 1 blocks 4 damaged 4 peeled 0 solved 0 lost 4 accepted\n",
        ),
        (
            "rehearse 7 20 750",
            Status::Damage,
            "nodes 20 blocks 80 damaged 58 peeled 42 solved 5 lost 11 accepted\n",
        ),
        (
            "rehearse 1 12 750",
            Status::Damage,
            "nodes 12 blocks 48 damaged 37 peeled 9 solved 8 lost 20 accepted\n",
        ),
        (
            "rehearse 8 40 300",
            Status::Done,
            "nodes 40 blocks 160 damaged 39 peeled 39 solved 0 lost 0 accepted\n",
        ),
        (
            "rehearse 0 1 0",
            Status::Done,
            "nodes 1 blocks 4 damaged 0 peeled 0 solved 0 lost 0 accepted\n",
        ),
        (
            "rehearse 18446744073709551615 1 1000",
            Status::Damage,
            "nodes 1 blocks 4 damaged 4 peeled 0 solved 0 lost 4 accepted\n",
        ),
    ]
}

// Whether the run ends so, with its input unread and all that it prints flushed.
fn prints(alloc: Global, line: &str, status: Status, text: &str) -> bool {
    run_line(alloc, line, b"unread").is_ok_and(|left| {
        left.is(status, text, "") && left.unread == 6 && left.out.flushed == text.len()
    })
}

#[test]
fn a_number_gives_the_same_line_each_time(rt: HostRuntime) -> Result<(), Fail> {
    for (line, status, text) in lines() {
        for _ in 0..2 {
            assert!(rt; prints(rt.alloc(), line, status, text), "{line}");
        }
    }
    Ok(())
}

// Whether the greatest rehearsal is done, and prints its line.
fn is_greatest_done(alloc: Global) -> bool {
    let text = "nodes 2000 blocks 8000 damaged 1186 peeled 1186 solved 0 lost 0 accepted\n";
    run_line(alloc, "rehearse 7 2000 150", b"").is_ok_and(|left| left.is(Status::Done, text, ""))
}

#[test]
fn the_greatest_rehearsal(rt: HostRuntime) -> Result<(), Fail> {
    assert!(rt; is_greatest_done(rt.alloc()));
    Ok(())
}

// The number, the nodes and the damage of the rehearsal that the words of the line are; none where they are none.
fn numbers_of(alloc: Global, line: &str) -> Option<(u64, u32, u32)> {
    let command = command_of(alloc, line);
    match &command {
        Some(
            Command::Rehearse {
                number,
                nodes,
                permille,
            },
        ) => Some((*number, *nodes, *permille)),
        _ => None,
    }
}

#[test]
fn the_greatest_numbers_are_parsed(rt: HostRuntime) -> Result<(), Fail> {
    let numbers = numbers_of(rt.alloc(), "rehearse 18446744073709551615 2000 1000");
    assert!(rt; numbers == Some((18_446_744_073_709_551_615, 2000, 1000)));
    Ok(())
}
