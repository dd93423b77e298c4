//! Worked examples.

use crate::sites::archives::{make_archive, prints};
use aea_cli::Status;
use aea_disk::SureDisk;
use aea_runs::{Left, run_over, text_of};
use std::alloc::Global;
use std::test::Fail;

// How many blocks each line of `sites` without a loss says.
const FREE: &str = " lost 0";

// The lines of `create`, the fences and the nodes, and the lines of `sites`.
fn rows() -> [(&'static str, &'static [u32], u32, &'static str); 6] {
    [
        (
            "create 1 1 0 16 3",
            &[],
            2,
            "site 1 lost 0\nsite 2 lost 0\nsite 3 lost 0\npair 1 2 lost 3 first d1 by 1\npair 1 3 lost 0\npair 2 3 lost 2 first d2 by 2\n",
        ),
        (
            "create 1 1 0 16 2",
            &[],
            2,
            "site 1 lost 0\nsite 2 lost 0\npair 1 2 lost 4 first d1 by 1 2\n",
        ),
        ("create 1 1 0 16 1", &[], 1, "site 1 lost 2 first d1 by 1\n"),
        (
            "create 2 2 2 16 2",
            &[],
            0,
            "site 1 lost 0\nsite 2 lost 0\npair 1 2 lost 0\n",
        ),
        (
            "create 1 1 0 16 1",
            &[1],
            2,
            "site 1 lost 4 first d1 by 1\n",
        ),
        (
            "create 1 1 0 16 2",
            &[1],
            2,
            "site 1 lost 0\nsite 2 lost 0\npair 1 2 lost 4 first d1 by 1\n",
        ),
    ]
}

// Whether `sites` prints these lines over the archive of this line of `create`, with these fences and so many nodes.
fn is_revealed(alloc: Global, create: &str, fences: &[u32], nodes: u32, lines: &str) -> bool {
    match SureDisk::new(alloc, 64, 4096, 4096) {
        Ok(mut disk) => {
            make_archive(alloc, &mut disk, create, fences, nodes) && prints(alloc, &mut disk, lines)
        }
        Err(_) => false,
    }
}

#[test]
fn the_loss_of_one_site_and_of_two(rt: HostRuntime) -> Result<(), Fail> {
    for (create, fences, nodes, lines) in rows() {
        assert!(rt;
            is_revealed(rt.alloc(), create, fences, nodes, lines),
            "{create}"
        );
    }
    Ok(())
}

// What `sites` leaves over the archive of this line of `create`, with so many nodes and space for so many bytes; none where the
// archive is not made.
fn left_over(alloc: Global, create: &str, nodes: u32, room: usize) -> Option<Left> {
    let mut disk = SureDisk::new(alloc, 64, 65_536, 65_536).ok()?;
    if make_archive(alloc, &mut disk, create, &[], nodes) {
        run_over(alloc, "sites", &mut disk, room).ok()
    } else {
        None
    }
}

// Whether the first four lines, of which there are as many, say that no block is lost.
fn are_four_free(text: &str) -> bool {
    text.lines()
        .take(4)
        .filter(|line| line.ends_with(FREE))
        .count()
        == 4
}

// Whether the run is done, and the first four of its lines say so.
fn tells_four_free(left: &Left) -> bool {
    left.status == Status::Done && text_of(left.out.bytes()).is_ok_and(|text| are_four_free(text))
}

#[test]
fn no_site_of_four_alone_costs_a_block(rt: HostRuntime) -> Result<(), Fail> {
    let left = left_over(rt.alloc(), "create 3 2 5 16 4", 40, 4096);
    assert!(rt; left.is_some_and(|left| tells_four_free(&left)));
    Ok(())
}

// Whether there is a line for each of 64 sites and each pair of them, and the last ones are these.
fn are_all_pairs(text: &str) -> bool {
    text.lines().count() == 2_080 && text.ends_with("\npair 62 64 lost 0\npair 63 64 lost 0\n")
}

// Whether the run is done, and these are its lines.
fn tells_all_pairs(left: &Left) -> bool {
    left.status == Status::Done && text_of(left.out.bytes()).is_ok_and(|text| are_all_pairs(text))
}

#[test]
fn sixty_four_sites_have_as_many_lines_as_pairs(rt: HostRuntime) -> Result<(), Fail> {
    let left = left_over(rt.alloc(), "create 1 1 0 16 64", 3, 65_536);
    assert!(rt; left.is_some_and(|left| tells_all_pairs(&left)));
    Ok(())
}
