//! Random damage, against the plain programs.

ghost use Rattle.std.specs.Prelude.{◌≡◌};
ghost use Rattle.aea_lattice.specs.Closure.{is_among};

use crate::reports::plain_report;
use crate::shared::fenced;
use aea_cli::Status;
use aea_lattice::{BlockId, Lattice};
use aea_peel::{Plan, peel};
use aea_plain::closure;
use aea_runs::{run_line, step};
use aea_test_helpers::add_line;
use aea_view::View;
use std::alloc::{AllocError, Global};
use std::test::Fail;

// α, s, p and the number of nodes.
const SHAPES: &[(u8, u8, u8, u32)] = &[
    (1, 1, 0, 1),
    (1, 1, 0, 60),
    (2, 2, 2, 11),
    (2, 2, 5, 60),
    (2, 3, 7, 50),
    (2, 16, 16, 60),
    (3, 2, 2, 30),
    (3, 2, 5, 60),
    (3, 3, 3, 45),
    (3, 4, 5, 60),
    (3, 5, 5, 40),
    (3, 16, 64, 60),
];

// α, s, p, the fences and the number of nodes.
const FENCED: &[(u8, u8, u8, &[u32], u32)] = &[
    (1, 1, 0, &[1], 1),
    (1, 1, 0, &[1, 2], 60),
    (2, 2, 2, &[4, 7], 11),
    (2, 2, 5, &[13, 14], 60),
    (2, 3, 7, &[50], 50),
    (2, 16, 16, &[20, 40], 60),
    (3, 2, 2, &[1, 9, 20], 30),
    (3, 2, 5, &[30], 60),
    (3, 3, 3, &[44, 45], 45),
    (3, 4, 5, &[30, 60], 60),
    (3, 5, 5, &[13, 25], 40),
    (
        3,
        5,
        5,
        &[1, 2, 4, 8, 9, 15, 21, 22, 30, 31, 40, 41, 47, 50, 55, 60],
        60,
    ),
    (3, 16, 64, &[59], 60),
];

// They are functions, so that the proof of a test does not carry the tables.
fn shapes() -> &'static [(u8, u8, u8, u32)] {
    SHAPES
}

fn fenced_shapes() -> &'static [(u8, u8, u8, &'static [u32], u32)] {
    FENCED
}

// How many of a hundred blocks are damaged.
const PERCENTS: [u64; 4] = [1, 10, 25, 50];

// The blocks of a lattice that are lost and those that are left, in number order, and the closure of these.
#[derive(Drop)]
struct Damage {
    lost: Vec<BlockId>,
    left: Vec<BlockId>,
    reached: Vec<BlockId>,
}

// Loses so many percent of the blocks, by the generator that begins with the seed.
fn lose_blocks(
    alloc: Global,
    lattice: &Lattice,
    percent: u64,
    seed: u64,
) -> Result<Damage, AllocError> {
    let mut lost = Vec::new(alloc);
    let mut left = Vec::new(alloc);
    let mut x = seed;
    for k in 0..lattice.blocks() {
        x = step(x);
        if (x >> 32) % 100 < percent {
            lost.push(lattice.block(k))?;
        } else {
            left.push(lattice.block(k))?;
        }
    }
    let reached = closure(alloc, lattice, left.as_slice())?;
    Ok(Damage {
        lost,
        left,
        reached,
    })
}

// Whether the block is one of these.
fn has_block(blocks: &[BlockId], b: BlockId) -> bool
    ensures { result ≡ is_among blocks.now b }
{
    blocks.iter().any(|d| b == *d)
}

// The plan where these blocks are left.
fn plan_repair(alloc: Global, lattice: &Lattice, left: &[BlockId]) -> Result<Plan, AllocError> {
    let view = View::new(lattice, |b: BlockId| has_block(left, b));
    peel(alloc, lattice, &view)
}

// The blocks that the steps of that plan give.
fn given_blocks(
    alloc: Global,
    lattice: &Lattice,
    left: &[BlockId],
) -> Result<Vec<BlockId>, AllocError> {
    let plan = plan_repair(alloc, lattice, left)?;
    let mut blocks = Vec::new(alloc);
    for k in 0..plan.steps.len() {
        if let Some(step) = plan.steps.get(k) {
            blocks.push(step.block)?;
        }
    }
    Ok(blocks)
}

// The damage list of these blocks.
fn damage_list(alloc: Global, lost: &[BlockId]) -> Result<String, AllocError> {
    let mut list = String::new(alloc);
    for b in lost {
        add_line(&mut list, "", *b)?;
    }
    Ok(list)
}

// Whether the plan and the blocks that are left are exactly the closure.
fn is_plan_of(steps: &[BlockId], left: &[BlockId], reached: &[BlockId]) -> bool {
    let count = steps.iter().chain(left.iter()).count();
    count == reached.len()
        && reached
            .iter()
            .all(|b| steps.contains(b) || left.contains(b))
}

// Whether the plan gives exactly the reached blocks that are not left.
fn is_planned(alloc: Global, lattice: &Lattice, damage: &Damage) -> bool {
    let left = damage.left.as_slice();
    match given_blocks(alloc, lattice, left) {
        Ok(steps) => is_plan_of(steps.as_slice(), left, damage.reached.as_slice()),
        Err(_) => false,
    }
}

// Whether the run prints this report, and its status says whether a block is lost in it.
fn prints(alloc: Global, line: &str, list: &str, want: &str) -> bool {
    run_line(alloc, line, list.as_bytes()).is_ok_and(|left| {
        let is_done = left.status == Status::Done;
        left.out.bytes() == want.as_bytes() && is_done == !want.contains("\nlost ")
    })
}

// Whether the drill of the lattice and this list does so.
fn is_drilled(alloc: Global, lattice: &Lattice, list: &str, want: &str) -> bool {
    let (alpha, s, p, n) = (lattice.alpha(), lattice.s(), lattice.p(), lattice.n());
    match format!(in alloc; "drill {alpha} {s} {p} {n}") {
        Ok(line) => prints(alloc, line.as_str(), list, want),
        Err(_) => false,
    }
}

// Whether the drill of this list of the lost blocks prints the plain report.
fn is_reported(alloc: Global, lattice: &Lattice, damage: &Damage, list: &str) -> bool {
    let (lost, reached) = (damage.lost.as_slice(), damage.reached.as_slice());
    match plain_report(alloc, lattice, lost, reached) {
        Ok(want) => is_drilled(alloc, lattice, list, want.as_str()),
        Err(_) => false,
    }
}

// Whether the drill of the lost blocks does.
fn drills_plainly(alloc: Global, lattice: &Lattice, damage: &Damage) -> bool {
    match damage_list(alloc, damage.lost.as_slice()) {
        Ok(list) => is_reported(alloc, lattice, damage, list.as_str()),
        Err(_) => false,
    }
}

// What disagrees with the plain programs under this damage, none where both agree.
fn unlike_under(alloc: Global, lattice: &Lattice, damage: &Damage) -> Option<&'static str> {
    if !is_planned(alloc, lattice, damage) {
        Some("the plan")
    } else if !drills_plainly(alloc, lattice, damage) {
        Some("the drill")
    } else {
        None
    }
}

// The same where so many percent of the blocks are lost.
fn first_unlike(alloc: Global, lattice: &Lattice, percent: u64, seed: u64) -> Option<&'static str> {
    match lose_blocks(alloc, lattice, percent, seed) {
        Ok(damage) => unlike_under(alloc, lattice, &damage),
        Err(_) => Some("no memory"),
    }
}

#[test]
fn plans_and_drills_agree_with_the_plain_programs(rt: HostRuntime) -> Result<(), Fail> {
    let mut seed = 0;
    for (alpha, s, p, n) in shapes() {
        let lattice = Lattice::new(*alpha, *s, *p, *n).ok_or("no lattice")?;
        for percent in PERCENTS {
            seed = step(seed);
            let found = first_unlike(rt.alloc(), &lattice, percent, seed);
            assert!(rt;
                found == None,
                "{found:?}: {lattice:?}, {percent} of 100, from {seed}"
            );
        }
    }
    Ok(())
}

// Whether the plan agrees with the plain closure where so many percent of the blocks are lost.
fn is_planned_plainly(alloc: Global, lattice: &Lattice, percent: u64, seed: u64) -> bool {
    match lose_blocks(alloc, lattice, percent, seed) {
        Ok(damage) => is_planned(alloc, lattice, &damage),
        Err(_) => false,
    }
}

#[test]
fn plans_over_fences_agree_with_the_plain_closure(rt: HostRuntime) -> Result<(), Fail> {
    let mut seed = 1;
    for (alpha, s, p, fences, n) in fenced_shapes() {
        let lattice = fenced((*alpha, *s, *p), fences, *n).ok_or("no lattice")?;
        for percent in PERCENTS {
            seed = step(seed);
            assert!(rt;
                is_planned_plainly(rt.alloc(), &lattice, percent, seed),
                "{lattice:?}, {percent} of 100, from {seed}"
            );
        }
    }
    Ok(())
}
