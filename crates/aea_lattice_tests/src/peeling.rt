//! Plans of steps, and the marks of what they reach.

ghost use Rattle.std.specs.Prelude.{◌≡◌};

use crate::names::first_wrong_name;
use aea_lattice::{BlockId, Class, Lattice};
use aea_peel::{Plan, peel, peel_marks};
use aea_view::{Marks, View};
use std::alloc::{AllocError, Global};
use std::test::Fail;

// The number of steps of the plan where exactly the blocks of these numbers are absent.
fn count_steps(alloc: Global, lattice: &Lattice, absent: &[u32]) -> Result<usize, AllocError> {
    let view = View::new(lattice, |b: BlockId| !absent.contains(&lattice.number(b)));
    let plan = peel(alloc, lattice, &view)?;
    Ok(plan.steps.len())
}

// Whether the plan of this shape has so many steps where exactly the blocks of these numbers are absent.
fn has_steps(alloc: Global, shape: (u8, u8, u8, u32), absent: &[u32], want: usize) -> bool {
    let (alpha, s, p, n) = shape;
    match Lattice::new(alpha, s, p, n) {
        Some(lattice) => count_steps(alloc, &lattice, absent).is_ok_and(|count| count == want),
        None => false,
    }
}

// A name, α, s, p and the number of nodes, the numbers of the absent blocks, and the number of steps.
type Case = (&'static str, (u8, u8, u8, u32), &'static [u32], usize);

// d1 d3 d4 d5 d6 d8 d9 d10 d11, h1 h3 h4 h8 h9 and r1 r3 r5 r8 r10 of eleven nodes with three blocks each.
const STUCK: &[u32] = &[
    0, 6, 9, 12, 15, 21, 24, 27, 30, 1, 7, 10, 22, 25, 2, 8, 14, 23, 29,
];

const CASES: &[Case] = &[
    ("nothing absent", (3, 2, 5, 40), &[], 0),
    ("the first datum and its parity", (1, 1, 0, 3), &[0, 1], 2),
    ("the last datum and its parity", (1, 1, 0, 3), &[4, 5], 0),
    (
        "no equation with a single absent block",
        (2, 2, 2, 11),
        STUCK,
        0,
    ),
    ("no nodes", (3, 2, 5, 0), &[], 0),
];

// The cases.
fn cases() -> &'static [Case] {
    CASES
}

// Whether no step is in the plan where all of 160 blocks are absent.
fn has_none_of_all(alloc: Global) -> bool {
    let all: Result<Vec<u32>, AllocError> = (0..160).collect(alloc);
    all.is_ok_and(|all| has_steps(alloc, (3, 2, 5, 40), all.as_slice(), 0))
}

// Whether the plan has forty steps where every fourth of 160 blocks is absent.
fn has_forty_of_a_quarter(alloc: Global) -> bool {
    let quarter: Result<Vec<u32>, AllocError> = (0..160)
        .filter(|k: &u32| (*k / 4 + *k) % 4 == 1)
        .collect(alloc);
    quarter.is_ok_and(|quarter| has_steps(alloc, (3, 2, 5, 40), quarter.as_slice(), 40))
}

// The first case whose plan has another number of steps.
fn wrong_case(alloc: Global) -> Option<&'static str> {
    let mut wrong = None;
    for (name, shape, absent, want) in cases() {
        let is_right = has_steps(alloc, *shape, absent, *want);
        wrong = wrong.or((!is_right).then_some(*name));
    }
    wrong.or(first_wrong_name(&[
        ("all absent", has_none_of_all(alloc)),
        ("every fourth block", has_forty_of_a_quarter(alloc)),
    ]))
}

#[test]
fn plans_have_as_many_steps_as_single_equations_give(rt: HostRuntime) {
    let wrong = wrong_case(rt.alloc());
    assert!(rt; wrong == None, "{wrong:?}");
}

// Whether the step of this number gives the block of the class by the equation of the node.
fn is_step(plan: &Plan, k: usize, class: Class, node: u32) -> bool {
    match plan.steps.get(k) {
        Some(step) => (step.block.class, step.by.node) == (class, node),
        None => false,
    }
}

// The first wrong step of a plan that gives h1 by the second equation, and then d1 by the first.
fn wrong_step(plan: &Plan) -> Option<&'static str> {
    first_wrong_name(&[
        ("the first step", is_step(plan, 0, Class::Horiz, 2)),
        ("the second step", is_step(plan, 1, Class::Datum, 1)),
        ("a third step", plan.steps.get(2) == None),
    ])
}

#[test]
fn a_datum_follows_from_a_parity_that_a_step_gives(rt: HostRuntime) -> Result<(), Fail> {
    let lattice = Lattice::new(1, 1, 0, 3).ok_or("no lattice")?;
    let view = View::new(&lattice, |b: BlockId| b.node != 1);
    let plan = peel(rt.alloc(), &lattice, &view)?;
    let wrong = wrong_step(&plan);
    assert!(rt; wrong == None, "{wrong:?}");
    Ok(())
}

// The number of the first block whose mark is not whether it is one of the first four.
fn wrong_mark(marks: &Marks, lattice: &Lattice) -> Option<u32>
    requires { marks.now.lattice ≡ lattice.now }
{
    let mut wrong = None;
    for k in 0..lattice.blocks() {
        let is_right = marks.get(lattice.block(k)) == (k < 4);
        wrong = wrong.or((!is_right).then_some(k));
    }
    wrong
}

#[test]
fn the_marks_are_those_of_the_closure(rt: HostRuntime) -> Result<(), Fail> {
    let lattice = Lattice::new(1, 1, 0, 4).ok_or("no lattice")?;
    let view = View::new(&lattice, |b: BlockId| b.node == 2);
    let peeled = peel_marks(rt.alloc(), view.marks(rt.alloc())?)?;
    // h1 follows from d2 and h2, and d1 from h1; two blocks of each later equation are missing
    let wrong = wrong_mark(&peeled.marks, &lattice);
    let steps = peeled.plan.steps.len();
    assert!(rt;
        wrong == None && steps == 2,
        "block {wrong:?}, {steps} steps"
    );
    Ok(())
}
