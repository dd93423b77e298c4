//! Marks that are set, flipped and gone through.

ghost use Rattle.std.specs.Prelude.{◌≡◌};

use aea_lattice::Lattice;
use aea_view::Marks;
use std::alloc::Global;

// Marks each third block, but for the one of this number, and no other one.
fn set_thirds(marks: &mut Marks, lattice: &Lattice, but: u32)
    requires { marks.old.lattice ≡ lattice.now }
    ensures { marks.new.lattice ≡ lattice.now }
{
    for k in 0..lattice.blocks() {
        marks.set(lattice.block(k), k % 3 == 0 && k != but);
    }
}

// The number of the first block whose mark is not that of `set_thirds`, or, in a complement, is.
fn first_wrong(marks: &Marks, lattice: &Lattice, but: u32, is_complement: bool) -> Option<u32>
    requires { marks.now.lattice ≡ lattice.now }
{
    let mut wrong = None;
    for k in 0..lattice.blocks() {
        let is_third = k % 3 == 0 && k != but;
        let is_right = marks.get(lattice.block(k)) == (is_third != is_complement);
        wrong = wrong.or((!is_right).then_some(k));
    }
    wrong
}

// The first block whose mark is not what was set last.
fn wrong_of_set(alloc: Global, lattice: &Lattice) -> Option<Option<u32>> {
    match Marks::new(alloc, lattice) {
        Ok(mut marks) => {
            set_thirds(&mut marks, lattice, 160);
            set_thirds(&mut marks, lattice, 63);
            Some(first_wrong(&marks, lattice, 63, false))
        }
        Err(_) => None,
    }
}

#[test]
fn marks_are_those_that_were_set(rt: HostRuntime) {
    let alloc = rt.alloc();
    let wrong = Lattice::new(3, 2, 5, 40).and_then(|lattice| wrong_of_set(alloc, &lattice));
    assert!(rt; wrong == Some(None), "block {wrong:?}");
}

// Marks the blocks of four numbers, and no other one.
fn set_four(marks: &mut Marks, lattice: &Lattice)
    requires { marks.old.lattice ≡ lattice.now }
    ensures { marks.new.lattice ≡ lattice.now }
{
    for k in 0..lattice.blocks() {
        marks.set(lattice.block(k), [5, 63, 64, 300].contains(&k));
    }
}

// The first number from which another block than the next one of the four is found.
fn wrong_next(marks: &Marks) -> Option<u32> {
    let mut wrong = None;
    for (from, next) in [
        (0, Some(5)),
        (5, Some(5)),
        (6, Some(63)),
        (64, Some(64)),
        (65, Some(300)),
        (301, None),
        (320, None),
    ] {
        let is_right = marks.next_marked(from) == next;
        wrong = wrong.or((!is_right).then_some(from));
    }
    wrong
}

// The same of new marks.
fn wrong_next_of(alloc: Global, lattice: &Lattice) -> Option<Option<u32>> {
    match Marks::new(alloc, lattice) {
        Ok(mut marks) => {
            set_four(&mut marks, lattice);
            Some(wrong_next(&marks))
        }
        Err(_) => None,
    }
}

#[test]
fn the_next_marked_block_stands_in_its_word_or_a_later_one(rt: HostRuntime) {
    let alloc = rt.alloc();
    let wrong = Lattice::new(3, 2, 5, 80).and_then(|lattice| wrong_next_of(alloc, &lattice));
    assert!(rt; wrong == Some(None), "from {wrong:?}");
}

// The first block whose mark in the complement is wrong, 160 where the number of marks or the last one is.
fn wrong_other(alloc: Global, lattice: &Lattice, marks: &Marks) -> Option<Option<u32>>
    requires { marks.now.lattice ≡ lattice.now }
{
    match marks.complement(alloc) {
        Ok(others) => {
            let counts = (marks.unmarked(), others.unmarked());
            let is_right = counts == (106, 54) && others.next_marked(159) == None;
            let wrong = first_wrong(&others, lattice, 160, true);
            Some(wrong.or((!is_right).then_some(160)))
        }
        Err(_) => None,
    }
}

// The same of new marks.
fn wrong_other_of(alloc: Global, lattice: &Lattice) -> Option<Option<u32>> {
    match Marks::new(alloc, lattice) {
        Ok(mut marks) => {
            set_thirds(&mut marks, lattice, 160);
            wrong_other(alloc, lattice, &marks)
        }
        Err(_) => None,
    }
}

#[test]
fn the_complement_has_the_other_blocks(rt: HostRuntime) {
    let alloc = rt.alloc();
    let wrong = Lattice::new(3, 2, 5, 40).and_then(|lattice| wrong_other_of(alloc, &lattice));
    assert!(rt; wrong == Some(None), "block {wrong:?}");
}
