//! Which blocks of a lattice are present: a view, by a predicate that is kept, and marks, a bit for each block.
//!
//! Promises to the layers above that a view returns the presence list of its predicate (`View::has`, `View::marks`),
//! and that marks are got as they were set (`Marks::set`, `Marks::get`); their complement, and the first marked block
//! of a number or a later one.
//!
//! Read in `specs/`: `Presence` (`AnswersAs`) and `Marked` (`AreMarks`). It rests on `aea_lattice`.
#![tactic(auto)]

mod marks;
mod view;
mod words;

pub use marks::Marks;
pub use view::View;
