//! Helpers of the tests, once for all crates of tests: damage to files, the bytes of files, a disk and a source that misbehave, the
//! shapes of archives, the lines of damage lists and reports, and a plain elimination among sets of nodes.
//!
//! It has no tests of its own, and no program cites it.
#![tactic(auto)]

mod damage;
mod examples;
mod files;
mod flipping;
mod lines;
mod reports;
mod sets;
mod shapes;
mod slow;

pub use damage::{shorten, spoil, spoil_block, spoil_cell};
pub use examples::{NINETEEN, TWO_CODEWORDS, some_bytes};
pub use files::{file_bytes, fill_file, has_file};
pub use flipping::FlippingDisk;
pub use lines::add_line;
pub use reports::{digits_of, report_of};
pub use sets::{Mask, ends_of, escapes, masks_of, meets_oddly, set_of};
pub use shapes::{PLAIN, SMALL, WIDE, WOVEN};
pub use slow::SlowReader;
