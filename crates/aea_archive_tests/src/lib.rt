//! Tests of archives: making one, what is said of it, bad ledgers, and a disk without space; fences and raises of the limit; and
//! the blocks of objects that are put.
#![tactic(auto)]

#[cfg(test)]
mod adding;
#[cfg(test)]
mod archive;
#[cfg(test)]
mod runs;
#[cfg(test)]
mod woven;
