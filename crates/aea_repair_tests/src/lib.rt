//! Tests of whole repairs: worked examples, the lines and statuses of what goes wrong, and random damage against a plain
//! repair of the files. Where memory runs out or a disk fails, what says whether something is so says no,
//! what gives something gives none, and what looks for a wrong case names one; so a test fails.
#![tactic(auto)]

#[cfg(test)]
mod archives;
#[cfg(test)]
mod clashes;
#[cfg(test)]
mod examples;
#[cfg(test)]
mod heads;
#[cfg(test)]
mod lattices;
#[cfg(test)]
mod lines;
#[cfg(test)]
mod objects;
#[cfg(test)]
mod plain;
#[cfg(test)]
mod random;
#[cfg(test)]
mod statuses;
